ghost use Rattle.std.specs.Prelude.{◌≡◌};
ghost use Rattle.mm_outside.specs.declared.refusals.ReadRefusal.TheVariants.{NoMemory as OutOfMemory, ReadFault};

use std::error::Error;
use std::fmt;

/// Out of memory: std's error of an allocation, under this project's name.
pub use std::alloc::AllocError as NoMemory;

/// A call of a source or a sink failed, and its count of failures rose by one.
#[derive(Clone, Copy, Debug, PartialEq, Eq, Hash)]
pub struct Failed;

impl fmt::Display for Failed {
    fn fmt<W: fmt::Write>(&self, f: &mut fmt::Formatter<W>) -> fmt::Result {
        f.write_str("the call failed")
    }
}

impl Error for Failed {}

/// Why a source was not read to its end.
#[derive(Clone, Copy, Debug, PartialEq, Eq, Hash)]
pub enum ReadRefusal {
    /// A call of the source failed.
    ReadFault,
    /// The source gave one byte more than the limit.
    TooLong,
    /// Out of memory.
    NoMemory,
}

impl fmt::Display for ReadRefusal {
    fn fmt<W: fmt::Write>(&self, f: &mut fmt::Formatter<W>) -> fmt::Result {
        f.write_str(match self {
            ReadRefusal::ReadFault => "the source failed",
            ReadRefusal::TooLong => "the source has more bytes than the limit",
            ReadRefusal::NoMemory => "no memory",
        })
    }
}

impl Error for ReadRefusal {}

impl From<Failed> for ReadRefusal {
    ghost from_gives = { λ _ refusal. refusal ≡ ReadFault };

    fn from(_: Failed) -> Self {
        ReadRefusal::ReadFault
    }
}

impl From<NoMemory> for ReadRefusal {
    ghost from_gives = { λ _ refusal. refusal ≡ OutOfMemory };

    fn from(_: NoMemory) -> Self {
        ReadRefusal::NoMemory
    }
}
