use mm_terms::Nums;
use std::alloc::AllocError;

/// Why a run ends before it returns.
#[derive(Clone, Copy, Debug, PartialEq, Eq)]
pub enum Trap {
    /// A sum, difference or product outside the range of `u64`.
    Overflow,
    /// A quotient or remainder by 0.
    DivZero,
    /// A value is read of which some cell has none.
    Uninit,
    /// An address of an allocation that was freed or never made, or a name of nothing.
    Dangling,
    /// A value of another kind than the form needs.
    WrongKind,
    /// A part of a variant that the value is not of.
    WrongVariant,
    /// As many values as the function called has no parameters for.
    WrongArity,
    /// A run came to an `unreachable`, or to where there is no code.
    Unreachable,
    /// A value of more than 65,536 cells, or nested deeper than 512.
    TooBig,
}

/// Why code gives no answer.
#[derive(Clone, Copy)]
pub enum Halt {
    Trap(Trap),
    NoMemory,
}

impl From<Trap> for Halt {
    ghost use Rattle.mm_machines.specs.declared.trap.Halt.TheVariants as halt;
    ghost use Rattle.std.specs.Prelude.{◌≡◌};

    ghost from_gives = { λ t h. h ≡ halt.Trap t };

    fn from(trap: Trap) -> Halt {
        Halt::Trap(trap)
    }
}

impl From<AllocError> for Halt {
    ghost use Rattle.mm_machines.specs.declared.trap.Halt.TheVariants as halt;
    ghost use Rattle.std.specs.Prelude.{◌≡◌};

    ghost from_gives = { λ _ h. h ≡ halt.NoMemory };

    fn from(_refused: AllocError) -> Halt {
        Halt::NoMemory
    }
}

/// How a run stands.
#[derive(Clone, Copy)]
pub enum Ended {
    /// `main` returned.
    Returned,
    Trap(Trap),
    /// It has not ended.
    Running,
}

/// What is seen of a run up to some number of steps.
#[derive(Drop)]
pub struct Obs {
    /// The numbers that were printed, in order.
    pub printed: Nums,
    pub ended: Ended,
}
