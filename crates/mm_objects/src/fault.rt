use std::alloc::{AllocError, AllocFailed};

/// Why bytes are not read as objects.
#[derive(Clone, Copy, Debug, PartialEq, Eq)]
pub enum ObjFault {
    /// They are no object text. The number, from 1, is that of the first line such that no object text begins with the
    /// lines up to and with it; it may be the line that is missing behind the last.
    BadObjects(u32),
    /// Memory ran out, or the number of the line is past `u32::MAX`.
    NoMemory,
}

impl From<AllocError> for ObjFault {
    ghost use Rattle.std.specs.Prelude.{◌≡◌};
    ghost use Rattle.mm_objects.specs.declared.fault.ObjFault.TheVariants.{NoMemory};

    ghost from_gives = { λ _ e. e ≡ NoMemory };

    fn from(_: AllocError) -> ObjFault {
        ObjFault::NoMemory
    }
}

impl<T: Drop> From<AllocFailed<T>> for ObjFault {
    ghost use Rattle.std.specs.Prelude.{◌≡◌};
    ghost use Rattle.mm_objects.specs.declared.fault.ObjFault.TheVariants.{NoMemory};

    ghost from_gives = { λ _ e. e ≡ NoMemory };

    fn from(_: AllocFailed<T>) -> ObjFault {
        ObjFault::NoMemory
    }
}
