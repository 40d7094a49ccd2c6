use std::alloc::{AllocError, AllocFailed};

/// Why bytes are not parsed as a symbol.
#[derive(Clone, Copy)]
pub enum ParseError {
    /// They are no symbol.
    Invalid,
    NoMemory,
}

impl From<AllocError> for ParseError {
    ghost use Rattle.std.specs.Prelude.{◌≡◌};
    ghost use Rattle.mm_symbols.specs.declared.parse_error.ParseError.TheVariants.{NoMemory};

    ghost from_gives = { λ _ e. e ≡ NoMemory };

    fn from(_: AllocError) -> ParseError {
        ParseError::NoMemory
    }
}

impl<T: Drop> From<AllocFailed<T>> for ParseError {
    ghost use Rattle.std.specs.Prelude.{◌≡◌};
    ghost use Rattle.mm_symbols.specs.declared.parse_error.ParseError.TheVariants.{NoMemory};

    ghost from_gives = { λ _ e. e ≡ NoMemory };

    fn from(_: AllocFailed<T>) -> ParseError {
        ParseError::NoMemory
    }
}
