ghost use Rattle.mm_load_plain.specs.Asking.{Reports};
ghost use Rattle.mm_load_plain.specs.Rules.{line_if};

use crate::rule;
use std::alloc::{AllocError, AllocFailed};

/// Why a tree is not loaded.
#[derive(Clone, Copy, PartialEq, Eq)]
pub enum LoadError {
    /// A rule fails, and this is the first line of the first one that does.
    Rule(rule::Rule, u32),
    /// The tree has a form that is not built yet.
    NotBuilt,
    NoMemory,
}

impl From<AllocError> for LoadError {
    ghost use Rattle.std.specs.Prelude.{◌≡◌};
    ghost use Rattle.mm_load_plain.specs.declared.load_error.LoadError.TheVariants.{NoMemory};

    ghost from_gives = { λ _ e. e ≡ NoMemory };

    fn from(_: AllocError) -> LoadError {
        LoadError::NoMemory
    }
}

impl<T: Drop> From<AllocFailed<T>> for LoadError {
    ghost use Rattle.std.specs.Prelude.{◌≡◌};
    ghost use Rattle.mm_load_plain.specs.declared.load_error.LoadError.TheVariants.{NoMemory};

    ghost from_gives = { λ _ e. e ≡ NoMemory };

    fn from(_: AllocFailed<T>) -> LoadError {
        LoadError::NoMemory
    }
}

/// Answers that the rule fails on this line, where it does.
pub fn fault_if(fails: bool, rule: rule::Rule, line: u32) -> Result<(), LoadError>
    ensures { Reports rule (line_if fails line) result }
{
    if fails {
        return Err(LoadError::Rule(rule, line));
    }
    Ok(())
}
