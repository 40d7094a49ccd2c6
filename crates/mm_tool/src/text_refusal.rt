use mm_lex::TextFault;
use mm_load_plain::LoadError;

/// Why a text gives no program.
#[derive(Clone, Copy, PartialEq, Eq)]
pub enum TextRefusal {
    /// It means none.
    BadText,
    NoMemory,
}

impl From<TextFault> for TextRefusal {
    ghost use Rattle.std.specs.Prelude.{◌≡◌};
    ghost use Rattle.mm_tool.specs.Refusals.{of_text};

    ghost from_gives = { λ fault e. e ≡ of_text fault };

    fn from(fault: TextFault) -> TextRefusal {
        match fault {
            TextFault::BadText { .. } => TextRefusal::BadText,
            TextFault::NoMemory => TextRefusal::NoMemory,
        }
    }
}

impl From<LoadError> for TextRefusal {
    ghost use Rattle.std.specs.Prelude.{◌≡◌};
    ghost use Rattle.mm_tool.specs.Refusals.{of_load};

    ghost from_gives = { λ error e. e ≡ of_load error };

    fn from(error: LoadError) -> TextRefusal {
        match error {
            LoadError::Rule(..) | LoadError::NotBuilt => TextRefusal::BadText,
            LoadError::NoMemory => TextRefusal::NoMemory,
        }
    }
}
