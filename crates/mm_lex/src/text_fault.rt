use std::alloc::{AllocError, AllocFailed};

/// The rule of the language that a text breaks.
#[derive(Clone, Copy, Debug, PartialEq, Eq)]
pub enum TextRule {
    /// The bytes are UTF-8.
    Utf8,
    /// Each character belongs to a blank, a comment or a token.
    Char,
    /// A number is at most 18,446,744,073,709,551,615, and no zero leads another digit.
    Number,
    /// A name has at most 255 bytes; `_` and `bb` before digits make a number up to 65,535 that no zero leads.
    Name,
    /// The tokens are of the grammar.
    Token,
    /// Types nest at most 2,048 levels deep, constant terms 256, modules 64.
    Depth,
}

/// Why a text is not read.
#[derive(Clone, Copy, Debug, PartialEq, Eq)]
pub enum TextFault {
    /// The first place where the text breaks a rule. Lines and columns count from 1, columns by characters.
    BadText {
        line: u32,
        column: u32,
        rule: TextRule,
    },
    NoMemory,
}

impl From<AllocError> for TextFault {
    ghost use Rattle.std.specs.Prelude.{◌≡◌};
    ghost use Rattle.mm_lex.specs.declared.text_fault.TextFault.TheVariants.{NoMemory};

    ghost from_gives = { λ _ e. e ≡ NoMemory };

    fn from(_: AllocError) -> TextFault {
        TextFault::NoMemory
    }
}

impl<T: Drop> From<AllocFailed<T>> for TextFault {
    ghost use Rattle.std.specs.Prelude.{◌≡◌};
    ghost use Rattle.mm_lex.specs.declared.text_fault.TextFault.TheVariants.{NoMemory};

    ghost from_gives = { λ _ e. e ≡ NoMemory };

    fn from(_: AllocFailed<T>) -> TextFault {
        TextFault::NoMemory
    }
}
