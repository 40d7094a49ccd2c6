ghost use Rattle.std.specs.Prelude.{◌≡◌};
ghost use Rattle.mm_names.specs.Words.{word_spelling};
ghost use Rattle.mm_lex.specs.Puncts.{punct_spelling};
ghost use Rattle.mm_print.specs.Printed.{gap_bytes};

use crate::gap::Gap;
use mm_lex::Punct;
use mm_names::Word;

/// The spelling of a word.
pub(crate) fn word_text(word: Word) -> &'static [u8]
    ensures { result.now ≡ word_spelling word }
{
    match word {
        Word::Crate => b"crate",
        Word::Mod => b"mod",
        Word::Pub => b"pub",
        Word::Inline => b"inline",
        Word::Fn => b"fn",
        Word::Closure => b"closure",
        Word::Struct => b"struct",
        Word::Enum => b"enum",
        Word::Trait => b"trait",
        Word::Impl => b"impl",
        Word::For => b"for",
        Word::Where => b"where",
        Word::Static => b"static",
        Word::Const => b"const",
        Word::Dyn => b"dyn",
        Word::Let => b"let",
        Word::Print => b"print",
        Word::Return => b"return",
        Word::Goto => b"goto",
        Word::Switch => b"switch",
        Word::Else => b"else",
        Word::Call => b"call",
        Word::Drop => b"drop",
        Word::Unreachable => b"unreachable",
        Word::Copy => b"copy",
        Word::Move => b"move",
        Word::True => b"true",
        Word::False => b"false",
        Word::New => b"new",
        Word::Box => b"box",
        Word::Tuple => b"tuple",
        Word::As => b"as",
        Word::Variant => b"variant",
        Word::Not => b"not",
        Word::Add => b"add",
        Word::Sub => b"sub",
        Word::Mul => b"mul",
        Word::Div => b"div",
        Word::Rem => b"rem",
        Word::Eq => b"eq",
        Word::Lt => b"lt",
        Word::Dyncast => b"dyncast",
        Word::BoxType => b"Box",
        Word::DropTrait => b"Drop",
        Word::CallTrait => b"Call",
        Word::SelfType => b"Self",
        Word::U64 => b"u64",
        Word::Bool => b"bool",
        Word::FnPtr => b"fnptr",
        Word::FnItem => b"fnitem",
    }
}

/// The spelling of a punctuation.
pub(crate) fn punct_text(punct: Punct) -> &'static [u8]
    ensures { result.now ≡ punct_spelling punct }
{
    match punct {
        Punct::PathSep => b"::",
        Punct::Arrow => b"->",
        Punct::FatArrow => b"=>",
        Punct::Open => b"(",
        Punct::Close => b")",
        Punct::OpenBrace => b"{",
        Punct::CloseBrace => b"}",
        Punct::Less => b"<",
        Punct::Greater => b">",
        Punct::OpenBracket => b"[",
        Punct::CloseBracket => b"]",
        Punct::Comma => b",",
        Punct::Semicolon => b";",
        Punct::Colon => b":",
        Punct::Dot => b".",
        Punct::Star => b"*",
        Punct::At => b"@",
        Punct::Ampersand => b"&",
        Punct::Equals => b"=",
    }
}

/// The bytes of a gap.
pub(crate) fn gap_text(gap: Gap) -> &'static [u8]
    ensures { result.now ≡ gap_bytes gap }
{
    match gap {
        Gap::LineFeed => b"\n",
        Gap::Nothing => b"",
        Gap::OneBlank => b" ",
    }
}
