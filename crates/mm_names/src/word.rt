ghost use Rattle.std.specs.Prelude.{◌≡◌, ◌≢◌, IfSome, IfNone};
ghost use Rattle.mm_names.specs.Words.{word_spelling};
ghost use Rattle.mm_names.specs.declared.word.Word.{Word};

/// A word of the language: a name-like run of characters that is no name.
#[derive(Clone, Copy, PartialEq, Eq)]
pub enum Word {
    Crate,
    Mod,
    Pub,
    Inline,
    Fn,
    Closure,
    Struct,
    Enum,
    Trait,
    Impl,
    For,
    Where,
    Static,
    Const,
    Dyn,
    Let,
    Print,
    Return,
    Goto,
    Switch,
    Else,
    /// `call`, the end of a block. `Call` is [`Word::CallTrait`].
    Call,
    /// `drop`, the end of a block. `Drop` is [`Word::DropTrait`].
    Drop,
    Unreachable,
    Copy,
    Move,
    True,
    False,
    New,
    /// `box`, which makes a box. `Box`, the type, is [`Word::BoxType`].
    Box,
    Tuple,
    As,
    Variant,
    Not,
    Add,
    Sub,
    Mul,
    Div,
    Rem,
    Eq,
    Lt,
    Dyncast,
    /// `Box`, with a capital letter.
    BoxType,
    /// `Drop`, with a capital letter.
    DropTrait,
    /// `Call`, with a capital letter.
    CallTrait,
    /// `Self`.
    SelfType,
    U64,
    Bool,
    /// `fnptr`.
    FnPtr,
    /// `fnitem`.
    FnItem,
}

impl Word {
    /// The word that some bytes spell.
    pub fn from_bytes(bytes: &[u8]) -> Option<Word>
        ensures some { IfSome result (λ word. word_spelling word ≡ bytes.now) }
        ensures none { IfNone result ((word : Word) → word_spelling word ≢ bytes.now) }
    {
        let word = match bytes {
            b"crate" => Word::Crate,
            b"mod" => Word::Mod,
            b"pub" => Word::Pub,
            b"inline" => Word::Inline,
            b"fn" => Word::Fn,
            b"closure" => Word::Closure,
            b"struct" => Word::Struct,
            b"enum" => Word::Enum,
            b"trait" => Word::Trait,
            b"impl" => Word::Impl,
            b"for" => Word::For,
            b"where" => Word::Where,
            b"static" => Word::Static,
            b"const" => Word::Const,
            b"dyn" => Word::Dyn,
            b"let" => Word::Let,
            b"print" => Word::Print,
            b"return" => Word::Return,
            b"goto" => Word::Goto,
            b"switch" => Word::Switch,
            b"else" => Word::Else,
            b"call" => Word::Call,
            b"drop" => Word::Drop,
            b"unreachable" => Word::Unreachable,
            b"copy" => Word::Copy,
            b"move" => Word::Move,
            b"true" => Word::True,
            b"false" => Word::False,
            b"new" => Word::New,
            b"box" => Word::Box,
            b"tuple" => Word::Tuple,
            b"as" => Word::As,
            b"variant" => Word::Variant,
            b"not" => Word::Not,
            b"add" => Word::Add,
            b"sub" => Word::Sub,
            b"mul" => Word::Mul,
            b"div" => Word::Div,
            b"rem" => Word::Rem,
            b"eq" => Word::Eq,
            b"lt" => Word::Lt,
            b"dyncast" => Word::Dyncast,
            b"Box" => Word::BoxType,
            b"Drop" => Word::DropTrait,
            b"Call" => Word::CallTrait,
            b"Self" => Word::SelfType,
            b"u64" => Word::U64,
            b"bool" => Word::Bool,
            b"fnptr" => Word::FnPtr,
            b"fnitem" => Word::FnItem,
            _ => return None,
        };
        Some(word)
    }
}
