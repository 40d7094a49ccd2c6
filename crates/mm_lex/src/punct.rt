ghost use Rattle.std.specs.Prelude.{◌≡◌};
ghost use Rattle.mm_lex.specs.Puncts.{punct_in};

/// A punctuation token, of one or two characters.
#[derive(Clone, Copy, Debug, PartialEq, Eq)]
pub enum Punct {
    /// `::`
    PathSep,
    /// `->`
    Arrow,
    /// `=>`
    FatArrow,
    /// `(`
    Open,
    /// `)`
    Close,
    /// `{`
    OpenBrace,
    /// `}`
    CloseBrace,
    /// `<`
    Less,
    /// `>`
    Greater,
    /// `[`
    OpenBracket,
    /// `]`
    CloseBracket,
    /// `,`
    Comma,
    /// `;`
    Semicolon,
    /// `:`
    Colon,
    /// `.`
    Dot,
    /// `*`
    Star,
    /// `@`
    At,
    /// `&`
    Ampersand,
    /// `=`
    Equals,
}

impl Punct {
    /// The punctuation that the bytes spell.
    #[tactic(auto, unfolding(crate::specs::Puncts::punct_in))]
    pub fn from_bytes(bytes: &[u8]) -> Option<Punct>
        ensures { result ≡ punct_in bytes.now }
    {
        let punct = match bytes {
            b"::" => Punct::PathSep,
            b"->" => Punct::Arrow,
            b"=>" => Punct::FatArrow,
            b"(" => Punct::Open,
            b")" => Punct::Close,
            b"{" => Punct::OpenBrace,
            b"}" => Punct::CloseBrace,
            b"<" => Punct::Less,
            b">" => Punct::Greater,
            b"[" => Punct::OpenBracket,
            b"]" => Punct::CloseBracket,
            b"," => Punct::Comma,
            b";" => Punct::Semicolon,
            b":" => Punct::Colon,
            b"." => Punct::Dot,
            b"*" => Punct::Star,
            b"@" => Punct::At,
            b"&" => Punct::Ampersand,
            b"=" => Punct::Equals,
            _ => return None,
        };
        Some(punct)
    }
}
