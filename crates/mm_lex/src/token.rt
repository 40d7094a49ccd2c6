/// What a token is. What word, punctuation or name it is, the bytes of its span say.
#[derive(Clone, Copy, Debug, PartialEq, Eq)]
pub enum TokenKind {
    /// A name: at most 255 bytes.
    Name,
    Word,
    /// `_` and a number: a local of a body, at most 65,535.
    Local(u32),
    /// `bb` and a number: a block of a body, at most 65,535.
    Label(u32),
    Number(u64),
    Punct,
}

/// A token: what it is, its span in the text, and the position of its first character.
#[derive(Clone, Copy, Debug, PartialEq, Eq)]
pub struct Token {
    pub kind: TokenKind,
    /// The offset of its first byte in the text.
    pub start: u32,
    /// The offset behind its last byte.
    pub stop: u32,
    /// The line, from 1. Lines are separated by LF.
    pub line: u32,
    /// The column, from 1. Columns count characters.
    pub column: u32,
}
