ghost use Rattle.std.specs.Prelude.{◌≡◌, ◌≤◌, ◌<◌, ◌+◌, ◌^◌, length, fold};
ghost use Rattle.std.specs.Str.{chars};
ghost use Rattle.mm_lex.specs.Positions.{past};

/// A position in a text.
#[derive(Clone, Copy, Debug, PartialEq, Eq)]
pub struct Position {
    /// The offset in bytes, from 0.
    pub offset: u32,
    /// The line, from 1. Lines are separated by LF.
    pub line: u32,
    /// The column, from 1. Columns count characters.
    pub column: u32,
}

impl Position {
    /// The position where a text begins.
    pub(crate) const START: Position = Position {
        offset: 0,
        line: 1,
        column: 1,
    };

    /// The position behind some text that begins at this position.
    pub(crate) fn after(self, passed: &str) -> Position
        requires offset { self.offset + length passed.now < 2 ^ 32 }
        requires line { self.line + length passed.now < 2 ^ 32 }
        requires column { self.column + length passed.now < 2 ^ 32 }
        ensures position { result ≡ fold past self (chars passed.now) }
        ensures offset { result.offset ≡ self.offset + length passed.now }
        ensures line { result.line ≤ self.line + length passed.now }
        ensures column { result.column ≤ self.column + length passed.now }
    {
        let mut at = self;
        for c in passed.chars() {
            at.offset += c.len_utf8() as u32;
            if c == '\n' {
                at.line += 1;
                at.column = 1;
            } else {
                at.column += 1;
            }
        }
        at
    }
}
