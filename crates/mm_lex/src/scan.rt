ghost use Rattle.std.specs.Prelude.{◌≡◌, ◌≤◌, IfOk, IfErr, [], length, take};
ghost use Rattle.std.specs.Str.{IsUtf8, chars};
ghost use Rattle.std.specs.Str.Lossy.{utf8_valid_len};
ghost use Rattle.mm_lex.specs.Positions.{end_position};
ghost use Rattle.mm_lex.specs.Tokens.{AreTokensOf, IsRead, IsFaultOf, token_at};

use crate::position::Position;
use crate::prefix::{prefix, rule_at};
use crate::text_fault::{TextFault, TextRule};
use crate::token::{Token, TokenKind};
use std::alloc::Global;

/// The tokens of a text of at most 4,194,304 bytes, in order.
///
/// `BadText` comes exactly where the text has no tokens, and tells its first fault.
pub fn lex(alloc: Global, text: &[u8]) -> Result<Vec<Token>, TextFault>
    requires { length text.now ≤ 4194304 }
    ensures ok { IfOk result (λ tokens. AreTokensOf text.now tokens.items) }
    ensures bad { IfErr result (IsFaultOf text.now) }
{
    let valid = valid_front(text);
    let (tokens, end) = tokens(alloc, valid)?;
    if valid.len() < text.len() {
        return Err(fault(end, TextRule::Utf8));
    }
    Ok(tokens)
}

/// The position behind the last character of a text.
pub fn end_position(text: &[u8]) -> Position
    requires few { length text.now ≤ 4194304 }
    requires utf8 { IsUtf8 text.now }
    ensures { result ≡ end_position text.now }
{
    Position::START.after(valid_front(text))
}

/// The longest front of the bytes that is UTF-8.
fn valid_front(bytes: &[u8]) -> &str
    ensures value { result.now ≡ take (utf8_valid_len bytes.now) bytes.now }
    ensures len { length result.now ≤ length bytes.now }
{
    match str::from_utf8(bytes) {
        Ok(text) => text,
        Err(error) => str::from_utf8(&bytes[..error.valid_up_to()]).unwrap_or(""),
    }
}

/// A fault at a position.
fn fault(at: Position, rule: TextRule) -> TextFault
    ensures { result ≡ TextFault.BadText at.line at.column rule }
{
    TextFault::BadText {
        line: at.line,
        column: at.column,
        rule,
    }
}

/// A token between two positions.
fn token(kind: TokenKind, at: Position, behind: Position) -> Token
    ensures { result ≡ token_at kind at behind }
{
    Token {
        kind,
        start: at.offset,
        stop: behind.offset,
        line: at.line,
        column: at.column,
    }
}

/// The tokens of a text, and the position behind its last character.
fn tokens(alloc: Global, text: &str) -> Result<(Vec<Token>, Position), TextFault>
    requires { length text.now ≤ 4194304 }
    ensures ok { IfOk result (λ read. IsRead (chars text.now) read.0.items read.1 []) }
    ensures bad { IfErr result (IsFaultOf text.now) }
{
    let mut tokens = Vec::new(alloc);
    let mut at = Position::START;
    let mut rest = text;
    while !rest.is_empty() {
        let Some((kind, len)) = prefix(rest) else {
            return Err(fault(at, rule_at(rest)));
        };
        let (passed, left) = rest.split_at(len);
        let behind = at.after(passed);
        if let Some(kind) = kind {
            tokens.push(token(kind, at, behind))?;
        }
        at = behind;
        rest = left;
    }
    Ok((tokens, at))
}
