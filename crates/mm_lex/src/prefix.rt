ghost use Rattle.std.specs.Prelude.{◌≡◌, ◌<◌, length, slice_index};
ghost use Rattle.std.specs.Option.{option_map};
ghost use Rattle.std.specs.Char.{is_ascii_digit};
ghost use Rattle.std.specs.Str.{chars};
ghost use Rattle.unicode_ident.specs.Ident.{is_xid_continue};
ghost use Rattle.mm_names.specs.declared.word.Word.{Word};
ghost use Rattle.mm_lex.specs.Puncts.{punct_spelling};
ghost use Rattle.mm_lex.specs.Pieces.{is_blank, is_within_line};
ghost use Rattle.mm_lex.specs.Tokens.{rule_at};
ghost use Rattle.mm_lex.specs.FirstPieces.{front, run_kind, punct_at, prefix_in, run_at, number_at, first_punct, punct_prefix};

use crate::text_fault::TextRule;
use crate::token::TokenKind;
use mm_names::{Run, decimal, kind_of_run, starts_name};
use unicode_ident::is_xid_continue;

/// Whether a character is a blank: a space, a tab, CR or LF.
fn is_blank(c: char) -> bool
    ensures { result ≡ is_blank c }
{
    matches!(c, ' ' | '\t' | '\n' | '\r')
}

/// The characters with which the text begins and that a name may have.
fn name_run(text: &str) -> &str
    ensures { result.now ≡ front is_xid_continue (chars text.now) }
{
    match text.find(|c: char| !is_xid_continue(c)) {
        Some(len) => &text[..len],
        None => text,
    }
}

/// The digits with which the text begins.
fn digit_run(text: &str) -> &str
    ensures { result.now ≡ front is_ascii_digit (chars text.now) }
{
    match text.find(|c: char| !c.is_ascii_digit()) {
        Some(len) => &text[..len],
        None => text,
    }
}

/// The text before the end of the line.
fn line(text: &str) -> &str
    ensures { result.now ≡ front is_within_line (chars text.now) }
{
    match text.find('\n') {
        Some(len) => &text[..len],
        None => text,
    }
}

/// The punctuation token with which two characters begin: of two that stand there, the longer one.
fn punct_at(first: char, second: char) -> Option<usize>
    ensures { result ≡ option_map (λ punct. length (punct_spelling punct)) (punct_at first second) }
{
    match (first, second) {
        (':', ':') | ('-', '>') | ('=', '>') => Some(2),
        ('(' | ')' | '{' | '}' | '<' | '>' | '[' | ']', _) => Some(1),
        (',' | ';' | ':' | '.' | '*' | '@' | '&' | '=', _) => Some(1),
        _ => None,
    }
}

/// The first two characters of a text, and zero in place of those that it does not have.
fn first_two(text: &str) -> (char, char)
    ensures first { result.0 ≡ slice_index (chars text.now) 0 }
    ensures second { result.1 ≡ slice_index (chars text.now) 1 }
{
    let mut chars = text.chars();
    let first = chars.next().unwrap_or('\0');
    let second = chars.next().unwrap_or('\0');
    (first, second)
}

/// The token that the first characters are that a name may have, and its bytes.
fn run_at(text: &str) -> Option<(Option<TokenKind>, usize)>
    ensures { result ≡ run_at (chars text.now) }
{
    let run = name_run(text);
    let kind = match kind_of_run(run.as_bytes())? {
        Run::Local(n) => TokenKind::Local(n),
        Run::Label(n) => TokenKind::Label(n),
        Run::Word(_) => TokenKind::Word,
        Run::Name => TokenKind::Name,
    };
    Some((Some(kind), run.len()))
}

/// The number that the first digits are, and its bytes.
fn number_at(text: &str) -> Option<(Option<TokenKind>, usize)>
    ensures { result ≡ number_at (chars text.now) }
{
    let digits = digit_run(text);
    let n = decimal(digits.as_bytes(), u64::MAX)?;
    Some((Some(TokenKind::Number(n)), digits.len()))
}

/// With what a text begins: a token or, as `None`, a blank or a comment; and how many bytes it takes.
#[tactic(auto, unfolding(crate::specs::FirstPieces::prefix_in, crate::specs::FirstPieces::first_punct))]
pub fn prefix(text: &str) -> Option<(Option<TokenKind>, usize)>
    ensures { result ≡ prefix_in (chars text.now) }
{
    let (first, second) = first_two(text);
    if is_blank(first) {
        Some((None, 1))
    } else if first == '/' && second == '/' {
        Some((None, line(text).len()))
    } else if starts_name(first) {
        run_at(text)
    } else if first.is_ascii_digit() {
        number_at(text)
    } else {
        let len = punct_at(first, second)?;
        Some((Some(TokenKind::Punct), len))
    }
}

/// The rule that a text breaks at its first character, where it begins with no token.
pub fn rule_at(text: &str) -> TextRule
    ensures { result ≡ rule_at (slice_index (chars text.now) 0) }
{
    let (first, _) = first_two(text);
    if first.is_ascii_digit() {
        TextRule::Number
    } else if starts_name(first) {
        TextRule::Name
    } else {
        TextRule::Char
    }
}
