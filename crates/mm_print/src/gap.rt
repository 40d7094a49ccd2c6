ghost use Rattle.std.specs.Prelude.{◌≡◌};
ghost use Rattle.mm_print.specs.Canonical.{ends_line as ends_line_rule, holds_next as holds_next_rule, holds_last as holds_last_rule, passes, gap_of};

use mm_lex::Punct;

/// What stands between two tokens of a canonical text.
#[derive(Clone, Copy)]
pub enum Gap {
    LineFeed,
    Nothing,
    OneBlank,
}

/// Whether behind this a line ends.
fn ends_line(token: Option<Punct>) -> bool
    ensures { result ≡ passes ends_line_rule token }
{
    matches!(
        token,
        Some(Punct::Semicolon | Punct::OpenBrace | Punct::CloseBrace)
    )
}

/// Whether behind this nothing stands.
fn holds_next(token: Option<Punct>) -> bool
    ensures { result ≡ passes holds_next_rule token }
{
    matches!(
        token,
        Some(
            Punct::PathSep
                | Punct::Open
                | Punct::Less
                | Punct::OpenBracket
                | Punct::Dot
                | Punct::At
                | Punct::Ampersand
        )
    )
}

/// Whether before this nothing stands.
fn holds_last(token: Option<Punct>) -> bool
    ensures { result ≡ passes holds_last_rule token }
{
    matches!(
        token,
        Some(
            Punct::Open
                | Punct::Close
                | Punct::Less
                | Punct::Greater
                | Punct::OpenBracket
                | Punct::CloseBracket
                | Punct::Comma
                | Punct::Semicolon
                | Punct::Colon
                | Punct::PathSep
                | Punct::Dot
                | Punct::At
        )
    )
}

/// What stands between a token and the next, each given as its punctuation, where it is one. The rules are this
/// project's own.
pub fn between(token: Option<Punct>, next: Option<Punct>) -> Gap
    ensures { result ≡ gap_of token next }
{
    if ends_line(token) {
        return Gap::LineFeed;
    }
    if holds_next(token) || holds_last(next) {
        return Gap::Nothing;
    }
    Gap::OneBlank
}
