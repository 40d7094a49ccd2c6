ghost use Rattle.std.specs.Prelude.{◌≡◌, ◌∷◌, ◌++◌, OnOk, cond, decimal};
ghost use Rattle.mm_spell.specs.Listed.{kind_of, kinds};
ghost use Rattle.mm_print.specs.Canonical.{punct_of, passes, ends_line};
ghost use Rattle.mm_print.specs.declared.gap.Gap.TheVariants as gaps;
ghost use Rattle.mm_print.specs.Printed.{token_bytes, gap_bytes, gap_behind, printed};

use crate::gap::{Gap, between};
use crate::marks::{gap_text, punct_text, word_text};
use itoa::Buffer;
use mm_lex::Punct;
use mm_spell::Spelled;
use std::alloc::AllocError;

/// The punctuation that a token is.
fn punct_of<'a>(token: &Spelled<'a>) -> Option<Punct>
    ensures { result ≡ punct_of (kind_of token.now) }
{
    match token {
        Spelled::Punct(punct) => Some(*punct),
        _ => None,
    }
}

/// What stands behind the last token: a line feed, where it ends a line.
fn last_gap(token: Option<Punct>) -> Gap
    ensures { result ≡ cond (passes ends_line token) gaps.LineFeed gaps.Nothing }
{
    match between(token, None) {
        Gap::LineFeed => Gap::LineFeed,
        _ => Gap::Nothing,
    }
}

/// What stands between a token and the others behind it.
fn gap_behind<'a>(token: &Spelled<'a>, others: &[Spelled<'a>]) -> Gap
    ensures { result ≡ gap_behind (kind_of token.now) (kinds others.now) }
{
    match others.first() {
        Some(next) => between(punct_of(token), punct_of(next)),
        None => last_gap(punct_of(token)),
    }
}

/// Writes a number behind a prefix.
fn write_number(prefix: &[u8], number: u64, text: &mut Vec<u8>) -> Result<(), AllocError>
    ensures { OnOk result (text.new.items ≡ text.old.items ++ (prefix.now ++ decimal number)) }
{
    let mut buffer = Buffer::new();
    text.extend_from_slice(prefix)?;
    text.extend_from_slice(buffer.format(number).as_bytes())
}

/// Writes a token.
fn write_token<'a>(token: &Spelled<'a>, text: &mut Vec<u8>) -> Result<(), AllocError>
    ensures { OnOk result (text.new.items ≡ text.old.items ++ token_bytes (kind_of token.now)) }
{
    match token {
        Spelled::Name(name) => text.extend_from_slice(name),
        Spelled::Word(word) => text.extend_from_slice(word_text(*word)),
        Spelled::Local(number) => write_number(b"_", *number, text),
        Spelled::Label(number) => write_number(b"bb", *number, text),
        Spelled::Number(number) => write_number(b"", *number, text),
        Spelled::Punct(punct) => text.extend_from_slice(punct_text(*punct)),
    }
}

/// Writes a token and what stands between it and the others behind it.
fn write_before<'a>(
    token: &Spelled<'a>,
    others: &[Spelled<'a>],
    text: &mut Vec<u8>,
) -> Result<(), AllocError>
    ensures { OnOk result (text.new.items ++ printed (kinds others.now) ≡ text.old.items ++ printed (kind_of token.now ∷ kinds others.now)) }
{
    write_token(token, text)?;
    text.extend_from_slice(gap_text(gap_behind(token, others)))
}

/// Writes the canonical text of tokens behind what is there.
pub fn write_canonical<'a>(spelled: &[Spelled<'a>], text: &mut Vec<u8>) -> Result<(), AllocError>
    ensures { OnOk result (text.new.items ≡ text.old.items ++ printed (kinds spelled.now)) }
{
    for (place, token) in spelled.iter().enumerate() {
        write_before(token, &spelled[place + 1..], text)?;
    }
    Ok(())
}
