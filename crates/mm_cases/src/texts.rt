ghost use Rattle.std.specs.Prelude.{◌<◌, IfOk};

use anyhow::{Context, Result, bail};
use std::alloc::Global;

/// A text that a file of cases gives a name.
#[derive(Drop)]
pub(crate) struct Piece {
    name: String,
    text: Vec<u8>,
}

/// The pieces that the lines `let NAME = TEXT` name. A text may use the pieces before it.
pub(crate) fn pieces_of(alloc: Global, head: &str) -> Result<Vec<Piece>> {
    let mut pieces = Vec::new(alloc);
    for line in head.lines() {
        if let Some((name, text)) = line
            .strip_prefix("let ")
            .and_then(|rest| rest.split_once(" = "))
        {
            let mut bytes = Vec::new(alloc);
            push_text(&pieces, text, &mut bytes)?;
            pieces.push(Piece {
                name: String::from_str(alloc, name)?,
                text: bytes,
            })?;
        }
    }
    Ok(pieces)
}

/// Adds what a text with escapes means.
pub(crate) fn push_text(pieces: &[Piece], text: &str, out: &mut Vec<u8>) -> Result<()> {
    for (place, part) in text.split('\\').enumerate() {
        if place == 0 {
            out.extend_from_slice(part.as_bytes())?;
        } else {
            push_escape(pieces, part, out)?;
        }
    }
    Ok(())
}

/// Adds what an escape means, and what stands behind it as it is. The text begins behind the backslash.
fn push_escape(pieces: &[Piece], escape: &str, out: &mut Vec<u8>) -> Result<()> {
    if let Some(named) = escape.strip_prefix("(") {
        let Some((inside, rest)) = named.split_once(')') else {
            bail!("a bracket is not closed: {escape}");
        };
        push_piece(pieces, inside, out)?;
        return push_both(b"", rest.as_bytes(), out);
    }
    match escape.as_bytes() {
        [b'n', rest @ ..] => push_both(b"\n", rest, out),
        [b'r', rest @ ..] => push_both(b"\r", rest, out),
        [b't', rest @ ..] => push_both(b"\t", rest, out),
        [b'x', high, low, rest @ ..] => push_both(&[digit(*high)? * 16 + digit(*low)?], rest, out),
        _ => bail!("no escape: {escape}"),
    }
}

fn push_both(byte: &[u8], rest: &[u8], out: &mut Vec<u8>) -> Result<()> {
    out.extend_from_slice(byte)?;
    out.extend_from_slice(rest)?;
    Ok(())
}

/// The value of a hexadecimal digit.
fn digit(byte: u8) -> Result<u8>
    ensures { IfOk result (λ digit. digit < 16) }
{
    match byte {
        b'0'..=b'9' => Ok(byte - b'0'),
        b'a'..=b'f' => Ok(byte - b'a' + 10),
        _ => bail!("no hexadecimal digit"),
    }
}

/// The text of a piece.
fn piece_of<'a>(pieces: &'a [Piece], name: &str) -> Option<&'a [u8]> {
    for piece in pieces {
        if piece.name.as_str() == name {
            return Some(&piece.text);
        }
    }
    None
}

/// Adds the piece of this name, or of `NUMBER*TEXT` so many times the piece `TEXT`, or else these characters.
fn push_piece(pieces: &[Piece], inside: &str, out: &mut Vec<u8>) -> Result<()> {
    let Some((count, text)) = inside.split_once('*') else {
        let piece = piece_of(pieces, inside).context("no such piece")?;
        out.extend_from_slice(piece)?;
        return Ok(());
    };
    let count: u32 = count.parse().context("no number")?;
    let repeated = piece_of(pieces, text).unwrap_or(text.as_bytes());
    for _ in 0..count {
        out.extend_from_slice(repeated)?;
    }
    Ok(())
}
