ghost use Rattle.std.specs.Prelude.{◌≡◌, ◌≤◌, IfSome, not, eqb, length};
ghost use Rattle.std.specs.Char.{is_ascii_digit};
ghost use Rattle.std.specs.List.{list_all, prefix_len};
ghost use Rattle.mm_names.specs.Runs.{is_name};
ghost use Rattle.mm_symbols.specs.Reading.{Gives, starts, past, bytes_in, segment_in, name_in, segments_in, is_path, path_in, each_in, until_end};

use crate::form::Segs;
use crate::parse_error::ParseError;
use mm_names::decimal;
use mm_terms::Text;
use sqlite_items::Items;
use std::alloc::Global;

/// Whether the bytes begin with this one.
pub fn starts(byte: u8, bytes: &[u8]) -> bool
    ensures { result ≡ starts byte bytes.now }
{
    match bytes.split_first() {
        Some((first, _)) => *first == byte,
        None => false,
    }
}

/// What stands behind this byte.
pub fn past(byte: u8, bytes: &[u8]) -> Result<&[u8], ParseError>
    ensures { Gives (λ rest. rest.now) result (past byte bytes.now) }
{
    match bytes.split_first() {
        Some((first, rest)) if *first == byte => Ok(rest),
        _ => Err(ParseError::Invalid),
    }
}

/// How many digits stand at the front.
fn digits_length(bytes: &[u8]) -> usize
    ensures { result ≡ prefix_len is_ascii_digit bytes.now }
{
    bytes.iter().take_while(|c| c.is_ascii_digit()).count()
}

/// So many bytes, and those behind them.
fn split(len: usize, bytes: &[u8]) -> Result<(&[u8], &[u8]), ParseError>
    ensures { Gives (λ x. (x.0.now, x.1.now)) result (bytes_in len bytes.now) }
{
    if len > bytes.len() {
        return Err(ParseError::Invalid);
    }
    Ok(bytes.split_at(len))
}

/// Bytes behind their number, which is at most 255.
#[tactic(auto, unfolding(crate::specs::Reading::segment_in))]
pub fn segment(bytes: &[u8]) -> Result<(&[u8], &[u8]), ParseError>
    ensures { Gives (λ x. (x.0.now, x.1.now)) result (segment_in bytes.now) }
{
    let (digits, rest) = bytes.split_at(digits_length(bytes));
    let len = decimal(digits, 255).ok_or(ParseError::Invalid)?;
    split(len as usize, rest)
}

/// Whether the bytes are a name.
pub fn tests_name(bytes: &[u8]) -> bool
    ensures { result ≡ is_name bytes.now }
{
    mm_names::is_name(bytes)
}

/// A name behind its length.
#[tactic(auto, unfolding(crate::specs::Reading::name_in))]
pub fn name(alloc: Global, bytes: &[u8]) -> Result<(Text, &[u8]), ParseError>
    ensures { Gives (λ x. (x.0, x.1.now)) result (name_in bytes.now) }
{
    let (name, rest) = segment(bytes)?;
    if !tests_name(name) {
        return Err(ParseError::Invalid);
    }
    Ok((Text::from_slice(alloc, name)?, rest))
}

/// A copy of the bytes behind their number, whatever they are.
pub fn text(alloc: Global, bytes: &[u8]) -> Result<(Text, &[u8]), ParseError>
    ensures { Gives (λ x. (x.0, x.1.now)) result (segment_in bytes.now) }
{
    let (text, rest) = segment(bytes)?;
    Ok((Text::from_slice(alloc, text)?, rest))
}

/// Segments up to the next `E`.
fn each_segment(alloc: Global, bytes: &[u8]) -> Result<(Segs, &[u8]), ParseError>
    ensures { Gives (λ x. (x.0, x.1.now)) result (each_in segment_in (length bytes.now) bytes.now) }
{
    let mut segments = Items::new(alloc);
    let mut rest = bytes;
    'each: for place in 0..bytes.len() {
        if starts(b'E', rest) {
            break;
        }
        let (text, after) = text(alloc, rest)?;
        segments.push(text)?;
        rest = after;
    }
    Ok((segments, rest))
}

/// The segments between an `N` and an `E`.
#[tactic(auto, unfolding(crate::specs::Reading::segments_in))]
pub fn segments(alloc: Global, bytes: &[u8]) -> Result<(Segs, &[u8]), ParseError>
    ensures { Gives (λ x. (x.0, x.1.now)) result (segments_in bytes.now) }
{
    let rest = past(b'N', bytes)?;
    let (segments, rest) = each_segment(alloc, rest)?;
    let rest = past(b'E', rest)?;
    Ok((segments, rest))
}

/// Whether each of the texts is a name.
fn are_names(texts: &[Text]) -> bool
    ensures { result ≡ list_all is_name texts.now }
{
    texts.iter().all(|text| tests_name(text.as_slice()))
}

/// Whether the segments are the names of a path.
pub fn is_path(segments: &Segs) -> bool
    ensures { result ≡ is_path segments.now }
{
    !segments.is_empty() && are_names(segments.as_slice())
}

/// A path.
#[tactic(auto, unfolding(crate::specs::Reading::path_in))]
pub fn path(alloc: Global, bytes: &[u8]) -> Result<(Segs, &[u8]), ParseError>
    ensures { Gives (λ x. (x.0, x.1.now)) result (path_in bytes.now) }
{
    let (names, rest) = segments(alloc, bytes)?;
    if !is_path(&names) {
        return Err(ParseError::Invalid);
    }
    Ok((names, rest))
}
