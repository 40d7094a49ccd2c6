ghost use Rattle.std.specs.Prelude.{length};
ghost use Rattle.mm_symbols.specs.Reading.{Gives, each_in, until_end, args_in, named_in, tuple_in, single_in, signature_in, defined_behind, shape_in, node_in, within_in};

use crate::form::{Segs, SymHead, SymType, SymTypes};
use crate::parse_error::ParseError;
use crate::pieces::{past, path, starts};
use sqlite_items::Items;
use std::alloc::Global;

/// A type that nests no deeper than so many levels.
#[cycle(types)]
pub fn within(alloc: Global, levels: u32, bytes: &[u8]) -> Result<(SymType, &[u8]), ParseError>
    ensures { Gives (λ x. (x.0, x.1.now)) result (within_in levels bytes.now) }
{
    if levels == 0 {
        return Err(ParseError::Invalid);
    }
    node(alloc, levels - 1, bytes)
}

/// A type whose parts nest no deeper than so many levels.
#[cycle(types)]
#[tactic(auto, unfolding(crate::specs::Reading::node_in))]
fn node(alloc: Global, levels: u32, bytes: &[u8]) -> Result<(SymType, &[u8]), ParseError>
    ensures { Gives (λ x. (x.0, x.1.now)) result (node_in (within_in levels) bytes.now) }
{
    let ((head, children), rest) = shape(alloc, levels, bytes)?;
    Ok((SymType { head, children }, rest))
}

/// The head of a type and the types below it, which nest no deeper than so many levels.
#[cycle(types)]
#[tactic(auto, unfolding(crate::specs::Reading::shape_in))]
fn shape(
    alloc: Global,
    levels: u32,
    bytes: &[u8],
) -> Result<((SymHead, SymTypes), &[u8]), ParseError>
    ensures { Gives (λ x. (x.0, x.1.now)) result (shape_in (within_in levels) bytes.now) }
{
    let Some((letter, rest)) = bytes.split_first() else {
        return Err(ParseError::Invalid);
    };
    match *letter {
        b'y' => Ok(((SymHead::U64, Items::new(alloc)), rest)),
        b'b' => Ok(((SymHead::Bool, Items::new(alloc)), rest)),
        b'T' => tuple(alloc, levels, rest),
        b'R' => single(alloc, SymHead::Ref, levels, rest),
        b'B' => single(alloc, SymHead::Boxed, levels, rest),
        b'P' => signature(alloc, levels, rest),
        letter => defined(alloc, levels, letter, rest),
    }
}

/// A definition, with its arguments, at the head that its letter tells.
#[cycle(types)]
#[inline(never)]
#[tactic(auto, unfolding(crate::specs::Reading::defined_in))]
fn defined(
    alloc: Global,
    levels: u32,
    letter: u8,
    bytes: &[u8],
) -> Result<((SymHead, SymTypes), &[u8]), ParseError>
    ensures { Gives (λ x. (x.0, x.1.now)) result (defined_behind (within_in levels) letter bytes.now) }
{
    match letter {
        b'G' => {
            let ((names, args), rest) = named(alloc, levels, bytes)?;
            Ok(((SymHead::FnItem(names), args), rest))
        }
        b'C' => {
            let ((names, args), rest) = named(alloc, levels, bytes)?;
            Ok(((SymHead::Closure(names), args), rest))
        }
        b'D' => {
            let ((names, args), rest) = named(alloc, levels, bytes)?;
            Ok(((SymHead::Dyn(names), args), rest))
        }
        b'A' => {
            let ((names, args), rest) = named(alloc, levels, bytes)?;
            Ok(((SymHead::Adt(names), args), rest))
        }
        _ => Err(ParseError::Invalid),
    }
}

/// The parts of a tuple, of which there is not one alone.
#[cycle(types)]
#[tactic(auto, unfolding(crate::specs::Reading::tuple_in))]
fn tuple(
    alloc: Global,
    levels: u32,
    bytes: &[u8],
) -> Result<((SymHead, SymTypes), &[u8]), ParseError>
    ensures { Gives (λ x. (x.0, x.1.now)) result (tuple_in (within_in levels) bytes.now) }
{
    let (parts, rest) = types(alloc, levels, bytes)?;
    if parts.len() == 1 {
        return Err(ParseError::Invalid);
    }
    Ok(((SymHead::Tuple, parts), rest))
}

/// The one type below a head.
#[cycle(types)]
#[tactic(auto, unfolding(crate::specs::Reading::single_in))]
fn single(
    alloc: Global,
    head: SymHead,
    levels: u32,
    bytes: &[u8],
) -> Result<((SymHead, SymTypes), &[u8]), ParseError>
    ensures { Gives (λ x. (x.0, x.1.now)) result (single_in head (within_in levels) bytes.now) }
{
    let (child, rest) = within(alloc, levels, bytes)?;
    let mut children = Items::new(alloc);
    children.push(child)?;
    Ok(((head, children), rest))
}

/// The parameters of a function pointer and its result.
#[cycle(types)]
#[tactic(auto, unfolding(crate::specs::Reading::signature_in))]
fn signature(
    alloc: Global,
    levels: u32,
    bytes: &[u8],
) -> Result<((SymHead, SymTypes), &[u8]), ParseError>
    ensures { Gives (λ x. (x.0, x.1.now)) result (signature_in (within_in levels) bytes.now) }
{
    let (mut children, rest) = types(alloc, levels, bytes)?;
    let (result, rest) = within(alloc, levels, rest)?;
    children.push(result)?;
    Ok(((SymHead::FnPtr, children), rest))
}

/// A path and arguments.
#[cycle(types)]
#[tactic(auto, unfolding(crate::specs::Reading::named_in))]
pub fn named(
    alloc: Global,
    levels: u32,
    bytes: &[u8],
) -> Result<((Segs, SymTypes), &[u8]), ParseError>
    ensures { Gives (λ x. (x.0, x.1.now)) result (named_in (within_in levels) bytes.now) }
{
    let (names, rest) = path(alloc, bytes)?;
    let (args, rest) = args(alloc, levels, rest)?;
    Ok(((names, args), rest))
}

/// The types between an `I` and an `E`.
#[cycle(types)]
#[tactic(auto, unfolding(crate::specs::Reading::args_in))]
pub fn args(alloc: Global, levels: u32, bytes: &[u8]) -> Result<(SymTypes, &[u8]), ParseError>
    ensures { Gives (λ x. (x.0, x.1.now)) result (args_in (within_in levels) bytes.now) }
{
    let rest = past(b'I', bytes)?;
    types(alloc, levels, rest)
}

/// Types, and the `E` behind them.
#[cycle(types)]
fn types(alloc: Global, levels: u32, bytes: &[u8]) -> Result<(SymTypes, &[u8]), ParseError>
    ensures { Gives (λ x. (x.0, x.1.now)) result (until_end (within_in levels) bytes.now) }
{
    let (types, rest) = each_type(alloc, levels, bytes)?;
    let rest = past(b'E', rest)?;
    Ok((types, rest))
}

/// Types up to the next `E`.
#[cycle(types)]
fn each_type(alloc: Global, levels: u32, bytes: &[u8]) -> Result<(SymTypes, &[u8]), ParseError>
    ensures { Gives (λ x. (x.0, x.1.now)) result (each_in (within_in levels) (length bytes.now) bytes.now) }
{
    let mut types = Items::new(alloc);
    let mut rest = bytes;
    'each: for place in 0..bytes.len() {
        if starts(b'E', rest) {
            break;
        }
        let (ty, after) = within(alloc, levels, rest)?;
        types.push(ty)?;
        rest = after;
    }
    Ok((types, rest))
}
