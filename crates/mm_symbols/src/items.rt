ghost use Rattle.std.specs.Prelude.{◌≡◌, ◌&&◌, codes};
ghost use Rattle.std.specs.Str.{bytes_eq};
ghost use Rattle.mm_symbols.specs.Reading.{Gives, is_drop_trait, names_method, within_in, method_in, item_in};

use crate::form::{Segs, SymItem, SymMethod};
use crate::parse_error::ParseError;
use crate::pieces::{is_path, path, segments, tests_name, text};
use crate::types::{args, named, within};
use mm_terms::Text;
use std::alloc::Global;

/// Whether the trait is `Drop` and the method `drop`.
fn is_drop(tr: &[Text], name: &[u8]) -> bool
    ensures { result ≡ (is_drop_trait tr.now && bytes_eq name.now (codes "drop")) }
{
    match tr {
        [only] => only.as_slice() == b"Drop".as_slice() && name == b"drop".as_slice(),
        _ => false,
    }
}

/// Whether the trait and the method have names, or are `Drop` and `drop`.
fn names_method(tr: &Segs, name: &[u8]) -> bool
    ensures { result ≡ names_method tr.now name.now }
{
    is_drop(tr.as_slice(), name) || is_path(tr) && tests_name(name)
}

/// A method of an impl.
#[tactic(auto, unfolding(crate::specs::Reading::method_in))]
fn method(alloc: Global, levels: u32, bytes: &[u8]) -> Result<(SymMethod, &[u8]), ParseError>
    ensures { Gives (λ x. (x.0, x.1.now)) result (method_in (within_in levels) bytes.now) }
{
    let (target, rest) = within(alloc, levels, bytes)?;
    let (tr, rest) = segments(alloc, rest)?;
    let (tr_args, rest) = args(alloc, levels, rest)?;
    let (name, rest) = text(alloc, rest)?;
    let (own, rest) = args(alloc, levels, rest)?;
    if !names_method(&tr, name.as_slice()) {
        return Err(ParseError::Invalid);
    }
    let method = SymMethod {
        target,
        tr,
        args: tr_args,
        name,
        own,
    };
    Ok((method, rest))
}

/// An item, whose types nest no deeper than so many levels.
#[tactic(auto, unfolding(crate::specs::Reading::item_in))]
pub fn item(alloc: Global, levels: u32, bytes: &[u8]) -> Result<(SymItem, &[u8]), ParseError>
    ensures { Gives (λ x. (x.0, x.1.now)) result (item_in (within_in levels) bytes.now) }
{
    let Some((letter, rest)) = bytes.split_first() else {
        return Err(ParseError::Invalid);
    };
    match *letter {
        b'F' => {
            let ((names, args), rest) = named(alloc, levels, rest)?;
            Ok((SymItem::Fn(names, args), rest))
        }
        b'K' => {
            let ((names, args), rest) = named(alloc, levels, rest)?;
            Ok((SymItem::Closure(names, args), rest))
        }
        b'M' => {
            let (method, rest) = method(alloc, levels, rest)?;
            Ok((SymItem::Method(method), rest))
        }
        b'L' => {
            let (ty, rest) = within(alloc, levels, rest)?;
            Ok((SymItem::Glue(ty), rest))
        }
        b'H' => {
            let (ty, rest) = within(alloc, levels, rest)?;
            Ok((SymItem::Shim(ty), rest))
        }
        b'S' => {
            let (names, rest) = path(alloc, rest)?;
            Ok((SymItem::Static(names), rest))
        }
        _ => Err(ParseError::Invalid),
    }
}
