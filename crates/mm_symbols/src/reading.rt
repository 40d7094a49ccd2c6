ghost use Rattle.std.specs.Prelude.{IfOk, MatchOption};
ghost use Rattle.mm_symbols.specs.Reading.{Gives, krate_in, symbol_in};
ghost use Rattle.mm_symbols.specs.SymbolForms.{IsSymbol, IsSymbolOf};

use crate::form::SymbolForm;
use crate::items::item;
use crate::parse_error::ParseError;
use crate::pieces::{name, past};
use mm_terms::{NoMemory, Text};
use std::alloc::Global;

/// How deep types nest at most.
const NESTED_MOST: u32 = 4_096;

/// The compiling crate, where one is reported, from all of the bytes behind the item.
#[tactic(auto, unfolding(crate::specs::Reading::krate_in))]
fn krate(alloc: Global, bytes: &[u8]) -> Result<Option<Text>, ParseError>
    ensures { Gives (λ x. x) result (krate_in bytes.now) }
{
    if bytes.is_empty() {
        return Ok(None);
    }
    let rest = past(b'X', bytes)?;
    let (name, rest) = name(alloc, rest)?;
    if !rest.is_empty() {
        return Err(ParseError::Invalid);
    }
    Ok(Some(name))
}

/// The form of a symbol from all of its bytes.
#[tactic(auto, unfolding(crate::specs::Reading::symbol_in))]
fn form(alloc: Global, bytes: &[u8]) -> Result<SymbolForm, ParseError>
    ensures { Gives (λ x. x) result (symbol_in 4096 bytes.now) }
{
    let rest = past(b'_', bytes)?;
    let rest = past(b'M', rest)?;
    let (item, rest) = item(alloc, NESTED_MOST, rest)?;
    let krate = krate(alloc, rest)?;
    Ok(SymbolForm { item, krate })
}

/// The form of the symbol that the bytes are, or `None` exactly where they are no symbol.
pub fn read_symbol(alloc: Global, bytes: &[u8]) -> Result<Option<SymbolForm>, NoMemory>
    ensures { IfOk result (λ found. MatchOption found (IsSymbol bytes.now → ⊥) (λ form. IsSymbolOf form bytes.now)) }
{
    match form(alloc, bytes) {
        Ok(form) => Ok(Some(form)),
        Err(ParseError::Invalid) => Ok(None),
        Err(ParseError::NoMemory) => Err(NoMemory),
    }
}
