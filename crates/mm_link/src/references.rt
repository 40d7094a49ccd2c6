ghost use Rattle.std.specs.Prelude.{◌≡◌, IfOk, is_none, flat_map};
ghost use Rattle.std.specs.List.{find};
ghost use Rattle.std.specs.Option.{option_map};
ghost use Rattle.mm_objects.specs.Linking.{def_symbols, end_symbols, first_undefined, is_undefined, unit_references};

use crate::index::Index;
use mm_objects::{ObjBlock, ObjCallee, ObjDef, ObjEnd, ObjUnit};
use mm_terms::{NoMemory, Text};
use sqlite_items::Items;
use std::alloc::Global;

/// A reference.
#[derive(Drop)]
pub struct Reference {
    /// The number of the unit in which it stands.
    pub unit: u32,
    pub symbol: Text,
}

/// Whether a reference names nothing.
fn is_missing(index: &Index, unit: u32, symbol: &[u8]) -> bool
    ensures { result ≡ is_undefined index.now.units (unit, symbol.now) }
{
    index.find(unit, symbol).is_none()
}

/// The symbol to which the end of a block refers, where that names nothing.
fn missing_at<'a>(index: &Index, unit: u32, block: &'a ObjBlock) -> Option<&'a [u8]>
    ensures { option_map (λ s. s.now) result ≡ find (λ s. is_undefined index.now.units (unit, s)) (end_symbols block.now.end) }
{
    match &block.end {
        ObjEnd::Call(_, ObjCallee::Fn(symbol), _, _) => {
            let symbol = symbol.as_slice();
            if is_missing(index, unit, symbol) {
                return Some(symbol);
            }
            None
        }
        _ => None,
    }
}

/// The first symbol in a definition that names nothing.
fn missing_in<'a>(index: &Index, unit: u32, def: &'a ObjDef) -> Option<&'a [u8]>
    ensures { option_map (λ s. s.now) result ≡ find (λ s. is_undefined index.now.units (unit, s)) (def_symbols def.now) }
{
    let ObjDef::Code { blocks, .. } = def;
    for block in blocks.as_slice() {
        match missing_at(index, unit, block) {
            Some(symbol) => return Some(symbol),
            None => {}
        }
    }
    None
}

/// The first symbol in a unit that names nothing.
#[tactic(auto, using(crate::proofs::Firsts::found_here, crate::proofs::Firsts::missed_here))]
fn missing_in_unit<'a>(index: &Index, number: u32, unit: &'a ObjUnit) -> Option<&'a [u8]>
    ensures { option_map (λ s. s.now) result ≡ find (λ s. is_undefined index.now.units (number, s)) (flat_map def_symbols unit.now.defs) }
{
    for def in unit.defs.as_slice() {
        match missing_in(index, number, def) {
            Some(symbol) => return Some(symbol),
            None => {}
        }
    }
    None
}

/// The first reference in a unit that names nothing.
#[tactic(auto, using(crate::proofs::Firsts::find_map))]
fn missing_of(
    alloc: Global,
    index: &Index,
    number: u32,
    unit: &ObjUnit,
) -> Result<Option<Reference>, NoMemory>
    ensures { IfOk result (λ found. option_map (λ r. (r.unit, r.symbol)) found ≡ find (is_undefined index.now.units) (unit_references (number, unit.now))) }
{
    match missing_in_unit(index, number, unit) {
        Some(symbol) => {
            let symbol = Items::from_slice(alloc, symbol)?;
            Ok(Some(Reference {
                unit: number,
                symbol,
            }))
        }
        None => Ok(None),
    }
}

/// The first reference that names nothing. Units past 2^32 take memory too.
pub fn missing(alloc: Global, index: &Index) -> Result<Option<Reference>, NoMemory>
    ensures { IfOk result (λ found. option_map (λ r. (r.unit, r.symbol)) found ≡ first_undefined index.now.units) }
{
    for (position, unit) in index.units().iter().enumerate() {
        let Ok(number) = u32::try_from(position) else {
            return Err(NoMemory);
        };
        match missing_of(alloc, index, number, unit)? {
            Some(reference) => return Ok(Some(reference)),
            None => {}
        }
    }
    Ok(None)
}
