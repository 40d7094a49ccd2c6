//! The objects of a program.

ghost use Rattle.std.specs.Prelude.{◌≡◌, [], ◌∷◌, ◌++◌, map, codes, All, IfOk, OnOk};
ghost use Rattle.std.specs.List.Sorted.{IsPermutation, IsSortedByKey};
ghost use Rattle.std.specs.Cmp.Lexicographic.{slice_cmp};
ghost use Rattle.std.specs.Ordering.{nat_cmp};
ghost use Rattle.mm_objects.specs.declared.objects.Linkage.TheVariants.{External};
ghost use Rattle.mm_objects.specs.Emitted.{AreObjectsOf, IsUnitOf, def_of, item_symbol, whole_crate};
ghost use Rattle.mm_plain.specs.Roots.{main_item};
ghost use Rattle.mm_objects.specs.Resolution.{symbol_of};
ghost use Rattle.mm_emit.specs.Numbers.{FitsDef, FitsUnit, NumbersFit};

use crate::definitions::definition;
use mm_objects::{Linkage, ObjDef, ObjUnit, Objects};
use mm_plain::Program;
use mm_symbols::symbol;
use mm_terms::{Item, NoMemory, Text};
use sqlite_items::Items;
use std::alloc::Global;

fn definitions(alloc: Global, p: &Program, items: &[Item]) -> Result<Vec<ObjDef>, NoMemory>
    ensures made { IfOk result (λ defs. defs.items ≡ map (def_of p.now External) items.now) }
    ensures fits { IfOk result (λ defs. All FitsDef defs.items) }
{
    let mut defs = Vec::with_capacity(alloc, items.len())?;
    for item in items {
        defs.push(definition(alloc, p, Linkage::External, item)?)?;
    }
    Ok(defs)
}

/// The bytes of a definition's symbol.
fn symbol_bytes(def: &ObjDef) -> &[u8]
    ensures { result.now ≡ symbol_of def.now }
{
    match def {
        ObjDef::Code { symbol, .. } => symbol.as_slice(),
    }
}

/// Puts definitions into the order of their symbols.
fn sort(defs: &mut Vec<ObjDef>) -> Result<(), NoMemory>
    ensures same { IsPermutation defs.old.items defs.new.items }
    ensures sorted { OnOk result (IsSortedByKey symbol_of (slice_cmp nat_cmp) defs.new.items) }
{
    defs.sort_by(|one, other| symbol_bytes(one).cmp(symbol_bytes(other)))
}

/// The name of the one unit.
fn unit_name(alloc: Global, krate: &[u8]) -> Result<Text, NoMemory>
    ensures { IfOk result (λ name. name ≡ krate.now ++ codes "/" ++ krate.now ++ codes ".stable") }
{
    let mut name = Vec::from_slice(alloc, krate)?;
    name.push(b'/')?;
    name.extend_from_slice(krate)?;
    name.extend_from_slice(b".stable")?;
    Ok(Text::from_vec(name))
}

/// The symbol of the item that a run begins with.
fn main_symbol(alloc: Global, p: &Program) -> Result<Text, NoMemory>
    ensures { IfOk result (λ text. text ≡ item_symbol p.now (main_item p.now)) }
{
    symbol(alloc, p, &Item::Fn(p.main, Items::new(alloc)))
}

/// All items in one unit, in which every definition is External.
#[tactic(auto, using(crate::proofs::OneUnit::whole_unit_made))]
fn whole_unit(alloc: Global, p: &Program, items: &[Item]) -> Result<ObjUnit, NoMemory>
    ensures made { IfOk result (IsUnitOf p.now (whole_crate p.now items.now)) }
    ensures fits { IfOk result FitsUnit }
{
    let mut defs = definitions(alloc, p, items)?;
    sort(&mut defs)?;
    Ok(ObjUnit {
        name: unit_name(alloc, p.krate.as_slice())?,
        defs: Items::from_vec(defs),
    })
}

/// The objects of the items of a program: one unit, in which every definition is External.
///
/// An item that is no instance of a function of the program has no block. A body has fewer than 2^32 locals, as every
/// body that was loaded from a text; a greater one is answered with out of memory. The numbers that are written out are
/// those of the program, each below 2^64.
pub fn emit_one(alloc: Global, p: &Program, items: &[Item]) -> Result<Objects, NoMemory>
    ensures objects { IfOk result (AreObjectsOf p.now (whole_crate p.now items.now ∷ [])) }
    ensures numbers { IfOk result NumbersFit }
{
    let main = main_symbol(alloc, p)?;
    let mut units = Items::new(alloc);
    units.push(whole_unit(alloc, p, items)?)?;
    Ok(Objects { main, units })
}
