ghost use Rattle.std.specs.Prelude.{◌≡◌, ◌≢◌, ◌++◌, ◌<◌, [], All, get_or, length, OnOk, IfOk, MatchOption, false, flat_map, map};
ghost use Rattle.std.specs.List.{enumerate_from};
ghost use Rattle.std.specs.Ordering.{is_lt};
ghost use Rattle.mm_link.specs.Clashes.{IsFirst, IsLeast};
ghost use Rattle.mm_link.specs.Index.{placed_at, open_in};
ghost use Rattle.mm_link.specs.Linking.{earlier, reported};
ghost use Rattle.mm_objects.specs.Linking.{clash_cmp, target_cmp as text_order};
ghost use Rattle.mm_objects.specs.declared.target.Clash.{Clash};
ghost use Rattle.std.specs.declared.cmp.Ordering.TheVariants.{Less};
ghost use Rattle.mm_objects.specs.Resolution.{placed, placed_in};

use crate::index::{Index, is_shared, symbol};
use mm_objects::{Clash, ObjDef, ObjUnit, Target};
use mm_terms::{NoMemory, Text};
use sqlite_items::Items;
use std::alloc::Global;
use std::cmp::Ordering;

/// The order of definitions in the text.
fn target_cmp(t: Target, u: Target) -> Ordering
    ensures { result ≡ text_order t u }
{
    t.unit.cmp(&u.unit).then(t.def.cmp(&u.def))
}

/// The order of clashes: by symbol, and then by the positions of both definitions.
fn order(one: &Clash, other: &Clash) -> Ordering
    ensures { result ≡ clash_cmp one.now other.now }
{
    let symbols = one.symbol.as_slice().cmp(other.symbol.as_slice());
    let firsts = target_cmp(one.first, other.first);
    let seconds = target_cmp(one.second, other.second);
    symbols.then(firsts.then(seconds))
}

/// Notes the clash of a definition with another, where that is earlier.
fn note_earlier(
    alloc: Global,
    clashes: &mut Vec<Clash>,
    first: Option<Target>,
    symbol: &[u8],
    second: Target,
) -> Result<(), NoMemory>
    ensures { OnOk result (clashes.new.items ≡ clashes.old.items ++ earlier first symbol.now second) }
{
    let Some(first) = first else {
        return Ok(());
    };
    if target_cmp(first, second).is_lt() {
        let symbol = Items::from_slice(alloc, symbol)?;
        clashes.push(Clash {
            symbol,
            first,
            second,
        })?;
    }
    Ok(())
}

/// The first definition of the symbol of one, to which every unit may refer, where that is so of this one.
fn open_first(index: &Index, def: &ObjDef) -> Option<Target>
    ensures { result ≡ open_in index.now.units def.now }
{
    if !is_shared(def) {
        return None;
    }
    index.shared_def(symbol(def))
}

/// Notes the clashes of a definition with earlier ones of its symbol.
fn note_clashes(
    alloc: Global,
    clashes: &mut Vec<Clash>,
    index: &Index,
    at: Target,
    def: &ObjDef,
) -> Result<(), NoMemory>
    ensures { OnOk result (clashes.new.items ≡ clashes.old.items ++ reported index.now.units (placed_at at.unit (at.def, def.now))) }
{
    let symbol = symbol(def);
    let own = index.own_def(at.unit, symbol);
    note_earlier(alloc, clashes, own, symbol, at)?;
    let open = open_first(index, def);
    note_earlier(alloc, clashes, open, symbol, at)
}

/// Notes the clashes of the definitions of a unit with earlier ones.
fn note_unit(
    alloc: Global,
    clashes: &mut Vec<Clash>,
    index: &Index,
    number: u32,
    unit: &ObjUnit,
) -> Result<(), NoMemory>
    ensures { OnOk result (clashes.new.items ≡ clashes.old.items ++ flat_map (reported index.now.units) (placed_in (number, unit.now))) }
{
    for (position, def) in unit.defs.as_slice().iter().enumerate() {
        let Ok(position) = u32::try_from(position) else {
            return Err(NoMemory);
        };
        let at = Target {
            unit: number,
            def: position,
        };
        note_clashes(alloc, clashes, index, at, def)?;
    }
    Ok(())
}

/// The clashes of definitions with earlier ones.
fn clashes(alloc: Global, index: &Index) -> Result<Vec<Clash>, NoMemory>
    ensures { IfOk result (λ found. found.items ≡ flat_map (reported index.now.units) (placed index.now.units)) }
{
    let mut found = Vec::new(alloc);
    for (position, unit) in index.units().iter().enumerate() {
        let Ok(number) = u32::try_from(position) else {
            return Err(NoMemory);
        };
        note_unit(alloc, &mut found, index, number, unit)?;
    }
    Ok(found)
}

/// Of two positions, that of the lesser clash; the first where neither is less.
#[tactic(auto, using(crate::proofs::Least::not_less_self, crate::proofs::Least::keeps_least))]
fn lesser(clashes: &[Clash], best: usize, other: usize) -> usize
    requires best { best < length clashes.now }
    requires other { other < length clashes.now }
    ensures within { result < length clashes.now }
    ensures least { (d : Clash) → clash_cmp (get_or clashes.now other d) (get_or clashes.now result d) ≢ Less }
    ensures keeps { (d y : Clash) → clash_cmp y (get_or clashes.now best d) ≢ Less → clash_cmp y (get_or clashes.now result d) ≢ Less }
{
    if order(&clashes[other], &clashes[best]).is_lt() {
        return other;
    }
    best
}

/// The position of the least of some clashes.
fn least(clashes: &[Clash]) -> Option<usize>
    ensures { IsLeast clashes.now result }
{
    if clashes.is_empty() {
        return None;
    }
    let mut best = 0;
    for i in 0..clashes.len() {
        best = lesser(clashes, best, i);
    }
    Some(best)
}

/// The least clash among units, where there is one.
pub fn least_clash(alloc: Global, index: &Index) -> Result<Option<Clash>, NoMemory>
    ensures { IfOk result (λ clash. IsFirst index.now.units clash) }
{
    let mut found = clashes(alloc, index)?;
    match least(&found) {
        None => Ok(None),
        Some(position) => Ok(Some(found.remove(position))),
    }
}
