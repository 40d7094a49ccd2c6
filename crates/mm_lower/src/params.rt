//! The numbers of type parameters.
ghost use Rattle.std.specs.Prelude.{◌≡◌, ℕ, List, ◌++◌, map, cond, Some, None, IfOk, OnOk};
ghost use Rattle.std.specs.Option.{option_or};
ghost use Rattle.std.specs.Str.{bytes_eq};
ghost use Rattle.mm_lower.specs.Params.{index_of, look_up, numbered};
ghost use denote.Ref.{Bor};

use indexmap::IndexMap;
use mm_terms::NoMemory;
use std::alloc::Global;

/// The number of each type parameter, from 0.
pub type ParamTable<'a> = IndexMap<&'a [u8], u32>;

/// Notes that a name stands at this place, unless it stands at an earlier one.
fn note<'a>(table: &mut ParamTable<'a>, name: &'a [u8], place: usize) -> Result<(), NoMemory>
    ensures { OnOk result ((q : List ℕ) → look_up table.new q ≡ option_or (look_up table.old q) (cond (bytes_eq q name.now) (Some place) None)) }
{
    if table.contains_key(name) {
        return Ok(());
    }
    let Ok(place) = u32::try_from(place) else {
        return Err(NoMemory);
    };
    table.insert(name, place)?;
    Ok(())
}

/// The table of these type parameters.
///
/// # Errors
///
/// Out of memory. That is also the answer where there are more than 2^32, which no text within the limit has.
pub fn param_table<'a>(alloc: Global, names: &[&'a [u8]]) -> Result<ParamTable<'a>, NoMemory>
    ensures { IfOk result (λ table. look_up table ≡ numbered (map (λ (n : Bor (List ℕ)). n.now) names.now)) }
{
    let mut table = IndexMap::new(alloc);
    let mut place = 0;
    for name in names {
        note(&mut table, name, place)?;
        place += 1;
    }
    Ok(table)
}
