//! What is computed of a program when it is built.

ghost use Rattle.std.specs.Prelude.{◌≡◌, ◌<◌, ◌^◌, [], IfOk, OnOk, flat_map, length, replicate, false};
ghost use Rattle.mm_program.specs.Marks.{marked};
ghost use Rattle.mm_program.specs.Naming.{named_outside_in};
ghost use Rattle.mm_program.specs.Tables.{with_impl, with_impls};

use crate::marking::mark_definitions;
use crate::parts::DefPart;
use mm_terms::{DefId, NoMemory};
use sqlite_items::Items;
use std::alloc::Global;

fn empty_lists(alloc: Global, count: usize) -> Result<Vec<Items<DefId>>, NoMemory>
    ensures { IfOk result (λ lists. lists.items ≡ replicate count []) }
{
    let mut lists = Vec::with_capacity(alloc, count)?;
    for _ in 0..count {
        lists.push(Items::new(alloc))?;
    }
    Ok(lists)
}

/// Puts the id of an impl into the list of its trait.
#[tactic(auto, using(std::proofs::lemmas::List::set_past))]
fn add_impl(lists: &mut Vec<Items<DefId>>, d: DefId, part: &DefPart) -> Result<(), NoMemory>
    ensures { OnOk result (lists.new.items ≡ with_impl lists.old.items d.0 part.now) }
{
    if let Some(head) = &part.head {
        let at = head.tr.0 as usize;
        if at < lists.len() {
            lists[at].push(d)?;
        }
    }
    Ok(())
}

/// The ids of the impls of each trait, in order, and an empty list for each other definition.
fn impls_by_trait(alloc: Global, defs: &[DefPart]) -> Result<Items<Items<DefId>>, NoMemory>
    requires { length defs.now < 2 ^ 32 }
    ensures { IfOk result (λ lists. lists ≡ with_impls (replicate (length defs.now) []) 0 defs.now) }
{
    let mut lists = empty_lists(alloc, defs.len())?;
    for (i, part) in defs.iter().enumerate() {
        add_impl(&mut lists, DefId(i as u32), part)?;
    }
    Ok(Items::from_vec(lists))
}

/// Whether each definition is named outside the bodies of functions that are neither generic nor inline.
fn named_outside(alloc: Global, defs: &[DefPart]) -> Result<Items<bool>, NoMemory>
    ensures { IfOk result (λ marks. marks ≡ marked (replicate (length defs.now) false) (flat_map named_outside_in defs.now)) }
{
    let mut marks = vec![in alloc; false; defs.len()]?;
    mark_definitions(marks.as_mut_slice(), defs);
    Ok(Items::from_vec(marks))
}

/// What is kept of a program besides its parts.
pub(crate) fn tables(
    alloc: Global,
    defs: &[DefPart],
) -> Result<(Items<Items<DefId>>, Items<bool>), NoMemory>
    requires { length defs.now < 2 ^ 32 }
    ensures impls { IfOk result (λ made. made.0 ≡ with_impls (replicate (length defs.now) []) 0 defs.now) }
    ensures named { IfOk result (λ made. made.1 ≡ marked (replicate (length defs.now) false) (flat_map named_outside_in defs.now)) }
{
    let impls = impls_by_trait(alloc, defs)?;
    let named = named_outside(alloc, defs)?;
    Ok((impls, named))
}
