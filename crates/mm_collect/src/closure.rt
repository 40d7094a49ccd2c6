ghost use Rattle.std.specs.Prelude.{◌≡◌, ◌+◌, ◌≤◌, List, ◌∷◌, ◌++◌, length, flat_map, All, Contains, IfOk, OnOk};
ghost use Rattle.std.specs.List.{IsDistinct};
ghost use Rattle.indexmap.specs.IndexSet.{insert_key, insert_all};
ghost use Rattle.mm_terms.specs.declared.item.Item.{Item};
ghost use Rattle.mm_terms.specs.Same.{same_item};
ghost use Rattle.mm_terms.specs.Closure.{AreMembers, HasMoreThan};
ghost use Rattle.mm_collect.specs.declared.closure.Stop.TheVariants.{NoMemory};
ghost use Rattle.mm_plain.specs.declared.over.Over.{Over};
ghost use Rattle.mm_plain.specs.Finding.{AreInOrder};
ghost use Rattle.mm_plain.specs.Notes.{IsLeast};

use crate::over::least_over;
use indexmap::IndexSet;
use mm_plain::Over;
use mm_terms::{Item, ItemList};
use std::alloc::{AllocError, AllocFailed, Global};

/// Why the members of a closure are not listed.
#[derive(Clone, Copy)]
pub enum Stop {
    /// There are more of them than the limit.
    TooMany,
    NoMemory,
}

impl From<AllocError> for Stop {
    ghost from_gives = { λ _ stop. stop ≡ NoMemory };

    fn from(_refused: AllocError) -> Stop {
        Stop::NoMemory
    }
}

impl<T: Drop> From<AllocFailed<T>> for Stop {
    ghost from_gives = { λ _ stop. stop ≡ NoMemory };

    fn from(_refused: AllocFailed<T>) -> Stop {
        Stop::NoMemory
    }
}

/// What an item uses, and what it notes.
#[derive(Drop)]
pub struct Scan {
    pub used: Vec<Item>,
    /// The least of its notes, if it has any.
    pub over: Option<Over>,
}

/// Items, what each of them uses, and what each notes as too long to be used.
pub trait Graph {
    /// The items that are needed from the start.
    ghost roots: { Self → List Item };

    /// The items that an item uses.
    ghost uses: { Self → Item → List Item };

    /// What an item notes.
    ghost notes: { Self → Item → List Over };

    /// Lists the roots.
    fn start(&self, alloc: Global) -> Result<Vec<Item>, AllocError>
        ensures { IfOk result (λ items. items.items ≡ roots self.now) };

    /// Lists what an item uses, and finds the least of what it notes.
    fn scan(&self, alloc: Global, item: &Item) -> Result<Scan, AllocError>
        ensures used { IfOk result (λ scan. scan.used.items ≡ uses self.now item.now) }
        ensures over { IfOk result (λ scan. IsLeast (notes self.now item.now) scan.over) };
}

/// Notes an item as found, where it is new. `TooMany` comes where that makes more items than the limit.
fn claim(found: &mut IndexSet<Item>, limit: usize, item: Item) -> Result<(), Stop>
    requires { length found.old.keys ≤ limit }
    ensures claimed { OnOk result (found.new.keys ≡ insert_key same_item found.old.keys item) }
    ensures among { All (Contains (item ∷ found.old.keys)) found.new.keys }
    ensures within { OnOk result (length found.new.keys ≤ limit) }
    ensures too_many { result ≡ Err Stop.TooMany → length found.new.keys ≡ limit + 1 }
    ensures once { IsDistinct same_item found.new.keys }
{
    found.insert(item)?;
    if found.len() > limit {
        return Err(Stop::TooMany);
    }
    Ok(())
}

/// Notes each of the items as found.
fn claim_all(found: &mut IndexSet<Item>, limit: usize, items: Vec<Item>) -> Result<(), Stop>
    requires { length found.old.keys ≤ limit }
    ensures claimed { OnOk result (found.new.keys ≡ insert_all same_item found.old.keys items.items) }
    ensures among { All (Contains (found.old.keys ++ items.items)) found.new.keys }
    ensures within { OnOk result (length found.new.keys ≤ limit) }
    ensures too_many { result ≡ Err Stop.TooMany → length found.new.keys ≡ limit + 1 }
    ensures once { result ≡ Err Stop.TooMany → IsDistinct same_item found.new.keys }
{
    for item in items {
        claim(found, limit, item)?;
    }
    Ok(())
}

/// The members of a closure, and the least of all that they note.
#[derive(Drop)]
pub struct Closed {
    pub items: ItemList,
    pub over: Option<Over>,
}

/// The members of a graph's closure, each once, in order of finding. What is found waits in that order to be scanned.
pub fn members<G: Graph>(alloc: Global, graph: &G, limit: usize) -> Result<Closed, Stop>
    ensures members { IfOk result (λ all. AreMembers (G.roots graph.now) (G.uses graph.now) all.items) }
    ensures order { IfOk result (λ all. AreInOrder (G.roots graph.now) (G.uses graph.now) all.items) }
    ensures within { IfOk result (λ all. length all.items ≤ limit) }
    ensures over { IfOk result (λ all. IsLeast (flat_map (G.notes graph.now) all.items) all.over) }
    ensures too_many { result ≡ Err Stop.TooMany → HasMoreThan (G.roots graph.now) (G.uses graph.now) limit }
{
    let mut found = IndexSet::new(alloc);
    claim_all(&mut found, limit, graph.start(alloc)?)?;
    let mut over = None;
    let mut next = 0;
    while let Some(item) = found.get_index(next) {
        let scan = graph.scan(alloc, item)?;
        claim_all(&mut found, limit, scan.used)?;
        over = least_over(over, scan.over);
        next += 1;
    }
    let items = found.into_iter().collect(alloc)?;
    Ok(Closed {
        items: ItemList::from_vec(items),
        over,
    })
}
