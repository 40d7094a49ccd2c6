ghost use Rattle.std.specs.Prelude.{◌≡◌, [], ◌∷◌, ℕ, List, cond, filter, is_some, IfOk, OnOk};
ghost use Rattle.std.specs.Option.{option_map, option_or};
ghost use Rattle.mm_definitions.specs.declared.kinds.Kind as kinds;
ghost use Rattle.mm_resolve.specs.Resolving.{look_up, first_of};
ghost use Rattle.mm_resolve.specs.Scopes.{Scope, Knows, next, visible, found, leads_to, leading};

use crate::index::{Index, add, find};
use indexmap::IndexMap;
use mm_definitions::{Kind, Named, Wanted};
use mm_terms::NoMemory;
use std::alloc::Global;

/// The tables of a scope: what a path can lead to from a crate.
#[derive(Drop)]
pub struct ScopeTable<'a> {
    /// What the crate defines, and the crates before it.
    pub(crate) all: Index<'a>,
    /// What is `pub` of the crates before it.
    pub(crate) shared: Index<'a>,
    /// What the crate defines.
    pub(crate) own: Index<'a>,
    pub(crate) defined: &'a [Named],
}

/// Adds definitions.
fn add_all<'a>(index: &mut Index<'a>, defs: &'a [Named]) -> Result<(), NoMemory>
    ensures { OnOk result ((kind : kinds.Kind) (path : List ℕ) → look_up index.new kind path ≡ option_or (look_up index.old kind path) (first_of defs.now kind path)) }
{
    for named in defs {
        add(index, named)?;
    }
    Ok(())
}

/// Adds a definition where it is `pub`.
#[tactic(auto, using(crate::proofs::TableLemmas::or_none))]
fn add_if_pub<'a>(index: &mut Index<'a>, named: &'a Named) -> Result<(), NoMemory>
    ensures { OnOk result ((kind : kinds.Kind) (path : List ℕ) → look_up index.new kind path ≡ option_or (look_up index.old kind path) (first_of (cond named.now.is_pub (named.now ∷ []) []) kind path)) }
{
    if !named.is_pub {
        return Ok(());
    }
    add(index, named)
}

/// Adds those of the definitions that are `pub`.
fn add_shared<'a>(index: &mut Index<'a>, defs: &'a [Named]) -> Result<(), NoMemory>
    ensures { OnOk result ((kind : kinds.Kind) (path : List ℕ) → look_up index.new kind path ≡ option_or (look_up index.old kind path) (first_of (filter (λ d. d.is_pub) defs.now) kind path)) }
{
    for named in defs {
        add_if_pub(index, named)?;
    }
    Ok(())
}

/// The table of what these define.
fn index_of<'a>(alloc: Global, defs: &'a [Named]) -> Result<Index<'a>, NoMemory>
    ensures { IfOk result (λ index. look_up index ≡ first_of defs.now) }
{
    let mut index = IndexMap::new(alloc);
    add_all(&mut index, defs)?;
    Ok(index)
}

/// The definition of one of two kinds that has a path, by a table.
fn find_either<'a>(index: &Index<'a>, kind: Kind, other: Kind, path: &[u8]) -> Option<&'a Named>
    ensures { option_map (λ d. d.now) result ≡ option_or (look_up index.now kind path.now) (look_up index.now other path.now) }
{
    match find(index, kind, path) {
        Some(named) => Some(named),
        None => find(index, other, path),
    }
}

/// The definition of the wanted kind that has a path, by a table.
fn found<'a>(index: &Index<'a>, wanted: Wanted, path: &[u8]) -> Option<&'a Named>
    ensures { option_map (λ d. d.now) result ≡ found (look_up index.now) wanted path.now }
{
    match wanted {
        Wanted::One(kind) => find(index, kind, path),
        Wanted::Adt => find_either(index, Kind::Struct, Kind::Enum, path),
        Wanted::Whole => find_either(index, Kind::Struct, Kind::Closure, path),
    }
}

/// Whether there is one.
fn has(index: &Index<'_>, wanted: Wanted, path: &[u8]) -> bool
    ensures { result ≡ is_some (found (look_up index.now) wanted path.now) }
{
    found(index, wanted, path).is_some()
}

impl<'a> ScopeTable<'a> {
    /// The scope of no crate: nothing is defined.
    pub fn new(alloc: Global) -> ScopeTable<'a>
        ensures { Knows result (record { earlier = []; own = [] }) }
    {
        ScopeTable {
            all: IndexMap::new(alloc),
            shared: IndexMap::new(alloc),
            own: IndexMap::new(alloc),
            defined: &[],
        }
    }

    /// The scope of the next crate, which defines these.
    pub fn enter(self, alloc: Global, own: &'a [Named]) -> Result<ScopeTable<'a>, NoMemory>
        ensures { IfOk result (λ tables. (scope : Scope) → Knows self.entry scope → Knows tables (next scope own.now)) }
    {
        let ScopeTable {
            mut all,
            mut shared,
            defined,
            ..
        } = self;
        add_shared(&mut shared, defined)?;
        add_all(&mut all, own)?;
        Ok(ScopeTable {
            all,
            shared,
            own: index_of(alloc, own)?,
            defined: own,
        })
    }

    /// What a path leads to, whether or not it may be named.
    pub fn find(&self, wanted: Wanted, path: &[u8]) -> Option<&'a Named>
        ensures scope { (scope : Scope) → Knows self.now scope → option_map (λ d. d.now) result ≡ leads_to scope wanted path.now }
        ensures tables { option_map (λ d. d.now) result ≡ leading self.now wanted path.now }
    {
        found(&self.all, wanted, path)
    }

    /// Whether a path leads to something that may be named.
    pub fn sees(&self, wanted: Wanted, path: &[u8]) -> bool
        ensures { (scope : Scope) → Knows self.now scope → result ≡ is_some (found (first_of (visible scope)) wanted path.now) }
    {
        has(&self.own, wanted, path) || has(&self.shared, wanted, path)
    }
}
