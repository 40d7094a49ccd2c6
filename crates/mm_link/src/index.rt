ghost use Rattle.std.specs.Prelude.{◌≡◌, ℕ, List, [], ◌∷◌, None, Some, IfOk, OnOk, cond, map, false};
ghost use Rattle.std.specs.Option.{option_or};
ghost use Rattle.std.specs.Str.{bytes_eq};
ghost use Rattle.mm_link.specs.Index.{found_from, look_up, own_in, own_names as names_of};
ghost use Rattle.mm_objects.specs.Resolution.{find_in, shared_in, is_external, link_of, symbol_of};

use mm_objects::{Linkage, ObjDef, ObjUnit, Objects, Target};
use mm_terms::NoMemory;
use std::alloc::Global;
use std::collections::HashMap;
use std::marker::Model;

/// Definitions by symbol.
type Names = HashMap<Vec<u8>, Target>;

/// Objects with an index of their symbols, which contracts see as the objects: that the index is theirs is an invariant of
/// the type.
#[derive(Drop)]
pub struct Index {
    objects: Objects,
    /// For each symbol its first definition to which every unit may refer.
    shared: Names,
    /// Unit by unit, for each symbol its first definition in the unit.
    own: Vec<Names>,
}

impl Model for Index {
    ghost use Rattle.mm_objects.specs.contracts.objects.Objects as objects_row;
    ghost use Rattle.mm_objects.specs.declared.objects.Objects.{Objects};
    ghost use Rattle.std.specs.Coded.{codes};

    ghost Value = { Objects };

    ghost coded = { Prim.hlevel (codes, objects_row.the_row.coded) };

    ghost use Rattle.std.specs.Prelude.{◌≡◌, ℕ, List, slice_get};
    ghost use Rattle.mm_link.specs.Index.{look_up, look_up_if, own_in};
    ghost use Rattle.mm_objects.specs.Resolution.{shared_in};

    ghost view = { λ t. t.objects };

    ghost invariant = { λ t.
        ((s : List ℕ) → look_up t.shared s ≡ shared_in t.objects.units s)
        × ((unit : ℕ) (s : List ℕ) → look_up_if (slice_get t.own.items unit) s ≡ own_in t.objects.units unit s) };
}

/// The symbol of a definition.
pub fn symbol(def: &ObjDef) -> &[u8]
    ensures { result.now ≡ symbol_of def.now }
{
    match def {
        ObjDef::Code { symbol, .. } => symbol.as_slice(),
    }
}

/// Whether every unit may refer to a definition.
pub fn is_shared(def: &ObjDef) -> bool
    ensures { result ≡ is_external (link_of def.now) }
{
    match def {
        ObjDef::Code { link, .. } => match link {
            Linkage::External => true,
            Linkage::Internal => false,
        },
    }
}

/// Notes that a symbol resolves to a definition, unless it resolves to an earlier one.
fn note(alloc: Global, names: &mut Names, symbol: &[u8], target: Target) -> Result<(), NoMemory>
    ensures { OnOk result ((s : List ℕ) → look_up names.new s ≡ option_or (look_up names.old s) (cond (bytes_eq symbol.now s) (Some target) None)) }
{
    if names.contains_key(symbol) {
        return Ok(());
    }
    let key = Vec::from_slice(alloc, symbol)?;
    names.insert(key, target)?;
    Ok(())
}

/// Notes a definition, where it is one of those that are wanted.
fn note_def(
    alloc: Global,
    names: &mut Names,
    shared: bool,
    def: &ObjDef,
    target: Target,
) -> Result<(), NoMemory>
    ensures { OnOk result ((s : List ℕ) → look_up names.new s ≡ option_or (look_up names.old s) (found_from shared target.unit target.def (def.now ∷ []) s)) }
{
    if shared && !is_shared(def) {
        return Ok(());
    }
    note(alloc, names, symbol(def), target)
}

/// Notes the definitions of a unit, or those of them to which every unit may refer.
fn note_unit(
    alloc: Global,
    names: &mut Names,
    shared: bool,
    number: u32,
    unit: &ObjUnit,
) -> Result<(), NoMemory>
    ensures { OnOk result ((s : List ℕ) → look_up names.new s ≡ option_or (look_up names.old s) (found_from shared number 0 unit.now.defs s)) }
{
    for (position, def) in unit.defs.as_slice().iter().enumerate() {
        let Ok(position) = u32::try_from(position) else {
            return Err(NoMemory);
        };
        let target = Target {
            unit: number,
            def: position,
        };
        note_def(alloc, names, shared, def, target)?;
    }
    Ok(())
}

/// The definitions of a unit, by symbol.
fn unit_names(alloc: Global, number: u32, unit: &ObjUnit) -> Result<Names, NoMemory>
    ensures { IfOk result (λ names. look_up names ≡ found_from false number 0 unit.now.defs) }
{
    let mut names = HashMap::new(alloc);
    note_unit(alloc, &mut names, false, number, unit)?;
    Ok(names)
}

/// The definitions to which every unit may refer, by symbol.
fn shared_names(alloc: Global, units: &[ObjUnit]) -> Result<Names, NoMemory>
    ensures { IfOk result (λ names. (s : List ℕ) → look_up names s ≡ shared_in units.now s) }
{
    let mut names = HashMap::new(alloc);
    for (position, unit) in units.iter().enumerate() {
        let Ok(number) = u32::try_from(position) else {
            return Err(NoMemory);
        };
        note_unit(alloc, &mut names, true, number, unit)?;
    }
    Ok(names)
}

/// The definitions of each unit, by symbol.
fn own_names(alloc: Global, units: &[ObjUnit]) -> Result<Vec<Names>, NoMemory>
    ensures { IfOk result (λ own. map look_up own.items ≡ names_of 0 units.now) }
{
    let mut own = Vec::new(alloc);
    for (position, unit) in units.iter().enumerate() {
        let Ok(number) = u32::try_from(position) else {
            return Err(NoMemory);
        };
        own.push(unit_names(alloc, number, unit)?)?;
    }
    Ok(own)
}

impl Index {
    /// The objects, with the index of their symbols.
    pub fn new(alloc: Global, objects: Objects) -> Result<Index, NoMemory>
        ensures { IfOk result (λ index. index ≡ objects) }
    {
        let units = objects.units.as_slice();
        let shared = shared_names(alloc, units)?;
        let own = own_names(alloc, units)?;
        Ok(Index {
            objects,
            shared,
            own,
        })
    }

    /// The objects.
    pub fn objects(&self) -> &Objects
        ensures { result.now ≡ self.now }
    {
        &self.objects
    }

    /// The units of the objects.
    pub fn units(&self) -> &[ObjUnit]
        ensures { result.now ≡ self.now.units }
    {
        self.objects.units.as_slice()
    }

    /// The unit's own first definition of a symbol.
    pub fn own_def(&self, unit: u32, symbol: &[u8]) -> Option<Target>
        ensures { result ≡ own_in self.now.units unit symbol.now }
    {
        let names = self.own.get(unit as usize)?;
        names.get(symbol).copied()
    }

    /// The first definition of a symbol to which every unit may refer.
    pub fn shared_def(&self, symbol: &[u8]) -> Option<Target>
        ensures { result ≡ shared_in self.now.units symbol.now }
    {
        self.shared.get(symbol).copied()
    }

    /// The definition that a reference to the symbol names in the unit with the number.
    #[tactic(auto, using(crate::proofs::Finding::found))]
    pub fn find(&self, unit: u32, symbol: &[u8]) -> Option<Target>
        ensures { result ≡ find_in self.now.units unit symbol.now }
    {
        self.own_def(unit, symbol).or(self.shared_def(symbol))
    }
}
