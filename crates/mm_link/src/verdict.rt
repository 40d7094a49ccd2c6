ghost use Rattle.std.specs.Prelude.{◌≡◌, IfOk, slice_get};
ghost use Rattle.mm_link.specs.Clashes.{HasAll, HasOne};
ghost use Rattle.mm_link.specs.Linking.{IsVerdict, name_at};
ghost use Rattle.mm_link.specs.declared.fault.LinkFault.TheVariants as fault;

use crate::clash::least_clash;
use crate::fault::LinkFault;
use crate::image::Image;
use crate::index::Index;
use crate::references::missing;
use mm_objects::{Clash, ObjUnit, Objects};
use mm_terms::{NoMemory, Text};
use sqlite_items::Items;
use std::alloc::Global;

/// The name of a unit.
fn name(alloc: Global, units: &[ObjUnit], unit: u32) -> Result<Text, NoMemory>
    ensures { IfOk result (λ name. name ≡ name_at (slice_get units.now unit)) }
{
    match units.get(unit as usize) {
        None => Ok(Items::new(alloc)),
        Some(unit) => Items::from_slice(alloc, unit.name.as_slice()),
    }
}

/// The fault of a clash.
fn double(alloc: Global, units: &[ObjUnit], clash: Clash) -> Result<LinkFault, NoMemory>
    ensures { IfOk result (λ reported. reported ≡ fault.Double clash.symbol (name_at (slice_get units.now clash.first.unit)) (name_at (slice_get units.now clash.second.unit))) }
{
    let first = name(alloc, units, clash.first.unit)?;
    let second = name(alloc, units, clash.second.unit)?;
    Ok(LinkFault::Double(clash.symbol, first, second))
}

/// Refuses units with a clash.
fn check_clashes(alloc: Global, index: &Index) -> Result<(), LinkFault>
    ensures { HasOne index.now.units result }
{
    match least_clash(alloc, index) {
        Err(_) => Err(LinkFault::NoMemory),
        Ok(None) => Ok(()),
        Ok(Some(clash)) => match double(alloc, index.units(), clash) {
            Ok(fault) => Err(fault),
            Err(_) => Err(LinkFault::NoMemory),
        },
    }
}

/// Refuses units with a reference that names nothing.
fn check_references(alloc: Global, index: &Index) -> Result<(), LinkFault>
    ensures { HasAll index.now.units result }
{
    match missing(alloc, index) {
        Err(_) => Err(LinkFault::NoMemory),
        Ok(None) => Ok(()),
        Ok(Some(reference)) => match name(alloc, index.units(), reference.unit) {
            Ok(unit) => Err(LinkFault::Undefined(unit, reference.symbol)),
            Err(_) => Err(LinkFault::NoMemory),
        },
    }
}

/// Links objects with their index.
fn link_indexed(alloc: Global, index: Index) -> Result<Image, LinkFault>
    ensures { IsVerdict index result }
{
    match check_clashes(alloc, &index) {
        Err(fault) => return Err(fault),
        Ok(()) => {}
    }
    match check_references(alloc, &index) {
        Err(fault) => return Err(fault),
        Ok(()) => {}
    }
    match index.shared_def(index.objects().main.as_slice()) {
        None => Err(LinkFault::NoMain),
        Some(main) => Ok(Image::new(index, main)),
    }
}

/// Links objects. A fault is the first of these that there is: two definitions of one symbol in one unit, or both open
/// to every unit, of which the least symbol is reported; a reference that names nothing, of which the first in the text is
/// reported; and no definition of the main symbol that is open to every unit.
pub fn link(alloc: Global, objects: Objects) -> Result<Image, LinkFault>
    ensures { IsVerdict objects result }
{
    match Index::new(alloc, objects) {
        Ok(index) => link_indexed(alloc, index),
        Err(_) => Err(LinkFault::NoMemory),
    }
}
