ghost use Rattle.std.specs.Prelude.{◌≡◌};
ghost use Rattle.mm_objects.specs.Resolution.{find_in};

use crate::index::Index;
use mm_objects::{Objects, Target};
use std::marker::Model;

/// Objects in which each reference names a definition, with an index of their symbols. Contracts see the objects and the
/// definition that a run begins with.
#[derive(Drop)]
pub struct Image {
    index: Index,
    main: Target,
}

impl Model for Image {
    ghost use Rattle.mm_objects.specs.contracts.target.Linked as linked_row;
    ghost use Rattle.mm_objects.specs.declared.target.Linked.{Linked};
    ghost use Rattle.std.specs.Coded.{codes};

    ghost Value = { Linked };

    ghost coded = { Prim.hlevel (codes, linked_row.the_row.coded) };

    ghost view = { λ t. record { objects = t.index; main = t.main } };
}

impl Image {
    /// The image of indexed objects, with the definition that a run begins with.
    pub(crate) fn new(index: Index, main: Target) -> Image
        ensures objects { result.objects ≡ index }
        ensures main { result.main ≡ main }
    {
        Image { index, main }
    }

    /// The objects that were linked.
    pub fn objects(&self) -> &Objects
        ensures { result.now ≡ self.now.objects }
    {
        self.index.objects()
    }

    /// The definition that a run begins with.
    pub fn main(&self) -> Target
        ensures { result ≡ self.now.main }
    {
        self.main
    }

    /// The definition that a reference to the symbol names in the unit with the number.
    pub fn find(&self, unit: u32, symbol: &[u8]) -> Option<Target>
        ensures { result ≡ find_in self.now.objects.units unit symbol.now }
    {
        self.index.find(unit, symbol)
    }
}
