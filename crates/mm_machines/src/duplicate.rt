ghost use Rattle.std.specs.Prelude.{◌≡◌, IfOk};

use mm_objects::{Target, VtableId};
use mm_terms::NoMemory;
use std::alloc::Global;

/// What a machine's functions and tables of methods are named by can be copied.
pub trait Duplicate: Sized {
    /// The same again.
    fn duplicate(&self, alloc: Global) -> Result<Self, NoMemory>
        ensures { IfOk result (λ copy. copy ≡ self.now) };
}

impl Duplicate for Target {
    fn duplicate(&self, _alloc: Global) -> Result<Target, NoMemory> {
        Ok(*self)
    }
}

impl Duplicate for VtableId {
    fn duplicate(&self, _alloc: Global) -> Result<VtableId, NoMemory> {
        Ok(*self)
    }
}
