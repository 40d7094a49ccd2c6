ghost use Rattle.std.specs.Prelude.{◌≡◌, ◌+◌, ◌<◌, nat_le, IfOk, MatchOption};
ghost use Rattle.mm_machines.specs.Values.{cells_of, depth_of, fits, is_whole as whole};

use crate::duplicate::Duplicate;
use mm_terms::NoMemory;
use sqlite_items::Items;
use std::alloc::Global;

/// A value, as a tree of cells. `F` is what names a function, and `V` what names a table of methods.
#[derive(Drop)]
pub enum Value<F, V> {
    Num(u64),
    Truth(bool),
    /// The parts of a tuple, struct or closure.
    Agg(Values<F, V>),
    /// The fields of an enum's variant, which has this index among the variants.
    Var(u32, Values<F, V>),
    Ptr(Address),
    /// A pointer to a value of a type that is not known, with its methods.
    Fat(Address, V),
    Fun(F),
    /// A cell that has no value.
    Uninit,
}

/// A list of values.
pub type Values<F, V> = Items<Value<F, V>>;

/// An address in memory.
#[derive(Drop)]
pub struct Address {
    /// The number of the allocation.
    pub block: u64,
    /// The path to a part of its value.
    pub path: Route,
}

/// A path into a value, from its root.
pub type Route = Items<Part>;

/// A step into a value.
#[derive(Clone, Copy)]
pub enum Part {
    /// To the part with this index.
    Field(u32),
    /// To the value itself, which is to be of this variant.
    Variant(u32),
}

/// The levels to which the value of an allocation may be nested.
const LEVELS: u64 = 512;

/// The number of cells that the value of an allocation may have.
const CELLS: u64 = 65_536;

impl Address {
    /// The same address again.
    pub fn duplicate(&self, alloc: Global) -> Result<Address, NoMemory>
        ensures { IfOk result (λ a. a ≡ self.now) }
    {
        let path = Items::from_slice(alloc, self.path.as_slice())?;
        Ok(Address {
            block: self.block,
            path,
        })
    }
}

impl<F, V> Value<F, V> {
    /// Whether each cell has a value.
    pub fn is_whole(&self) -> bool
        ensures { result ≡ whole F V self.now }
    {
        match self {
            Value::Uninit => false,
            Value::Agg(parts) => {
                for part in parts.as_slice() {
                    if !part.is_whole() {
                        return false;
                    }
                }
                true
            }
            Value::Var(_, fields) => {
                for field in fields.as_slice() {
                    if !field.is_whole() {
                        return false;
                    }
                }
                true
            }
            _ => true,
        }
    }

    /// Whether it is nested to no more than so many levels.
    fn is_within(&self, levels: u64) -> bool
        ensures { result ≡ nat_le (depth_of F V self.now) levels }
    {
        if levels == 0 {
            return false;
        }
        match self {
            Value::Agg(parts) => {
                for part in parts.as_slice() {
                    if !part.is_within(levels - 1) {
                        return false;
                    }
                }
                true
            }
            Value::Var(_, fields) => {
                for field in fields.as_slice() {
                    if !field.is_within(levels - 1) {
                        return false;
                    }
                }
                true
            }
            _ => true,
        }
    }

    /// How many of so many cells are left beside its own, where it has no more than they are.
    fn cells_left(&self, limit: u64) -> Option<u64>
        ensures { MatchOption result (limit < cells_of F V self.now) (λ left. left + cells_of F V self.now ≡ limit) }
    {
        let mut left = limit.checked_sub(1)?;
        match self {
            Value::Agg(parts) => {
                for part in parts.as_slice() {
                    left = part.cells_left(left)?;
                }
                Some(left)
            }
            Value::Var(_, fields) => {
                for field in fields.as_slice() {
                    left = field.cells_left(left)?;
                }
                Some(left)
            }
            _ => Some(left),
        }
    }

    /// Whether an allocation can hold it: it has at most 65,536 cells and is nested to at most 512 levels, which are this
    /// project's own numbers.
    pub fn fits(&self) -> bool
        ensures { result ≡ fits F V self.now }
    {
        self.is_within(LEVELS) && self.cells_left(CELLS).is_some()
    }
}

impl<F: Duplicate + Drop, V: Duplicate + Drop> Value<F, V> {
    /// The same value again.
    #[cycle(copies)]
    pub fn duplicate(&self, alloc: Global) -> Result<Value<F, V>, NoMemory>
        ensures { IfOk result (λ v. v ≡ self.now) }
    {
        match self {
            Value::Num(n) => Ok(Value::Num(*n)),
            Value::Truth(b) => Ok(Value::Truth(*b)),
            Value::Agg(parts) => Ok(Value::Agg(duplicate_all(alloc, parts.as_slice())?)),
            Value::Var(k, fields) => Ok(Value::Var(*k, duplicate_all(alloc, fields.as_slice())?)),
            Value::Ptr(a) => Ok(Value::Ptr(a.duplicate(alloc)?)),
            Value::Fat(a, v) => Ok(Value::Fat(a.duplicate(alloc)?, v.duplicate(alloc)?)),
            Value::Fun(f) => Ok(Value::Fun(f.duplicate(alloc)?)),
            Value::Uninit => Ok(Value::Uninit),
        }
    }
}

/// The same values again.
#[cycle(copies)]
fn duplicate_all<F: Duplicate + Drop, V: Duplicate + Drop>(
    alloc: Global,
    values: &[Value<F, V>],
) -> Result<Values<F, V>, NoMemory>
    ensures { IfOk result (λ copies. copies ≡ values.now) }
{
    let mut copies = Vec::with_capacity(alloc, values.len())?;
    for value in values {
        copies.push(value.duplicate(alloc)?)?;
    }
    Ok(Items::from_vec(copies))
}
