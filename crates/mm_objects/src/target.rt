use crate::objects::Objects;
use mm_terms::Text;

/// A definition of some objects, by its indices in them.
#[derive(Clone, Copy)]
pub struct Target {
    /// The index of the unit, from 0.
    pub unit: u32,
    /// The index of the definition in its unit, from 0.
    pub def: u32,
}

/// A table of methods of some objects.
#[derive(Clone, Copy)]
pub struct VtableId {
    /// The index of the unit, from 0.
    pub unit: u32,
    /// The index of the table in its unit, from 0.
    pub vtable: u32,
}

/// Two definitions of one symbol, of which a reference could name either.
#[derive(Drop)]
pub struct Clash {
    pub symbol: Text,
    /// The definition that is earlier in the text.
    pub first: Target,
    pub second: Target,
}

/// Objects, and the definition that a run of them begins with.
#[derive(Drop)]
pub struct Linked {
    pub objects: Objects,
    pub main: Target,
}
