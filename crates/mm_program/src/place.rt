use mm_terms::DefId;
use sqlite_items::Items;

/// Where a value is kept: a local or a static, and the way from it to a part of it. This is rustc's place (the
/// rustc-dev-guide, "The MIR").
#[derive(Drop)]
pub struct Place {
    pub base: Base,
    pub steps: Steps,
}

/// Where a place begins.
#[derive(Clone, Copy)]
pub enum Base {
    /// A local of the body, by its number: 0 is the result, then come the parameters, and then the others.
    Local(u32),
    Static(DefId),
}

/// The way from a base, outermost step first.
pub type Steps = Items<Step>;

/// A projection: one step into a value.
#[derive(Clone, Copy)]
pub enum Step {
    /// The field of this number, from 0.
    Field(u32),
    /// What a reference or a box points to.
    Deref,
    /// An enum as its variant of this number, from 0.
    Variant(u32),
}
