use crate::value::Value;

/// What an allocation is for.
#[derive(Clone, Copy)]
pub enum BlockKind {
    /// A local of a function that runs.
    Local,
    Boxed,
    Static,
}

/// An allocation with its value.
#[derive(Drop)]
pub struct Allocation<F, V> {
    pub kind: BlockKind,
    pub value: Value<F, V>,
}
