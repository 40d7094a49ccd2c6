use crate::value::Address;

/// The allocations of the locals of a function that runs: local k has the number `first + k`.
#[derive(Clone, Copy)]
pub struct LocalRange {
    /// The number of the first allocation.
    pub first: u64,
    /// How many locals there are.
    pub count: u64,
}

/// A function that runs.
#[derive(Drop)]
pub struct Frame<F> {
    pub function: F,
    /// The index of the block of code where the run is.
    pub block: u32,
    /// The index of a statement in it, or the number of statements at the end.
    pub index: usize,
    pub locals: LocalRange,
}

/// A function that waits for the return of one that it called.
#[derive(Drop)]
pub struct Caller<F> {
    /// The function, which goes on there.
    pub frame: Frame<F>,
    /// Where the result is written.
    pub dest: Address,
}
