//! The machines: what a program does, and what an image of objects does, step by step.
#![tactic(auto)]

mod allocation;
mod duplicate;
mod frame;
pub mod laws;
mod memory;
mod trap;
mod value;

pub use allocation::{Allocation, BlockKind};
pub use duplicate::Duplicate;
pub use frame::{Caller, Frame, LocalRange};
pub use memory::Memory;
pub use trap::{Ended, Halt, Obs, Trap};
pub use value::{Address, Part, Route, Value, Values};

#[cfg(test)]
mod tests;
