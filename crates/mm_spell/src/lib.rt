//! The tokens of a tree.
#![tactic(auto)]

pub mod callees;
pub mod names;
mod spelled;
pub mod types;

pub use spelled::Spelled;
