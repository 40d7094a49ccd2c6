//! The emitter: what the mono items of a program are compiled to.
#![tactic(auto)]

mod bodies;
mod definitions;
mod emission;
pub mod laws;

pub use emission::emit_one;
