//! Readers of bodies: places, operands, values, statements, ends and blocks.
#![tactic(auto)]

mod bodies;
mod ends;
mod operands;
mod places;
mod rvalues;
mod statements;

pub use bodies::body;
