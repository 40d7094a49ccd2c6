//! The grammar of the text language as data, its laws, and the readers of names, types and callees.
#![tactic(auto)]

pub mod callees;
pub mod constructed;
pub mod cursor;
pub mod heads;
pub mod names;
mod nested_types;
pub mod pieces;
pub mod sequences;
pub mod types;
