//! Reading tokens into a tree.
#![tactic(auto)]

mod definitions;
mod functions;
mod impls;
mod items;
mod krates;
mod methods;
mod text;

pub use text::{no_fault, one_fault, one_tree, parse, tree_is_written};
