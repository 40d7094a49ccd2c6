//! Rules on the tree of a text: which of them what its crates mention breaks, and the first of several faults.
#![tactic(auto)]

mod drop_targets;
mod fault;
pub mod laws;
mod main_rule;
mod mention_rules;
mod order;
mod tree_faults;

pub use fault::{CrateRule, Fault};
pub use tree_faults::{all_definitions, check};
