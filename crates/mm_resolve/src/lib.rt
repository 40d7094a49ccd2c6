//! Names: what a path resolves to, and which names have to differ and do not.
#![tactic(auto)]

mod double_name;
mod has_name;
mod index;
mod item_names;
mod names_seen;
mod scope_table;

pub use double_name::doubled;
pub use names_seen::repeated;
pub use scope_table::ScopeTable;
