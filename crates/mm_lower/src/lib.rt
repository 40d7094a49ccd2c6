//! Types, bodies and constant terms of a text with their names looked up: each definition, type parameter, variant and
//! method by its number.
#![tactic(auto)]

mod bodies;
mod callees;
mod names;
mod params;
mod places;
mod terms;
mod types;

pub use bodies::lower_blocks;
pub use names::Names;
pub use params::{ParamTable, param_table};
pub use terms::lower_term;
pub use types::{add_types, lower_result, lower_trait, lower_type, lower_types};
