//! Substitution: types put in place of the parameters of other types. It is what turns generic code into its instances.
#![tactic(auto)]

mod bounds;
pub mod laws;
mod substitution;

pub use bounds::params_below;
pub use substitution::{applied_length, apply, apply_all};

#[cfg(test)]
mod tests;
