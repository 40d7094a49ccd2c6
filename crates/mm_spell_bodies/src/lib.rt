//! The tokens of bodies and of constant terms.
#![tactic(auto)]

mod bodies;
mod ends;
mod operands;
mod places;
mod rvalues;
mod terms;

pub use bodies::write_body;
pub use terms::write_term;
