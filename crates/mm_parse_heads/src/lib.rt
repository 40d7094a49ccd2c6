//! Readers of what stands outside bodies: signatures with their bounds, flags and constant terms.
#![tactic(auto)]

mod flags;
mod signatures;
mod terms;

pub use flags::flag;
pub use signatures::{bounds, signature};
pub use terms::term;
