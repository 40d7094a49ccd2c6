//! What the tree of a crate mentions.
//!
//! A mention asks something of a name, a scope or a type. So the rules of loading are tests on a list, and the tree is
//! gone through once.
#![tactic(auto)]

mod blocks;
mod callees;
mod frame;
mod functions;
mod impl_heads;
mod impls;
mod items;
mod mention;
mod one_mention;
mod operands;
mod scope;
mod terms;
mod types;

pub use items::mentions;
pub use mention::{FieldsMention, Mention, PathMention, What};
