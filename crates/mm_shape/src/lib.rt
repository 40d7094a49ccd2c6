//! Which tokens spell a tree, wherever they stand, and the shape of a tree.
#![tactic(auto)]

mod laws;

pub use laws::{spelled_again, tree_is_spelled};
