//! The canonical text of tokens and of trees.
#![tactic(auto)]

mod bytes;
mod definitions;
mod functions;
mod gap;
mod impls;
mod items;
mod krates;
mod laws;
mod marks;
mod traits;
mod tree;

pub use bytes::write_canonical;
pub use gap::{Gap, between};
pub use laws::{canonical_again, one_canonical, reads_as, reads_back, text_reads_as, text_spells};
pub use tree::print;
