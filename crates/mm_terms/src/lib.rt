//! Types, mono items and the lists that the other crates hand to one another.
#![tactic(auto)]

pub mod closure_laws;
mod head;
mod ids;
mod item;
mod lists;
mod tree;
mod ty;
mod ty_head;

pub use head::Head;
pub use ids::{CrateId, DefId};
pub use item::Item;
pub use lists::{ItemList, NoMemory, Nums, Text, Tys};
pub use tree::Tree;
pub use ty::{Ty, duplicate_all};
pub use ty_head::TyHead;

#[cfg(test)]
mod tests;
