//! Collection: which mono items a program needs.
#![tactic(auto)]

mod closure;
mod collection;
mod fault;
pub mod laws;
mod over;
mod roots;
mod uses;

pub use collection::collect;
pub use fault::CollectFault;

#[cfg(test)]
mod tests;
