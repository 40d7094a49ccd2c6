//! Linking: what each reference of some objects names.
#![tactic(auto)]

mod clash;
mod fault;
mod image;
mod index;
pub mod laws;
mod references;
mod verdict;

pub use fault::LinkFault;
pub use image::Image;
pub use verdict::link;

#[cfg(test)]
mod tests;
