//! What the tree of a crate defines that something else can name.
//!
//! A definition has a name, a kind and a number in the whole text. The paths of a tree are texts.
#![tactic(auto)]

mod defined;
mod dyn_compatible;
mod form_names;
mod kinds;
mod named;
mod numbered;
mod paths;
mod sizes;

pub use defined::definitions;
pub use kinds::{Kind, Wanted};
pub use named::Named;
pub use numbered::Numbered;
pub use paths::{path_and_name, path_in, path_text};
