//! The names of mono items: symbols, by which objects refer to them, and the texts of a listing.
#![tactic(auto)]

mod form;
pub mod instances;
mod items;
pub mod laws;
mod listing;
mod of_items;
mod parse_error;
mod pieces;
mod reading;
mod type_texts;
mod types;
mod writing;

pub use form::{Segs, SymHead, SymItem, SymMethod, SymType, SymTypes, SymbolForm};
pub use listing::{item_text, list_items};
pub use of_items::{form_of, symbol};
pub use reading::read_symbol;
pub use type_texts::type_text;
pub use writing::write_symbol;

#[cfg(test)]
mod tests;
