//! Words, names and decimal numbers of the text language, over the bytes that spell them.
//!
//! | what | form |
//! |---|---|
//! | name | `_` or a character of Unicode's `XID_Start`, then characters of `XID_Continue`; at most 255 bytes |
//! | word | one of those that [`Word`] lists |
//! | local | `_` and a number up to 65,535 |
//! | label | `bb` and a number up to 65,535 |
//! | number | decimal digits, of which no zero leads another |
//!
//! What is a word, or `_` or `bb` and then only ASCII digits, is no name, and `_` alone is nothing. The
//! characters of names are those of Rust's identifiers (the Rust Reference, "Identifiers"); the rest is this
//! project's own.
#![tactic(auto)]

mod decimals;
mod names;
mod run;
mod word;

pub use decimals::decimal;
pub use names::{is_name, starts_name};
pub use run::{Run, kind_of_run};
pub use word::Word;
