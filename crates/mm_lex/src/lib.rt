//! The tokens of the text language.
//!
//! A text is UTF-8. Its lines are separated by LF and counted from 1; columns count characters from 1.
//! It is made of blanks (space, tab, CR and LF), of comments from `//` to the end of the line or of the text,
//! and of tokens, each taken as long as it can be:
//!
//! | token | form |
//! |---|---|
//! | name | `_` or a character of Unicode's `XID_Start`, then characters of `XID_Continue`; at most 255 bytes |
//! | word | one of those that `mm_names::Word` lists |
//! | local | `_` and a number up to 65,535 |
//! | label | `bb` and a number up to 65,535 |
//! | number | decimal digits, at most 18,446,744,073,709,551,615 |
//! | punctuation | one of those that [`Punct`] lists |
//!
//! No zero leads another digit. What is a word, or `_` or `bb` and then only ASCII digits, is no name,
//! and `_` alone is nothing. A token has its kind and its place, and no text of its own.
#![tactic(auto)]

mod laws;
mod position;
mod prefix;
mod punct;
mod scan;
mod text_fault;
mod token;

pub use laws::{one_lexical_fault, one_reading, tokens_or_fault, tokens_spell};
pub use position::Position;
pub use punct::Punct;
pub use scan::{end_position, lex};
pub use text_fault::{TextFault, TextRule};
pub use token::{Token, TokenKind};

#[cfg(test)]
mod tests;
