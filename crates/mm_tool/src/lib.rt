//! The program `mono` as a library: its text language, what it refuses, and what it prints.
//!
//! A text goes through [`lex`](lex::lex), [`parse`](parse::parse) and [`load`](load::load) to a program, a text of
//! objects through [`answer_link`] to a run, [`format`](format()) gives the canonical form of a text, and [`tool_one`] does
//! what the words ask for.
#![tactic(auto)]

mod answer;
mod formatting;
pub mod laws;
mod limits;
mod linking;
mod numbers;
mod observation;
mod refusal;
mod text_refusal;
mod tool;
mod words;

pub use answer::{Answer, Product, answer_to, one_meaning, read_program};
pub use formatting::format;
pub use linking::answer_link;
pub use text_refusal::TextRefusal;
pub use tool::{OBJECTS_LIMIT, TEXT_LIMIT, one_report, tool_one};
pub use words::{Command, one_command, read_words};
