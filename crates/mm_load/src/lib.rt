//! The program that a text means, and that it is a program where the text keeps the rules.
#![tactic(auto)]

pub mod laws;
