//! Grammars as data: what spells a form, how it is read, and where the first fault stands.
//!
//! A rule of a grammar is one value of the type `Form` of `specs/Forms.antt`. What tokens spell it, what its
//! reader answers, with which tokens it begins and that one token decides are computed from that value, once for
//! all rules; `proofs/FormLaws.antt` proves of each form for which one token decides that what is read is what is
//! spelled, and that the fault is the first. The types here are what a reader answers where nothing is read.
#![tactic(auto)]

mod fault;

pub use fault::{Fault, Stop};
