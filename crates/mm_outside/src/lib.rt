//! The outside of the program: where bytes come from, where they go, and the gate that a worker passes.
//!
//! A [`Source`] and a [`Sink`] count their failures, so that a caller can say of each answer of failure that a call
//! failed. [`BytesSource`] and [`BytesSink`] stand in memory and fail at chosen calls; [`StdSource`] and
//! [`StdSink`] stand over std's readers and writers. [`read_all`] and [`put_all`] go over whole texts.
#![tactic(auto)]

mod adapters;
mod calls;
mod gates;
mod memory;
mod refusals;
mod streams;
mod whole;

pub use adapters::{StdSink, StdSource};
pub use gates::{Gate, OpenGate};
pub use memory::{BytesSink, BytesSource};
pub use refusals::{Failed, NoMemory, ReadRefusal};
pub use streams::{Sink, Source};
pub use whole::{put_all, read_all};

#[cfg(test)]
mod tests;
