//! Programs of the whole language: crates of definitions, with their bodies and terms.
#![tactic(auto)]

mod block;
mod body;
mod kind;
pub mod laws;
mod marking;
mod operand;
mod opts;
mod parts;
mod place;
mod program;
mod statement;
mod tables;
mod term;

pub use block::{Arm, Arms, Block, End};
pub use body::Body;
pub use kind::DefKind;
pub use operand::{Callee, Operand, Ops};
pub use opts::Opts;
pub use parts::{DefPart, Parts};
pub use place::{Base, Place, Step, Steps};
pub use program::Program;
pub use statement::{Op, Rvalue, Statement};
pub use term::{Term, Terms};
