//! Programs, and what is defined of them: which items they need, which they note as too long, and the verdict.
#![tactic(auto)]

mod over;
mod program;

pub use over::Over;
pub use program::{
    Arm, Block, Call, End, Function, Op, Operand, Opts, Place, Program, Rvalue, Statement,
};
