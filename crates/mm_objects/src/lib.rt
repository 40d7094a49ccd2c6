//! Objects: what a program is compiled to, in units of definitions that name one another by symbols.
#![tactic(auto)]

mod fault;
pub mod laws;
mod line_error;
mod lines;
mod number;
mod objects;
mod pieces;
mod progress;
mod reading;
mod steps;
mod target;
mod unit_name;
mod words;
mod writing;

pub use fault::ObjFault;
pub use objects::{
    Linkage, ObjBase, ObjBlock, ObjCallee, ObjDef, ObjEnd, ObjInstr, ObjOperand, ObjPlace,
    ObjRvalue, ObjUnit, Objects,
};
pub use reading::read_objects;
pub use target::{Clash, Linked, Target, VtableId};
pub use writing::write_objects;

#[cfg(test)]
mod tests;
