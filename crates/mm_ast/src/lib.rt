//! The tree of a text: what is written, before any name is looked up.
//!
//! A tree is the derivation of the tokens by the grammar, typed. It has the text of each name, and the line (from 1) of
//! the first token of each part that a rule of loading may report. What the text leaves out is left out here too:
//! `-> ()` of a signature is the same as no result.
#![tactic(auto)]

mod bodies;
mod items;
mod names;
mod terms;
mod types;

pub use bodies::{
    Arm, Block, Body, Call, CallCallee, Called, Callee, DynTrait, End, Label, Local, MethodCallee,
    New, Op, Operand, Place, Projection, Rvalue, Statement, StaticPlace, Step, Switch,
};
pub use items::{
    Ast, Bound, BoundForm, Closure, Const, Crate, Definition, DefinitionForm, DropImpl, Enum,
    Function, Impl, ImplForm, ImplMethod, Item, ItemForm, Method, Signature, Static, Struct, Trait,
    TraitImpl, Variant,
};
pub use names::{Name, Path, PathWithArgs};
pub use terms::{Term, TermHead};
pub use types::{Head, Type};
