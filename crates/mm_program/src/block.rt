use crate::operand::{Callee, Operand, Ops};
use crate::place::Place;
use crate::statement::Statement;
use sqlite_items::{Boxed, Items};

/// A basic block.
#[derive(Drop)]
pub struct Block {
    /// What is done first, in order.
    pub statements: Items<Statement>,
    /// What is done then, and where the run goes on.
    pub end: End,
}

/// The terminator of a block. Labels are numbers of blocks of the body.
#[derive(Drop)]
pub enum End {
    /// Goes back to the caller with what the result's local has.
    Return,
    /// Says that no run comes here. One that does ends.
    Unreachable,
    /// Goes on at a block.
    Goto(u32),
    /// Goes on at the block of the first arm that has the operand's number, or else at the block that is given last. As a
    /// number, `false` is 0 and `true` is 1.
    Switch(Operand, Arms, u32),
    /// Calls a function with operands, writes its result into the place, and goes on at the block.
    Call(Place, Boxed<Callee>, Ops, u32),
    /// Drops what the place has, and goes on at the block.
    Drop(Place, u32),
}

/// The arms of a switch.
pub type Arms = Items<Arm>;

/// An arm of a switch.
#[derive(Clone, Copy)]
pub struct Arm {
    /// The number by which it is chosen.
    pub number: u64,
    /// The block at which the run goes on then.
    pub label: u32,
}
