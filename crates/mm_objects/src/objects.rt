use mm_plain::{Arm, Op};
use mm_terms::Text;
use sqlite_items::Items;

/// What a program is compiled to.
///
/// That labels, locals and references name something is not asked here: `AreObjects` of this crate's definitions says
/// which objects have a text, and `Resolve` what a reference names.
#[derive(Drop)]
pub struct Objects {
    /// The symbol of the function that a run begins with.
    pub main: Text,
    pub units: Items<ObjUnit>,
}

/// Definitions that are compiled together.
#[derive(Drop)]
pub struct ObjUnit {
    /// The compiling crate and the unit's own name, as in `app/app.stable`.
    pub name: Text,
    pub defs: Items<ObjDef>,
}

/// A definition of a unit.
#[derive(Drop)]
pub enum ObjDef {
    /// A function.
    Code {
        symbol: Text,
        link: Linkage,
        /// The number of parameters, which are the locals from 1 on.
        params: u32,
        /// The number of locals: the result, the parameters, and the others.
        locals: u32,
        /// The body. A run of it begins at block 0.
        blocks: Items<ObjBlock>,
    },
}

/// Who may refer to a definition.
#[derive(Clone, Copy)]
pub enum Linkage {
    /// Every unit that has no definition of the symbol itself.
    External,
    /// Its own unit alone.
    Internal,
}

/// A block of a body.
#[derive(Drop)]
pub struct ObjBlock {
    /// What is done first, in order.
    pub instrs: Items<ObjInstr>,
    /// What is done then, and where the run goes on.
    pub end: ObjEnd,
}

/// A step of a block before its end.
#[derive(Clone, Copy)]
pub enum ObjInstr {
    /// Makes a value, and then writes it into a place.
    Set(ObjPlace, ObjRvalue),
    /// Prints a number.
    Print(ObjOperand),
}

/// Where a value is kept.
#[derive(Clone, Copy)]
pub struct ObjPlace {
    pub base: ObjBase,
}

/// Where a place begins.
#[derive(Clone, Copy)]
pub enum ObjBase {
    /// A local of the function: 0 is the result.
    Local(u32),
}

/// How a value is made. Operands are read from left to right.
#[derive(Clone, Copy)]
pub enum ObjRvalue {
    /// The value of an operand as it is.
    Use(ObjOperand),
    /// The other truth value.
    Not(ObjOperand),
    Binary(Op, ObjOperand, ObjOperand),
}

/// A value that is read.
#[derive(Clone, Copy)]
pub enum ObjOperand {
    /// The value of a place, which keeps it.
    Copy(ObjPlace),
    /// The value of a place, which has none afterwards.
    Move(ObjPlace),
    Num(u64),
    Truth(bool),
}

/// The end of a block.
#[derive(Drop)]
pub enum ObjEnd {
    /// Goes back to the caller with what the result's local has.
    Return,
    /// Says that no run comes here. One that does ends.
    Unreachable,
    /// Goes on at a block.
    Goto(u32),
    /// Goes on at the block of the first arm that has the operand's number, or else at the block that is given last. As a
    /// number, `false` is 0 and `true` is 1.
    Switch(ObjOperand, Items<Arm>, u32),
    /// Calls a function with operands for its parameters, writes the result into the place, and goes on at the block.
    Call(ObjPlace, ObjCallee, Items<ObjOperand>, u32),
}

/// What is called.
#[derive(Drop)]
pub enum ObjCallee {
    /// The function that a symbol names.
    Fn(Text),
}
