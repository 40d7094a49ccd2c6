ghost use Rattle.std.specs.Prelude.{◌≡◌};
ghost use Rattle.mm_plain.specs.Uses.{path_of};

use mm_terms::{DefId, Text, Tys};
use sqlite_items::Items;

/// A program of one crate.
///
/// Functions, blocks, locals and type parameters are named by their places, from 0. That there is something at a place
/// that is named is not asked here. It is so in a program that was loaded from a text, and a definition over programs
/// says what holds of any other.
#[derive(Drop)]
pub struct Program {
    /// The crate's name.
    pub krate: Text,
    /// The functions in order of definition: the place of each is its `DefId`.
    pub functions: Items<Function>,
    /// The function that a run begins with.
    pub main: DefId,
}

impl Program {
    /// The path of a definition: the names of its crate, of its modules and its own, separated by `::`. It is empty where
    /// there is no such definition.
    pub fn path(&self, def: DefId) -> &[u8]
        ensures { result.now ≡ path_of self.now def }
    {
        match self.functions.get(def.0 as usize) {
            Some(function) => function.path.as_slice(),
            None => &[],
        }
    }
}

/// A function. In its types, parameter i stands for its i-th type parameter.
#[derive(Drop)]
pub struct Function {
    /// Whether other crates can name it.
    pub is_pub: bool,
    /// The crate's name, the modules' names and the function's own name, separated by `::`.
    pub path: Text,
    /// The number of type parameters. A function that has some is generic.
    pub type_params: u32,
    /// The number of parameters, which are the locals from 1 on.
    pub params: u32,
    /// The types of the locals: first that of the result, then those of the parameters, and then those of the others.
    pub locals: Tys,
    /// The body. A run of it begins at block 0.
    pub blocks: Items<Block>,
}

/// A block of a body.
#[derive(Drop)]
pub struct Block {
    /// What is done first, in order.
    pub statements: Items<Statement>,
    /// What is done then, and where the run goes on.
    pub end: End,
}

/// A step of a block before its end.
#[derive(Clone, Copy)]
pub enum Statement {
    /// Makes a value, and then writes it into a place.
    Set(Place, Rvalue),
    /// Prints a number.
    Print(Operand),
}

/// Where a value is kept.
#[derive(Clone, Copy)]
pub struct Place {
    /// The local, among those of the function: 0 is the result.
    pub local: u32,
}

/// How a value is made. Operands are read from left to right.
#[derive(Clone, Copy)]
pub enum Rvalue {
    /// The value of an operand as it is.
    Use(Operand),
    /// The other truth value.
    Not(Operand),
    Binary(Op, Operand, Operand),
}

/// An operation on two values. Both are numbers; `Eq` also takes two truth values.
#[derive(Clone, Copy)]
pub enum Op {
    /// The sum. There is none outside the range of `u64`, and so it is with `Sub` and `Mul`.
    Add,
    /// The first less the second.
    Sub,
    Mul,
    /// The quotient without its remainder. There is none by 0, and so it is with `Rem`.
    Div,
    Rem,
    /// Whether they are equal.
    Eq,
    /// Whether the first is less than the second.
    Lt,
}

/// A value that is read.
#[derive(Clone, Copy)]
pub enum Operand {
    /// The value of a place, which keeps it.
    Copy(Place),
    /// The value of a place, which has none afterwards.
    Move(Place),
    Num(u64),
    Truth(bool),
}

/// The end of a block.
#[derive(Drop)]
pub enum End {
    /// Goes back to the caller with what the result's local has.
    Return,
    /// Says that no run comes here. One that does ends.
    Unreachable,
    /// Goes on at a block.
    Goto(u32),
    /// Goes on at the block of the first arm that has the operand's number, or else at the block that is given last. As a
    /// number, `false` is 0 and `true` is 1.
    Switch(Operand, Items<Arm>, u32),
    /// Calls a function, and goes on when it returns.
    Call(Call),
}

/// An arm of a switch.
#[derive(Clone, Copy)]
pub struct Arm {
    /// The number by which it is chosen.
    pub number: u64,
    /// The block at which the run goes on then.
    pub label: u32,
}

/// A call of a function.
#[derive(Drop)]
pub struct Call {
    /// Where the result is written.
    pub place: Place,
    /// The function that is called.
    pub callee: DefId,
    /// The type arguments of the callee. The caller's type parameters may stand in them.
    pub args: Tys,
    /// What is handed to the callee's parameters, one by one. They are read from left to right.
    pub operands: Items<Operand>,
    /// The block at which the caller goes on.
    pub target: u32,
}

/// How collection is limited.
#[derive(Clone, Copy, Debug, PartialEq, Eq)]
pub struct Opts {
    /// The greatest length of an item: the number of constructors in its types, repeats counted. Any number serves.
    pub length: u32,
    /// The greatest number of items of one crate. Any number serves.
    pub items: u32,
}

impl Default for Opts {
    ghost is_default = { λ opts. (opts.length ≡ 512) × (opts.items ≡ 20000) };

    /// Items up to length 512 and at most 20,000 items a crate, which are this project's own numbers.
    fn default() -> Opts {
        Opts {
            length: 512,
            items: 20_000,
        }
    }
}
