use crate::names::{Name, Path, PathWithArgs};
use crate::types::Type;
use sqlite_items::{Boxed, Items};

/// The body of a function, method or closure.
#[derive(Drop)]
pub struct Body {
    /// The types of the locals that follow the parameters, in the order of their numbers.
    pub lets: Items<Type>,
    /// The blocks, in the order of their labels; at least one.
    pub blocks: Items<Block>,
}

/// A basic block.
#[derive(Drop)]
pub struct Block {
    pub statements: Items<Statement>,
    pub end: End,
}

/// A statement.
#[derive(Drop)]
pub enum Statement {
    Set(Place, Rvalue),
    Print(Operand),
}

/// The terminator of a block.
#[derive(Drop)]
pub enum End {
    Return,
    Unreachable,
    Goto(Label),
    Switch(Boxed<Switch>),
    Call(Boxed<Call>),
    Drop(Place, Label),
}

/// A jump by the value of an operand.
#[derive(Drop)]
pub struct Switch {
    pub operand: Operand,
    pub arms: Items<Arm>,
    /// The label after `else`.
    pub otherwise: Label,
}

/// The number that an arm of a switch is for, and its target.
#[derive(Clone, Copy, Drop)]
pub struct Arm {
    pub number: u64,
    pub label: Label,
}

/// A call, whose result goes to a place.
#[derive(Drop)]
pub struct Call {
    pub place: Place,
    pub called: Called,
    pub operands: Items<Operand>,
    /// The block that goes on after the call.
    pub target: Label,
}

/// What a call calls: a callee by its name, or the function that an operand points to.
#[derive(Drop)]
pub enum Called {
    Callee(Callee),
    Pointer(Operand),
}

/// A function by its name.
#[derive(Drop)]
pub enum Callee {
    /// A function.
    Direct(PathWithArgs),
    /// `<T as Trait>::method`.
    Method(MethodCallee),
    /// `<T as Call>::call`.
    Call(CallCallee),
}

/// What runs when a value of a type is called.
#[derive(Drop)]
pub struct CallCallee {
    pub self_type: Type,
    /// The line of `Call`.
    pub line: u32,
}

/// A method of a trait for a type.
#[derive(Drop)]
pub struct MethodCallee {
    pub self_type: Type,
    /// The trait.
    pub of: PathWithArgs,
    pub name: Name,
    /// The type arguments of the method.
    pub args: Items<Type>,
}

/// A MIR place: a local or a static, and the projections from it.
#[derive(Drop)]
pub enum Place {
    /// A local alone.
    Local(Local),
    /// A projection from a local.
    Projection(Boxed<Projection>),
    /// A static, and the projections from it.
    Static(Boxed<StaticPlace>),
}

/// A local.
#[derive(Clone, Copy, Drop)]
pub struct Local {
    /// The line of the local.
    pub line: u32,
    /// 0 is the result, then the parameters, then the locals of `let`.
    pub number: u32,
}

/// A local, and the projections from it: at least one.
#[derive(Drop)]
pub struct Projection {
    pub local: Local,
    pub first: Step,
    /// The projections behind the first.
    pub others: Items<Step>,
}

/// A static, and the projections from it.
#[derive(Drop)]
pub struct StaticPlace {
    /// The line of `static`.
    pub line: u32,
    pub path: Path,
    pub steps: Items<Step>,
}

/// A projection.
#[derive(Drop)]
pub enum Step {
    /// The field of this number, from 0.
    Field(u64),
    /// What a reference or a box refers to.
    Deref,
    /// The variant of this name of an enum.
    Variant(Name),
}

/// An operand.
#[derive(Drop)]
pub enum Operand {
    Copy(Boxed<Place>),
    Move(Boxed<Place>),
    Number(u64),
    Bool(bool),
    Const(Boxed<PathWithArgs>),
    /// A function as a value.
    Fn(Boxed<Callee>),
}

/// An operation on two operands.
#[derive(Clone, Copy, Debug, Drop, PartialEq, Eq)]
pub enum Op {
    Add,
    Sub,
    Mul,
    Div,
    Rem,
    Eq,
    Lt,
}

/// The value that a statement gives to a place.
#[derive(Drop)]
pub enum Rvalue {
    Use(Operand),
    /// The address of a place.
    Ref(Boxed<Place>),
    Not(Operand),
    Binary(Op, Boxed<Operand>, Boxed<Operand>),
    /// The number of the active variant of an enum.
    Variant(Boxed<Place>),
    /// The operand in a new box.
    Boxed(Operand),
    Tuple(Items<Operand>),
    New(Boxed<New>),
    /// `dyncast`: the operand, of which this is the type behind the pointer, as a pointer to `dyn` of a trait.
    Dyn(Boxed<Operand>, Boxed<Type>, Boxed<DynTrait>),
}

/// A struct, a closure, or a variant of an enum, with its fields.
#[derive(Drop)]
pub struct New {
    pub of: PathWithArgs,
    /// The variant of an enum.
    pub variant: Option<Name>,
    pub operands: Items<Operand>,
}

/// `dyn` and a trait.
#[derive(Drop)]
pub struct DynTrait {
    /// The line of `dyn`.
    pub line: u32,
    pub of: PathWithArgs,
}

/// The label of a block.
#[derive(Clone, Copy, Drop)]
pub struct Label {
    /// The line of the label.
    pub line: u32,
    /// The number of the block, from 0.
    pub number: u32,
}
