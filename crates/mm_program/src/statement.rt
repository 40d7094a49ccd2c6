use crate::operand::{Operand, Ops};
use crate::place::Place;
use mm_terms::{DefId, Ty, Tys};
use sqlite_items::Boxed;

/// A step of a block before its end.
#[derive(Drop)]
pub enum Statement {
    /// Makes a value, and then writes it into the place.
    Set(Place, Boxed<Rvalue>),
    /// Prints a number.
    Print(Operand),
    /// Frees the box at the place. It occurs in drop glue, and in no program.
    Free(Place),
}

/// How a value is made. Operands are read from left to right.
#[derive(Drop)]
pub enum Rvalue {
    /// The value of an operand as it is.
    Use(Operand),
    /// A reference to the place.
    Ref(Place),
    /// The other truth value.
    Not(Operand),
    Binary(Op, Operand, Operand),
    /// The number of the variant that an enum is.
    Variant(Place),
    /// The operand in a new box.
    Boxed(Operand),
    Tuple(Ops),
    /// A struct, a closure or an enum at its type arguments, as the variant of this number, from these fields.
    New(DefId, Tys, u32, Ops),
    /// A pointer, of which the first type is behind it, as a pointer to the second, which is a `dyn` type.
    Dyn(Operand, Boxed<Ty>, Boxed<Ty>),
}

/// An operation on two values. Both are numbers; `Eq` also takes two truth values.
#[derive(Clone, Copy, Debug, PartialEq, Eq)]
pub enum Op {
    /// The sum. There is none outside the range of `u64`, and so it is with `Sub` and `Mul`.
    Add,
    /// The first less the second.
    Sub,
    Mul,
    /// The quotient without its remainder. There is none by 0, and so it is with `Rem`.
    Div,
    Rem,
    /// Whether they are equal.
    Eq,
    /// Whether the first is less than the second.
    Lt,
}
