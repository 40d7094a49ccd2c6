use crate::place::Place;
use mm_terms::{DefId, Head, Ty, Tys};
use sqlite_items::{Boxed, Items};

/// A value that is read.
#[cycle(operand)]
#[derive(Drop)]
pub enum Operand {
    /// The value of a place, which keeps it.
    Copy(Place),
    /// The value of a place, which has none afterwards.
    Move(Place),
    Num(u64),
    Truth(bool),
    /// A constant at its type arguments.
    Const(DefId, Tys),
    /// A function as a value.
    Fn(Boxed<Callee>),
}

/// A list of operands.
pub type Ops = Items<Operand>;

/// A function that is called, or taken as a value.
#[cycle(operand)]
#[derive(Drop)]
pub enum Callee {
    /// A definition at its type arguments.
    Direct(DefId, Tys),
    /// `<T as Trait>::method`: the trait at its types, the self type first; the place of the method in the trait; and the
    /// method's own type arguments.
    Method(Head, u32, Tys),
    /// `<T as Call>::call`.
    Call(Ty),
    /// The slot of this number in the vtable of the first operand. It occurs in drop glue and where an instance was chosen,
    /// and in no program.
    Slot(u32),
    /// What an operand points to.
    Pointer(Boxed<Operand>),
}
