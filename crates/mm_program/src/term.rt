use crate::operand::Callee;
use mm_terms::{DefId, Tys};
use sqlite_items::Items;

/// A constant term: the value of a static or of a constant.
#[derive(Drop)]
pub enum Term {
    Num(u64),
    Truth(bool),
    Tuple(Terms),
    /// A struct, a closure or an enum at its type arguments, as the variant of this number, from these fields.
    New(DefId, Tys, u32, Terms),
    /// A function as a value.
    Fn(Callee),
    /// The address of a static.
    At(DefId),
}

/// A list of terms.
pub type Terms = Items<Term>;
