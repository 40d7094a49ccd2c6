use crate::bodies::Callee;
use crate::names::{Name, Path, PathWithArgs};
use sqlite_items::{Boxed, Items};

/// A constant term: the value of a static or of a constant. Its head says how many parts it has.
#[derive(Drop)]
pub struct Term {
    /// The line of its first token.
    pub line: u32,
    pub head: TermHead,
    /// The terms within it: fields of a tuple, a struct or a variant.
    pub parts: Items<Term>,
}

/// What stands at the head of a constant term.
#[derive(Drop)]
pub enum TermHead {
    Number(u64),
    Bool(bool),
    Tuple,
    /// A struct, or with a name that variant of an enum.
    New(Boxed<PathWithArgs>, Option<Name>),
    /// `fn` and a callee: a function as a value.
    Fn(Boxed<Callee>),
    /// `&` and a static: its address.
    At(Boxed<Path>),
}
