use crate::names::Path;
use mm_terms::Text;
use sqlite_items::Items;

/// A type as it is written. Its head says how many children it has.
#[derive(Drop)]
pub struct Type {
    /// The line of its first token.
    pub line: u32,
    pub head: Head,
    /// The types within it: type arguments, fields of a tuple, the target of a reference or box; of `fnptr` the
    /// parameters and then the result.
    pub children: Items<Type>,
}

/// What stands at the head of a type.
#[derive(Drop)]
pub enum Head {
    /// A type parameter: one name alone.
    Param(Text),
    /// `Self`.
    SelfType,
    U64,
    Bool,
    /// `()`, or a tuple of two types or more.
    Tuple,
    /// `&T`.
    Ref,
    /// `Box<T>`.
    Boxed,
    /// `fnptr(..) -> T`.
    FnPtr,
    /// `fnitem` and a function: the type of one function.
    FnItem(Path),
    /// `closure` and a closure: the type of that closure.
    Closure(Path),
    /// `dyn` and a trait.
    Dyn(Path),
    /// A struct or an enum.
    Adt(Path),
}
