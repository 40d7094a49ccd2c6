/// The rules that a tree has to keep, in the order in which they are asked.
#[derive(Clone, Copy, PartialEq, Eq)]
pub enum Rule {
    /// Each path resolves to a function of the crate, each type that is one name is a type parameter of its function, and
    /// each local and each label is of its body: the locals are the result, the parameters and those of its `let`s.
    UnknownName,
    /// No function or module has the name of an earlier one in its module or, at the top, of the crate, and no type
    /// parameter that of an earlier one of its function.
    DoubleName,
    /// A call has as many type arguments and operands as its callee has type parameters and parameters.
    WrongArity,
    /// The crate has at its top a function `main` without type parameters and parameters.
    BadMain,
    /// A written type has at most 2,048 constructors, repeats counted.
    LongType,
}
