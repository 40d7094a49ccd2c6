/// What can be named by a path, and a variant and a method, which are named by that of their enum or trait and a name.
#[derive(Clone, Copy, Debug, Drop, PartialEq, Eq, Hash)]
pub enum Kind {
    Function,
    Closure,
    Struct,
    Enum,
    Variant,
    Trait,
    Method,
    Static,
    Const,
}

/// Which kinds of definition fit where a path stands.
#[derive(Clone, Copy, Debug, Drop, PartialEq, Eq)]
pub enum Wanted {
    One(Kind),
    /// A struct or an enum: a path that is a type.
    Adt,
    /// A struct or a closure: a path behind `new`, with no variant.
    Whole,
}
