/// What a definition is.
#[derive(Clone, Copy, Debug, PartialEq, Eq)]
pub enum DefKind {
    Fn,
    Closure,
    Struct,
    Enum,
    Trait,
    /// A method of a trait, with or without a body.
    Method,
    /// An impl of a trait.
    Impl,
    /// A method of an impl of a trait, or of an impl of `Drop`.
    ImplMethod,
    /// An impl of `Drop`.
    DropImpl,
    Static,
    Const,
}
