use mm_definitions::Wanted;
use mm_terms::Text;

/// Something that a text mentions, and that a rule of loading asks about.
#[derive(Drop)]
pub struct Mention {
    /// The line that is reported where what it asks for is not so.
    pub line: u32,
    pub what: What,
}

/// A path, with what it asks of the definition that it names.
#[derive(Drop)]
pub struct PathMention {
    pub wanted: Wanted,
    /// The names of the path, separated by `::`; of a variant or a method that of its enum or trait, and its name.
    pub path: Text,
    /// How many type parameters the definition has.
    pub type_args: usize,
    /// How many operands it takes, where operands are written.
    pub operands: Option<usize>,
}

/// The operands of a `new` of a variant.
#[derive(Drop)]
pub struct FieldsMention {
    /// The path of the enum, and the name of the variant.
    pub path: Text,
    /// How many fields the variant has.
    pub operands: usize,
}

/// What is mentioned, and what is asked of it. Where no source is named the rule is this project's own.
#[derive(Drop)]
pub enum What {
    /// A path: a definition of a wanted kind has it, with so many type parameters and operands. Name resolution and
    /// arity, by the Rust Reference.
    Path(PathMention),
    /// The operands of a `new` of a variant: their number alone is asked, since the variant has a mention of its own.
    Fields(FieldsMention),
    /// A type parameter, `Self`, a local or a label: whether its scope has it. Scopes are those of the Rust Reference,
    /// but `Self` is a type inside a trait alone.
    Scoped(bool),
    /// A call through `Call`: the number of its operands.
    Callable(usize),
    /// `dyn` and a trait: the trait is dyn compatible, by the Rust Reference.
    Dyn(Text),
    /// A written type: the number of its constructors, repeats counted.
    Type(usize),
    /// A type parameter of an impl: whether it occurs in the head of the impl, so that it is constrained by the rule of
    /// the Rust Reference.
    ImplParam(bool),
    /// The head of an impl of a trait: whether it names a definition of the crate in which it stands. It is a simple
    /// form of the orphan rule of the Rust Reference.
    Head(bool),
    /// The self type of a Drop impl: whether it is a struct or an enum of the crate in which the impl stands, and its
    /// arguments are the type parameters of the impl, each once. Rust asks the same of an impl of `Drop`.
    DropTarget(bool),
    /// A Drop impl, with the path of its self type: a type has one at most, by the Rust Reference. It is empty where
    /// that is no struct and no enum.
    DropImpl(Text),
}
