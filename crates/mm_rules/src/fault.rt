ghost use Rattle.std.specs.Prelude.{◌≡◌};
ghost use Rattle.mm_rules.specs.Faults.{place_of};

/// A rule on a tree. They are asked in this order.
#[derive(Clone, Copy, Debug, PartialEq, Eq)]
pub enum CrateRule {
    /// A path names a definition of the kind wanted, in its own crate or in an earlier one; a type parameter, `Self`, a
    /// local and a label are in scope; a variant is of its enum and a method of its trait.
    UnknownName,
    /// What a path names in an earlier crate is `pub`.
    PrivateName,
    /// Names differ: of crates, of the definitions and modules of a module, of type parameters in scope together, of the
    /// variants of an enum, of the methods of a trait or impl.
    DoubleName,
    /// There are as many type arguments, operands, fields and parameters as what is named has.
    WrongArity,
    /// The last crate has at its top a function `main` without type parameters and parameters, which is not `inline`.
    BadMain,
    /// Each type parameter of an impl occurs in its head.
    FreeParam,
    /// The self type of a Drop impl is a struct or enum of its crate at the impl's own parameters, each once, and no type
    /// has two.
    BadDropImpl,
    /// No types fit the heads of two impls of one trait. It is not asked yet.
    Overlap,
    /// The head of a trait impl names a definition of its own crate.
    Orphan,
    /// The trait of a `dyn` is dyn compatible.
    NotDyn,
    /// Each place has a type. It is not asked yet.
    BadPlace,
    /// A constant term fits its type. It is not asked yet.
    BadConst,
    /// A written type has at most 2,048 constructors, repeats counted.
    LongType,
}

impl CrateRule {
    /// Its place among the rules.
    pub(crate) fn place(self) -> u8
        ensures { result ≡ place_of self }
    {
        self as u8
    }
}

/// A rule that fails, and a line where it does.
#[derive(Clone, Copy, Debug, PartialEq, Eq)]
pub struct Fault {
    pub rule: CrateRule,
    /// From 1.
    pub line: u32,
}
