use crate::body::Body;
use crate::kind::DefKind;
use crate::term::Term;
use mm_terms::{CrateId, DefId, Head, Text, Ty, Tys};
use sqlite_items::Items;

/// What a program is made of, and what contracts see of it.
#[derive(Drop)]
pub struct Parts {
    /// The names of the crates, in the order of the text.
    pub crates: Items<Text>,
    /// The texts of the modules: the crate's name and the names of modules, separated by `::`.
    pub modules: Items<Text>,
    /// The function that a run begins with.
    pub main: DefId,
    /// The definitions. The place of each is its `DefId`.
    pub defs: Items<DefPart>,
}

/// A definition. A list that does not concern its kind is empty. In its types, parameter i stands for its i-th type parameter.
#[derive(Drop)]
pub struct DefPart {
    pub kind: DefKind,
    pub krate: CrateId,
    /// The module and the definition's name, separated by `::`. The path of a method of a trait impl is that of the trait's
    /// method that it gives. The path of a method of a Drop impl is `Drop::drop`, and an impl has the empty path.
    pub path: Text,
    /// The place of its module among the modules.
    pub module: u32,
    /// Whether other crates can name it.
    pub is_pub: bool,
    /// Whether it is made wherever it is used.
    pub is_inline: bool,
    /// The number of type parameters: of a trait with `Self`, which is the first, and of a method with those of its trait or
    /// impl, which come first.
    pub type_params: u32,
    /// The trait, impl or Drop impl of a method.
    pub parent: Option<DefId>,
    /// The types of the fields: one list of a struct or closure, and of an enum one list for each variant.
    pub fields: Items<Tys>,
    /// Of a trait impl: the trait at its types.
    pub head: Option<Head>,
    /// The methods of a trait, trait impl or Drop impl.
    pub methods: Items<DefId>,
    /// The Drop impl of a struct or enum, where there is one.
    pub drop_impl: Option<DefId>,
    /// The self type of a Drop impl.
    pub drop_self: Option<Ty>,
    /// The types of the parameters of a function, method or closure. A closure's first parameter is a reference to its type.
    pub params: Tys,
    /// The type of the result of a function, method or closure, and the type of a static or constant.
    pub result: Option<Ty>,
    /// The value of a static or constant.
    pub term: Option<Term>,
    /// The bounds behind `where`. A bound by `Call` is not among them.
    pub bounds: Items<Head>,
    pub body: Option<Body>,
}
