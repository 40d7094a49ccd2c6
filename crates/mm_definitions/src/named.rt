use crate::kinds::Kind;
use mm_terms::{DefId, Text};

/// What has a name that something else can use: a definition that a path names, a variant, or a method of a trait.
#[derive(Drop)]
pub struct Named {
    pub kind: Kind,
    /// The definition: of a variant that of its enum.
    pub def: DefId,
    /// Of a variant its place in its enum, of a method its place in its trait, from 0; of all else 0.
    pub place: u32,
    /// The crate's name, the modules' names and the own name, separated by `::`; of a variant or a method the path of
    /// its enum or trait, and its name.
    pub path: Text,
    /// Whether other crates can name it: `pub` stands before it. A variant and a method follow their enum and trait.
    pub is_pub: bool,
    /// The number of its own type parameters: of a method without those of the trait, of a variant none.
    pub type_params: usize,
    /// How many operands a call or a `new` of it takes: the written parameters of a function or method, the captures of
    /// a closure, the fields of a struct or variant. Of all else 0.
    pub operands: usize,
    /// Of a trait, whether it is dyn compatible; of all else `false`.
    pub is_dyn_compatible: bool,
}
