use crate::types::Type;
use mm_terms::Text;
use sqlite_items::Items;

/// A name as it is written: that of a definition, a type parameter, a method or a variant.
#[derive(Drop)]
pub struct Name {
    /// The line of the name, from 1.
    pub line: u32,
    /// The bytes of the name, in UTF-8.
    pub text: Text,
}

/// An absolute path: the name of a crate, and at least one name that follows it.
#[derive(Drop)]
pub struct Path {
    /// The line of its first name.
    pub line: u32,
    /// The name of the crate.
    pub krate: Text,
    /// The names that follow, in their order.
    pub names: Items<Text>,
}

/// A path and the type arguments that follow it, none where no `<` does.
#[derive(Drop)]
pub struct PathWithArgs {
    pub path: Path,
    pub args: Items<Type>,
}
