use mm_terms::Text;
use sqlite_items::Items;

/// The names of a path, from the crate's name on.
pub type Segs = Items<Text>;

/// The types of a list, in order.
pub type SymTypes = Items<SymType>;

/// What a symbol says: the item that it names, and the crate for which the item is compiled, where that is reported.
#[derive(Drop)]
pub struct SymbolForm {
    pub item: SymItem,
    pub krate: Option<Text>,
}

/// An item as a symbol names it.
#[derive(Drop)]
pub enum SymItem {
    /// An instance of a function: its path, and its type arguments.
    Fn(Segs, SymTypes),
    /// An instance of a closure's body.
    Closure(Segs, SymTypes),
    /// An instance of a method of an impl.
    Method(SymMethod),
    /// The drop glue of a type.
    Glue(SymType),
    /// The shim by which a function pointer or function item is called as a value.
    Shim(SymType),
    /// A static.
    Static(Segs),
}

/// An instance of a method of an impl, as a symbol names it.
#[derive(Drop)]
pub struct SymMethod {
    /// The self type of the impl.
    pub target: SymType,
    /// The path of the trait; for an impl of `Drop` the one name `Drop`.
    pub tr: Segs,
    /// The trait's type arguments, without the self type.
    pub args: SymTypes,
    /// The name of the method; for an impl of `Drop` it is `drop`.
    pub name: Text,
    /// The method's own type arguments.
    pub own: SymTypes,
}

/// A type as a symbol names it: a head, and the types below it.
#[derive(Drop)]
pub struct SymType {
    pub head: SymHead,
    pub children: Items<SymType>,
}

/// What stands at the head of a type. A definition is named by its path.
#[derive(Drop)]
pub enum SymHead {
    U64,
    Bool,
    Tuple,
    Ref,
    Boxed,
    /// A function pointer; its children are the parameters and then the result.
    FnPtr,
    FnItem(Segs),
    Closure(Segs),
    Dyn(Segs),
    /// A struct or an enum.
    Adt(Segs),
}
