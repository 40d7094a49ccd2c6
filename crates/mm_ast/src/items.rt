use crate::bodies::Body;
use crate::names::{Name, PathWithArgs};
use crate::terms::Term;
use crate::types::Type;
use sqlite_items::{Boxed, Items};

/// The tree of a text: its crates, at least one.
#[derive(Drop)]
pub struct Ast {
    pub crates: Items<Crate>,
}

/// A crate.
#[derive(Drop)]
pub struct Crate {
    /// The line of `crate`.
    pub line: u32,
    pub name: Name,
    pub items: Items<Item>,
}

/// A module with its items, an impl, or a definition.
#[derive(Drop)]
pub struct Item {
    /// The line of its first token.
    pub line: u32,
    pub form: ItemForm,
    /// The items of a module; of any other form there are none.
    pub items: Items<Item>,
}

/// What an item is.
#[derive(Drop)]
pub enum ItemForm {
    Module(Name),
    Impl(Boxed<Impl>),
    Definition(Boxed<Definition>),
}

/// A definition, and whether `pub` stands before it.
#[derive(Drop)]
pub struct Definition {
    pub is_pub: bool,
    pub form: DefinitionForm,
}

/// What a definition defines.
#[derive(Drop)]
pub enum DefinitionForm {
    Function(Function),
    Closure(Closure),
    Struct(Struct),
    Enum(Enum),
    Trait(Trait),
    Static(Static),
    Const(Const),
}

/// A function.
#[derive(Drop)]
pub struct Function {
    pub is_inline: bool,
    pub name: Name,
    pub type_params: Items<Name>,
    pub signature: Signature,
    pub bounds: Items<Bound>,
    pub body: Body,
}

/// The types of the parameters, and of the result, if one is written that is not `()`.
#[derive(Drop)]
pub struct Signature {
    pub params: Items<Type>,
    pub result: Option<Type>,
}

/// A closure. Its first local parameter is the closure itself and is not written.
#[derive(Drop)]
pub struct Closure {
    pub name: Name,
    pub type_params: Items<Name>,
    pub captures: Items<Type>,
    pub signature: Signature,
    pub body: Body,
}

/// A struct.
#[derive(Drop)]
pub struct Struct {
    pub name: Name,
    pub type_params: Items<Name>,
    pub fields: Items<Type>,
}

/// An enum.
#[derive(Drop)]
pub struct Enum {
    pub name: Name,
    pub type_params: Items<Name>,
    /// At least one.
    pub variants: Items<Variant>,
}

/// A variant of an enum.
#[derive(Drop)]
pub struct Variant {
    pub name: Name,
    pub fields: Items<Type>,
}

/// A trait.
#[derive(Drop)]
pub struct Trait {
    pub name: Name,
    pub type_params: Items<Name>,
    pub methods: Items<Method>,
}

/// A method of a trait, with its default body if it has one.
#[derive(Drop)]
pub struct Method {
    /// The line of its first token.
    pub line: u32,
    pub is_inline: bool,
    pub name: Name,
    pub type_params: Items<Name>,
    pub signature: Signature,
    pub bounds: Items<Bound>,
    pub body: Option<Body>,
}

/// An impl.
#[derive(Drop)]
pub struct Impl {
    pub type_params: Items<Name>,
    pub form: ImplForm,
}

/// What an impl gives.
#[derive(Drop)]
pub enum ImplForm {
    Drop(DropImpl),
    Trait(TraitImpl),
}

/// `impl Drop for T`: what runs when a value of a type is dropped.
#[derive(Drop)]
pub struct DropImpl {
    pub target: Type,
    pub bounds: Items<Bound>,
    pub is_inline: bool,
    /// The type of the parameter of its method `drop`.
    pub param: Type,
    pub body: Body,
}

/// `impl Trait for T`: the methods of a trait for a type.
#[derive(Drop)]
pub struct TraitImpl {
    /// The trait.
    pub of: PathWithArgs,
    pub target: Type,
    pub bounds: Items<Bound>,
    pub methods: Items<ImplMethod>,
}

/// A method that an impl gives.
#[derive(Drop)]
pub struct ImplMethod {
    /// The line of its first token.
    pub line: u32,
    pub function: Function,
}

/// A static.
#[derive(Drop)]
pub struct Static {
    pub name: Name,
    pub ty: Type,
    pub term: Term,
}

/// A constant.
#[derive(Drop)]
pub struct Const {
    pub name: Name,
    pub type_params: Items<Name>,
    pub ty: Type,
    pub term: Term,
}

/// A bound of `where`.
#[derive(Drop)]
pub struct Bound {
    pub ty: Type,
    pub form: BoundForm,
}

/// What a bound asks of its type: a trait, or that it can be called.
#[derive(Drop)]
pub enum BoundForm {
    Trait(PathWithArgs),
    Call,
}
