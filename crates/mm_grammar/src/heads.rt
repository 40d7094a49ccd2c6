//! Parts of a text that are read as one and are no part of the tree.

use mm_ast::{Body, Bound, Name, Path, PathWithArgs, Signature, Type};
use sqlite_items::Items;

/// The local or static with which a place begins.
#[derive(Drop)]
pub enum Base {
    /// The local of this number.
    Local(u32),
    Static(Path),
}

/// A method of a trait, as a callee names it.
#[derive(Drop)]
pub struct TraitMethod {
    /// The trait.
    pub of: PathWithArgs,
    pub name: Name,
    /// The type arguments of the method.
    pub args: Items<Type>,
}

/// What stands behind `as` in a callee.
#[derive(Drop)]
pub enum CalledMethod {
    /// A method of a trait.
    Trait(TraitMethod),
    /// `Call` and its method, and the line of `Call`.
    Call(u32),
}

/// What stands before the body of a function.
#[derive(Drop)]
pub struct FnHead {
    pub is_inline: bool,
    pub name: Name,
    pub type_params: Items<Name>,
    pub signature: Signature,
    pub bounds: Items<Bound>,
}

/// What stands before the body of a closure.
#[derive(Drop)]
pub struct ClosureHead {
    pub name: Name,
    pub type_params: Items<Name>,
    pub captures: Items<Type>,
    pub signature: Signature,
}

/// The method of an impl of `Drop`.
#[derive(Drop)]
pub struct DropMethod {
    pub is_inline: bool,
    /// The type of its parameter.
    pub param: Type,
    pub body: Body,
}
