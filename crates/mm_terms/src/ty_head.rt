ghost use Rattle.std.specs.Prelude.{◌↔◌, IsTrue};

use crate::ids::DefId;

/// What stands at the head of a type. Heads are ordered as they are listed here, then by their numbers.
#[derive(Clone, Copy, Debug, PartialEq, Eq, PartialOrd, Ord, Hash)]
pub enum TyHead {
    /// A type parameter, by its place in the list of parameters.
    Param(u32),
    U64,
    Bool,
    Tuple,
    Ref,
    Boxed,
    /// A function pointer; its children are the parameters and then the result.
    FnPtr,
    FnItem(DefId),
    Closure(DefId),
    Dyn(DefId),
    /// A struct or an enum.
    Adt(DefId),
}

impl TyHead {
    ghost use Rattle.mm_terms.specs.Formed.{FitsHead};

    /// Whether the head may have so many children.
    pub fn takes(self, arity: usize) -> bool
        ensures { IsTrue result ↔ FitsHead self arity }
    {
        match self {
            TyHead::Param(_) | TyHead::U64 | TyHead::Bool => arity == 0,
            TyHead::Ref | TyHead::Boxed => arity == 1,
            TyHead::Tuple => arity != 1,
            TyHead::FnPtr => arity != 0,
            TyHead::FnItem(_) | TyHead::Closure(_) | TyHead::Dyn(_) | TyHead::Adt(_) => true,
        }
    }
}
