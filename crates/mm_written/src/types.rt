//! Types.
ghost use Rattle.std.specs.List.{list_all};
ghost use Rattle.std.specs.Option.{SomeIff};
ghost use Rattle.std.specs.Prelude.{◌≡◌, ◌+◌, ◌<◌, ◌^◌, ◌&&◌, IsTrue, nat_lt, is_some};
ghost use Rattle.mm_written.specs.Types.{takes, formed, constructors, constructors_in, written_type, written_types, written_result, written_args};

use crate::lists::few;
use mm_ast::{Head, PathWithArgs, Type};

/// Whether a head takes so many children.
fn takes(head: &Head, children: usize) -> bool
    ensures { result ≡ takes head.now children }
{
    match head {
        Head::Param(_) | Head::SelfType | Head::U64 | Head::Bool => children == 0,
        Head::Tuple => children != 1,
        Head::Ref | Head::Boxed => children == 1,
        Head::FnPtr => children != 0,
        Head::FnItem(_) | Head::Closure(_) | Head::Dyn(_) | Head::Adt(_) => true,
    }
}

/// The number of constructors in a type, where each head in it takes as many children as it has, and the number is below
/// 2^32.
#[cycle(types)]
fn counted(ty: &Type) -> Option<u32>
    ensures { SomeIff result (IsTrue (written_type ty.now)) (constructors ty.now) }
{
    let children = ty.children.as_slice();
    if !takes(&ty.head, children.len()) {
        return None;
    }
    total(children)?.checked_add(1)
}

/// The number of constructors in several types together.
#[cycle(types)]
fn total(types: &[Type]) -> Option<u32>
    ensures { SomeIff result (IsTrue (list_all formed types.now) × (constructors_in types.now < 2 ^ 32)) (constructors_in types.now) }
{
    let mut total: u32 = 0;
    for ty in types {
        total = total.checked_add(counted(ty)?)?;
    }
    Some(total)
}

pub fn written_type(ty: &Type) -> bool
    ensures { result ≡ written_type ty.now }
{
    counted(ty).is_some()
}

fn each_type(types: &[Type]) -> bool
    ensures { result ≡ list_all written_type types.now }
{
    types.iter().all(|ty| written_type(ty))
}

#[tactic(auto, unfolding(crate::specs::Types::written_types))]
pub fn written_types(types: &[Type]) -> bool
    ensures { result ≡ written_types types.now }
{
    few(types) && each_type(types)
}

/// The type, where there is one.
pub fn written_result(ty: &Option<Type>) -> bool
    ensures { result ≡ written_result ty.now }
{
    match ty {
        Some(ty) => written_type(ty),
        None => true,
    }
}

/// Whether the types have fewer than 2^32 constructors together with one above them.
fn fits_above(types: &[Type]) -> bool
    ensures { result ≡ (list_all formed types.now && nat_lt (1 + constructors_in types.now) 4294967296) }
{
    match total(types) {
        Some(below) => below < u32::MAX,
        None => false,
    }
}

/// The type arguments behind a path, where one constructor stands over them.
#[tactic(auto, unfolding(crate::specs::Types::written_types), using(crate::proofs::TypeLemmas::below_one))]
pub fn written_below(named: &PathWithArgs) -> bool
    ensures { result ≡ (written_args named.now && nat_lt (1 + constructors_in named.now.args) 4294967296) }
{
    few(named.args.as_slice()) && fits_above(named.args.as_slice())
}

/// The type arguments behind a path.
pub fn written_args(named: &PathWithArgs) -> bool
    ensures { result ≡ written_args named.now }
{
    written_types(named.args.as_slice())
}
