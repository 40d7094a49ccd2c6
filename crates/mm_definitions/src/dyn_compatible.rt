//! Which traits are dyn compatible.
ghost use Rattle.std.specs.List.{list_any, list_all};
ghost use Rattle.std.specs.Prelude.{◌≡◌};
ghost use Rattle.mm_definitions.specs.DynCompatible.{dispatches, has_receiver, has_self, is_dyn_compatible, is_dyn_method, is_self_head, is_self_ref};

use mm_ast::{Head, Method, Signature, Type};

/// Whether a head is `Self`.
fn is_self_head(head: &Head) -> bool
    ensures { result ≡ is_self_head head.now }
{
    matches!(head, Head::SelfType)
}

/// Whether `Self` stands somewhere in a type.
#[cycle(types)]
#[tactic(auto, using(crate::proofs::DefinitionLemmas::has_self_parts))]
fn has_self(ty: &Type) -> bool
    ensures { result ≡ has_self ty.now }
{
    is_self_head(&ty.head) || have_self(ty.children.as_slice())
}

/// Whether `Self` stands somewhere in one of these types.
#[cycle(types)]
fn have_self(types: &[Type]) -> bool
    ensures { result ≡ list_any has_self types.now }
{
    for ty in types {
        if has_self(ty) {
            return true;
        }
    }
    false
}

/// Whether a type is `&Self`.
#[tactic(auto, unfolding(crate::specs::DynCompatible::is_self_ref))]
fn is_self_ref(ty: &Type) -> bool
    ensures { result ≡ is_self_ref ty.now }
{
    let Head::Ref = ty.head else {
        return false;
    };
    let Some((first, _)) = ty.children.as_slice().split_first() else {
        return false;
    };
    is_self_head(&first.head)
}

/// Whether the first parameter is `&Self`, and `Self` stands in no other.
fn has_receiver(params: &[Type]) -> bool
    ensures { result ≡ has_receiver params.now }
{
    let Some((first, others)) = params.split_first() else {
        return false;
    };
    is_self_ref(first) && !have_self(others)
}

/// Whether the first parameter is `&Self`, and `Self` stands nowhere else.
#[tactic(auto, unfolding(crate::specs::DynCompatible::dispatches))]
fn dispatches(signature: &Signature) -> bool
    ensures { result ≡ dispatches signature.now }
{
    if !has_receiver(signature.params.as_slice()) {
        return false;
    }
    match &signature.result {
        Some(ty) => !has_self(ty),
        None => true,
    }
}

#[tactic(auto, unfolding(crate::specs::DynCompatible::is_dyn_method))]
fn is_dyn_method(method: &Method) -> bool
    ensures { result ≡ is_dyn_method method.now }
{
    method.type_params.is_empty() && dispatches(&method.signature)
}

/// Whether a trait with these methods is dyn compatible: each can be called through a vtable, by the rule of the Rust
/// Reference. It has no type parameters of its own, its first parameter is `&Self`, and `Self` stands nowhere else in
/// its signature.
#[tactic(auto, unfolding(crate::specs::DynCompatible::is_dyn_compatible))]
pub fn is_dyn_compatible(methods: &[Method]) -> bool
    ensures { result ≡ is_dyn_compatible methods.now }
{
    methods.iter().all(is_dyn_method)
}
