//! What is asked of the head of an impl.
ghost use Rattle.std.specs.List.{list_all, list_any};
ghost use Rattle.std.specs.Prelude.{◌≡◌, ◌∷◌, ◌||◌, ℕ, List, IfOk, OnOk};
ghost use Rattle.mm_mentions.specs.ImplHeads.{adt_path, are_params, head_names_crate, is_drop_target, is_param_head, names_crate, names_crate_here, occurring, occurs_in, written_alone};
ghost use Rattle.mm_mentions.specs.Seen.{names_of};
ghost use Rattle.mm_definitions.specs.Trees.{head_of};

use crate::scope::NameSet;
use indexmap::IndexSet;
use mm_ast::{Head, Name, TraitImpl, Type};
use mm_definitions::path_text;
use mm_terms::{NoMemory, Text};
use std::alloc::Global;

/// Adds the name of a type parameter, where the head is one.
fn gather_head<'a>(head: &'a Head, names: &mut NameSet<'a>) -> Result<(), NoMemory>
    ensures { OnOk result ((q : List ℕ) → names_of names.new q ≡ (names_of names.old q || is_param_head q head.now)) }
{
    let Head::Param(name) = head else {
        return Ok(());
    };
    names.insert(name.as_slice())?;
    Ok(())
}

/// Adds the names of the type parameters that occur in a type.
#[cycle(names)]
fn gather<'a>(ty: &'a Type, names: &mut NameSet<'a>) -> Result<(), NoMemory>
    ensures { OnOk result ((q : List ℕ) → names_of names.new q ≡ (names_of names.old q || occurs_in q ty.now)) }
{
    gather_head(&ty.head, names)?;
    gather_all(ty.children.as_slice(), names)
}

/// Adds the names of the type parameters that occur in these types.
#[cycle(names)]
fn gather_all<'a>(types: &'a [Type], names: &mut NameSet<'a>) -> Result<(), NoMemory>
    ensures { OnOk result ((q : List ℕ) → names_of names.new q ≡ (names_of names.old q || occurring types.now q)) }
{
    for ty in types {
        gather(ty, names)?;
    }
    Ok(())
}

/// The names of the type parameters that occur in the head of an impl: in the self type, or in an argument of the trait.
pub fn occurring<'a>(
    alloc: Global,
    target: &'a Type,
    args: &'a [Type],
) -> Result<NameSet<'a>, NoMemory>
    ensures { IfOk result (λ names. names_of names ≡ occurring (target.now ∷ args.now)) }
{
    let mut names = IndexSet::new(alloc);
    gather(target, &mut names)?;
    gather_all(args, &mut names)?;
    Ok(names)
}

/// Whether a head names a definition of this crate.
fn names_crate_here(krate: &[u8], head: &Head) -> bool
    ensures { result ≡ names_crate_here krate.now head.now }
{
    match head {
        Head::FnItem(path) | Head::Closure(path) | Head::Dyn(path) | Head::Adt(path) => {
            krate == path.krate.as_slice()
        }
        Head::Param(_)
        | Head::SelfType
        | Head::U64
        | Head::Bool
        | Head::Tuple
        | Head::Ref
        | Head::Boxed
        | Head::FnPtr => false,
    }
}

/// Whether a type names a definition of this crate.
#[cycle(crates)]
#[tactic(auto, using(crate::proofs::HeadLemmas::names_crate_parts))]
fn names_crate(krate: &[u8], ty: &Type) -> bool
    ensures { result ≡ names_crate krate.now ty.now }
{
    names_crate_here(krate, &ty.head) || name_crate(krate, ty.children.as_slice())
}

/// Whether one of these types names a definition of this crate.
#[cycle(crates)]
fn name_crate(krate: &[u8], types: &[Type]) -> bool
    ensures { result ≡ list_any (names_crate krate.now) types.now }
{
    for ty in types {
        if names_crate(krate, ty) {
            return true;
        }
    }
    false
}

/// Whether the head of an impl of a trait names a definition of this crate.
#[tactic(auto, unfolding(crate::specs::ImplHeads::head_names_crate))]
pub fn head_names_crate(krate: &[u8], item: &TraitImpl) -> bool
    ensures { result ≡ head_names_crate krate.now item.now }
{
    krate == item.of.path.krate.as_slice()
        || name_crate(krate, item.of.args.as_slice())
        || names_crate(krate, &item.target)
}

/// The names of these types, where they are type parameters.
fn written_alone(alloc: Global, types: &[Type]) -> Result<NameSet<'_>, NoMemory>
    ensures { IfOk result (λ names. names_of names ≡ written_alone types.now) }
{
    let mut names = IndexSet::new(alloc);
    for ty in types {
        gather_head(&ty.head, &mut names)?;
    }
    Ok(names)
}

/// Whether the names of all these type parameters are among names.
fn are_among(names: &NameSet<'_>, params: &[Name]) -> bool
    ensures { result ≡ list_all (λ p. names_of names.now p.text) params.now }
{
    params.iter().all(|p| names.contains(p.text.as_slice()))
}

/// Whether there are as many arguments as type parameters, and each type parameter is an argument.
fn are_params(alloc: Global, params: &[Name], args: &[Type]) -> Result<bool, NoMemory>
    ensures { IfOk result (λ is. is ≡ are_params params.now args.now) }
{
    if args.len() != params.len() {
        return Ok(false);
    }
    let names = written_alone(alloc, args)?;
    Ok(are_among(&names, params))
}

/// Whether a type is a struct or an enum of this crate, and its arguments are these type parameters, each once. Rust
/// asks the same of the self type of `impl Drop`.
#[tactic(auto, unfolding(crate::specs::ImplHeads::is_drop_target))]
pub fn is_drop_target(
    alloc: Global,
    krate: &[u8],
    params: &[Name],
    ty: &Type,
) -> Result<bool, NoMemory>
    ensures { IfOk result (λ is. is ≡ is_drop_target krate.now params.now ty.now) }
{
    let Head::Adt(path) = &ty.head else {
        return Ok(false);
    };
    if krate != path.krate.as_slice() {
        return Ok(false);
    }
    are_params(alloc, params, ty.children.as_slice())
}

/// The path of a type that is a struct or an enum; of all else it is empty.
pub fn adt_path(alloc: Global, ty: &Type) -> Result<Text, NoMemory>
    ensures { IfOk result (λ path. path ≡ adt_path (head_of ty.now)) }
{
    let Head::Adt(path) = &ty.head else {
        return Ok(Text::new(alloc));
    };
    path_text(alloc, path)
}
