//! Types with their names looked up.
ghost use Rattle.std.specs.Prelude.{◌≡◌, ◌++◌, IfOk, OnOk};
ghost use Rattle.mm_lower.specs.Params.{self_name};
ghost use Rattle.mm_lower.specs.Seen.{params, paths};
ghost use Rattle.mm_terms.specs.Tree.{node};
ghost use Rattle.mm_lower.specs.Types.{head_of, type_of, types_of, dyn_type_of, result_of, trait_of};

use crate::names::{Names, def_of, number_of};
use mm_ast as ast;
use mm_definitions::{Kind, Wanted};
use mm_terms::{Head, NoMemory, Ty, TyHead, Tys};
use sqlite_items::Items;
use std::alloc::Global;

#[tactic(auto, unfolding(crate::specs::Types::head_of))]
fn lower_head(alloc: Global, names: &Names<'_>, head: &ast::Head) -> Result<TyHead, NoMemory>
    ensures { IfOk result (λ h. h ≡ head_of (paths names.now) (params names.now) head.now) }
{
    match head {
        ast::Head::Param(name) => Ok(TyHead::Param(number_of(names, name.as_slice()))),
        ast::Head::SelfType => Ok(TyHead::Param(number_of(names, b"Self".as_slice()))),
        ast::Head::U64 => Ok(TyHead::U64),
        ast::Head::Bool => Ok(TyHead::Bool),
        ast::Head::Tuple => Ok(TyHead::Tuple),
        ast::Head::Ref => Ok(TyHead::Ref),
        ast::Head::Boxed => Ok(TyHead::Boxed),
        ast::Head::FnPtr => Ok(TyHead::FnPtr),
        ast::Head::FnItem(path) => {
            let wanted = Wanted::One(Kind::Function);
            Ok(TyHead::FnItem(def_of(alloc, names, wanted, path)?))
        }
        ast::Head::Closure(path) => {
            let wanted = Wanted::One(Kind::Closure);
            Ok(TyHead::Closure(def_of(alloc, names, wanted, path)?))
        }
        ast::Head::Dyn(path) => {
            let wanted = Wanted::One(Kind::Trait);
            Ok(TyHead::Dyn(def_of(alloc, names, wanted, path)?))
        }
        ast::Head::Adt(path) => Ok(TyHead::Adt(def_of(alloc, names, Wanted::Adt, path)?)),
    }
}

/// The type over these children. A head with children that it does not take is no type, and answers out of memory.
fn type_over(alloc: Global, head: TyHead, children: Vec<Ty>) -> Result<Ty, NoMemory>
    ensures { IfOk result (λ t. t ≡ node head children.items) }
{
    if !head.takes(children.len()) {
        return Err(NoMemory);
    }
    Ty::from_children(alloc, head, children)
}

/// The type that is written.
///
/// # Errors
///
/// Out of memory. That is also the answer where a head has children that it does not take, as a tuple of one type, and
/// where the type has 2^32 constructors or more: no text has such types.
#[cycle(types)]
pub fn lower_type(alloc: Global, names: &Names<'_>, ty: &ast::Type) -> Result<Ty, NoMemory>
    ensures { IfOk result (λ t. t ≡ type_of (paths names.now) (params names.now) ty.now) }
{
    let head = lower_head(alloc, names, &ty.head)?;
    let mut children = Vec::new(alloc);
    add_types(alloc, names, ty.children.as_slice(), &mut children)?;
    type_over(alloc, head, children)
}

/// Adds the types that are written.
#[cycle(types)]
pub fn add_types(
    alloc: Global,
    names: &Names<'_>,
    types: &[ast::Type],
    tys: &mut Vec<Ty>,
) -> Result<(), NoMemory>
    ensures { OnOk result (tys.new.items ≡ tys.old.items ++ types_of (paths names.now) (params names.now) types.now) }
{
    for ty in types {
        tys.push(lower_type(alloc, names, ty)?)?;
    }
    Ok(())
}

/// The types that are written.
pub fn lower_types(alloc: Global, names: &Names<'_>, types: &[ast::Type]) -> Result<Tys, NoMemory>
    ensures { IfOk result (λ tys. tys ≡ types_of (paths names.now) (params names.now) types.now) }
{
    let mut tys = Vec::new(alloc);
    add_types(alloc, names, types, &mut tys)?;
    Ok(Items::from_vec(tys))
}

/// `dyn` and a trait, as a type.
#[tactic(auto, unfolding(crate::specs::Types::dyn_type_of))]
pub fn lower_dyn(alloc: Global, names: &Names<'_>, to: &ast::DynTrait) -> Result<Ty, NoMemory>
    ensures { IfOk result (λ t. t ≡ dyn_type_of (paths names.now) (params names.now) to.now) }
{
    let def = def_of(alloc, names, Wanted::One(Kind::Trait), &to.of.path)?;
    let mut args = Vec::new(alloc);
    add_types(alloc, names, to.of.args.as_slice(), &mut args)?;
    type_over(alloc, TyHead::Dyn(def), args)
}

/// The type of a result. Where none is written it is `()`.
#[tactic(auto, unfolding(crate::specs::Types::result_of))]
pub fn lower_result(
    alloc: Global,
    names: &Names<'_>,
    ty: &Option<ast::Type>,
) -> Result<Ty, NoMemory>
    ensures { IfOk result (λ t. t ≡ result_of (paths names.now) (params names.now) ty.now) }
{
    match ty {
        Some(ty) => lower_type(alloc, names, ty),
        None => Ty::from_children(alloc, TyHead::Tuple, Vec::new(alloc)),
    }
}

/// A trait at its types, of which the self type is the first.
#[tactic(auto, unfolding(crate::specs::Types::trait_of))]
pub fn lower_trait(
    alloc: Global,
    names: &Names<'_>,
    self_type: &ast::Type,
    named: &ast::PathWithArgs,
) -> Result<Head, NoMemory>
    ensures { IfOk result (λ h. h ≡ trait_of (paths names.now) (params names.now) self_type.now named.now) }
{
    let tr = def_of(alloc, names, Wanted::One(Kind::Trait), &named.path)?;
    let mut args = Vec::new(alloc);
    args.push(lower_type(alloc, names, self_type)?)?;
    add_types(alloc, names, named.args.as_slice(), &mut args)?;
    let args = Items::from_vec(args);
    Ok(Head { tr, args })
}
