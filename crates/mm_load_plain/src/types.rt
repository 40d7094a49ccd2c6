//! The types of a program, made of those of its tree.
ghost use Rattle.std.specs.Prelude.{◌≡◌, ◌++◌, IfOk, OnOk};
ghost use Rattle.mm_load_plain.specs.Meaning.{index_in, head_in, type_of, types_of, result_of};
ghost use Rattle.mm_load_plain.specs.Names.{look_up};

use crate::name_table::{NameTable, find};
use mm_ast as ast;
use mm_terms::{NoMemory, Ty, TyHead, Tys};
use std::alloc::Global;

/// The index to which a name resolves, or 0.
pub fn index_in(table: &NameTable<'_>, name: &[u8]) -> u32
    ensures { result ≡ index_in (look_up table.now) name.now }
{
    find(table, name).unwrap_or(0)
}

fn load_head(scope: &NameTable<'_>, head: &ast::Head) -> TyHead
    ensures { result ≡ head_in (look_up scope.now) head.now }
{
    match head {
        ast::Head::Param(name) => TyHead::Param(index_in(scope, name.as_slice())),
        ast::Head::U64 => TyHead::U64,
        ast::Head::Bool => TyHead::Bool,
        ast::Head::Ref => TyHead::Ref,
        ast::Head::Boxed => TyHead::Boxed,
        ast::Head::Tuple
        | ast::Head::SelfType
        | ast::Head::FnPtr
        | ast::Head::FnItem(_)
        | ast::Head::Closure(_)
        | ast::Head::Dyn(_)
        | ast::Head::Adt(_) => TyHead::Tuple,
    }
}

/// The type that is written. A head with children that it does not take is no type, and answers out of memory.
pub fn load_type(alloc: Global, scope: &NameTable<'_>, ty: &ast::Type) -> Result<Ty, NoMemory>
    ensures { IfOk result (λ t. t ≡ type_of (look_up scope.now) ty.now) }
{
    let mut children = Vec::new(alloc);
    for child in ty.children.as_slice() {
        children.push(load_type(alloc, scope, child)?)?;
    }
    let head = load_head(scope, &ty.head);
    if !head.takes(children.len()) {
        return Err(NoMemory);
    }
    Ty::from_children(alloc, head, children)
}

/// Adds the types that are written.
#[tactic(auto, unfolding(crate::specs::Meaning::types_of))]
pub fn add_types(
    alloc: Global,
    scope: &NameTable<'_>,
    types: &[ast::Type],
    tys: &mut Tys,
) -> Result<(), NoMemory>
    ensures { OnOk result (tys.new ≡ tys.old ++ types_of (look_up scope.now) types.now) }
{
    for ty in types {
        tys.push(load_type(alloc, scope, ty)?)?;
    }
    Ok(())
}

/// The types that are written.
pub fn load_types(
    alloc: Global,
    scope: &NameTable<'_>,
    types: &[ast::Type],
) -> Result<Tys, NoMemory>
    ensures { IfOk result (λ tys. tys ≡ types_of (look_up scope.now) types.now) }
{
    let mut tys = Tys::new(alloc);
    add_types(alloc, scope, types, &mut tys)?;
    Ok(tys)
}

/// The type of a result. Where none is written it is `()`.
#[tactic(auto, unfolding(crate::specs::Meaning::result_of))]
pub fn load_result(
    alloc: Global,
    scope: &NameTable<'_>,
    ty: &Option<ast::Type>,
) -> Result<Ty, NoMemory>
    ensures { IfOk result (λ t. t ≡ result_of (look_up scope.now) ty.now) }
{
    match ty {
        Some(ty) => load_type(alloc, scope, ty),
        None => Ty::from_children(alloc, TyHead::Tuple, Vec::new(alloc)),
    }
}
