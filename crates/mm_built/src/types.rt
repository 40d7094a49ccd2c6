//! Types.
ghost use Rattle.std.specs.List.{list_all};
ghost use Rattle.std.specs.Option.{option_map_or};
ghost use Rattle.std.specs.Prelude.{◌≡◌, true};
ghost use Rattle.mm_built.specs.Built.{built_head, built_type, built_types};

use mm_ast as ast;

fn built_head(head: &ast::Head) -> bool
    ensures { result ≡ built_head head.now }
{
    match head {
        ast::Head::Param(_)
        | ast::Head::U64
        | ast::Head::Bool
        | ast::Head::Tuple
        | ast::Head::Ref
        | ast::Head::Boxed => true,
        ast::Head::SelfType
        | ast::Head::FnPtr
        | ast::Head::FnItem(_)
        | ast::Head::Closure(_)
        | ast::Head::Dyn(_)
        | ast::Head::Adt(_) => false,
    }
}

/// The head, and the types below it.
#[cycle(types)]
#[tactic(auto, using(crate::proofs::BuiltLemmas::built_type_parts))]
fn built_type(ty: &ast::Type) -> bool
    ensures { result ≡ built_type ty.now }
{
    built_head(&ty.head) && each_type(ty.children.as_slice())
}

#[cycle(types)]
fn each_type(types: &[ast::Type]) -> bool
    ensures { result ≡ list_all built_type types.now }
{
    for ty in types {
        if !built_type(ty) {
            return false;
        }
    }
    true
}

#[tactic(auto, unfolding(crate::specs::Built::built_types))]
pub fn built_types(types: &[ast::Type]) -> bool
    ensures { result ≡ built_types types.now }
{
    each_type(types)
}

pub fn built_result(ty: &Option<ast::Type>) -> bool
    ensures { result ≡ option_map_or built_type ty.now true }
{
    match ty {
        Some(ty) => built_type(ty),
        None => true,
    }
}
