//! What is mentioned by types.
ghost use Rattle.std.specs.Prelude.{◌≡◌, ◌+◌, ◌++◌, map, sum, length, OnOk, IfOk};
ghost use Rattle.mm_mentions.specs.Seen.{seen};
ghost use Rattle.mm_definitions.specs.Trees.{children_of, head_of, line_of};
ghost use Rattle.mm_mentions.specs.TypeMentions.{constructors, dyn_mentions, head_mentions, names_in, names_in_all, written_type, written_types};

use crate::mention::{Mention, What};
use crate::one_mention::{mention, mention_dyn, mention_path};
use crate::scope::{Scope, has_self, is_param};
use mm_ast::{Head, Path, Type};
use mm_definitions::{Kind, Wanted};
use mm_terms::NoMemory;
use std::alloc::Global;

/// Adds `dyn` and a trait, unless it stands in a where clause.
fn mention_dyn_unless(
    alloc: Global,
    in_where: bool,
    line: u32,
    path: &Path,
    out: &mut Vec<Mention>,
) -> Result<(), NoMemory>
    ensures { OnOk result (out.new.items ≡ out.old.items ++ dyn_mentions in_where line path.now) }
{
    if in_where {
        return Ok(());
    }
    mention_dyn(alloc, line, path, out)
}

/// Adds what stands at the head of a type.
#[tactic(auto, unfolding(crate::specs::TypeMentions::head_mentions))]
fn mention_head(
    alloc: Global,
    in_where: bool,
    scope: &Scope<'_>,
    ty: &Type,
    out: &mut Vec<Mention>,
) -> Result<(), NoMemory>
    ensures { OnOk result (out.new.items ≡ out.old.items ++ head_mentions in_where (seen scope.now) (line_of ty.now) (head_of ty.now) (length (children_of ty.now))) }
{
    let args = ty.children.len();
    match &ty.head {
        Head::Param(name) => {
            let is = is_param(scope, name.as_slice());
            mention(ty.line, What::Scoped(is), out)
        }
        Head::SelfType => mention(ty.line, What::Scoped(has_self(scope)), out),
        Head::U64 | Head::Bool | Head::Tuple | Head::Ref | Head::Boxed | Head::FnPtr => Ok(()),
        Head::FnItem(path) => mention_path(
            alloc,
            Wanted::One(Kind::Function),
            path,
            args,
            None,
            out,
        ),
        Head::Closure(path) => mention_path(
            alloc,
            Wanted::One(Kind::Closure),
            path,
            args,
            None,
            out,
        ),
        Head::Dyn(path) => {
            mention_path(alloc, Wanted::One(Kind::Trait), path, args, None, out)?;
            mention_dyn_unless(alloc, in_where, ty.line, path, out)
        }
        Head::Adt(path) => mention_path(alloc, Wanted::Adt, path, args, None, out),
    }
}

/// Adds the names in a type, which may stand in a where clause.
#[cycle(types)]
#[tactic(auto, using(crate::proofs::TypeLemmas::names_in_parts))]
pub fn mention_names(
    alloc: Global,
    in_where: bool,
    scope: &Scope<'_>,
    ty: &Type,
    out: &mut Vec<Mention>,
) -> Result<(), NoMemory>
    ensures { OnOk result (out.new.items ≡ out.old.items ++ names_in in_where (seen scope.now) ty.now) }
{
    mention_head(alloc, in_where, scope, ty, out)?;
    mention_names_in(alloc, in_where, scope, ty.children.as_slice(), out)
}

/// Adds the names in these types.
#[cycle(types)]
pub fn mention_names_in(
    alloc: Global,
    in_where: bool,
    scope: &Scope<'_>,
    types: &[Type],
    out: &mut Vec<Mention>,
) -> Result<(), NoMemory>
    ensures { OnOk result (out.new.items ≡ out.old.items ++ names_in_all in_where (seen scope.now) types.now) }
{
    for ty in types {
        mention_names(alloc, in_where, scope, ty, out)?;
    }
    Ok(())
}

/// The number of constructors of a type. No memory holds a type of which it does not fit in a `usize`.
#[cycle(lengths)]
#[tactic(auto, using(crate::proofs::TypeLemmas::constructors_parts))]
fn constructors(ty: &Type) -> Result<usize, NoMemory>
    ensures { IfOk result (λ n. n ≡ constructors ty.now) }
{
    let below = constructors_of(ty.children.as_slice())?;
    below.checked_add(1).ok_or(NoMemory)
}

/// The number of constructors of these types together.
#[cycle(lengths)]
pub fn constructors_of(types: &[Type]) -> Result<usize, NoMemory>
    ensures { IfOk result (λ n. n ≡ sum (map constructors types.now)) }
{
    let mut total = 0_usize;
    for ty in types {
        let own = constructors(ty)?;
        total = total.checked_add(own).ok_or(NoMemory)?;
    }
    Ok(total)
}

/// Adds a written type: the names in it, and its length.
#[tactic(auto, unfolding(crate::specs::TypeMentions::written_type))]
pub fn mention_type(
    alloc: Global,
    scope: &Scope<'_>,
    ty: &Type,
    out: &mut Vec<Mention>,
) -> Result<(), NoMemory>
    ensures { OnOk result (out.new.items ≡ out.old.items ++ written_type (seen scope.now) ty.now) }
{
    mention_names(alloc, false, scope, ty, out)?;
    let length = constructors(ty)?;
    mention(ty.line, What::Type(length), out)
}

/// Adds written types.
pub fn mention_types(
    alloc: Global,
    scope: &Scope<'_>,
    types: &[Type],
    out: &mut Vec<Mention>,
) -> Result<(), NoMemory>
    ensures { OnOk result (out.new.items ≡ out.old.items ++ written_types (seen scope.now) types.now) }
{
    for ty in types {
        mention_type(alloc, scope, ty, out)?;
    }
    Ok(())
}
