ghost use Rattle.std.specs.Prelude.{◌≡◌, ◌++◌, flat_map};
ghost use Rattle.std.specs.Option.{option_copied};
ghost use Rattle.mm_program.specs.Marks.{marked};
ghost use Rattle.mm_program.specs.Naming.{named_by, named_in_type, named_in_types, named_in_head, names_if};

use super::mark;
use mm_terms::{Head, Tree, Ty, TyHead};

fn mark_ty_head(marks: &mut [bool], head: TyHead)
    ensures { marks.new ≡ marked marks.old (named_by head) }
{
    match head {
        TyHead::FnItem(d) | TyHead::Closure(d) | TyHead::Dyn(d) | TyHead::Adt(d) => mark(marks, d),
        _ => {}
    }
}

#[tactic(auto, using(crate::proofs::MarkLemmas::marked_append, crate::proofs::MarkLemmas::type_names))]
pub(crate) fn mark_tree(marks: &mut [bool], tree: &Tree)
    ensures { marks.new ≡ marked marks.old (named_in_type tree.now) }
{
    mark_ty_head(marks, tree.head);
    for child in tree.children.as_slice() {
        mark_tree(marks, child);
    }
}

pub(crate) fn mark_types(marks: &mut [bool], types: &[Ty])
    ensures { marks.new ≡ marked marks.old (named_in_types types.now) }
{
    for ty in types {
        mark_tree(marks, ty.as_tree());
    }
}

pub(crate) fn mark_type_if(marks: &mut [bool], ty: Option<&Ty>)
    ensures { marks.new ≡ marked marks.old (names_if named_in_type (option_copied ty.entry)) }
{
    if let Some(ty) = ty {
        mark_tree(marks, ty.as_tree());
    }
}

pub(crate) fn mark_head(marks: &mut [bool], head: &Head)
    ensures { marks.new ≡ marked marks.old (named_in_head head.now) }
{
    mark(marks, head.tr);
    mark_types(marks, head.args.as_slice());
}

pub(crate) fn mark_heads(marks: &mut [bool], heads: &[Head])
    ensures { marks.new ≡ marked marks.old (flat_map named_in_head heads.now) }
{
    for head in heads {
        mark_head(marks, head);
    }
}

pub(crate) fn mark_head_if(marks: &mut [bool], head: Option<&Head>)
    ensures { marks.new ≡ marked marks.old (names_if named_in_head (option_copied head.entry)) }
{
    if let Some(head) = head {
        mark_head(marks, head);
    }
}
