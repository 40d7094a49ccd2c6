ghost use Rattle.std.specs.Prelude.{◌≡◌, flat_map, cond, []};
ghost use Rattle.mm_program.specs.Marks.{marked};
ghost use Rattle.mm_program.specs.Naming.{named_in_body, named_in_types, named_in_signature, named_outside_in, names_if, is_made_elsewhere, written_params};

use super::bodies::mark_body_if;
use super::terms::mark_term_if;
use super::types::{mark_head_if, mark_heads, mark_type_if, mark_types};
use crate::kind::DefKind;
use crate::parts::DefPart;
use mm_terms::{Ty, Tys};

fn mark_variants(marks: &mut [bool], variants: &[Tys])
    ensures { marks.new ≡ marked marks.old (flat_map named_in_types variants.now) }
{
    for fields in variants {
        mark_types(marks, fields.as_slice());
    }
}

/// The parameters that a text writes.
fn written(part: &DefPart) -> &[Ty]
    ensures { result.now ≡ written_params part.now.kind part.now.params }
{
    let params = part.params.as_slice();
    match part.kind {
        DefKind::Closure => match params.split_first() {
            Some((_, others)) => others,
            None => params,
        },
        _ => params,
    }
}

#[tactic(auto, using(crate::proofs::MarkLemmas::marked_append))]
fn mark_signature(marks: &mut [bool], part: &DefPart)
    ensures { marks.new ≡ marked marks.old (named_in_signature part.now) }
{
    mark_variants(marks, part.fields.as_slice());
    mark_head_if(marks, part.head.as_ref());
    mark_type_if(marks, part.drop_self.as_ref());
    mark_types(marks, written(part));
    mark_type_if(marks, part.result.as_ref());
    mark_heads(marks, part.bounds.as_slice());
}

/// The body, where it may be made elsewhere.
fn mark_shown_body(marks: &mut [bool], part: &DefPart)
    ensures { marks.new ≡ marked marks.old (cond (is_made_elsewhere part.now) (names_if named_in_body part.now.body) []) }
{
    if part.type_params > 0 || part.is_inline {
        mark_body_if(marks, part.body.as_ref());
    }
}

#[tactic(auto, using(crate::proofs::MarkLemmas::marked_append))]
fn mark_definition(marks: &mut [bool], part: &DefPart)
    ensures { marks.new ≡ marked marks.old (named_outside_in part.now) }
{
    mark_signature(marks, part);
    mark_term_if(marks, part.term.as_ref());
    mark_shown_body(marks, part);
}

/// Marks what the definitions name outside the bodies of functions that are neither generic nor inline.
pub(crate) fn mark_definitions(marks: &mut [bool], defs: &[DefPart])
    ensures { marks.new ≡ marked marks.old (flat_map named_outside_in defs.now) }
{
    for part in defs {
        mark_definition(marks, part);
    }
}
