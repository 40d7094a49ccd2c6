ghost use Rattle.std.specs.Prelude.{◌≡◌, ◌++◌, ◌∷◌};
ghost use Rattle.mm_program.specs.Marks.{marked};
ghost use Rattle.mm_program.specs.Naming.{named_in_types, named_in_head, named_in_place, named_in_callee, named_in_operand, named_in_operands};

use super::mark;
use super::types::{mark_head, mark_tree, mark_types};
use crate::operand::{Callee, Operand};
use crate::place::{Base, Place};
use mm_terms::{DefId, Head, Ty};

/// A definition at type arguments.
pub(crate) fn mark_instance(marks: &mut [bool], d: DefId, args: &[Ty])
    ensures { marks.new ≡ marked marks.old (d ∷ named_in_types args.now) }
{
    mark(marks, d);
    mark_types(marks, args);
}

#[tactic(auto, using(crate::proofs::MarkLemmas::marked_append))]
fn mark_method(marks: &mut [bool], head: &Head, own: &[Ty])
    ensures { marks.new ≡ marked marks.old (named_in_head head.now ++ named_in_types own.now) }
{
    mark_head(marks, head);
    mark_types(marks, own);
}

pub(crate) fn mark_place(marks: &mut [bool], place: &Place)
    ensures { marks.new ≡ marked marks.old (named_in_place place.now) }
{
    if let Base::Static(d) = place.base {
        mark(marks, d);
    }
}

#[cycle(marking)]
#[tactic(auto, unfolding(crate::specs::Naming::named_in_callee, crate::specs::Naming::named_in_operand))]
pub(crate) fn mark_callee(marks: &mut [bool], callee: &Callee)
    ensures { marks.new ≡ marked marks.old (named_in_callee callee.now) }
{
    match callee {
        Callee::Direct(d, args) => mark_instance(marks, *d, args.as_slice()),
        Callee::Method(head, _, own) => mark_method(marks, head, own.as_slice()),
        Callee::Call(ty) => mark_tree(marks, ty.as_tree()),
        Callee::Slot(_) => {}
        Callee::Pointer(operand) => mark_operand(marks, operand.get()),
    }
}

#[cycle(marking)]
#[tactic(auto, unfolding(crate::specs::Naming::named_in_callee, crate::specs::Naming::named_in_operand))]
pub(crate) fn mark_operand(marks: &mut [bool], operand: &Operand)
    ensures { marks.new ≡ marked marks.old (named_in_operand operand.now) }
{
    match operand {
        Operand::Copy(place) | Operand::Move(place) => mark_place(marks, place),
        Operand::Num(_) | Operand::Truth(_) => {}
        Operand::Const(d, args) => mark_instance(marks, *d, args.as_slice()),
        Operand::Fn(callee) => mark_callee(marks, callee.get()),
    }
}

pub(crate) fn mark_operands(marks: &mut [bool], operands: &[Operand])
    ensures { marks.new ≡ marked marks.old (named_in_operands operands.now) }
{
    for operand in operands {
        mark_operand(marks, operand);
    }
}
