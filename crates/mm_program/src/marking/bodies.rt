ghost use Rattle.std.specs.Prelude.{◌≡◌, ◌++◌, ◌∷◌, flat_map};
ghost use Rattle.std.specs.Option.{option_copied};
ghost use Rattle.mm_terms.specs.declared.ids.DefId.{DefId};
ghost use Rattle.mm_program.specs.Marks.{marked};
ghost use Rattle.mm_program.specs.Naming.{named_in_type, named_in_types, named_in_operand, named_in_operands, named_in_rvalue, named_in_statement, named_in_end, named_in_block, named_in_body, names_if};

use super::operands::{mark_callee, mark_instance, mark_operand, mark_operands, mark_place};
use super::types::{mark_tree, mark_types};
use crate::block::{Block, End};
use crate::body::Body;
use crate::operand::Operand;
use crate::statement::{Rvalue, Statement};
use mm_terms::{DefId, Ty};

#[tactic(auto, using(crate::proofs::MarkLemmas::marked_append))]
fn mark_new(marks: &mut [bool], d: DefId, args: &[Ty], parts: &[Operand])
    ensures { marks.new ≡ marked marks.old (d ∷ named_in_types args.now ++ named_in_operands parts.now) }
{
    mark_instance(marks, d, args);
    mark_operands(marks, parts);
}

#[tactic(auto, using(crate::proofs::MarkLemmas::marked_append))]
fn mark_two(marks: &mut [bool], left: &Operand, right: &Operand)
    ensures { marks.new ≡ marked marks.old (named_in_operand left.now ++ named_in_operand right.now) }
{
    mark_operand(marks, left);
    mark_operand(marks, right);
}

#[tactic(auto, using(crate::proofs::MarkLemmas::marked_append))]
fn mark_dyn(marks: &mut [bool], only: &Operand, behind: &Ty, to: &Ty)
    ensures { marks.new ≡ marked marks.old (named_in_operand only.now ++ named_in_type behind.now ++ named_in_type to.now) }
{
    mark_operand(marks, only);
    mark_tree(marks, behind.as_tree());
    mark_tree(marks, to.as_tree());
}

fn mark_rvalue(marks: &mut [bool], made: &Rvalue)
    ensures { marks.new ≡ marked marks.old (named_in_rvalue made.now) }
{
    match made {
        Rvalue::Use(only) | Rvalue::Not(only) | Rvalue::Boxed(only) => mark_operand(marks, only),
        Rvalue::Ref(place) | Rvalue::Variant(place) => mark_place(marks, place),
        Rvalue::Binary(_, left, right) => mark_two(marks, left, right),
        Rvalue::Tuple(parts) => mark_operands(marks, parts.as_slice()),
        Rvalue::New(d, args, _, parts) => mark_new(marks, *d, args.as_slice(), parts.as_slice()),
        Rvalue::Dyn(only, behind, to) => mark_dyn(marks, only, behind.get(), to.get()),
    }
}

#[tactic(auto, using(crate::proofs::MarkLemmas::marked_append))]
fn mark_statement(marks: &mut [bool], statement: &Statement)
    ensures { marks.new ≡ marked marks.old (named_in_statement statement.now) }
{
    match statement {
        Statement::Set(place, made) => {
            mark_place(marks, place);
            mark_rvalue(marks, made.get());
        }
        Statement::Print(only) => mark_operand(marks, only),
        Statement::Free(place) => mark_place(marks, place),
    }
}

fn mark_statements(marks: &mut [bool], statements: &[Statement])
    ensures { marks.new ≡ marked marks.old (flat_map named_in_statement statements.now) }
{
    for statement in statements {
        mark_statement(marks, statement);
    }
}

#[tactic(auto, using(crate::proofs::MarkLemmas::marked_append))]
fn mark_end(marks: &mut [bool], end: &End)
    ensures { marks.new ≡ marked marks.old (named_in_end end.now) }
{
    match end {
        End::Return | End::Unreachable | End::Goto(_) => {}
        End::Switch(only, _, _) => mark_operand(marks, only),
        End::Call(place, callee, operands, _) => {
            mark_place(marks, place);
            mark_callee(marks, callee.get());
            mark_operands(marks, operands.as_slice());
        }
        End::Drop(place, _) => mark_place(marks, place),
    }
}

#[tactic(auto, using(crate::proofs::MarkLemmas::marked_append))]
fn mark_block(marks: &mut [bool], block: &Block)
    ensures { marks.new ≡ marked marks.old (named_in_block block.now) }
{
    mark_statements(marks, block.statements.as_slice());
    mark_end(marks, &block.end);
}

fn mark_blocks(marks: &mut [bool], blocks: &[Block])
    ensures { marks.new ≡ marked marks.old (flat_map named_in_block blocks.now) }
{
    for block in blocks {
        mark_block(marks, block);
    }
}

#[tactic(auto, using(crate::proofs::MarkLemmas::marked_append))]
fn mark_body(marks: &mut [bool], body: &Body)
    ensures { marks.new ≡ marked marks.old (named_in_body body.now) }
{
    mark_types(marks, body.inner_locals());
    mark_blocks(marks, body.all_blocks());
}

pub(crate) fn mark_body_if(marks: &mut [bool], body: Option<&Body>)
    ensures { marks.new ≡ marked marks.old (names_if named_in_body (option_copied body.entry)) }
{
    if let Some(body) = body {
        mark_body(marks, body);
    }
}
