//! What is mentioned by places, operands and what is made of them.
ghost use Rattle.std.specs.Prelude.{◌≡◌, ◌++◌, OnOk};
ghost use Rattle.mm_mentions.specs.BodyMentions.{dyn_trait_mentions, made_mentions, operand_mentions, operands_mentions, place_mentions, rvalue_mentions, statement_mentions};
ghost use Rattle.mm_mentions.specs.Seen.{seen};
ghost use Rattle.std.specs.List.{flat_map};

use crate::callees::{mention_callee, mention_named, mention_new};
use crate::frame::{Frame, mention_local};
use crate::mention::{Mention, What};
use crate::one_mention::{mention, mention_dyn, mention_path};
use crate::scope::Scope;
use crate::types::{constructors_of, mention_names_in, mention_type};
use mm_ast::{DynTrait, New, Operand, Place, Rvalue, Statement};
use mm_definitions::{Kind, Wanted};
use mm_terms::NoMemory;
use std::alloc::Global;

/// Adds the local or the static in which a place lies.
#[tactic(auto, unfolding(crate::specs::BodyMentions::place_mentions))]
pub fn mention_place(
    alloc: Global,
    frame: Frame,
    place: &Place,
    out: &mut Vec<Mention>,
) -> Result<(), NoMemory>
    ensures { OnOk result (out.new.items ≡ out.old.items ++ place_mentions frame place.now) }
{
    match place {
        Place::Local(local) => mention_local(frame, *local, out),
        Place::Projection(projection) => mention_local(frame, projection.get().local, out),
        Place::Static(place) => {
            let wanted = Wanted::One(Kind::Static);
            mention_path(alloc, wanted, &place.get().path, 0, None, out)
        }
    }
}

/// Adds an operand.
#[tactic(auto, unfolding(crate::specs::BodyMentions::operand_mentions))]
pub fn mention_operand(
    alloc: Global,
    scope: &Scope<'_>,
    frame: Frame,
    operand: &Operand,
    out: &mut Vec<Mention>,
) -> Result<(), NoMemory>
    ensures { OnOk result (out.new.items ≡ out.old.items ++ operand_mentions (seen scope.now) frame operand.now) }
{
    match operand {
        Operand::Copy(place) | Operand::Move(place) => {
            mention_place(alloc, frame, place.get(), out)
        }
        Operand::Number(_) | Operand::Bool(_) => Ok(()),
        Operand::Const(named) => {
            let wanted = Wanted::One(Kind::Const);
            mention_named(alloc, scope, wanted, named.get(), None, out)
        }
        Operand::Fn(callee) => mention_callee(alloc, scope, callee.get(), None, out),
    }
}

/// Adds operands.
pub fn mention_operands(
    alloc: Global,
    scope: &Scope<'_>,
    frame: Frame,
    operands: &[Operand],
    out: &mut Vec<Mention>,
) -> Result<(), NoMemory>
    ensures { OnOk result (out.new.items ≡ out.old.items ++ operands_mentions (seen scope.now) frame operands.now) }
{
    for operand in operands {
        mention_operand(alloc, scope, frame, operand, out)?;
    }
    Ok(())
}

/// Adds what is made by `new`, and the operands of which it is made.
fn mention_made(
    alloc: Global,
    scope: &Scope<'_>,
    frame: Frame,
    new: &New,
    out: &mut Vec<Mention>,
) -> Result<(), NoMemory>
    ensures { OnOk result (out.new.items ≡ out.old.items ++ made_mentions (seen scope.now) frame new.now) }
{
    let operands = new.operands.as_slice();
    mention_new(alloc, scope, &new.of, &new.variant, operands.len(), out)?;
    mention_operands(alloc, scope, frame, operands, out)
}

/// Adds `dyn` and a trait, which is a type by itself.
#[tactic(auto, unfolding(crate::specs::BodyMentions::dyn_trait_mentions))]
fn mention_dyn_trait(
    alloc: Global,
    scope: &Scope<'_>,
    ty: &DynTrait,
    out: &mut Vec<Mention>,
) -> Result<(), NoMemory>
    ensures { OnOk result (out.new.items ≡ out.old.items ++ dyn_trait_mentions (seen scope.now) ty.now) }
{
    let args = ty.of.args.as_slice();
    let below = constructors_of(args)?;
    let length = below.checked_add(1).ok_or(NoMemory)?;
    let wanted = Wanted::One(Kind::Trait);
    mention_path(alloc, wanted, &ty.of.path, args.len(), None, out)?;
    mention_dyn(alloc, ty.line, &ty.of.path, out)?;
    mention_names_in(alloc, false, scope, args, out)?;
    mention(ty.line, What::Type(length), out)
}

/// Adds what a statement gives to a place.
#[tactic(auto, unfolding(crate::specs::BodyMentions::rvalue_mentions))]
fn mention_rvalue(
    alloc: Global,
    scope: &Scope<'_>,
    frame: Frame,
    rvalue: &Rvalue,
    out: &mut Vec<Mention>,
) -> Result<(), NoMemory>
    ensures { OnOk result (out.new.items ≡ out.old.items ++ rvalue_mentions (seen scope.now) frame rvalue.now) }
{
    match rvalue {
        Rvalue::Use(operand) | Rvalue::Not(operand) | Rvalue::Boxed(operand) => {
            mention_operand(alloc, scope, frame, operand, out)
        }
        Rvalue::Ref(place) | Rvalue::Variant(place) => {
            mention_place(alloc, frame, place.get(), out)
        }
        Rvalue::Binary(_, left, right) => {
            mention_operand(alloc, scope, frame, left.get(), out)?;
            mention_operand(alloc, scope, frame, right.get(), out)
        }
        Rvalue::Tuple(operands) => {
            mention_operands(alloc, scope, frame, operands.as_slice(), out)
        }
        Rvalue::New(new) => mention_made(alloc, scope, frame, new.get(), out),
        Rvalue::Dyn(operand, ty, tr) => {
            mention_operand(alloc, scope, frame, operand.get(), out)?;
            mention_type(alloc, scope, ty.get(), out)?;
            mention_dyn_trait(alloc, scope, tr.get(), out)
        }
    }
}

/// Adds the place to which a value goes and the value, or what is printed.
#[tactic(auto, unfolding(crate::specs::BodyMentions::statement_mentions))]
fn mention_statement(
    alloc: Global,
    scope: &Scope<'_>,
    frame: Frame,
    statement: &Statement,
    out: &mut Vec<Mention>,
) -> Result<(), NoMemory>
    ensures { OnOk result (out.new.items ≡ out.old.items ++ statement_mentions (seen scope.now) frame statement.now) }
{
    match statement {
        Statement::Set(place, rvalue) => {
            mention_place(alloc, frame, place, out)?;
            mention_rvalue(alloc, scope, frame, rvalue, out)
        }
        Statement::Print(operand) => mention_operand(alloc, scope, frame, operand, out),
    }
}

/// Adds statements.
pub fn mention_statements(
    alloc: Global,
    scope: &Scope<'_>,
    frame: Frame,
    statements: &[Statement],
    out: &mut Vec<Mention>,
) -> Result<(), NoMemory>
    ensures { OnOk result (out.new.items ≡ out.old.items ++ flat_map (statement_mentions (seen scope.now) frame) statements.now) }
{
    for statement in statements {
        mention_statement(alloc, scope, frame, statement, out)?;
    }
    Ok(())
}
