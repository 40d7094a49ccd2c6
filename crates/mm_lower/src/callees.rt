//! Callees and operands with their names looked up.
ghost use Rattle.std.specs.Prelude.{◌≡◌, ◌++◌, IfOk, OnOk};
ghost use Rattle.mm_lower.specs.Callees.{callee_of, operand_of, operands_of, called_of};
ghost use Rattle.mm_lower.specs.Seen.{params, paths};

use crate::names::{Names, def_of, place_at};
use crate::places::lower_place;
use crate::types::{lower_trait, lower_type, lower_types};
use mm_ast as ast;
use mm_definitions::{Kind, Wanted};
use mm_program::{Callee, Operand, Ops};
use mm_terms::NoMemory;
use sqlite_items::Boxed;
use std::alloc::Global;

/// The callee that is written.
#[tactic(auto, unfolding(crate::specs::Callees::callee_of))]
pub fn lower_callee(
    alloc: Global,
    names: &Names<'_>,
    callee: &ast::Callee,
) -> Result<Callee, NoMemory>
    ensures { IfOk result (λ c. c ≡ callee_of (paths names.now) (params names.now) callee.now) }
{
    match callee {
        ast::Callee::Direct(named) => {
            let args = lower_types(alloc, names, named.args.as_slice())?;
            let def = def_of(alloc, names, Wanted::One(Kind::Function), &named.path)?;
            Ok(Callee::Direct(def, args))
        }
        ast::Callee::Method(method) => {
            let place = place_at(alloc, names, Kind::Method, &method.of.path, &method.name)?;
            let args = lower_types(alloc, names, method.args.as_slice())?;
            let head = lower_trait(alloc, names, &method.self_type, &method.of)?;
            Ok(Callee::Method(head, place, args))
        }
        ast::Callee::Call(callee) => {
            Ok(Callee::Call(lower_type(alloc, names, &callee.self_type)?))
        }
    }
}

/// The operand that is written.
#[tactic(auto, unfolding(crate::specs::Callees::operand_of))]
pub fn lower_operand(
    alloc: Global,
    names: &Names<'_>,
    operand: &ast::Operand,
) -> Result<Operand, NoMemory>
    ensures { IfOk result (λ o. o ≡ operand_of (paths names.now) (params names.now) operand.now) }
{
    match operand {
        ast::Operand::Copy(place) => Ok(Operand::Copy(lower_place(alloc, names, place.get())?)),
        ast::Operand::Move(place) => Ok(Operand::Move(lower_place(alloc, names, place.get())?)),
        ast::Operand::Number(number) => Ok(Operand::Num(*number)),
        ast::Operand::Bool(truth) => Ok(Operand::Truth(*truth)),
        ast::Operand::Const(named) => {
            let named = named.get();
            let args = lower_types(alloc, names, named.args.as_slice())?;
            let def = def_of(alloc, names, Wanted::One(Kind::Const), &named.path)?;
            Ok(Operand::Const(def, args))
        }
        ast::Operand::Fn(callee) => {
            let callee = lower_callee(alloc, names, callee.get())?;
            Ok(Operand::Fn(Boxed::new(alloc, callee)?))
        }
    }
}

/// The operands that are written.
pub fn lower_operands(
    alloc: Global,
    names: &Names<'_>,
    operands: &[ast::Operand],
) -> Result<Ops, NoMemory>
    ensures { IfOk result (λ os. os ≡ operands_of (paths names.now) (params names.now) operands.now) }
{
    let mut out = Ops::new(alloc);
    for operand in operands {
        out.push(lower_operand(alloc, names, operand)?)?;
    }
    Ok(out)
}

/// What a call calls.
#[tactic(auto, unfolding(crate::specs::Callees::called_of))]
pub fn lower_called(
    alloc: Global,
    names: &Names<'_>,
    called: &ast::Called,
) -> Result<Callee, NoMemory>
    ensures { IfOk result (λ c. c ≡ called_of (paths names.now) (params names.now) called.now) }
{
    match called {
        ast::Called::Callee(callee) => lower_callee(alloc, names, callee),
        ast::Called::Pointer(operand) => {
            let operand = lower_operand(alloc, names, operand)?;
            Ok(Callee::Pointer(Boxed::new(alloc, operand)?))
        }
    }
}
