//! Bodies with their names looked up.
ghost use Rattle.std.specs.Prelude.{◌≡◌, map, IfOk};
ghost use Rattle.mm_lower.specs.Bodies.{op_of, arm_of, made_of, variant_of, new_of, rvalue_of, statement_of, switch_of, call_of, end_of, block_of};
ghost use Rattle.mm_lower.specs.Seen.{params, paths};

use crate::callees::{lower_called, lower_operand, lower_operands};
use crate::names::{Names, def_of, place_at};
use crate::places::lower_place;
use crate::types::{lower_dyn, lower_type, lower_types};
use mm_ast as ast;
use mm_definitions::{Kind, Wanted};
use mm_program::{Arm, Arms, Block, End, Op, Rvalue, Statement};
use mm_terms::{DefId, NoMemory};
use sqlite_items::{Boxed, Items};
use std::alloc::Global;

#[tactic(auto, unfolding(crate::specs::Bodies::op_of))]
fn lower_op(op: ast::Op) -> Op
    ensures { result ≡ op_of op }
{
    match op {
        ast::Op::Add => Op::Add,
        ast::Op::Sub => Op::Sub,
        ast::Op::Mul => Op::Mul,
        ast::Op::Div => Op::Div,
        ast::Op::Rem => Op::Rem,
        ast::Op::Eq => Op::Eq,
        ast::Op::Lt => Op::Lt,
    }
}

/// What is made by `new`.
#[tactic(auto, unfolding(crate::specs::Bodies::made_of))]
pub fn lower_made(
    alloc: Global,
    names: &Names<'_>,
    of: &ast::PathWithArgs,
    variant: &Option<ast::Name>,
) -> Result<DefId, NoMemory>
    ensures { IfOk result (λ d. d ≡ made_of (paths names.now) of.now variant.now) }
{
    match variant {
        Some(_) => def_of(alloc, names, Wanted::One(Kind::Enum), &of.path),
        None => def_of(alloc, names, Wanted::Whole, &of.path),
    }
}

/// The number of the variant that it is made as.
#[tactic(auto, unfolding(crate::specs::Bodies::variant_of))]
pub fn lower_variant(
    alloc: Global,
    names: &Names<'_>,
    of: &ast::PathWithArgs,
    variant: &Option<ast::Name>,
) -> Result<u32, NoMemory>
    ensures { IfOk result (λ n. n ≡ variant_of (paths names.now) of.now variant.now) }
{
    match variant {
        Some(name) => place_at(alloc, names, Kind::Variant, &of.path, name),
        None => Ok(0),
    }
}

/// The struct, closure or enum that is made.
#[tactic(auto, unfolding(crate::specs::Bodies::new_of))]
fn lower_new(alloc: Global, names: &Names<'_>, new: &ast::New) -> Result<Rvalue, NoMemory>
    ensures { IfOk result (λ r. r ≡ new_of (paths names.now) (params names.now) new.now) }
{
    let def = lower_made(alloc, names, &new.of, &new.variant)?;
    let variant = lower_variant(alloc, names, &new.of, &new.variant)?;
    let args = lower_types(alloc, names, new.of.args.as_slice())?;
    let parts = lower_operands(alloc, names, new.operands.as_slice())?;
    Ok(Rvalue::New(def, args, variant, parts))
}

/// How a value is made, as it is written.
#[tactic(auto, unfolding(crate::specs::Bodies::rvalue_of))]
fn lower_rvalue(alloc: Global, names: &Names<'_>, rvalue: &ast::Rvalue) -> Result<Rvalue, NoMemory>
    ensures { IfOk result (λ r. r ≡ rvalue_of (paths names.now) (params names.now) rvalue.now) }
{
    match rvalue {
        ast::Rvalue::Use(only) => Ok(Rvalue::Use(lower_operand(alloc, names, only)?)),
        ast::Rvalue::Ref(place) => Ok(Rvalue::Ref(lower_place(alloc, names, place.get())?)),
        ast::Rvalue::Not(only) => Ok(Rvalue::Not(lower_operand(alloc, names, only)?)),
        ast::Rvalue::Binary(op, left, right) => {
            let left = lower_operand(alloc, names, left.get())?;
            let right = lower_operand(alloc, names, right.get())?;
            Ok(Rvalue::Binary(lower_op(*op), left, right))
        }
        ast::Rvalue::Variant(place) => {
            Ok(Rvalue::Variant(lower_place(alloc, names, place.get())?))
        }
        ast::Rvalue::Boxed(only) => Ok(Rvalue::Boxed(lower_operand(alloc, names, only)?)),
        ast::Rvalue::Tuple(parts) => {
            Ok(Rvalue::Tuple(lower_operands(alloc, names, parts.as_slice())?))
        }
        ast::Rvalue::New(new) => lower_new(alloc, names, new.get()),
        ast::Rvalue::Dyn(only, behind, to) => {
            let behind = Boxed::new(alloc, lower_type(alloc, names, behind.get())?)?;
            let to = Boxed::new(alloc, lower_dyn(alloc, names, to.get())?)?;
            Ok(Rvalue::Dyn(lower_operand(alloc, names, only.get())?, behind, to))
        }
    }
}

#[tactic(auto, unfolding(crate::specs::Bodies::statement_of))]
fn lower_statement(
    alloc: Global,
    names: &Names<'_>,
    statement: &ast::Statement,
) -> Result<Statement, NoMemory>
    ensures { IfOk result (λ s. s ≡ statement_of (paths names.now) (params names.now) statement.now) }
{
    match statement {
        ast::Statement::Set(place, rvalue) => {
            let place = lower_place(alloc, names, place)?;
            let rvalue = lower_rvalue(alloc, names, rvalue)?;
            Ok(Statement::Set(place, Boxed::new(alloc, rvalue)?))
        }
        ast::Statement::Print(only) => Ok(Statement::Print(lower_operand(alloc, names, only)?)),
    }
}

fn lower_statements(
    alloc: Global,
    names: &Names<'_>,
    statements: &[ast::Statement],
) -> Result<Items<Statement>, NoMemory>
    ensures { IfOk result (λ ss. ss ≡ map (statement_of (paths names.now) (params names.now)) statements.now) }
{
    let mut out = Items::new(alloc);
    for statement in statements {
        out.push(lower_statement(alloc, names, statement)?)?;
    }
    Ok(out)
}

fn lower_arm(arm: ast::Arm) -> Arm
    ensures { result ≡ arm_of arm }
{
    Arm {
        number: arm.number,
        label: arm.label.number,
    }
}

fn lower_arms(alloc: Global, arms: &[ast::Arm]) -> Result<Arms, NoMemory>
    ensures { IfOk result (λ out. out ≡ map arm_of arms.now) }
{
    let mut out = Arms::new(alloc);
    for arm in arms {
        out.push(lower_arm(*arm))?;
    }
    Ok(out)
}

#[tactic(auto, unfolding(crate::specs::Bodies::switch_of))]
fn lower_switch(alloc: Global, names: &Names<'_>, switch: &ast::Switch) -> Result<End, NoMemory>
    ensures { IfOk result (λ e. e ≡ switch_of (paths names.now) (params names.now) switch.now) }
{
    let arms = lower_arms(alloc, switch.arms.as_slice())?;
    let operand = lower_operand(alloc, names, &switch.operand)?;
    Ok(End::Switch(operand, arms, switch.otherwise.number))
}

#[tactic(auto, unfolding(crate::specs::Bodies::call_of))]
fn lower_call(alloc: Global, names: &Names<'_>, call: &ast::Call) -> Result<End, NoMemory>
    ensures { IfOk result (λ e. e ≡ call_of (paths names.now) (params names.now) call.now) }
{
    let place = lower_place(alloc, names, &call.place)?;
    let callee = Boxed::new(alloc, lower_called(alloc, names, &call.called)?)?;
    let operands = lower_operands(alloc, names, call.operands.as_slice())?;
    Ok(End::Call(place, callee, operands, call.target.number))
}

#[tactic(auto, unfolding(crate::specs::Bodies::end_of))]
fn lower_end(alloc: Global, names: &Names<'_>, end: &ast::End) -> Result<End, NoMemory>
    ensures { IfOk result (λ e. e ≡ end_of (paths names.now) (params names.now) end.now) }
{
    match end {
        ast::End::Return => Ok(End::Return),
        ast::End::Unreachable => Ok(End::Unreachable),
        ast::End::Goto(label) => Ok(End::Goto(label.number)),
        ast::End::Switch(switch) => lower_switch(alloc, names, switch.get()),
        ast::End::Call(call) => lower_call(alloc, names, call.get()),
        ast::End::Drop(place, label) => {
            Ok(End::Drop(lower_place(alloc, names, place)?, label.number))
        }
    }
}

#[tactic(auto, unfolding(crate::specs::Bodies::block_of))]
fn lower_block(alloc: Global, names: &Names<'_>, block: &ast::Block) -> Result<Block, NoMemory>
    ensures { IfOk result (λ b. b ≡ block_of (paths names.now) (params names.now) block.now) }
{
    let statements = lower_statements(alloc, names, block.statements.as_slice())?;
    let end = lower_end(alloc, names, &block.end)?;
    Ok(Block { statements, end })
}

/// The blocks that are written.
pub fn lower_blocks(
    alloc: Global,
    names: &Names<'_>,
    blocks: &[ast::Block],
) -> Result<Vec<Block>, NoMemory>
    ensures { IfOk result (λ bs. bs.items ≡ map (block_of (paths names.now) (params names.now)) blocks.now) }
{
    let mut out = Vec::new(alloc);
    for block in blocks {
        out.push(lower_block(alloc, names, block)?)?;
    }
    Ok(out)
}
