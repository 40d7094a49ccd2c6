//! Bodies of functions, methods and closures.
ghost use Rattle.std.specs.List.{list_all};
ghost use Rattle.std.specs.Prelude.{◌≡◌, ◌∷◌};
ghost use Rattle.mm_written.specs.Bodies.{written_step, written_steps, written_projection, written_place, written_method_callee, written_callee, written_operand, written_operands, written_new, written_dyn, written_rvalue, written_statement, written_switch, written_called, written_call, written_end, written_block, few_locals, written_body};
ghost use Rattle.mm_written.specs.Lists.{few_each};

use crate::lists::{few, few_behind_one, some};
use crate::names::{written_name, written_variant_name};
use crate::types::{written_args, written_below, written_type, written_types};
use mm_ast as ast;

// ---- places

fn written_step(step: &ast::Step) -> bool
    ensures { result ≡ written_step step.now }
{
    match step {
        ast::Step::Field(_) | ast::Step::Deref => true,
        ast::Step::Variant(name) => written_name(name),
    }
}

fn each_step(steps: &[ast::Step]) -> bool
    ensures { result ≡ list_all written_step steps.now }
{
    steps.iter().all(|step| written_step(step))
}

#[tactic(auto, unfolding(crate::specs::Bodies::written_steps))]
fn written_steps(steps: &[ast::Step]) -> bool
    ensures { result ≡ written_steps steps.now }
{
    few(steps) && each_step(steps)
}

fn each_step_of(first: &ast::Step, others: &[ast::Step]) -> bool
    ensures { result ≡ list_all written_step (first.now ∷ others.now) }
{
    written_step(first) && each_step(others)
}

#[tactic(auto, unfolding(crate::specs::Bodies::written_projection, crate::specs::Bodies::written_steps, crate::specs::Lists::few))]
fn written_projection(projection: &ast::Projection) -> bool
    ensures { result ≡ written_projection projection.now }
{
    let others = projection.others.as_slice();
    few_behind_one(others) && each_step_of(&projection.first, others)
}

#[tactic(auto, unfolding(crate::specs::Bodies::written_place))]
fn written_place(place: &ast::Place) -> bool
    ensures { result ≡ written_place place.now }
{
    match place {
        ast::Place::Local(_) => true,
        ast::Place::Projection(projection) => written_projection(projection.get()),
        ast::Place::Static(place) => written_steps(place.get().steps.as_slice()),
    }
}

// ---- operands

#[tactic(auto, unfolding(crate::specs::Bodies::written_method_callee))]
fn written_method_callee(method: &ast::MethodCallee) -> bool
    ensures { result ≡ written_method_callee method.now }
{
    written_type(&method.self_type)
        && written_args(&method.of)
        && written_name(&method.name)
        && written_types(method.args.as_slice())
}

#[tactic(auto, unfolding(crate::specs::Bodies::written_callee))]
pub fn written_callee(callee: &ast::Callee) -> bool
    ensures { result ≡ written_callee callee.now }
{
    match callee {
        ast::Callee::Direct(named) => written_args(named),
        ast::Callee::Method(method) => written_method_callee(method),
        ast::Callee::Call(call) => written_type(&call.self_type),
    }
}

#[tactic(auto, unfolding(crate::specs::Bodies::written_operand))]
fn written_operand(operand: &ast::Operand) -> bool
    ensures { result ≡ written_operand operand.now }
{
    match operand {
        ast::Operand::Copy(place) | ast::Operand::Move(place) => written_place(place.get()),
        ast::Operand::Number(_) | ast::Operand::Bool(_) => true,
        ast::Operand::Const(named) => written_args(named.get()),
        ast::Operand::Fn(callee) => written_callee(callee.get()),
    }
}

fn each_operand(operands: &[ast::Operand]) -> bool
    ensures { result ≡ list_all written_operand operands.now }
{
    operands.iter().all(|operand| written_operand(operand))
}

#[tactic(auto, unfolding(crate::specs::Bodies::written_operands))]
fn written_operands(operands: &[ast::Operand]) -> bool
    ensures { result ≡ written_operands operands.now }
{
    few(operands) && each_operand(operands)
}

// ---- statements

#[tactic(auto, unfolding(crate::specs::Bodies::written_new))]
fn written_new(new: &ast::New) -> bool
    ensures { result ≡ written_new new.now }
{
    written_args(&new.of)
        && written_variant_name(&new.variant)
        && written_operands(new.operands.as_slice())
}

#[tactic(auto, unfolding(crate::specs::Bodies::written_dyn))]
fn written_dyn(dyn_trait: &ast::DynTrait) -> bool
    ensures { result ≡ written_dyn dyn_trait.now }
{
    written_below(&dyn_trait.of)
}

#[tactic(auto, unfolding(crate::specs::Bodies::written_rvalue))]
fn written_rvalue(rvalue: &ast::Rvalue) -> bool
    ensures { result ≡ written_rvalue rvalue.now }
{
    match rvalue {
        ast::Rvalue::Use(operand) | ast::Rvalue::Not(operand) | ast::Rvalue::Boxed(operand) => {
            written_operand(operand)
        }
        ast::Rvalue::Ref(place) | ast::Rvalue::Variant(place) => written_place(place.get()),
        ast::Rvalue::Binary(_, left, right) => {
            written_operand(left.get()) && written_operand(right.get())
        }
        ast::Rvalue::Tuple(operands) => written_operands(operands.as_slice()),
        ast::Rvalue::New(new) => written_new(new.get()),
        ast::Rvalue::Dyn(operand, ty, dyn_trait) => {
            written_operand(operand.get()) && written_type(ty.get()) && written_dyn(dyn_trait.get())
        }
    }
}

#[tactic(auto, unfolding(crate::specs::Bodies::written_statement))]
fn written_statement(statement: &ast::Statement) -> bool
    ensures { result ≡ written_statement statement.now }
{
    match statement {
        ast::Statement::Set(place, rvalue) => written_place(place) && written_rvalue(rvalue),
        ast::Statement::Print(operand) => written_operand(operand),
    }
}

fn each_statement(statements: &[ast::Statement]) -> bool
    ensures { result ≡ list_all written_statement statements.now }
{
    statements
        .iter()
        .all(|statement| written_statement(statement))
}

fn written_statements(statements: &[ast::Statement]) -> bool
    ensures { result ≡ few_each written_statement statements.now }
{
    few(statements) && each_statement(statements)
}

// ---- blocks

#[tactic(auto, unfolding(crate::specs::Bodies::written_switch))]
fn written_switch(switch: &ast::Switch) -> bool
    ensures { result ≡ written_switch switch.now }
{
    written_operand(&switch.operand) && few(switch.arms.as_slice())
}

#[tactic(auto, unfolding(crate::specs::Bodies::written_called))]
fn written_called(called: &ast::Called) -> bool
    ensures { result ≡ written_called called.now }
{
    match called {
        ast::Called::Callee(callee) => written_callee(callee),
        ast::Called::Pointer(operand) => written_operand(operand),
    }
}

#[tactic(auto, unfolding(crate::specs::Bodies::written_call))]
fn written_call(call: &ast::Call) -> bool
    ensures { result ≡ written_call call.now }
{
    written_place(&call.place)
        && written_called(&call.called)
        && written_operands(call.operands.as_slice())
}

#[tactic(auto, unfolding(crate::specs::Bodies::written_end))]
fn written_end(end: &ast::End) -> bool
    ensures { result ≡ written_end end.now }
{
    match end {
        ast::End::Return | ast::End::Unreachable | ast::End::Goto(_) => true,
        ast::End::Switch(switch) => written_switch(switch.get()),
        ast::End::Call(call) => written_call(call.get()),
        ast::End::Drop(place, _) => written_place(place),
    }
}

#[tactic(auto, unfolding(crate::specs::Bodies::written_block))]
fn written_block(block: &ast::Block) -> bool
    ensures { result ≡ written_block block.now }
{
    written_statements(block.statements.as_slice()) && written_end(&block.end)
}

fn each_block(blocks: &[ast::Block]) -> bool
    ensures { result ≡ list_all written_block blocks.now }
{
    blocks.iter().all(|block| written_block(block))
}

fn written_blocks(blocks: &[ast::Block]) -> bool
    ensures { result ≡ few_each written_block blocks.now }
{
    few(blocks) && each_block(blocks)
}

/// Whether there are few locals with so many parameters and locals of `let`.
fn few_locals(params: usize, lets: usize) -> bool
    ensures { result ≡ few_locals params lets }
{
    params.saturating_add(lets).saturating_add(2) < 4_294_967_296
}

/// The body of what has so many parameters.
#[tactic(auto, unfolding(crate::specs::Bodies::written_body))]
pub fn written_body(params: usize, body: &ast::Body) -> bool
    ensures { result ≡ written_body params body.now }
{
    few_locals(params, body.lets.len())
        && written_types(body.lets.as_slice())
        && some(body.blocks.as_slice())
        && written_blocks(body.blocks.as_slice())
}
