//! Bodies of functions.
ghost use Rattle.std.specs.List.{list_all};
ghost use Rattle.std.specs.Prelude.{◌≡◌};
ghost use Rattle.mm_built.specs.Built.{built_step, built_projection, built_place, built_callee, built_operand, built_operands, built_rvalue, built_statement, built_called, built_call, built_end, built_block, built_body};

use crate::types::built_types;
use mm_ast as ast;

fn built_step(step: &ast::Step) -> bool
    ensures { result ≡ built_step step.now }
{
    match step {
        ast::Step::Field(_) | ast::Step::Deref | ast::Step::Variant(_) => false,
    }
}

fn built_steps(steps: &[ast::Step]) -> bool
    ensures { result ≡ list_all built_step steps.now }
{
    steps.iter().all(|step| built_step(step))
}

fn built_projection(projection: &ast::Projection) -> bool
    ensures { result ≡ built_projection projection.now }
{
    built_step(&projection.first) && built_steps(projection.others.as_slice())
}

#[tactic(auto, unfolding(crate::specs::Built::built_place))]
fn built_place(place: &ast::Place) -> bool
    ensures { result ≡ built_place place.now }
{
    match place {
        ast::Place::Local(_) => true,
        ast::Place::Projection(projection) => built_projection(projection.get()),
        ast::Place::Static(_) => false,
    }
}

#[tactic(auto, unfolding(crate::specs::Built::built_callee))]
fn built_callee(callee: &ast::Callee) -> bool
    ensures { result ≡ built_callee callee.now }
{
    match callee {
        ast::Callee::Direct(named) => built_types(named.args.as_slice()),
        ast::Callee::Method(_) | ast::Callee::Call(_) => false,
    }
}

#[tactic(auto, unfolding(crate::specs::Built::built_operand))]
fn built_operand(operand: &ast::Operand) -> bool
    ensures { result ≡ built_operand operand.now }
{
    match operand {
        ast::Operand::Copy(place) | ast::Operand::Move(place) => built_place(place.get()),
        ast::Operand::Number(_) | ast::Operand::Bool(_) => true,
        ast::Operand::Const(_) | ast::Operand::Fn(_) => false,
    }
}

#[tactic(auto, unfolding(crate::specs::Built::built_operands))]
fn built_operands(operands: &[ast::Operand]) -> bool
    ensures { result ≡ built_operands operands.now }
{
    operands.iter().all(|operand| built_operand(operand))
}

#[tactic(auto, unfolding(crate::specs::Built::built_rvalue))]
fn built_rvalue(rvalue: &ast::Rvalue) -> bool
    ensures { result ≡ built_rvalue rvalue.now }
{
    match rvalue {
        ast::Rvalue::Use(operand) | ast::Rvalue::Not(operand) => built_operand(operand),
        ast::Rvalue::Binary(_, left, right) => built_operand(left.get())
            && built_operand(right.get()),
        ast::Rvalue::Ref(_)
        | ast::Rvalue::Variant(_)
        | ast::Rvalue::Boxed(_)
        | ast::Rvalue::Tuple(_)
        | ast::Rvalue::New(_)
        | ast::Rvalue::Dyn(_, _, _) => false,
    }
}

#[tactic(auto, unfolding(crate::specs::Built::built_statement))]
fn built_statement(statement: &ast::Statement) -> bool
    ensures { result ≡ built_statement statement.now }
{
    match statement {
        ast::Statement::Set(place, rvalue) => built_place(place) && built_rvalue(rvalue),
        ast::Statement::Print(operand) => built_operand(operand),
    }
}

#[tactic(auto, unfolding(crate::specs::Built::built_called))]
fn built_called(called: &ast::Called) -> bool
    ensures { result ≡ built_called called.now }
{
    match called {
        ast::Called::Callee(callee) => built_callee(callee),
        ast::Called::Pointer(_) => false,
    }
}

#[tactic(auto, unfolding(crate::specs::Built::built_call))]
fn built_call(call: &ast::Call) -> bool
    ensures { result ≡ built_call call.now }
{
    built_place(&call.place)
        && built_called(&call.called)
        && built_operands(call.operands.as_slice())
}

#[tactic(auto, unfolding(crate::specs::Built::built_end))]
fn built_end(end: &ast::End) -> bool
    ensures { result ≡ built_end end.now }
{
    match end {
        ast::End::Return | ast::End::Unreachable | ast::End::Goto(_) => true,
        ast::End::Switch(switch) => built_operand(&switch.get().operand),
        ast::End::Call(call) => built_call(call.get()),
        ast::End::Drop(_, _) => false,
    }
}

fn built_statements(statements: &[ast::Statement]) -> bool
    ensures { result ≡ list_all built_statement statements.now }
{
    statements
        .iter()
        .all(|statement| built_statement(statement))
}

#[tactic(auto, unfolding(crate::specs::Built::built_block))]
fn built_block(block: &ast::Block) -> bool
    ensures { result ≡ built_block block.now }
{
    built_statements(block.statements.as_slice()) && built_end(&block.end)
}

fn built_blocks(blocks: &[ast::Block]) -> bool
    ensures { result ≡ list_all built_block blocks.now }
{
    blocks.iter().all(|block| built_block(block))
}

#[tactic(auto, unfolding(crate::specs::Built::built_body))]
pub fn built_body(body: &ast::Body) -> bool
    ensures { result ≡ built_body body.now }
{
    built_types(body.lets.as_slice()) && built_blocks(body.blocks.as_slice())
}
