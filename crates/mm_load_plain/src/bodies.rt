//! The blocks of a program, made of those of its tree.
ghost use Rattle.std.specs.Prelude.{◌≡◌, map, IfOk};
ghost use Rattle.mm_load_plain.specs.Meaning.{place_of, operand_of, op_of, rvalue_of, statement_of, arm_of, def_id, callee_in, args_in, call_of, end_of, block_of};
ghost use Rattle.mm_load_plain.specs.Names.{look_up};

use crate::name_table::{NameTable, path_text};
use crate::places::local_of;
use crate::types::{index_in, load_types};
use mm_ast as ast;
use mm_plain::{Arm, Block, Call, End, Op, Operand, Place, Rvalue, Statement};
use mm_terms::{DefId, NoMemory, Tys};
use sqlite_items::Items;
use std::alloc::Global;

fn load_place(place: &ast::Place) -> Place
    ensures { result ≡ place_of place.now }
{
    Place {
        local: local_of(place),
    }
}

#[tactic(auto, unfolding(crate::specs::Meaning::operand_of))]
fn load_operand(operand: &ast::Operand) -> Operand
    ensures { result ≡ operand_of operand.now }
{
    match operand {
        ast::Operand::Copy(place) => Operand::Copy(load_place(place.get())),
        ast::Operand::Move(place) => Operand::Move(load_place(place.get())),
        ast::Operand::Number(number) => Operand::Num(*number),
        ast::Operand::Bool(truth) => Operand::Truth(*truth),
        ast::Operand::Const(_) | ast::Operand::Fn(_) => Operand::Num(0),
    }
}

fn load_operands(alloc: Global, operands: &[ast::Operand]) -> Result<Items<Operand>, NoMemory>
    ensures { IfOk result (λ os. os ≡ map operand_of operands.now) }
{
    let mut loaded = Items::new(alloc);
    for operand in operands {
        loaded.push(load_operand(operand))?;
    }
    Ok(loaded)
}

#[tactic(auto, unfolding(crate::specs::Meaning::op_of))]
fn load_op(op: ast::Op) -> Op
    ensures { result ≡ op_of op }
{
    match op {
        ast::Op::Add => Op::Add,
        ast::Op::Sub => Op::Sub,
        ast::Op::Mul => Op::Mul,
        ast::Op::Div => Op::Div,
        ast::Op::Rem => Op::Rem,
        ast::Op::Eq => Op::Eq,
        ast::Op::Lt => Op::Lt,
    }
}

#[tactic(auto, unfolding(crate::specs::Meaning::rvalue_of))]
fn load_rvalue(rvalue: &ast::Rvalue) -> Rvalue
    ensures { result ≡ rvalue_of rvalue.now }
{
    match rvalue {
        ast::Rvalue::Use(operand) => Rvalue::Use(load_operand(operand)),
        ast::Rvalue::Not(operand) => Rvalue::Not(load_operand(operand)),
        ast::Rvalue::Binary(op, left, right) => {
            Rvalue::Binary(
                load_op(*op),
                load_operand(left.get()),
                load_operand(right.get()),
            )
        }
        ast::Rvalue::Ref(_)
        | ast::Rvalue::Variant(_)
        | ast::Rvalue::Boxed(_)
        | ast::Rvalue::Tuple(_)
        | ast::Rvalue::New(_)
        | ast::Rvalue::Dyn(_, _, _) => Rvalue::Use(Operand::Num(0)),
    }
}

#[tactic(auto, unfolding(crate::specs::Meaning::statement_of))]
fn load_statement(statement: &ast::Statement) -> Statement
    ensures { result ≡ statement_of statement.now }
{
    match statement {
        ast::Statement::Set(place, rvalue) => {
            Statement::Set(load_place(place), load_rvalue(rvalue))
        }
        ast::Statement::Print(operand) => Statement::Print(load_operand(operand)),
    }
}

fn load_statements(
    alloc: Global,
    statements: &[ast::Statement],
) -> Result<Items<Statement>, NoMemory>
    ensures { IfOk result (λ ss. ss ≡ map statement_of statements.now) }
{
    let mut loaded = Items::new(alloc);
    for statement in statements {
        loaded.push(load_statement(statement))?;
    }
    Ok(loaded)
}

#[tactic(auto, unfolding(crate::specs::Meaning::arm_of))]
fn load_arm(arm: ast::Arm) -> Arm
    ensures { result ≡ arm_of arm }
{
    Arm {
        number: arm.number,
        label: arm.label.number,
    }
}

fn load_arms(alloc: Global, arms: &[ast::Arm]) -> Result<Items<Arm>, NoMemory>
    ensures { IfOk result (λ loaded. loaded ≡ map arm_of arms.now) }
{
    let mut loaded = Items::new(alloc);
    for arm in arms {
        loaded.push(load_arm(*arm))?;
    }
    Ok(loaded)
}

/// The number of the function that is called.
fn load_callee(
    alloc: Global,
    paths: &NameTable<'_>,
    called: &ast::Called,
) -> Result<DefId, NoMemory>
    ensures { IfOk result (λ callee. callee ≡ def_id (callee_in (look_up paths.now) called.now)) }
{
    match called {
        ast::Called::Callee(ast::Callee::Direct(named)) => {
            let path = path_text(alloc, &named.path)?;
            Ok(DefId(index_in(paths, path.as_slice())))
        }
        ast::Called::Callee(ast::Callee::Method(_))
        | ast::Called::Callee(ast::Callee::Call(_))
        | ast::Called::Pointer(_) => Ok(DefId(0)),
    }
}

/// Its type arguments.
fn load_args(alloc: Global, scope: &NameTable<'_>, called: &ast::Called) -> Result<Tys, NoMemory>
    ensures { IfOk result (λ tys. tys ≡ args_in (look_up scope.now) called.now) }
{
    match called {
        ast::Called::Callee(ast::Callee::Direct(named)) => {
            load_types(alloc, scope, named.args.as_slice())
        }
        ast::Called::Callee(ast::Callee::Method(_))
        | ast::Called::Callee(ast::Callee::Call(_))
        | ast::Called::Pointer(_) => Ok(Tys::new(alloc)),
    }
}

#[tactic(auto, unfolding(crate::specs::Meaning::call_of))]
fn load_call(
    alloc: Global,
    paths: &NameTable<'_>,
    scope: &NameTable<'_>,
    call: &ast::Call,
) -> Result<Call, NoMemory>
    ensures { IfOk result (λ c. c ≡ call_of (look_up paths.now) (look_up scope.now) call.now) }
{
    Ok(Call {
        place: load_place(&call.place),
        callee: load_callee(alloc, paths, &call.called)?,
        args: load_args(alloc, scope, &call.called)?,
        operands: load_operands(alloc, call.operands.as_slice())?,
        target: call.target.number,
    })
}

#[tactic(auto, unfolding(crate::specs::Meaning::end_of))]
fn load_end(
    alloc: Global,
    paths: &NameTable<'_>,
    scope: &NameTable<'_>,
    end: &ast::End,
) -> Result<End, NoMemory>
    ensures { IfOk result (λ e. e ≡ end_of (look_up paths.now) (look_up scope.now) end.now) }
{
    match end {
        ast::End::Return => Ok(End::Return),
        ast::End::Goto(label) => Ok(End::Goto(label.number)),
        ast::End::Switch(switch) => {
            let switch = switch.get();
            let operand = load_operand(&switch.operand);
            let arms = load_arms(alloc, switch.arms.as_slice())?;
            Ok(End::Switch(operand, arms, switch.otherwise.number))
        }
        ast::End::Call(call) => Ok(End::Call(load_call(alloc, paths, scope, call.get())?)),
        ast::End::Unreachable | ast::End::Drop(_, _) => Ok(End::Unreachable),
    }
}

#[tactic(auto, unfolding(crate::specs::Meaning::block_of))]
fn load_block(
    alloc: Global,
    paths: &NameTable<'_>,
    scope: &NameTable<'_>,
    block: &ast::Block,
) -> Result<Block, NoMemory>
    ensures { IfOk result (λ b. b ≡ block_of (look_up paths.now) (look_up scope.now) block.now) }
{
    Ok(Block {
        statements: load_statements(alloc, block.statements.as_slice())?,
        end: load_end(alloc, paths, scope, &block.end)?,
    })
}

pub fn load_blocks(
    alloc: Global,
    paths: &NameTable<'_>,
    scope: &NameTable<'_>,
    blocks: &[ast::Block],
) -> Result<Items<Block>, NoMemory>
    ensures { IfOk result (λ bs. bs ≡ map (block_of (look_up paths.now) (look_up scope.now)) blocks.now) }
{
    let mut loaded = Items::new(alloc);
    for block in blocks {
        loaded.push(load_block(alloc, paths, scope, block)?)?;
    }
    Ok(loaded)
}
