//! Names that resolve to nothing.
ghost use Rattle.std.specs.Option.{option_map_or};
ghost use Rattle.std.specs.Prelude.{[], map};
ghost use Rattle.mm_load_plain.specs.Asking.{Reports};
ghost use Rattle.mm_load_plain.specs.Names.{look_up};
ghost use Rattle.mm_load_plain.specs.Rules.{of_named, unknown_head, unknown_in_type, unknown_in_types, unknown_place, unknown_label, unknown_in_operand, unknown_in_operands, unknown_in_rvalue, unknown_in_statement, unknown_in_statements, unknown_in_arms, unknown_in_switch, unknown_named, unknown_in_call, unknown_in_end, unknown_in_block, unknown_in_blocks, unknown_in_scope, unknown_in_function, unknown_in_functions};
ghost use Rattle.mm_load_plain.specs.Seen.{function_seen};
ghost use Rattle.mm_load_plain.specs.declared.rule.Rule.TheVariants.{UnknownName};

use crate::functions::Defined;
use crate::load_error::{LoadError, fault_if};
use crate::name_table::{NameTable, find, path_text, type_param_table};
use crate::places::{local_of, place_line};
use crate::rule::Rule;
use mm_ast as ast;
use std::alloc::Global;

fn check_head(scope: &NameTable<'_>, line: u32, head: &ast::Head) -> Result<(), LoadError>
    ensures { Reports UnknownName (unknown_head (look_up scope.now) line head.now) result }
{
    let ast::Head::Param(name) = head else {
        return Ok(());
    };
    let index = find(scope, name.as_slice());
    fault_if(index.is_none(), Rule::UnknownName, line)
}

#[tactic(auto, using(crate::proofs::WrittenLemmas::reports_in_type, crate::proofs::AskingLemmas::reports_here, crate::proofs::AskingLemmas::reports_next, crate::proofs::AskingLemmas::fault_more, crate::proofs::AskingLemmas::kept_all))]
fn check_type(scope: &NameTable<'_>, ty: &ast::Type) -> Result<(), LoadError>
    ensures { Reports UnknownName (unknown_in_type (look_up scope.now) ty.now) result }
{
    check_head(scope, ty.line, &ty.head)?;
    for child in ty.children.as_slice() {
        check_type(scope, child)?;
    }
    Ok(())
}

#[tactic(auto, unfolding(crate::specs::Rules::unknown_in_types), using(crate::proofs::AskingLemmas::fault_more))]
fn check_types(scope: &NameTable<'_>, types: &[ast::Type]) -> Result<(), LoadError>
    ensures { Reports UnknownName (unknown_in_types (look_up scope.now) types.now) result }
{
    for ty in types {
        check_type(scope, ty)?;
    }
    Ok(())
}

fn check_result(scope: &NameTable<'_>, ty: &Option<ast::Type>) -> Result<(), LoadError>
    ensures { Reports UnknownName (option_map_or (unknown_in_type (look_up scope.now)) ty.now []) result }
{
    match ty {
        Some(ty) => check_type(scope, ty),
        None => Ok(()),
    }
}

/// The locals are `_0`, and one for each parameter and each `let`.
fn check_place(function: &ast::Function, place: &ast::Place) -> Result<(), LoadError>
    ensures { Reports UnknownName (unknown_place function.now place.now) result }
{
    let params = function.signature.params.len();
    let behind_params = (local_of(place) as usize).saturating_sub(params);
    fault_if(
        function.body.lets.len() < behind_params,
        Rule::UnknownName,
        place_line(place),
    )
}

fn check_label(function: &ast::Function, label: ast::Label) -> Result<(), LoadError>
    ensures { Reports UnknownName (unknown_label function.now label) result }
{
    let blocks = function.body.blocks.len();
    fault_if(
        label.number as usize >= blocks,
        Rule::UnknownName,
        label.line,
    )
}

#[tactic(auto, unfolding(crate::specs::Rules::unknown_in_operand))]
fn check_operand(function: &ast::Function, operand: &ast::Operand) -> Result<(), LoadError>
    ensures { Reports UnknownName (unknown_in_operand function.now operand.now) result }
{
    match operand {
        ast::Operand::Copy(place) | ast::Operand::Move(place) => {
            check_place(function, place.get())
        }
        ast::Operand::Number(_)
        | ast::Operand::Bool(_)
        | ast::Operand::Const(_)
        | ast::Operand::Fn(_) => Ok(()),
    }
}

#[tactic(auto, unfolding(crate::specs::Rules::unknown_in_operands), using(crate::proofs::AskingLemmas::fault_more))]
fn check_operands(function: &ast::Function, operands: &[ast::Operand]) -> Result<(), LoadError>
    ensures { Reports UnknownName (unknown_in_operands function.now operands.now) result }
{
    for operand in operands {
        check_operand(function, operand)?;
    }
    Ok(())
}

#[tactic(auto, unfolding(crate::specs::Rules::unknown_in_rvalue), using(crate::proofs::AskingLemmas::reports_here, crate::proofs::AskingLemmas::reports_next))]
fn check_rvalue(function: &ast::Function, rvalue: &ast::Rvalue) -> Result<(), LoadError>
    ensures { Reports UnknownName (unknown_in_rvalue function.now rvalue.now) result }
{
    match rvalue {
        ast::Rvalue::Use(operand) | ast::Rvalue::Not(operand) => check_operand(function, operand),
        ast::Rvalue::Binary(_, left, right) => {
            check_operand(function, left.get())?;
            check_operand(function, right.get())
        }
        ast::Rvalue::Ref(_)
        | ast::Rvalue::Variant(_)
        | ast::Rvalue::Boxed(_)
        | ast::Rvalue::Tuple(_)
        | ast::Rvalue::New(_)
        | ast::Rvalue::Dyn(_, _, _) => Ok(()),
    }
}

/// The place that is written, and what is written into it.
#[tactic(auto, unfolding(crate::specs::Rules::unknown_in_statement), using(crate::proofs::AskingLemmas::reports_here, crate::proofs::AskingLemmas::reports_next))]
fn check_statement(function: &ast::Function, statement: &ast::Statement) -> Result<(), LoadError>
    ensures { Reports UnknownName (unknown_in_statement function.now statement.now) result }
{
    match statement {
        ast::Statement::Set(place, rvalue) => {
            check_place(function, place)?;
            check_rvalue(function, rvalue)
        }
        ast::Statement::Print(operand) => check_operand(function, operand),
    }
}

#[tactic(auto, unfolding(crate::specs::Rules::unknown_in_statements), using(crate::proofs::AskingLemmas::fault_more))]
fn check_statements(
    function: &ast::Function,
    statements: &[ast::Statement],
) -> Result<(), LoadError>
    ensures { Reports UnknownName (unknown_in_statements function.now statements.now) result }
{
    for statement in statements {
        check_statement(function, statement)?;
    }
    Ok(())
}

#[tactic(auto, unfolding(crate::specs::Rules::unknown_in_arms), using(crate::proofs::AskingLemmas::fault_more))]
fn check_arms(function: &ast::Function, arms: &[ast::Arm]) -> Result<(), LoadError>
    ensures { Reports UnknownName (unknown_in_arms function.now arms.now) result }
{
    for arm in arms {
        check_label(function, arm.label)?;
    }
    Ok(())
}

/// The operand, the labels of the arms, and that of the rest.
#[tactic(auto, unfolding(crate::specs::Rules::unknown_in_switch), using(crate::proofs::AskingLemmas::reports_here, crate::proofs::AskingLemmas::reports_next))]
fn check_switch(function: &ast::Function, switch: &ast::Switch) -> Result<(), LoadError>
    ensures { Reports UnknownName (unknown_in_switch function.now switch.now) result }
{
    check_operand(function, &switch.operand)?;
    check_arms(function, switch.arms.as_slice())?;
    check_label(function, switch.otherwise)
}

/// The path and the type arguments.
#[tactic(auto, unfolding(crate::specs::Rules::unknown_named), using(crate::proofs::AskingLemmas::reports_here, crate::proofs::AskingLemmas::reports_next))]
fn check_named(
    alloc: Global,
    paths: &NameTable<'_>,
    scope: &NameTable<'_>,
    named: &ast::PathWithArgs,
) -> Result<(), LoadError>
    ensures { Reports UnknownName (unknown_named (look_up paths.now) (look_up scope.now) named.now) result }
{
    let path = path_text(alloc, &named.path)?;
    let callee = find(paths, path.as_slice());
    fault_if(callee.is_none(), Rule::UnknownName, named.path.line)?;
    check_types(scope, named.args.as_slice())
}

/// What a call calls.
fn check_called(
    alloc: Global,
    paths: &NameTable<'_>,
    scope: &NameTable<'_>,
    called: &ast::Called,
) -> Result<(), LoadError>
    ensures { Reports UnknownName (of_named (unknown_named (look_up paths.now) (look_up scope.now)) called.now) result }
{
    match called {
        ast::Called::Callee(ast::Callee::Direct(named)) => check_named(alloc, paths, scope, named),
        ast::Called::Callee(ast::Callee::Method(_))
        | ast::Called::Callee(ast::Callee::Call(_))
        | ast::Called::Pointer(_) => Ok(()),
    }
}

/// Where the result goes, what is called, the operands and the label of a call in the function.
#[tactic(auto, unfolding(crate::specs::Rules::unknown_in_call), using(crate::proofs::AskingLemmas::reports_here, crate::proofs::AskingLemmas::reports_next))]
fn check_call(
    alloc: Global,
    paths: &NameTable<'_>,
    scope: &NameTable<'_>,
    function: &ast::Function,
    call: &ast::Call,
) -> Result<(), LoadError>
    ensures { Reports UnknownName (unknown_in_call (look_up paths.now) (look_up scope.now) function.now call.now) result }
{
    check_place(function, &call.place)?;
    check_called(alloc, paths, scope, &call.called)?;
    check_operands(function, call.operands.as_slice())?;
    check_label(function, call.target)
}

#[tactic(auto, unfolding(crate::specs::Rules::unknown_in_end))]
fn check_end(
    alloc: Global,
    paths: &NameTable<'_>,
    scope: &NameTable<'_>,
    function: &ast::Function,
    end: &ast::End,
) -> Result<(), LoadError>
    ensures { Reports UnknownName (unknown_in_end (look_up paths.now) (look_up scope.now) function.now end.now) result }
{
    match end {
        ast::End::Return | ast::End::Unreachable | ast::End::Drop(_, _) => Ok(()),
        ast::End::Goto(label) => check_label(function, *label),
        ast::End::Switch(switch) => check_switch(function, switch.get()),
        ast::End::Call(call) => check_call(alloc, paths, scope, function, call.get()),
    }
}

#[tactic(auto, unfolding(crate::specs::Rules::unknown_in_block), using(crate::proofs::AskingLemmas::reports_here, crate::proofs::AskingLemmas::reports_next))]
fn check_block(
    alloc: Global,
    paths: &NameTable<'_>,
    scope: &NameTable<'_>,
    function: &ast::Function,
    block: &ast::Block,
) -> Result<(), LoadError>
    ensures { Reports UnknownName (unknown_in_block (look_up paths.now) (look_up scope.now) function.now block.now) result }
{
    check_statements(function, block.statements.as_slice())?;
    check_end(alloc, paths, scope, function, &block.end)
}

#[tactic(auto, unfolding(crate::specs::Rules::unknown_in_blocks), using(crate::proofs::AskingLemmas::fault_more))]
fn check_blocks(
    alloc: Global,
    paths: &NameTable<'_>,
    scope: &NameTable<'_>,
    function: &ast::Function,
) -> Result<(), LoadError>
    ensures { Reports UnknownName (unknown_in_blocks (look_up paths.now) (look_up scope.now) function.now function.now.body.blocks) result }
{
    for block in function.body.blocks.as_slice() {
        check_block(alloc, paths, scope, function, block)?;
    }
    Ok(())
}

/// The parameter types, the result type, the types of the `let` locals and the blocks of a function.
#[tactic(auto, unfolding(crate::specs::Rules::unknown_in_scope), using(crate::proofs::AskingLemmas::reports_here, crate::proofs::AskingLemmas::reports_next))]
fn check_in_scope(
    alloc: Global,
    paths: &NameTable<'_>,
    scope: &NameTable<'_>,
    function: &ast::Function,
) -> Result<(), LoadError>
    ensures { Reports UnknownName (unknown_in_scope (look_up paths.now) (look_up scope.now) function.now) result }
{
    check_types(scope, function.signature.params.as_slice())?;
    check_result(scope, &function.signature.result)?;
    check_types(scope, function.body.lets.as_slice())?;
    check_blocks(alloc, paths, scope, function)
}

fn check_function(
    alloc: Global,
    paths: &NameTable<'_>,
    function: &ast::Function,
) -> Result<(), LoadError>
    ensures { Reports UnknownName (unknown_in_function (look_up paths.now) function.now) result }
{
    let scope = type_param_table(alloc, function)?;
    check_in_scope(alloc, paths, &scope, function)
}

/// Asks whether each name of these functions resolves.
#[tactic(auto, unfolding(crate::specs::Rules::unknown_in_functions), using(crate::proofs::AskingLemmas::fault_seen))]
pub fn check(
    alloc: Global,
    paths: &NameTable<'_>,
    functions: &[Defined<'_>],
) -> Result<(), LoadError>
    ensures { Reports UnknownName (unknown_in_functions (look_up paths.now) (map function_seen functions.now)) result }
{
    for function in functions {
        check_function(alloc, paths, function.function)?;
    }
    Ok(())
}
