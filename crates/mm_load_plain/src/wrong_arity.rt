//! Calls that do not fit their callees.
ghost use Rattle.std.specs.Prelude.{◌≡◌, map};
ghost use Rattle.mm_load_plain.specs.Asking.{Reports};
ghost use Rattle.mm_load_plain.specs.Names.{look_up};
ghost use Rattle.mm_load_plain.specs.Seen.{function_seen};
ghost use Rattle.mm_load_plain.specs.Rules.{fits, misfit_named, misfit_call, misfit_block, misfits_in_function, misfits_in_functions};
ghost use Rattle.mm_load_plain.specs.declared.rule.Rule.TheVariants.{WrongArity};

use crate::functions::Defined;
use crate::load_error::{LoadError, fault_if};
use crate::name_table::{NameTable, function_at, path_text};
use crate::rule::Rule;
use mm_ast as ast;
use std::alloc::Global;

/// Whether there are as many type arguments and operands as the callee takes.
fn call_fits(named: &ast::PathWithArgs, operands: &[ast::Operand], callee: &ast::Function) -> bool
    ensures { result ≡ fits named.now operands.now callee.now }
{
    named.args.len() == callee.type_params.len() && operands.len() == callee.signature.params.len()
}

#[tactic(auto, unfolding(crate::specs::Rules::misfit_named))]
fn check_named(
    alloc: Global,
    paths: &NameTable<'_>,
    functions: &[Defined<'_>],
    operands: &[ast::Operand],
    named: &ast::PathWithArgs,
) -> Result<(), LoadError>
    ensures { Reports WrongArity (misfit_named (look_up paths.now) (map function_seen functions.now) operands.now named.now) result }
{
    let path = path_text(alloc, &named.path)?;
    match function_at(paths, functions, path.as_slice()) {
        Some(callee) => fault_if(
            !call_fits(named, operands, callee.function),
            Rule::WrongArity,
            named.path.line,
        ),
        None => Ok(()),
    }
}

#[tactic(auto, unfolding(crate::specs::Rules::misfit_call))]
fn check_call(
    alloc: Global,
    paths: &NameTable<'_>,
    functions: &[Defined<'_>],
    call: &ast::Call,
) -> Result<(), LoadError>
    ensures { Reports WrongArity (misfit_call (look_up paths.now) (map function_seen functions.now) call.now) result }
{
    match &call.called {
        ast::Called::Callee(ast::Callee::Direct(named)) => {
            check_named(alloc, paths, functions, call.operands.as_slice(), named)
        }
        ast::Called::Callee(ast::Callee::Method(_))
        | ast::Called::Callee(ast::Callee::Call(_))
        | ast::Called::Pointer(_) => Ok(()),
    }
}

#[tactic(auto, unfolding(crate::specs::Rules::misfit_block), using(crate::proofs::AskingLemmas::no_call))]
fn check_block(
    alloc: Global,
    paths: &NameTable<'_>,
    functions: &[Defined<'_>],
    block: &ast::Block,
) -> Result<(), LoadError>
    ensures { Reports WrongArity (misfit_block (look_up paths.now) (map function_seen functions.now) block.now) result }
{
    if let ast::End::Call(call) = &block.end {
        return check_call(alloc, paths, functions, call.get());
    }
    Ok(())
}

#[tactic(auto, unfolding(crate::specs::Rules::misfits_in_function), using(crate::proofs::AskingLemmas::fault_more))]
fn check_function(
    alloc: Global,
    paths: &NameTable<'_>,
    functions: &[Defined<'_>],
    function: &ast::Function,
) -> Result<(), LoadError>
    ensures { Reports WrongArity (misfits_in_function (look_up paths.now) (map function_seen functions.now) function.now) result }
{
    for block in function.body.blocks.as_slice() {
        check_block(alloc, paths, functions, block)?;
    }
    Ok(())
}

/// Asks whether each call of these functions fits the one of them to which its path resolves.
#[tactic(auto, unfolding(crate::specs::Rules::misfits_in_functions), using(crate::proofs::AskingLemmas::fault_seen))]
pub fn check(
    alloc: Global,
    paths: &NameTable<'_>,
    functions: &[Defined<'_>],
) -> Result<(), LoadError>
    ensures { Reports WrongArity (misfits_in_functions (look_up paths.now) (map function_seen functions.now)) result }
{
    for function in functions {
        check_function(alloc, paths, functions, function.function)?;
    }
    Ok(())
}
