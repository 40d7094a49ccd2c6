//! Types that are too long.
ghost use Rattle.std.specs.Option.{option_map_or, SomeIff};
ghost use Rattle.std.specs.Prelude.{[], ◌≤◌, ◌-◌, map};
ghost use Rattle.mm_load_plain.specs.Asking.{Reports};
ghost use Rattle.mm_load_plain.specs.Rules.{type_length, long_type, long_types, long_in_call, long_in_block, long_in_blocks, long_in_function, long_in_functions};
ghost use Rattle.mm_load_plain.specs.Seen.{function_seen};
ghost use Rattle.mm_load_plain.specs.declared.rule.Rule.TheVariants.{LongType};

use crate::functions::Defined;
use crate::load_error::{LoadError, fault_if};
use crate::rule::Rule;
use mm_ast as ast;

/// The greatest number of constructors in a written type.
const LONGEST: u32 = 2_048;

/// How many constructors more there may be after a type, where there may be so many with it.
fn room_after(ty: &ast::Type, room: u32) -> Option<u32>
    ensures { SomeIff result (type_length ty.now ≤ room) (room - type_length ty.now) }
{
    let mut room = room.checked_sub(1)?;
    for child in ty.children.as_slice() {
        room = room_after(child, room)?;
    }
    Some(room)
}

#[tactic(auto, unfolding(crate::specs::Rules::long_type))]
fn check_type(ty: &ast::Type) -> Result<(), LoadError>
    ensures { Reports LongType (long_type ty.now) result }
{
    let room = room_after(ty, LONGEST);
    fault_if(room.is_none(), Rule::LongType, ty.line)
}

#[tactic(auto, unfolding(crate::specs::Rules::long_types), using(crate::proofs::AskingLemmas::fault_more))]
fn check_types(types: &[ast::Type]) -> Result<(), LoadError>
    ensures { Reports LongType (long_types types.now) result }
{
    for ty in types {
        check_type(ty)?;
    }
    Ok(())
}

fn check_result(ty: &Option<ast::Type>) -> Result<(), LoadError>
    ensures { Reports LongType (option_map_or long_type ty.now []) result }
{
    match ty {
        Some(ty) => check_type(ty),
        None => Ok(()),
    }
}

#[tactic(auto, unfolding(crate::specs::Rules::long_in_call))]
fn check_call(call: &ast::Call) -> Result<(), LoadError>
    ensures { Reports LongType (long_in_call call.now) result }
{
    match &call.called {
        ast::Called::Callee(ast::Callee::Direct(named)) => check_types(named.args.as_slice()),
        ast::Called::Callee(ast::Callee::Method(_))
        | ast::Called::Callee(ast::Callee::Call(_))
        | ast::Called::Pointer(_) => Ok(()),
    }
}

#[tactic(auto, unfolding(crate::specs::Rules::long_in_block), using(crate::proofs::AskingLemmas::no_call))]
fn check_block(block: &ast::Block) -> Result<(), LoadError>
    ensures { Reports LongType (long_in_block block.now) result }
{
    if let ast::End::Call(call) = &block.end {
        return check_call(call.get());
    }
    Ok(())
}

#[tactic(auto, unfolding(crate::specs::Rules::long_in_blocks), using(crate::proofs::AskingLemmas::fault_more))]
fn check_blocks(blocks: &[ast::Block]) -> Result<(), LoadError>
    ensures { Reports LongType (long_in_blocks blocks.now) result }
{
    for block in blocks {
        check_block(block)?;
    }
    Ok(())
}

#[tactic(auto, unfolding(crate::specs::Rules::long_in_function), using(crate::proofs::AskingLemmas::reports_here, crate::proofs::AskingLemmas::reports_next))]
fn check_function(function: &ast::Function) -> Result<(), LoadError>
    ensures { Reports LongType (long_in_function function.now) result }
{
    check_types(function.signature.params.as_slice())?;
    check_result(&function.signature.result)?;
    check_types(function.body.lets.as_slice())?;
    check_blocks(function.body.blocks.as_slice())
}

/// Asks whether each written type of these functions is short enough.
#[tactic(auto, unfolding(crate::specs::Rules::long_in_functions), using(crate::proofs::AskingLemmas::fault_seen))]
pub fn check(functions: &[Defined<'_>]) -> Result<(), LoadError>
    ensures { Reports LongType (long_in_functions (map function_seen functions.now)) result }
{
    for function in functions {
        check_function(function.function)?;
    }
    Ok(())
}
