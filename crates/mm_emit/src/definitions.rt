//! The definition that an item is compiled to.

ghost use Rattle.std.specs.Prelude.{◌≡◌, map, length, slice_get, Some, [], All, IfOk};
ghost use Rattle.mm_objects.specs.Emitted.{item_symbol, end_of, block_of, code_of, def_of};
ghost use Rattle.mm_plain.specs.Uses.{called};
ghost use Rattle.mm_objects.specs.declared.objects.ObjDef.TheVariants.{Code};
ghost use Rattle.mm_emit.specs.Numbers.{FitsArm, FitsEnd, FitsBlock, FitsDef};

use crate::bodies::{instrs, operand, operands, place};
use mm_objects::{Linkage, ObjBlock, ObjCallee, ObjDef, ObjEnd};
use mm_plain::{Arm, Block, Call, End, Function, Program};
use mm_subst::apply_all;
use mm_symbols::symbol;
use mm_terms::{Item, NoMemory, Text, Ty};
use sqlite_items::Items;
use std::alloc::Global;

/// The symbol of what a call resolves to in the instance at the arguments.
fn callee(alloc: Global, p: &Program, args: &[Ty], call: &Call) -> Result<Text, NoMemory>
    ensures { IfOk result (λ text. text ≡ item_symbol p.now (called args.now call.now)) }
{
    let args = apply_all(alloc, call.args.as_slice(), args)?;
    symbol(alloc, p, &Item::Fn(call.callee, args))
}

/// The arm as it is. Its number is below 2^64.
fn same(arm: Arm) -> Arm
    ensures same { result ≡ arm }
    ensures fits { FitsArm result }
{
    arm
}

fn arms(alloc: Global, from: &[Arm]) -> Result<Items<Arm>, NoMemory>
    ensures made { IfOk result (λ made. made ≡ from.now) }
    ensures fits { IfOk result (All FitsArm) }
{
    let mut made = Items::new(alloc);
    for arm in from {
        made.push(same(*arm))?;
    }
    Ok(made)
}

fn end(alloc: Global, p: &Program, args: &[Ty], from: &End) -> Result<ObjEnd, NoMemory>
    ensures made { IfOk result (λ made. made ≡ end_of p.now args.now from.now) }
    ensures fits { IfOk result FitsEnd }
{
    match from {
        End::Return => Ok(ObjEnd::Return),
        End::Unreachable => Ok(ObjEnd::Unreachable),
        End::Goto(label) => Ok(ObjEnd::Goto(*label)),
        End::Switch(from, cases, other) => {
            let cases = arms(alloc, cases.as_slice())?;
            Ok(ObjEnd::Switch(operand(*from), cases, *other))
        }
        End::Call(call) => {
            let callee = ObjCallee::Fn(callee(alloc, p, args, call)?);
            let operands = operands(alloc, call.operands.as_slice())?;
            Ok(ObjEnd::Call(place(call.place), callee, operands, call.target))
        }
    }
}

fn block(alloc: Global, p: &Program, args: &[Ty], from: &Block) -> Result<ObjBlock, NoMemory>
    ensures made { IfOk result (λ made. made ≡ block_of p.now args.now from.now) }
    ensures fits { IfOk result FitsBlock }
{
    Ok(ObjBlock {
        instrs: instrs(alloc, from.statements.as_slice())?,
        end: end(alloc, p, args, &from.end)?,
    })
}

fn blocks(
    alloc: Global,
    p: &Program,
    args: &[Ty],
    from: &[Block],
) -> Result<Items<ObjBlock>, NoMemory>
    ensures made { IfOk result (λ made. made ≡ map (block_of p.now args.now) from.now) }
    ensures fits { IfOk result (All FitsBlock) }
{
    let mut made = Items::new(alloc);
    for one in from {
        made.push(block(alloc, p, args, one)?)?;
    }
    Ok(made)
}

/// The instance at the arguments of a function.
fn code(
    alloc: Global,
    p: &Program,
    symbol: Text,
    link: Linkage,
    args: &[Ty],
    from: &Function,
) -> Result<ObjDef, NoMemory>
    ensures made { IfOk result (λ made. made ≡ code_of p.now symbol link args.now (Some from.now)) }
    ensures fits { IfOk result FitsDef }
{
    let Ok(locals) = u32::try_from(from.locals.len()) else {
        return Err(NoMemory);
    };
    Ok(ObjDef::Code {
        symbol,
        link,
        params: from.params,
        locals,
        blocks: blocks(alloc, p, args, from.blocks.as_slice())?,
    })
}

/// A definition without a block.
fn empty(alloc: Global, symbol: Text, link: Linkage) -> ObjDef
    ensures made { result ≡ Code symbol link 0 1 [] }
    ensures fits { FitsDef result }
{
    ObjDef::Code {
        symbol,
        link,
        params: 0,
        locals: 1,
        blocks: Items::new(alloc),
    }
}

/// What an item is compiled to.
pub fn definition(
    alloc: Global,
    p: &Program,
    link: Linkage,
    item: &Item,
) -> Result<ObjDef, NoMemory>
    ensures made { IfOk result (λ made. made ≡ def_of p.now link item.now) }
    ensures fits { IfOk result FitsDef }
{
    let symbol = symbol(alloc, p, item)?;
    let Item::Fn(def, args) = item else {
        return Ok(empty(alloc, symbol, link));
    };
    match p.functions.get(def.0 as usize) {
        Some(function) => code(alloc, p, symbol, link, args.as_slice(), function),
        None => Ok(empty(alloc, symbol, link)),
    }
}
