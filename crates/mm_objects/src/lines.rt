ghost use Rattle.std.specs.Prelude.{◌≡◌, map, codes};
ghost use Rattle.std.specs.Option.{option_map};
ghost use Rattle.mm_objects.specs.LineReading.{all_in, operand_in, arm_in, one_operand_in, binary_in, rvalue_in, set_in, instr_in, goto_in, listed_in, switch_in, call_in, end_in, if_done, counts_in, header_in, label_in};
ghost use Rattle.mm_objects.specs.Given.{Gives};

use crate::line_error::LineError;
use crate::number::number_below;
use crate::objects::{Linkage, ObjEnd, ObjInstr, ObjOperand, ObjRvalue};
use crate::pieces::{both, last_two, next, only};
use crate::progress::Header;
use crate::words::{behind, callee, cut, is, linkage, operand, operation, place, symbol};
use mm_names::decimal;
use mm_plain::{Arm, Op};
use mm_terms::Text;
use sqlite_items::Items;
use std::alloc::Global;

/// The one operand that the words are.
#[tactic(auto, unfolding(crate::specs::LineReading::one_operand_in))]
fn one_operand(locals: u32, words: &[&[u8]]) -> Option<ObjOperand>
    ensures { result ≡ one_operand_in locals (map (λ w. w.now) words.now) }
{
    operand(locals, only(words)?)
}

#[tactic(auto, unfolding(crate::specs::LineReading::binary_in))]
fn binary(locals: u32, op: Op, words: &[&[u8]]) -> Option<ObjRvalue>
    ensures { result ≡ binary_in locals op (map (λ w. w.now) words.now) }
{
    let (first, second) = both(words)?;
    let a = operand(locals, first)?;
    let b = operand(locals, second)?;
    Some(ObjRvalue::Binary(op, a, b))
}

/// How a value is made.
#[tactic(auto, unfolding(crate::specs::LineReading::rvalue_in))]
fn rvalue(locals: u32, words: &[&[u8]]) -> Option<ObjRvalue>
    ensures { result ≡ rvalue_in locals (map (λ w. w.now) words.now) }
{
    let (key, others) = next(words)?;
    if is(key, b"use") {
        return Some(ObjRvalue::Use(one_operand(locals, others)?));
    }
    if is(key, b"not") {
        return Some(ObjRvalue::Not(one_operand(locals, others)?));
    }
    binary(locals, operation(key)?, others)
}

#[tactic(auto, unfolding(crate::specs::LineReading::set_in))]
fn set(locals: u32, words: &[&[u8]]) -> Option<ObjInstr>
    ensures { result ≡ set_in locals (map (λ w. w.now) words.now) }
{
    let (target, others) = next(words)?;
    let target = place(locals, target)?;
    let value = rvalue(locals, others)?;
    Some(ObjInstr::Set(target, value))
}

/// The instruction that the words spell in a function with so many locals.
#[tactic(auto, unfolding(crate::specs::LineReading::instr_in))]
pub fn instr(locals: u32, words: &[&[u8]]) -> Option<ObjInstr>
    ensures { result ≡ instr_in locals (map (λ w. w.now) words.now) }
{
    let (key, others) = next(words)?;
    if is(key, b"set") {
        return set(locals, others);
    }
    if is(key, b"print") {
        return Some(ObjInstr::Print(one_operand(locals, others)?));
    }
    None
}

#[tactic(auto, unfolding(crate::specs::LineReading::goto_in))]
fn goto(blocks: u64, words: &[&[u8]]) -> Option<ObjEnd>
    ensures { result ≡ goto_in blocks (map (λ w. w.now) words.now) }
{
    Some(ObjEnd::Goto(number_below(only(words)?, blocks)?))
}

/// The words of a list, behind which stand a mark and a label; and the label.
#[tactic(auto, unfolding(crate::specs::LineReading::listed_in))]
fn listed<'a, 'b>(mark: &[u8], blocks: u64, words: &'b [&'a [u8]]) -> Option<(&'b [&'a [u8]], u32)>
    ensures { option_map (λ p. (map (λ w. w.now) p.0.now, p.1)) result ≡ listed_in mark.now blocks (map (λ w. w.now) words.now) }
{
    let (list, key, label) = last_two(words)?;
    if !is(key, mark) {
        return None;
    }
    Some((list, number_below(label, blocks)?))
}

/// A number and the block for it, separated by a colon.
#[tactic(auto, unfolding(crate::specs::LineReading::arm_in))]
fn arm(alloc: Global, blocks: u64, word: &[u8]) -> Result<Arm, LineError>
    ensures { Gives result (arm_in blocks word.now) }
{
    let parts = cut(alloc, word, b':')?;
    let (first, second) = both(&parts).ok_or(LineError::Unfit)?;
    let number = decimal(first, u64::MAX).ok_or(LineError::Unfit)?;
    let label = number_below(second, blocks).ok_or(LineError::Unfit)?;
    Ok(Arm { number, label })
}

fn arms(alloc: Global, blocks: u64, words: &[&[u8]]) -> Result<Items<Arm>, LineError>
    ensures { Gives result (all_in (arm_in blocks) (map (λ w. w.now) words.now)) }
{
    let mut arms = Items::new(alloc);
    for word in words {
        arms.push(arm(alloc, blocks, word)?)?;
    }
    Ok(arms)
}

/// The operand that a word spells.
fn operand_of(locals: u32, word: &[u8]) -> Result<ObjOperand, LineError>
    ensures { Gives result (operand_in locals word.now) }
{
    operand(locals, word).ok_or(LineError::Unfit)
}

fn operands(alloc: Global, locals: u32, words: &[&[u8]]) -> Result<Items<ObjOperand>, LineError>
    ensures { Gives result (all_in (operand_in locals) (map (λ w. w.now) words.now)) }
{
    let mut operands = Items::new(alloc);
    for word in words {
        operands.push(operand_of(locals, word)?)?;
    }
    Ok(operands)
}

#[tactic(auto, unfolding(crate::specs::LineReading::switch_in))]
fn switch(alloc: Global, locals: u32, blocks: u64, words: &[&[u8]]) -> Result<ObjEnd, LineError>
    ensures { Gives result (switch_in locals blocks (map (λ w. w.now) words.now)) }
{
    let (on, others) = next(words).ok_or(LineError::Unfit)?;
    let on = operand_of(locals, on)?;
    let (list, otherwise) = listed(b"else", blocks, others).ok_or(LineError::Unfit)?;
    let arms = arms(alloc, blocks, list)?;
    Ok(ObjEnd::Switch(on, arms, otherwise))
}

#[tactic(auto, unfolding(crate::specs::LineReading::call_in))]
fn call(alloc: Global, locals: u32, blocks: u64, words: &[&[u8]]) -> Result<ObjEnd, LineError>
    ensures { Gives result (call_in locals blocks (map (λ w. w.now) words.now)) }
{
    let (target, others) = next(words).ok_or(LineError::Unfit)?;
    let target = place(locals, target).ok_or(LineError::Unfit)?;
    let (named, others) = next(others).ok_or(LineError::Unfit)?;
    let named = callee(alloc, named)?;
    let (list, label) = listed(b"->", blocks, others).ok_or(LineError::Unfit)?;
    let args = operands(alloc, locals, list)?;
    Ok(ObjEnd::Call(target, named, args, label))
}

/// An end that is a word alone.
fn alone(end: ObjEnd, words: &[&[u8]]) -> Result<ObjEnd, LineError>
    ensures { Gives result (if_done end (map (λ w. w.now) words.now)) }
{
    match words {
        [] => Ok(end),
        _ => Err(LineError::Unfit),
    }
}

/// The end that the words spell in a function with so many locals and so many blocks.
#[tactic(auto, unfolding(crate::specs::LineReading::end_in))]
pub fn end(alloc: Global, locals: u32, blocks: u64, words: &[&[u8]]) -> Result<ObjEnd, LineError>
    ensures { Gives result (end_in locals blocks (map (λ w. w.now) words.now)) }
{
    let (key, others) = next(words).ok_or(LineError::Unfit)?;
    if is(key, b"return") {
        return alone(ObjEnd::Return, others);
    }
    if is(key, b"unreachable") {
        return alone(ObjEnd::Unreachable, others);
    }
    if is(key, b"goto") {
        return goto(blocks, others).ok_or(LineError::Unfit);
    }
    if is(key, b"switch") {
        return switch(alloc, locals, blocks, others);
    }
    if is(key, b"call") {
        return call(alloc, locals, blocks, others);
    }
    Err(LineError::Unfit)
}

/// The numbers of parameters, of locals and of blocks.
#[tactic(auto, unfolding(crate::specs::LineReading::counts_in))]
fn counts(symbol: Text, link: Linkage, words: &[&[u8]]) -> Option<Header>
    ensures { result ≡ counts_in symbol link (map (λ w. w.now) words.now) }
{
    let (params, others) = next(words)?;
    let params = decimal(params, 65_535)?;
    let (locals, blocks) = both(others)?;
    let locals = decimal(locals, 65_536)?;
    let blocks = decimal(blocks, u64::MAX)?;
    if params < locals && 0 < blocks {
        return Some(Header {
            symbol,
            link,
            params: params as u32,
            locals: locals as u32,
            blocks,
        });
    }
    None
}

/// The first line of a function, behind its first word.
#[tactic(auto, unfolding(crate::specs::LineReading::header_in))]
pub fn header(alloc: Global, words: &[&[u8]]) -> Result<Header, LineError>
    ensures { Gives result (header_in (map (λ w. w.now) words.now)) }
{
    let (name, others) = next(words).ok_or(LineError::Unfit)?;
    let name = symbol(alloc, name)?;
    let (link, others) = next(others).ok_or(LineError::Unfit)?;
    let link = linkage(link).ok_or(LineError::Unfit)?;
    counts(name, link, others).ok_or(LineError::Unfit)
}

/// Whether the words are the label of the block with the number.
#[tactic(auto, unfolding(crate::specs::LineReading::label_in))]
pub fn label(number_of: u64, words: &[&[u8]]) -> Option<u64>
    ensures { result ≡ label_in number_of (map (λ w. w.now) words.now) }
{
    let digits = behind(b"bb", only(words)?)?;
    let found = decimal(digits, u64::MAX)?;
    if found == number_of {
        Some(found)
    } else {
        None
    }
}
