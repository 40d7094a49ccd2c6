ghost use Rattle.std.specs.Prelude.{◌≡◌};
ghost use Rattle.mm_forms.specs.Given.{Gives};
ghost use Rattle.mm_grammar.specs.Grammar.{more_operands, named_operand, next_operand, op, operand, operands, two_operands};
ghost use Rattle.mm_grammar.specs.Reading.{begun, read};
ghost use Rattle.mm_grammar.specs.Rules.{in_parens};
ghost use Rattle.mm_grammar.specs.Seen.{seen};

use crate::places::place;
use mm_ast::{Op, Operand};
use mm_forms::Stop;
use mm_grammar::callees::callee;
use mm_grammar::cursor::Tokens;
use mm_grammar::pieces::{
    number, past_punct, past_word, single, starts_number, starts_punct, starts_word,
};
use mm_grammar::sequences::{both, ended, listed};
use mm_grammar::types::path_args;
use mm_lex::Punct;
use mm_names::Word;
use sqlite_items::{Boxed, Items};
use std::alloc::Global;

/// An operand.
#[tactic(auto, unfolding(mm_grammar::specs::Grammar::operand))]
pub fn operand<'a>(alloc: Global, tokens: Tokens<'a>) -> Result<(Operand, Tokens<'a>), Stop>
    ensures { Gives (λ x. (x.0, seen x.1)) result (read operand (seen tokens.entry)) }
{
    if starts_word(Word::Copy, tokens) {
        let rest = past_word(Word::Copy, tokens)?;
        let (place, rest) = place(alloc, rest)?;
        return Ok((Operand::Copy(Boxed::new(alloc, place)?), rest));
    }
    if starts_word(Word::Move, tokens) {
        let rest = past_word(Word::Move, tokens)?;
        let (place, rest) = place(alloc, rest)?;
        return Ok((Operand::Move(Boxed::new(alloc, place)?), rest));
    }
    if starts_number(tokens) {
        let (number, rest) = number(tokens)?;
        return Ok((Operand::Number(number), rest));
    }
    if starts_word(Word::True, tokens) {
        let rest = past_word(Word::True, tokens)?;
        return Ok((Operand::Bool(true), rest));
    }
    if starts_word(Word::False, tokens) {
        let rest = past_word(Word::False, tokens)?;
        return Ok((Operand::Bool(false), rest));
    }
    named_operand(alloc, tokens)
}

/// A constant or a function as an operand.
#[tactic(auto, unfolding(mm_grammar::specs::Grammar::named_operand))]
fn named_operand<'a>(alloc: Global, tokens: Tokens<'a>) -> Result<(Operand, Tokens<'a>), Stop>
    ensures { Gives (λ x. (x.0, seen x.1)) result (read named_operand (seen tokens.entry)) }
{
    if starts_word(Word::Const, tokens) {
        let rest = past_word(Word::Const, tokens)?;
        let (constant, rest) = path_args(alloc, rest)?;
        return Ok((Operand::Const(Boxed::new(alloc, constant)?), rest));
    }
    let rest = past_word(Word::Fn, tokens)?;
    let (callee, rest) = callee(alloc, rest)?;
    Ok((Operand::Fn(Boxed::new(alloc, callee)?), rest))
}

/// A comma and an operand.
#[tactic(auto, unfolding(mm_grammar::specs::Grammar::next_operand))]
fn next_operand<'a>(alloc: Global, tokens: Tokens<'a>) -> Result<(Operand, Tokens<'a>), Stop>
    ensures { Gives (λ x. (x.0, seen x.1)) result (read next_operand (seen tokens.entry)) }
{
    let rest = past_punct(Punct::Comma, tokens)?;
    operand(alloc, rest)
}

/// Whether the next token begins a comma and an operand.
#[tactic(auto, unfolding(mm_grammar::specs::Grammar::next_operand))]
fn begins_next_operand(tokens: Tokens<'_>) -> bool
    ensures { result ≡ begun next_operand (seen tokens.entry) }
{
    starts_punct(Punct::Comma, tokens)
}

/// The operands behind the first one.
#[tactic(auto, unfolding(mm_grammar::specs::Grammar::more_operands))]
fn more_operands<'a>(
    alloc: Global,
    tokens: Tokens<'a>,
) -> Result<(Items<Operand>, Tokens<'a>), Stop>
    ensures { Gives (λ x. (x.0, seen x.1)) result (read more_operands (seen tokens.entry)) }
{
    let mut operands = Items::new(alloc);
    let mut rest = tokens;
    'each: for place in 0..tokens.len() {
        if !begins_next_operand(rest) {
            break;
        }
        let (operand, after) = next_operand(alloc, rest)?;
        operands.push(operand)?;
        rest = after;
    }
    Ok((operands, rest))
}

/// Operands in parentheses.
#[tactic(auto, unfolding(mm_grammar::specs::Grammar::operands))]
pub fn operands<'a>(alloc: Global, tokens: Tokens<'a>) -> Result<(Items<Operand>, Tokens<'a>), Stop>
    ensures { Gives (λ x. (x.0, seen x.1)) result (read operands (seen tokens.entry)) }
{
    let rest = past_punct(Punct::Open, tokens)?;
    if starts_punct(Punct::Close, rest) {
        let rest = past_punct(Punct::Close, rest)?;
        return Ok((Items::new(alloc), rest));
    }
    let (first, rest) = operand(alloc, rest)?;
    let operands = listed(alloc, first, more_operands(alloc, rest));
    ended(operands, Punct::Close)
}

/// Two operands with a comma between them.
#[tactic(auto, unfolding(mm_grammar::specs::Grammar::two_operands))]
pub fn two_operands<'a>(
    alloc: Global,
    tokens: Tokens<'a>,
) -> Result<((Operand, Operand), Tokens<'a>), Stop>
    ensures { Gives (λ x. (x.0, seen x.1)) result (read two_operands (seen tokens.entry)) }
{
    let (left, rest) = operand(alloc, tokens)?;
    both(left, next_operand(alloc, rest))
}

/// An operation on two operands.
#[tactic(auto, unfolding(mm_grammar::specs::Grammar::op))]
pub fn op<'a>(tokens: Tokens<'a>) -> Result<(Op, Tokens<'a>), Stop>
    ensures { Gives (λ x. (x.0, seen x.1)) result (read op (seen tokens.entry)) }
{
    if starts_word(Word::Add, tokens) {
        let rest = past_word(Word::Add, tokens)?;
        return Ok((Op::Add, rest));
    }
    if starts_word(Word::Sub, tokens) {
        let rest = past_word(Word::Sub, tokens)?;
        return Ok((Op::Sub, rest));
    }
    if starts_word(Word::Mul, tokens) {
        let rest = past_word(Word::Mul, tokens)?;
        return Ok((Op::Mul, rest));
    }
    if starts_word(Word::Div, tokens) {
        let rest = past_word(Word::Div, tokens)?;
        return Ok((Op::Div, rest));
    }
    if starts_word(Word::Rem, tokens) {
        let rest = past_word(Word::Rem, tokens)?;
        return Ok((Op::Rem, rest));
    }
    if starts_word(Word::Eq, tokens) {
        let rest = past_word(Word::Eq, tokens)?;
        return Ok((Op::Eq, rest));
    }
    let rest = past_word(Word::Lt, tokens)?;
    Ok((Op::Lt, rest))
}

/// An operand in parentheses.
pub fn one_operand<'a>(alloc: Global, tokens: Tokens<'a>) -> Result<(Operand, Tokens<'a>), Stop>
    ensures { Gives (λ x. (x.0, seen x.1)) result (read (in_parens operand) (seen tokens.entry)) }
{
    let rest = past_punct(Punct::Open, tokens)?;
    ended(operand(alloc, rest), Punct::Close)
}
