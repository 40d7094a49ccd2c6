ghost use Rattle.std.specs.Prelude.{◌≡◌};
ghost use Rattle.mm_forms.specs.Given.{Gives};
ghost use Rattle.mm_grammar.specs.Grammar.{arm as arm_rule, arms as arms_rule, otherwise as otherwise_rule, switch as switch_rule, called as called_rule, call as call_rule, drop_end as drop_rule, end as end_rule, switch_head as switch_head_rule, cases as cases_rule, call_place as call_place_rule, arguments as arguments_rule, called_with as called_with_rule, label as label_rule, end_with_parts as end_with_parts_rule};
ghost use Rattle.mm_grammar.specs.Reading.{begun, read};
ghost use Rattle.mm_grammar.specs.Rules.{punct};
ghost use Rattle.mm_lex.specs.declared.punct.Punct.TheVariants as puncts;
ghost use Rattle.mm_grammar.specs.Seen.{seen};

use crate::operands::{one_operand, operand, operands};
use crate::places::{label, place};
use mm_ast::{Arm, Call, Called, End, Label, Operand, Place, Switch};
use mm_forms::Stop;
use mm_grammar::callees::callee;
use mm_grammar::cursor::Tokens;
use mm_grammar::pieces::{number, past_punct, past_word, starts_number, starts_punct, starts_word};
use mm_grammar::sequences::{both, ended};
use mm_lex::Punct;
use mm_names::Word;
use sqlite_items::{Boxed, Items};
use std::alloc::Global;

/// A number and the block for it.
#[tactic(auto, unfolding(mm_grammar::specs::Grammar::arm))]
fn arm<'a>(tokens: Tokens<'a>) -> Result<(Arm, Tokens<'a>), Stop>
    ensures { Gives (λ x. (x.0, seen x.1)) result (read arm_rule (seen tokens.entry)) }
{
    let (number, rest) = number(tokens)?;
    let rest = past_punct(Punct::FatArrow, rest)?;
    let (label, rest) = label(rest)?;
    let rest = past_punct(Punct::Comma, rest)?;
    Ok((Arm { number, label }, rest))
}

/// Whether the next token begins an arm.
#[tactic(auto, unfolding(mm_grammar::specs::Grammar::arm))]
fn starts_arm(tokens: Tokens<'_>) -> bool
    ensures { result ≡ begun arm_rule (seen tokens.entry) }
{
    starts_number(tokens)
}

/// The arms of a switch.
#[tactic(auto, unfolding(mm_grammar::specs::Grammar::arms))]
fn arms<'a>(alloc: Global, tokens: Tokens<'a>) -> Result<(Items<Arm>, Tokens<'a>), Stop>
    ensures { Gives (λ x. (x.0, seen x.1)) result (read arms_rule (seen tokens.entry)) }
{
    let mut arms = Items::new(alloc);
    let mut rest = tokens;
    'each: for place in 0..tokens.len() {
        if !starts_arm(rest) {
            break;
        }
        let (arm, after) = arm(rest)?;
        arms.push(arm)?;
        rest = after;
    }
    Ok((arms, rest))
}

/// The block for all other numbers, and the end of the switch.
#[tactic(auto, unfolding(mm_grammar::specs::Grammar::otherwise))]
fn otherwise<'a>(tokens: Tokens<'a>) -> Result<(Label, Tokens<'a>), Stop>
    ensures { Gives (λ x. (x.0, seen x.1)) result (read otherwise_rule (seen tokens.entry)) }
{
    let rest = past_word(Word::Else, tokens)?;
    let rest = past_punct(Punct::FatArrow, rest)?;
    ended(label(rest), Punct::CloseBrace)
}

/// The operand of a switch, up to its brace.
#[tactic(auto, unfolding(mm_grammar::specs::Grammar::switch_head))]
fn switch_head<'a>(alloc: Global, tokens: Tokens<'a>) -> Result<(Operand, Tokens<'a>), Stop>
    ensures { Gives (λ x. (x.0, seen x.1)) result (read switch_head_rule (seen tokens.entry)) }
{
    let rest = past_word(Word::Switch, tokens)?;
    ended(operand(alloc, rest), Punct::OpenBrace)
}

/// The arms of a switch and the block for all other numbers.
#[tactic(auto, unfolding(mm_grammar::specs::Grammar::cases))]
fn cases<'a>(alloc: Global, tokens: Tokens<'a>) -> Result<((Items<Arm>, Label), Tokens<'a>), Stop>
    ensures { Gives (λ x. (x.0, seen x.1)) result (read cases_rule (seen tokens.entry)) }
{
    let (arms, rest) = arms(alloc, tokens)?;
    both(arms, otherwise(rest))
}

/// A switch.
#[tactic(auto, unfolding(mm_grammar::specs::Grammar::switch))]
fn switch<'a>(alloc: Global, tokens: Tokens<'a>) -> Result<(Switch, Tokens<'a>), Stop>
    ensures { Gives (λ x. (x.0, seen x.1)) result (read switch_rule (seen tokens.entry)) }
{
    let (operand, rest) = switch_head(alloc, tokens)?;
    let ((operand, (arms, otherwise)), rest) = both(operand, cases(alloc, rest))?;
    Ok((
        Switch {
            operand,
            arms,
            otherwise,
        },
        rest,
    ))
}

/// An arrow and a label.
fn target<'a>(tokens: Tokens<'a>) -> Result<(Label, Tokens<'a>), Stop>
    ensures { Gives (λ x. (x.0, seen x.1)) result (read (punct puncts.Arrow label_rule) (seen tokens.entry)) }
{
    let rest = past_punct(Punct::Arrow, tokens)?;
    label(rest)
}

/// What a call calls.
#[tactic(auto, unfolding(mm_grammar::specs::Grammar::called))]
fn called<'a>(alloc: Global, tokens: Tokens<'a>) -> Result<(Called, Tokens<'a>), Stop>
    ensures { Gives (λ x. (x.0, seen x.1)) result (read called_rule (seen tokens.entry)) }
{
    if starts_punct(Punct::Open, tokens) {
        let (pointer, rest) = one_operand(alloc, tokens)?;
        return Ok((Called::Pointer(pointer), rest));
    }
    let (callee, rest) = callee(alloc, tokens)?;
    Ok((Called::Callee(callee), rest))
}

/// The place to which the result of a call goes.
#[tactic(auto, unfolding(mm_grammar::specs::Grammar::call_place))]
fn call_place<'a>(alloc: Global, tokens: Tokens<'a>) -> Result<(Place, Tokens<'a>), Stop>
    ensures { Gives (λ x. (x.0, seen x.1)) result (read call_place_rule (seen tokens.entry)) }
{
    let rest = past_word(Word::Call, tokens)?;
    ended(place(alloc, rest), Punct::Equals)
}

/// The operands of a call, and the block that goes on after it.
#[tactic(auto, unfolding(mm_grammar::specs::Grammar::arguments))]
fn arguments<'a>(
    alloc: Global,
    tokens: Tokens<'a>,
) -> Result<((Items<Operand>, Label), Tokens<'a>), Stop>
    ensures { Gives (λ x. (x.0, seen x.1)) result (read arguments_rule (seen tokens.entry)) }
{
    let (operands, rest) = operands(alloc, tokens)?;
    both(operands, target(rest))
}

/// What is called, its operands, and the block that goes on after it.
#[tactic(auto, unfolding(mm_grammar::specs::Grammar::called_with))]
fn called_with<'a>(
    alloc: Global,
    tokens: Tokens<'a>,
) -> Result<((Called, (Items<Operand>, Label)), Tokens<'a>), Stop>
    ensures { Gives (λ x. (x.0, seen x.1)) result (read called_with_rule (seen tokens.entry)) }
{
    let (called, rest) = called(alloc, tokens)?;
    both(called, arguments(alloc, rest))
}

/// A call.
#[tactic(auto, unfolding(mm_grammar::specs::Grammar::call))]
fn call<'a>(alloc: Global, tokens: Tokens<'a>) -> Result<(Call, Tokens<'a>), Stop>
    ensures { Gives (λ x. (x.0, seen x.1)) result (read call_rule (seen tokens.entry)) }
{
    let (place, rest) = call_place(alloc, tokens)?;
    let ((called, (operands, target)), rest) = called_with(alloc, rest)?;
    Ok((
        Call {
            place,
            called,
            operands,
            target,
        },
        rest,
    ))
}

/// The end of a block that drops a place.
#[tactic(auto, unfolding(mm_grammar::specs::Grammar::drop_end))]
fn drop_end<'a>(alloc: Global, tokens: Tokens<'a>) -> Result<(End, Tokens<'a>), Stop>
    ensures { Gives (λ x. (x.0, seen x.1)) result (read drop_rule (seen tokens.entry)) }
{
    let rest = past_word(Word::Drop, tokens)?;
    let (place, rest) = place(alloc, rest)?;
    let (label, rest) = target(rest)?;
    Ok((End::Drop(place, label), rest))
}

/// Whether the next token begins a switch.
#[tactic(auto, unfolding(mm_grammar::specs::Grammar::switch, mm_grammar::specs::Grammar::switch_head))]
fn starts_switch(tokens: Tokens<'_>) -> bool
    ensures { result ≡ begun switch_rule (seen tokens.entry) }
{
    starts_word(Word::Switch, tokens)
}

/// Whether the next token begins a call.
#[tactic(auto, unfolding(mm_grammar::specs::Grammar::call, mm_grammar::specs::Grammar::call_place))]
fn starts_call(tokens: Tokens<'_>) -> bool
    ensures { result ≡ begun call_rule (seen tokens.entry) }
{
    starts_word(Word::Call, tokens)
}

/// An end that has an operand or a place.
#[tactic(auto, unfolding(mm_grammar::specs::Grammar::end_with_parts))]
fn end_with_parts<'a>(alloc: Global, tokens: Tokens<'a>) -> Result<(End, Tokens<'a>), Stop>
    ensures { Gives (λ x. (x.0, seen x.1)) result (read end_with_parts_rule (seen tokens.entry)) }
{
    if starts_switch(tokens) {
        let (switch, rest) = switch(alloc, tokens)?;
        return Ok((End::Switch(Boxed::new(alloc, switch)?), rest));
    }
    if starts_call(tokens) {
        let (call, rest) = call(alloc, tokens)?;
        return Ok((End::Call(Boxed::new(alloc, call)?), rest));
    }
    drop_end(alloc, tokens)
}

/// The end of a block.
#[tactic(auto, unfolding(mm_grammar::specs::Grammar::end))]
pub fn end<'a>(alloc: Global, tokens: Tokens<'a>) -> Result<(End, Tokens<'a>), Stop>
    ensures { Gives (λ x. (x.0, seen x.1)) result (read end_rule (seen tokens.entry)) }
{
    if starts_word(Word::Return, tokens) {
        let rest = past_word(Word::Return, tokens)?;
        return Ok((End::Return, rest));
    }
    if starts_word(Word::Unreachable, tokens) {
        let rest = past_word(Word::Unreachable, tokens)?;
        return Ok((End::Unreachable, rest));
    }
    if starts_word(Word::Goto, tokens) {
        let rest = past_word(Word::Goto, tokens)?;
        let (label, rest) = label(rest)?;
        return Ok((End::Goto(label), rest));
    }
    end_with_parts(alloc, tokens)
}
