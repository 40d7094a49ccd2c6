ghost use Rattle.std.specs.Prelude.{◌≡◌};
ghost use Rattle.mm_forms.specs.Forms.{firsts, has};
ghost use Rattle.mm_forms.specs.Given.{Gives};
ghost use Rattle.mm_lex.specs.Lexemes as kinds;
ghost use Rattle.mm_lex.specs.Lexemes.{kind_by, span};
ghost use Rattle.mm_grammar.specs.Codes.{code, kind_code};
ghost use Rattle.mm_grammar.specs.Grammar.{binary, built_rvalue, dyn_target, dyn_trait, dyncast, new, operand, place, rvalue, two_operands};
ghost use Rattle.mm_lex.specs.declared.punct.Punct.TheVariants as puncts;
ghost use Rattle.mm_grammar.specs.Reading.{begun, read, start};
ghost use Rattle.mm_grammar.specs.Rules.{in_parens, punct, ◌⋅◌};
ghost use Rattle.mm_grammar.specs.Seen.{seen};

use crate::operands::{one_operand, op, operand, operands, two_operands};
use crate::places::place;
use mm_ast::{DynTrait, New, Operand, Place, Rvalue, Type};
use mm_forms::Stop;
use mm_grammar::constructed::new_head;
use mm_grammar::cursor::Tokens;
use mm_grammar::pieces::{line, past_punct, past_word, starts_punct, starts_word, word_of};
use mm_grammar::sequences::{both, ended};
use mm_grammar::types::{path_args, ty};
use mm_lex::{Punct, Token, TokenKind};
use mm_names::Word;
use sqlite_items::Boxed;
use std::alloc::Global;

/// A struct, a closure or a variant with its fields.
#[tactic(auto, unfolding(mm_grammar::specs::Grammar::new))]
fn new<'a>(alloc: Global, tokens: Tokens<'a>) -> Result<(New, Tokens<'a>), Stop>
    ensures { Gives (λ x. (x.0, seen x.1)) result (read new (seen tokens.entry)) }
{
    let ((of, variant), rest) = new_head(alloc, tokens)?;
    let (operands, rest) = operands(alloc, rest)?;
    Ok((
        New {
            of,
            variant,
            operands,
        },
        rest,
    ))
}

/// Whether the next token begins a struct, a closure or a variant.
#[tactic(auto, unfolding(mm_grammar::specs::Grammar::new, mm_grammar::specs::Grammar::new_head))]
fn begins_new(tokens: Tokens<'_>) -> bool
    ensures { result ≡ begun new (seen tokens.entry) }
{
    starts_word(Word::New, tokens)
}

/// `dyn` and a trait.
#[tactic(auto, unfolding(mm_grammar::specs::Grammar::dyn_trait))]
fn dyn_trait<'a>(alloc: Global, tokens: Tokens<'a>) -> Result<(DynTrait, Tokens<'a>), Stop>
    ensures { Gives (λ x. (x.0, seen x.1)) result (read dyn_trait (seen tokens.entry)) }
{
    let line = line(tokens)?;
    let rest = past_word(Word::Dyn, tokens)?;
    let (of, rest) = path_args(alloc, rest)?;
    Ok((DynTrait { line, of }, rest))
}

/// A comma, `dyn` and a trait.
fn next_dyn_trait<'a>(alloc: Global, tokens: Tokens<'a>) -> Result<(DynTrait, Tokens<'a>), Stop>
    ensures { Gives (λ x. (x.0, seen x.1)) result (read (punct puncts.Comma dyn_trait) (seen tokens.entry)) }
{
    let rest = past_punct(Punct::Comma, tokens)?;
    dyn_trait(alloc, rest)
}

/// The type behind the pointer, and the trait of its `dyn`.
#[tactic(auto, unfolding(mm_grammar::specs::Grammar::dyn_target))]
fn dyn_target<'a>(alloc: Global, tokens: Tokens<'a>) -> Result<((Type, DynTrait), Tokens<'a>), Stop>
    ensures { Gives (λ x. (x.0, seen x.1)) result (read dyn_target (seen tokens.entry)) }
{
    let (ty, rest) = ty(alloc, tokens)?;
    both(ty, next_dyn_trait(alloc, rest))
}

/// A comma, and what a pointer is taken for.
fn next_dyn_target<'a>(
    alloc: Global,
    tokens: Tokens<'a>,
) -> Result<((Type, DynTrait), Tokens<'a>), Stop>
    ensures { Gives (λ x. (x.0, seen x.1)) result (read (punct puncts.Comma dyn_target) (seen tokens.entry)) }
{
    let rest = past_punct(Punct::Comma, tokens)?;
    dyn_target(alloc, rest)
}

/// An operand and what it is taken for, in parentheses.
fn operand_and_target<'a>(
    alloc: Global,
    tokens: Tokens<'a>,
) -> Result<((Operand, (Type, DynTrait)), Tokens<'a>), Stop>
    ensures { Gives (λ x. (x.0, seen x.1)) result (read (in_parens (operand ⋅ punct puncts.Comma dyn_target)) (seen tokens.entry)) }
{
    let rest = past_punct(Punct::Open, tokens)?;
    let (operand, rest) = operand(alloc, rest)?;
    let parts = both(operand, next_dyn_target(alloc, rest));
    ended(parts, Punct::Close)
}

/// An operand as a pointer to `dyn` of a trait.
#[tactic(auto, unfolding(mm_grammar::specs::Grammar::dyncast))]
fn dyncast<'a>(alloc: Global, tokens: Tokens<'a>) -> Result<(Rvalue, Tokens<'a>), Stop>
    ensures { Gives (λ x. (x.0, seen x.1)) result (read dyncast (seen tokens.entry)) }
{
    let rest = past_word(Word::Dyncast, tokens)?;
    let ((operand, (ty, of)), rest) = operand_and_target(alloc, rest)?;
    let operand = Boxed::new(alloc, operand)?;
    let ty = Boxed::new(alloc, ty)?;
    let of = Boxed::new(alloc, of)?;
    Ok((Rvalue::Dyn(operand, ty, of), rest))
}

/// Whether the next token begins a `dyncast`.
#[tactic(auto, unfolding(mm_grammar::specs::Grammar::dyncast))]
fn begins_dyncast(tokens: Tokens<'_>) -> bool
    ensures { result ≡ begun dyncast (seen tokens.entry) }
{
    starts_word(Word::Dyncast, tokens)
}

/// Two operands, in parentheses.
fn operand_pair<'a>(
    alloc: Global,
    tokens: Tokens<'a>,
) -> Result<((Operand, Operand), Tokens<'a>), Stop>
    ensures { Gives (λ x. (x.0, seen x.1)) result (read (in_parens two_operands) (seen tokens.entry)) }
{
    let rest = past_punct(Punct::Open, tokens)?;
    ended(two_operands(alloc, rest), Punct::Close)
}

/// An operation on two operands.
#[tactic(auto, unfolding(mm_grammar::specs::Grammar::binary, mm_grammar::specs::Grammar::op))]
fn binary<'a>(alloc: Global, tokens: Tokens<'a>) -> Result<(Rvalue, Tokens<'a>), Stop>
    ensures { Gives (λ x. (x.0, seen x.1)) result (read binary (seen tokens.entry)) }
{
    let (op, rest) = op(tokens)?;
    let ((left, right), rest) = operand_pair(alloc, rest)?;
    let left = Boxed::new(alloc, left)?;
    let right = Boxed::new(alloc, right)?;
    Ok((Rvalue::Binary(op, left, right), rest))
}

/// Whether this word is an operation on two operands.
#[tactic(auto, unfolding(mm_grammar::specs::Grammar::binary, mm_grammar::specs::Grammar::op))]
fn is_op(word: Word) -> bool
    ensures { result ≡ has (kind_code (kinds.Word word)) (firsts code start binary) }
{
    matches!(
        word,
        Word::Add | Word::Sub | Word::Mul | Word::Div | Word::Rem | Word::Eq | Word::Lt
    )
}

/// Whether this token is an operation on two operands.
#[tactic(auto, unfolding(mm_grammar::specs::Grammar::binary, mm_grammar::specs::Grammar::op))]
fn is_op_token(tokens: Tokens<'_>, token: Token) -> bool
    ensures { result ≡ has (kind_code (kind_by token.kind (span tokens.entry.text.now token.start token.stop))) (firsts code start binary) }
{
    match token.kind {
        TokenKind::Word => match word_of(tokens.bytes(token)) {
            Some(word) => is_op(word),
            None => false,
        },
        _ => false,
    }
}

/// Whether the next token begins an operation on two operands.
fn begins_binary(tokens: Tokens<'_>) -> bool
    ensures { result ≡ begun binary (seen tokens.entry) }
{
    match tokens.split_first() {
        Some((token, _)) => is_op_token(tokens, token),
        None => false,
    }
}

/// A place in parentheses.
fn one_place<'a>(alloc: Global, tokens: Tokens<'a>) -> Result<(Place, Tokens<'a>), Stop>
    ensures { Gives (λ x. (x.0, seen x.1)) result (read (in_parens place) (seen tokens.entry)) }
{
    let rest = past_punct(Punct::Open, tokens)?;
    ended(place(alloc, rest), Punct::Close)
}

/// The value that a statement gives to a place.
#[tactic(auto, unfolding(mm_grammar::specs::Grammar::rvalue))]
pub fn rvalue<'a>(alloc: Global, tokens: Tokens<'a>) -> Result<(Rvalue, Tokens<'a>), Stop>
    ensures { Gives (λ x. (x.0, seen x.1)) result (read rvalue (seen tokens.entry)) }
{
    if starts_punct(Punct::Ampersand, tokens) {
        let rest = past_punct(Punct::Ampersand, tokens)?;
        let (place, rest) = place(alloc, rest)?;
        return Ok((Rvalue::Ref(Boxed::new(alloc, place)?), rest));
    }
    if starts_word(Word::Not, tokens) {
        let rest = past_word(Word::Not, tokens)?;
        let (operand, rest) = one_operand(alloc, rest)?;
        return Ok((Rvalue::Not(operand), rest));
    }
    if begins_binary(tokens) {
        return binary(alloc, tokens);
    }
    if starts_word(Word::Variant, tokens) {
        let rest = past_word(Word::Variant, tokens)?;
        let (place, rest) = one_place(alloc, rest)?;
        return Ok((Rvalue::Variant(Boxed::new(alloc, place)?), rest));
    }
    built_rvalue(alloc, tokens)
}

/// A value that is put together of operands, or an operand.
#[tactic(auto, unfolding(mm_grammar::specs::Grammar::built_rvalue))]
fn built_rvalue<'a>(alloc: Global, tokens: Tokens<'a>) -> Result<(Rvalue, Tokens<'a>), Stop>
    ensures { Gives (λ x. (x.0, seen x.1)) result (read built_rvalue (seen tokens.entry)) }
{
    if starts_word(Word::Box, tokens) {
        let rest = past_word(Word::Box, tokens)?;
        let (operand, rest) = one_operand(alloc, rest)?;
        return Ok((Rvalue::Boxed(operand), rest));
    }
    if starts_word(Word::Tuple, tokens) {
        let rest = past_word(Word::Tuple, tokens)?;
        let (operands, rest) = operands(alloc, rest)?;
        return Ok((Rvalue::Tuple(operands), rest));
    }
    if begins_new(tokens) {
        let (new, rest) = new(alloc, tokens)?;
        return Ok((Rvalue::New(Boxed::new(alloc, new)?), rest));
    }
    if begins_dyncast(tokens) {
        return dyncast(alloc, tokens);
    }
    let (operand, rest) = operand(alloc, tokens)?;
    Ok((Rvalue::Use(operand), rest))
}
