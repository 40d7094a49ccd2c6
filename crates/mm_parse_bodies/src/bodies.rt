ghost use Rattle.std.specs.Prelude.{◌≡◌};
ghost use Rattle.mm_forms.specs.Given.{Gives};
ghost use Rattle.mm_grammar.specs.Grammar.{block as block_rule, more_blocks as more_blocks_rule, blocks as blocks_rule, declared as declared_rule, lets as lets_rule, body as body_rule, block_end as block_end_rule, body_blocks as body_blocks_rule};
ghost use Rattle.mm_grammar.specs.Reading.{begun, read, read_from};
ghost use Rattle.mm_grammar.specs.Seen.{seen};

use crate::ends::end;
use crate::statements::statements;
use mm_ast::{Block, Body, End, Type};
use mm_forms::Stop;
use mm_grammar::cursor::Tokens;
use mm_grammar::pieces::{
    past_label, past_local, past_punct, past_word, single, starts_label, starts_word,
};
use mm_grammar::sequences::{ended, listed};
use mm_grammar::types::ty;
use mm_lex::Punct;
use mm_names::Word;
use sqlite_items::Items;
use std::alloc::Global;

/// How many blocks a body has at most.
const BLOCKS_MOST: usize = 65_536;

/// How many locals a body has at most.
const LOCALS_MOST: usize = 65_536;

/// The end of a block, and its closing brace.
#[tactic(auto, unfolding(mm_grammar::specs::Grammar::block_end))]
fn block_end<'a>(alloc: Global, tokens: Tokens<'a>) -> Result<(End, Tokens<'a>), Stop>
    ensures { Gives (λ x. (x.0, seen x.1)) result (read block_end_rule (seen tokens.entry)) }
{
    ended(end(alloc, tokens), Punct::CloseBrace)
}

/// The block with this number.
#[tactic(auto, unfolding(mm_grammar::specs::Grammar::block))]
fn block<'a>(alloc: Global, number: usize, tokens: Tokens<'a>) -> Result<(Block, Tokens<'a>), Stop>
    ensures { Gives (λ x. (x.0, seen x.1)) result (read_from number block_rule (seen tokens.entry)) }
{
    let rest = past_label(number, tokens)?;
    let rest = past_punct(Punct::Colon, rest)?;
    let rest = past_punct(Punct::OpenBrace, rest)?;
    let (statements, rest) = statements(alloc, rest)?;
    let (end, rest) = block_end(alloc, rest)?;
    Ok((Block { statements, end }, rest))
}

/// Whether the next token begins a block.
#[tactic(auto, unfolding(mm_grammar::specs::Grammar::block))]
fn starts_block(tokens: Tokens<'_>) -> bool
    ensures { result ≡ begun block_rule (seen tokens.entry) }
{
    starts_label(tokens)
}

/// The blocks, the first of which has this number.
#[tactic(auto, unfolding(mm_grammar::specs::Grammar::more_blocks))]
fn more_blocks<'a>(
    alloc: Global,
    first: usize,
    tokens: Tokens<'a>,
) -> Result<(Items<Block>, Tokens<'a>), Stop>
    ensures { Gives (λ x. (x.0, seen x.1)) result (read_from first more_blocks_rule (seen tokens.entry)) }
{
    let mut others = Items::new(alloc);
    let mut rest = tokens;
    'each: for number in first..BLOCKS_MOST {
        if !starts_block(rest) {
            break;
        }
        let (block, after) = block(alloc, number, rest)?;
        others.push(block)?;
        rest = after;
    }
    Ok((others, rest))
}

/// The blocks of a body.
#[tactic(auto, unfolding(mm_grammar::specs::Grammar::blocks))]
fn blocks<'a>(alloc: Global, tokens: Tokens<'a>) -> Result<(Items<Block>, Tokens<'a>), Stop>
    ensures { Gives (λ x. (x.0, seen x.1)) result (read blocks_rule (seen tokens.entry)) }
{
    let (first, rest) = block(alloc, 0, tokens)?;
    listed(alloc, first, more_blocks(alloc, 1, rest))
}

/// The type of the local with this number, where it is declared.
#[tactic(auto, unfolding(mm_grammar::specs::Grammar::declared))]
fn declared<'a>(
    alloc: Global,
    number: usize,
    tokens: Tokens<'a>,
) -> Result<(Type, Tokens<'a>), Stop>
    ensures { Gives (λ x. (x.0, seen x.1)) result (read_from number declared_rule (seen tokens.entry)) }
{
    let rest = past_word(Word::Let, tokens)?;
    let rest = past_local(number, rest)?;
    let rest = past_punct(Punct::Colon, rest)?;
    ended(ty(alloc, rest), Punct::Semicolon)
}

/// Whether the next token begins a declaration.
#[tactic(auto, unfolding(mm_grammar::specs::Grammar::declared))]
fn starts_let(tokens: Tokens<'_>) -> bool
    ensures { result ≡ begun declared_rule (seen tokens.entry) }
{
    starts_word(Word::Let, tokens)
}

/// The types of the locals, the first of which has this number.
#[tactic(auto, unfolding(mm_grammar::specs::Grammar::lets))]
fn lets<'a>(
    alloc: Global,
    first: usize,
    tokens: Tokens<'a>,
) -> Result<(Items<Type>, Tokens<'a>), Stop>
    ensures { Gives (λ x. (x.0, seen x.1)) result (read_from first lets_rule (seen tokens.entry)) }
{
    let mut types = Items::new(alloc);
    let mut rest = tokens;
    'each: for number in first..LOCALS_MOST {
        if !starts_let(rest) {
            break;
        }
        let (ty, after) = declared(alloc, number, rest)?;
        types.push(ty)?;
        rest = after;
    }
    Ok((types, rest))
}

/// The blocks of a body, and its closing brace.
#[tactic(auto, unfolding(mm_grammar::specs::Grammar::body_blocks))]
fn body_blocks<'a>(alloc: Global, tokens: Tokens<'a>) -> Result<(Items<Block>, Tokens<'a>), Stop>
    ensures { Gives (λ x. (x.0, seen x.1)) result (read body_blocks_rule (seen tokens.entry)) }
{
    ended(blocks(alloc, tokens), Punct::CloseBrace)
}

/// A body, the first declared local of which has this number.
#[tactic(auto, unfolding(mm_grammar::specs::Grammar::body))]
pub fn body<'a>(alloc: Global, first: usize, tokens: Tokens<'a>) -> Result<(Body, Tokens<'a>), Stop>
    ensures { Gives (λ x. (x.0, seen x.1)) result (read_from first body_rule (seen tokens.entry)) }
{
    let rest = past_punct(Punct::OpenBrace, tokens)?;
    let (lets, rest) = lets(alloc, first, rest)?;
    let (blocks, rest) = body_blocks(alloc, rest)?;
    Ok((Body { lets, blocks }, rest))
}
