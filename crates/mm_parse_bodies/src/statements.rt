ghost use Rattle.std.specs.Prelude.{◌≡◌};
ghost use Rattle.mm_forms.specs.Given.{Gives};
ghost use Rattle.mm_grammar.specs.Grammar.{operand as operand_rule, place as place_rule, rvalue as rvalue_rule, set as set_rule, statement as statement_rule, statements as statements_rule};
ghost use Rattle.mm_grammar.specs.Reading.{begun, read};
ghost use Rattle.mm_grammar.specs.Rules.{punct, word, ◌or◌};
ghost use Rattle.mm_forms.specs.Forms.{Map};
ghost use Rattle.mm_lex.specs.declared.punct.Punct.TheVariants as puncts;
ghost use Rattle.mm_names.specs.declared.word.Word.TheVariants as words;
ghost use Rattle.mm_ast.specs.declared.bodies.Statement.TheVariants as statements_;
ghost use Rattle.mm_grammar.specs.Seen.{seen};

use crate::operands::operand;
use crate::places::place;
use crate::rvalues::rvalue;
use mm_ast::{Rvalue, Statement};
use mm_forms::Stop;
use mm_grammar::cursor::Tokens;
use mm_grammar::pieces::{past_punct, past_word, starts_local, starts_word};
use mm_grammar::sequences::ended;
use mm_lex::Punct;
use mm_names::Word;
use sqlite_items::Items;
use std::alloc::Global;

/// `=` and a value.
fn assigned<'a>(alloc: Global, tokens: Tokens<'a>) -> Result<(Rvalue, Tokens<'a>), Stop>
    ensures { Gives (λ x. (x.0, seen x.1)) result (read (punct puncts.Equals rvalue_rule) (seen tokens.entry)) }
{
    let rest = past_punct(Punct::Equals, tokens)?;
    rvalue(alloc, rest)
}

/// An assignment.
#[tactic(auto, unfolding(mm_grammar::specs::Grammar::set))]
fn set<'a>(alloc: Global, tokens: Tokens<'a>) -> Result<(Statement, Tokens<'a>), Stop>
    ensures { Gives (λ x. (x.0, seen x.1)) result (read set_rule (seen tokens.entry)) }
{
    let (target, rest) = place(alloc, tokens)?;
    let (value, rest) = assigned(alloc, rest)?;
    Ok((Statement::Set(target, value), rest))
}

/// A statement without its semicolon.
fn unended<'a>(alloc: Global, tokens: Tokens<'a>) -> Result<(Statement, Tokens<'a>), Stop>
    ensures { Gives (λ x. (x.0, seen x.1)) result (read (Map statements_.Print (word words.Print operand_rule) or set_rule) (seen tokens.entry)) }
{
    if starts_word(Word::Print, tokens) {
        let rest = past_word(Word::Print, tokens)?;
        let (operand, rest) = operand(alloc, rest)?;
        return Ok((Statement::Print(operand), rest));
    }
    set(alloc, tokens)
}

/// A statement.
#[tactic(auto, unfolding(mm_grammar::specs::Grammar::statement))]
fn statement<'a>(alloc: Global, tokens: Tokens<'a>) -> Result<(Statement, Tokens<'a>), Stop>
    ensures { Gives (λ x. (x.0, seen x.1)) result (read statement_rule (seen tokens.entry)) }
{
    ended(unended(alloc, tokens), Punct::Semicolon)
}

/// Whether the next token begins a place.
#[tactic(auto, unfolding(mm_grammar::specs::Grammar::place, mm_grammar::specs::Grammar::base))]
fn starts_place(tokens: Tokens<'_>) -> bool
    ensures { result ≡ begun place_rule (seen tokens.entry) }
{
    starts_local(tokens) || starts_word(Word::Static, tokens)
}

/// Whether the next token begins a statement.
#[tactic(auto, unfolding(mm_grammar::specs::Grammar::statement, mm_grammar::specs::Grammar::set))]
fn starts_statement(tokens: Tokens<'_>) -> bool
    ensures { result ≡ begun statement_rule (seen tokens.entry) }
{
    starts_word(Word::Print, tokens) || starts_place(tokens)
}

/// The statements of a block.
#[tactic(auto, unfolding(mm_grammar::specs::Grammar::statements))]
pub fn statements<'a>(
    alloc: Global,
    tokens: Tokens<'a>,
) -> Result<(Items<Statement>, Tokens<'a>), Stop>
    ensures { Gives (λ x. (x.0, seen x.1)) result (read statements_rule (seen tokens.entry)) }
{
    let mut statements = Items::new(alloc);
    let mut rest = tokens;
    'each: for place in 0..tokens.len() {
        if !starts_statement(rest) {
            break;
        }
        let (statement, after) = statement(alloc, rest)?;
        statements.push(statement)?;
        rest = after;
    }
    Ok((statements, rest))
}
