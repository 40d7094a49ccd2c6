ghost use Rattle.std.specs.Prelude.{◌≡◌};
ghost use Rattle.mm_forms.specs.Given.{Gives};
ghost use Rattle.mm_grammar.specs.ItemGrammar.{krate as krate_rule, more_crates as more_crates_rule, crates as crates_rule, crate_name as crate_name_rule};
ghost use Rattle.mm_grammar.specs.Reading.{begun, read};
ghost use Rattle.mm_grammar.specs.Seen.{seen};

use crate::items::more_items;
use mm_ast::{Ast, Crate, Name};
use mm_forms::Stop;
use mm_grammar::cursor::Tokens;
use mm_grammar::names::name;
use mm_grammar::pieces::{line, past_punct, past_word, single, starts_word};
use mm_grammar::sequences::ended;
use mm_lex::Punct;
use mm_names::Word;
use sqlite_items::Items;
use std::alloc::Global;

/// How deep modules nest at most.
const MODULES_MOST: u32 = 64;

/// `crate`, and the name of the crate.
#[tactic(auto, unfolding(mm_grammar::specs::ItemGrammar::crate_name))]
fn crate_name<'a>(alloc: Global, tokens: Tokens<'a>) -> Result<(Name, Tokens<'a>), Stop>
    ensures { Gives (λ x. (x.0, seen x.1)) result (read crate_name_rule (seen tokens.entry)) }
{
    let rest = past_word(Word::Crate, tokens)?;
    ended(name(alloc, rest), Punct::Semicolon)
}

/// A crate.
#[tactic(auto, unfolding(mm_grammar::specs::ItemGrammar::krate))]
fn krate<'a>(alloc: Global, tokens: Tokens<'a>) -> Result<(Crate, Tokens<'a>), Stop>
    ensures { Gives (λ x. (x.0, seen x.1)) result (read krate_rule (seen tokens.entry)) }
{
    let line = line(tokens)?;
    let (name, rest) = crate_name(alloc, tokens)?;
    let (items, rest) = more_items(alloc, MODULES_MOST, rest)?;
    Ok((Crate { line, name, items }, rest))
}

/// Whether the next token begins a crate.
#[tactic(auto, unfolding(mm_grammar::specs::ItemGrammar::krate, mm_grammar::specs::ItemGrammar::crate_name))]
fn starts_crate(tokens: Tokens<'_>) -> bool
    ensures { result ≡ begun krate_rule (seen tokens.entry) }
{
    starts_word(Word::Crate, tokens)
}

/// The crates behind the first one.
#[tactic(auto, unfolding(mm_grammar::specs::ItemGrammar::more_crates))]
fn more_crates<'a>(alloc: Global, tokens: Tokens<'a>) -> Result<(Items<Crate>, Tokens<'a>), Stop>
    ensures { Gives (λ x. (x.0, seen x.1)) result (read more_crates_rule (seen tokens.entry)) }
{
    let mut crates = Items::new(alloc);
    let mut rest = tokens;
    'each: for place in 0..tokens.len() {
        if !starts_crate(rest) {
            break;
        }
        let (krate, after) = krate(alloc, rest)?;
        crates.push(krate)?;
        rest = after;
    }
    Ok((crates, rest))
}

/// The crates of a text.
#[tactic(auto, unfolding(mm_grammar::specs::ItemGrammar::crates))]
pub fn crates<'a>(alloc: Global, tokens: Tokens<'a>) -> Result<(Ast, Tokens<'a>), Stop>
    ensures { Gives (λ x. (x.0, seen x.1)) result (read crates_rule (seen tokens.entry)) }
{
    let (first, rest) = krate(alloc, tokens)?;
    let (others, rest) = more_crates(alloc, rest)?;
    let mut crates = single(alloc, first)?;
    crates.append(others)?;
    Ok((Ast { crates }, rest))
}
