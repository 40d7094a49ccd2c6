ghost use Rattle.std.specs.Prelude.{◌≡◌};
ghost use Rattle.mm_forms.specs.Given.{Gives};
ghost use Rattle.mm_grammar.specs.Grammar.{new_head, variant_name};
ghost use Rattle.mm_grammar.specs.Reading.{read};
ghost use Rattle.mm_grammar.specs.Seen.{seen};

use crate::cursor::Tokens;
use crate::names::name;
use crate::pieces::{past_punct, past_word, starts_punct};
use crate::sequences::both;
use crate::types::path_args;
use mm_ast::{Name, PathWithArgs};
use mm_forms::Stop;
use mm_lex::Punct;
use mm_names::Word;
use std::alloc::Global;

/// The name of a variant behind its dot, where there is one.
#[tactic(auto, unfolding(crate::specs::Grammar::variant_name))]
fn variant_name<'a>(alloc: Global, tokens: Tokens<'a>) -> Result<(Option<Name>, Tokens<'a>), Stop>
    ensures { Gives (λ x. (x.0, seen x.1)) result (read variant_name (seen tokens.entry)) }
{
    if !starts_punct(Punct::Dot, tokens) {
        return Ok((None, tokens));
    }
    let rest = past_punct(Punct::Dot, tokens)?;
    let (name, rest) = name(alloc, rest)?;
    Ok((Some(name), rest))
}

/// What stands before the parts of a struct, a closure or a variant.
#[tactic(auto, unfolding(crate::specs::Grammar::new_head))]
pub fn new_head<'a>(
    alloc: Global,
    tokens: Tokens<'a>,
) -> Result<((PathWithArgs, Option<Name>), Tokens<'a>), Stop>
    ensures { Gives (λ x. (x.0, seen x.1)) result (read new_head (seen tokens.entry)) }
{
    let rest = past_word(Word::New, tokens)?;
    let (of, rest) = path_args(alloc, rest)?;
    both(of, variant_name(alloc, rest))
}
