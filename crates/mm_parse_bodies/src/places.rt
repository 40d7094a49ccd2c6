ghost use Rattle.std.specs.Prelude.{◌≡◌, ◌-◌, [], ◌∷◌};
ghost use Rattle.mm_forms.specs.Forms.{Map, begins, each_in};
ghost use Rattle.mm_forms.specs.Given.{Gives};
ghost use Rattle.mm_lex.specs.Lexemes as kinds;
ghost use Rattle.mm_grammar.specs.Codes.{code, kind_code};
ghost use Rattle.mm_grammar.specs.Grammar.{base, label, place, step, steps};
ghost use Rattle.mm_grammar.specs.Places.{place_at, projected};
ghost use Rattle.mm_grammar.specs.Reading.{begun, read};
ghost use Rattle.mm_grammar.specs.Seen.{seen};

use mm_ast::{Label, Local, Place, Projection, StaticPlace, Step};
use mm_forms::Stop;
use mm_grammar::cursor::Tokens;
use mm_grammar::heads::Base;
use mm_grammar::names::{name, path};
use mm_grammar::pieces::{
    is_punct, label_number, line, local, number, past_punct, past_word, starts_local,
    starts_number, starts_punct,
};
use mm_lex::Punct;
use mm_names::Word;
use sqlite_items::{Boxed, Items};
use std::alloc::Global;

/// The label of a block.
#[tactic(auto, unfolding(mm_grammar::specs::Grammar::label))]
pub fn label<'a>(tokens: Tokens<'a>) -> Result<(Label, Tokens<'a>), Stop>
    ensures { Gives (λ x. (x.0, seen x.1)) result (read label (seen tokens.entry)) }
{
    let line = line(tokens)?;
    let (number, rest) = label_number(tokens)?;
    Ok((Label { line, number }, rest))
}

/// A projection.
#[tactic(auto, unfolding(mm_grammar::specs::Grammar::step))]
fn step<'a>(alloc: Global, tokens: Tokens<'a>) -> Result<(Step, Tokens<'a>), Stop>
    ensures { Gives (λ x. (x.0, seen x.1)) result (read step (seen tokens.entry)) }
{
    if starts_punct(Punct::Dot, tokens) {
        let rest = past_punct(Punct::Dot, tokens)?;
        if starts_number(rest) {
            let (field, rest) = number(rest)?;
            return Ok((Step::Field(field), rest));
        }
        let rest = past_punct(Punct::Star, rest)?;
        return Ok((Step::Deref, rest));
    }
    let rest = past_punct(Punct::At, tokens)?;
    let (name, rest) = name(alloc, rest)?;
    Ok((Step::Variant(name), rest))
}

/// Whether the next token is the one punctuation or the other.
fn starts_either(first: Punct, second: Punct, tokens: Tokens<'_>) -> bool
    ensures { result ≡ begins code (kind_code (kinds.Punct first) ∷ kind_code (kinds.Punct second) ∷ []) (seen tokens.entry) }
{
    match tokens.split_first() {
        Some((token, _)) => is_punct(tokens, token, first) || is_punct(tokens, token, second),
        None => false,
    }
}

/// Whether the next token begins a projection.
#[tactic(auto, unfolding(mm_grammar::specs::Grammar::step))]
fn begins_step(tokens: Tokens<'_>) -> bool
    ensures { result ≡ begun step (seen tokens.entry) }
{
    starts_either(Punct::Dot, Punct::At, tokens)
}

/// The projections of a place behind so many others, where there are at most `limit` in all.
fn steps_behind<'a>(
    alloc: Global,
    before: usize,
    limit: usize,
    tokens: Tokens<'a>,
) -> Result<(Items<Step>, Tokens<'a>), Stop>
    ensures { Gives (λ x. (x.0, seen x.1)) result (each_in code (begun step) (λ i. read step) (limit - before) before (seen tokens.entry)) }
{
    let mut projections = Items::new(alloc);
    let mut rest = tokens;
    'each: for place in before..limit {
        if !begins_step(rest) {
            break;
        }
        let (projection, after) = step(alloc, rest)?;
        projections.push(projection)?;
        rest = after;
    }
    Ok((projections, rest))
}

/// The projections of a place.
#[tactic(auto, unfolding(mm_grammar::specs::Grammar::steps))]
fn steps<'a>(alloc: Global, tokens: Tokens<'a>) -> Result<(Items<Step>, Tokens<'a>), Stop>
    ensures { Gives (λ x. (x.0, seen x.1)) result (read steps (seen tokens.entry)) }
{
    steps_behind(alloc, 0, tokens.len(), tokens)
}

/// The local or static with which a place begins.
#[tactic(auto, unfolding(mm_grammar::specs::Grammar::base))]
fn base<'a>(alloc: Global, tokens: Tokens<'a>) -> Result<(Base, Tokens<'a>), Stop>
    ensures { Gives (λ x. (x.0, seen x.1)) result (read base (seen tokens.entry)) }
{
    if starts_local(tokens) {
        let (number, rest) = local(tokens)?;
        return Ok((Base::Local(number), rest));
    }
    let rest = past_word(Word::Static, tokens)?;
    let (path, rest) = path(alloc, rest)?;
    Ok((Base::Static(path), rest))
}

/// The place that a local and the projections behind it are.
#[tactic(auto, unfolding(mm_grammar::specs::Grammar::steps))]
fn local_place<'a>(
    alloc: Global,
    local: Local,
    tokens: Tokens<'a>,
) -> Result<(Place, Tokens<'a>), Stop>
    ensures { Gives (λ x. (x.0, seen x.1)) result (read (Map (projected local) steps) (seen tokens.entry)) }
{
    if !begins_step(tokens) {
        return Ok((Place::Local(local), tokens));
    }
    let (first, rest) = step(alloc, tokens)?;
    let (others, rest) = steps_behind(alloc, 1, tokens.len(), rest)?;
    let projection = Projection {
        local,
        first,
        others,
    };
    Ok((Place::Projection(Boxed::new(alloc, projection)?), rest))
}

/// The place that what it begins with and the projections behind it are.
fn place_behind<'a>(
    alloc: Global,
    line: u32,
    base: Base,
    tokens: Tokens<'a>,
) -> Result<(Place, Tokens<'a>), Stop>
    ensures { Gives (λ x. (x.0, seen x.1)) result (read (Map (place_at line base) steps) (seen tokens.entry)) }
{
    match base {
        Base::Local(number) => local_place(alloc, Local { line, number }, tokens),
        Base::Static(path) => {
            let (steps, rest) = steps(alloc, tokens)?;
            let place = StaticPlace { line, path, steps };
            Ok((Place::Static(Boxed::new(alloc, place)?), rest))
        }
    }
}

/// A place.
#[tactic(auto, unfolding(mm_grammar::specs::Grammar::place))]
pub fn place<'a>(alloc: Global, tokens: Tokens<'a>) -> Result<(Place, Tokens<'a>), Stop>
    ensures { Gives (λ x. (x.0, seen x.1)) result (read place (seen tokens.entry)) }
{
    let line = line(tokens)?;
    let (base, rest) = base(alloc, tokens)?;
    place_behind(alloc, line, base, rest)
}
