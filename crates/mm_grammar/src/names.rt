ghost use Rattle.std.specs.Prelude.{◌≡◌};
ghost use Rattle.mm_forms.specs.Given.{Gives};
ghost use Rattle.mm_grammar.specs.Grammar.{name, next_name, more_names, params, segment, segments, more_segments, path};
ghost use Rattle.mm_grammar.specs.Reading.{begun, read, read_in_type};
ghost use Rattle.mm_grammar.specs.Seen.{seen};

use crate::cursor::Tokens;
use crate::pieces::{line, past_punct, single, starts_punct, text};
use crate::sequences::{ended, listed};
use mm_ast::{Name, Path};
use mm_forms::Stop;
use mm_lex::Punct;
use mm_terms::Text;
use sqlite_items::Items;
use std::alloc::Global;

/// A name.
#[tactic(auto, unfolding(crate::specs::Grammar::name))]
pub fn name<'a>(alloc: Global, tokens: Tokens<'a>) -> Result<(Name, Tokens<'a>), Stop>
    ensures { Gives (λ x. (x.0, seen x.1)) result (read name (seen tokens.entry)) }
{
    let line = line(tokens)?;
    let (text, rest) = text(alloc, tokens)?;
    Ok((Name { line, text }, rest))
}

/// A comma and a name.
#[tactic(auto, unfolding(crate::specs::Grammar::next_name))]
fn next_name<'a>(alloc: Global, tokens: Tokens<'a>) -> Result<(Name, Tokens<'a>), Stop>
    ensures { Gives (λ x. (x.0, seen x.1)) result (read next_name (seen tokens.entry)) }
{
    let rest = past_punct(Punct::Comma, tokens)?;
    name(alloc, rest)
}

/// Whether the next token begins a comma and a name.
#[tactic(auto, unfolding(crate::specs::Grammar::next_name))]
fn begins_next_name(tokens: Tokens<'_>) -> bool
    ensures { result ≡ begun next_name (seen tokens.entry) }
{
    starts_punct(Punct::Comma, tokens)
}

/// The names behind the first one.
#[tactic(auto, unfolding(crate::specs::Grammar::more_names))]
fn more_names<'a>(alloc: Global, tokens: Tokens<'a>) -> Result<(Items<Name>, Tokens<'a>), Stop>
    ensures { Gives (λ x. (x.0, seen x.1)) result (read more_names (seen tokens.entry)) }
{
    let mut names = Items::new(alloc);
    let mut rest = tokens;
    'each: for place in 0..tokens.len() {
        if !begins_next_name(rest) {
            break;
        }
        let (name, after) = next_name(alloc, rest)?;
        names.push(name)?;
        rest = after;
    }
    Ok((names, rest))
}

/// The type parameters of a definition, in angles; none where there are no angles.
#[tactic(auto, unfolding(crate::specs::Grammar::params))]
pub fn params<'a>(alloc: Global, tokens: Tokens<'a>) -> Result<(Items<Name>, Tokens<'a>), Stop>
    ensures { Gives (λ x. (x.0, seen x.1)) result (read params (seen tokens.entry)) }
{
    if !starts_punct(Punct::Less, tokens) {
        return Ok((Items::new(alloc), tokens));
    }
    let rest = past_punct(Punct::Less, tokens)?;
    let (first, rest) = name(alloc, rest)?;
    let names = listed(alloc, first, more_names(alloc, rest));
    ended(names, Punct::Greater)
}

/// A name of a path behind its `::`.
#[tactic(auto, unfolding(crate::specs::Grammar::segment))]
fn segment<'a>(alloc: Global, tokens: Tokens<'a>) -> Result<(Text, Tokens<'a>), Stop>
    ensures { Gives (λ x. (x.0, seen x.1)) result (read segment (seen tokens.entry)) }
{
    let rest = past_punct(Punct::PathSep, tokens)?;
    text(alloc, rest)
}

/// Whether the next token begins a name of a path behind its `::`.
#[tactic(auto, unfolding(crate::specs::Grammar::segment))]
fn begins_segment(tokens: Tokens<'_>) -> bool
    ensures { result ≡ begun segment (seen tokens.entry) }
{
    starts_punct(Punct::PathSep, tokens)
}

/// The names of a path behind its second one.
#[tactic(auto, unfolding(crate::specs::Grammar::more_segments))]
fn more_segments<'a>(alloc: Global, tokens: Tokens<'a>) -> Result<(Items<Text>, Tokens<'a>), Stop>
    ensures { Gives (λ x. (x.0, seen x.1)) result (read more_segments (seen tokens.entry)) }
{
    let mut names = Items::new(alloc);
    let mut rest = tokens;
    'each: for place in 0..tokens.len() {
        if !begins_segment(rest) {
            break;
        }
        let (name, after) = segment(alloc, rest)?;
        names.push(name)?;
        rest = after;
    }
    Ok((names, rest))
}

/// The names of a path behind its first one.
#[tactic(auto, unfolding(crate::specs::Grammar::segments))]
pub fn segments<'a>(alloc: Global, tokens: Tokens<'a>) -> Result<(Items<Text>, Tokens<'a>), Stop>
    ensures { Gives (λ x. (x.0, seen x.1)) result (read segments (seen tokens.entry)) }
{
    let (first, rest) = segment(alloc, tokens)?;
    listed(alloc, first, more_segments(alloc, rest))
}

/// A path.
#[tactic(auto, unfolding(crate::specs::Grammar::path))]
pub fn path<'a>(alloc: Global, tokens: Tokens<'a>) -> Result<(Path, Tokens<'a>), Stop>
    ensures { Gives (λ x. (x.0, seen x.1)) result (read path (seen tokens.entry)) }
{
    let line = line(tokens)?;
    let (krate, rest) = text(alloc, tokens)?;
    let (names, rest) = segments(alloc, rest)?;
    Ok((Path { line, krate, names }, rest))
}

/// The names of a path behind its first one. Nothing in them is a type, so that any levels serve.
#[tactic(auto, unfolding(crate::specs::Grammar::segments, crate::specs::Grammar::more_segments, crate::specs::Grammar::segment))]
pub fn segments_in_type<'a>(
    alloc: Global,
    levels: u32,
    tokens: Tokens<'a>,
) -> Result<(Items<Text>, Tokens<'a>), Stop>
    ensures { Gives (λ x. (x.0, seen x.1)) result (read_in_type levels segments (seen tokens.entry)) }
{
    segments(alloc, tokens)
}

/// A path. Nothing in it is a type, so that any levels serve.
#[tactic(auto, unfolding(crate::specs::Grammar::path, crate::specs::Grammar::segments, crate::specs::Grammar::more_segments, crate::specs::Grammar::segment))]
pub fn path_in_type<'a>(
    alloc: Global,
    levels: u32,
    tokens: Tokens<'a>,
) -> Result<(Path, Tokens<'a>), Stop>
    ensures { Gives (λ x. (x.0, seen x.1)) result (read_in_type levels path (seen tokens.entry)) }
{
    path(alloc, tokens)
}
