ghost use Rattle.std.specs.Prelude.{◌≡◌};
ghost use Rattle.mm_forms.specs.Given.{Gives, Stops};
ghost use Rattle.mm_grammar.specs.Grammar.{args, behind_krate, boxed, fields, fn_pointer, more_types, named, next_type, path_args, path_shape, reference, shape, some_types, tuple, tys, type_node};
ghost use Rattle.mm_grammar.specs.Reading.{begun, no_type, read_in_type, type_in};
ghost use Rattle.mm_grammar.specs.Seen.{seen};

use crate::cursor::Tokens;
use crate::names::{path_in_type, segments_in_type};
use crate::pieces::{line, past_punct, past_word, single, starts_punct, starts_word, text};
use crate::sequences::{both, ended, listed};
use crate::types::starts_type;
use mm_ast::{Head, Path, PathWithArgs, Type};
use mm_forms::{Fault, Stop};
use mm_lex::Punct;
use mm_names::Word;
use mm_terms::Text;
use sqlite_items::Items;
use std::alloc::Global;

/// A type that nests no deeper than so many levels.
#[cycle(types)]
pub fn within<'a>(
    alloc: Global,
    levels: u32,
    tokens: Tokens<'a>,
) -> Result<(Type, Tokens<'a>), Stop>
    ensures { Gives (λ x. (x.0, seen x.1)) result (type_in levels (seen tokens.entry)) }
{
    if levels == 0 {
        return Err(no_level(tokens));
    }
    node(alloc, levels - 1, tokens)
}

/// What is wrong with a type where no level is left.
#[tactic(auto, unfolding(mm_forms::specs::Nesting::none_in))]
fn no_level(tokens: Tokens<'_>) -> Stop
    ensures { Stops result (no_type (seen tokens.entry)) }
{
    if starts_type(tokens) {
        return Stop::At(Fault::TooDeep, tokens.len());
    }
    Stop::At(Fault::Unfit, tokens.len())
}

/// A type whose parts nest no deeper than so many levels.
#[cycle(types)]
#[tactic(auto, unfolding(crate::specs::Grammar::type_node))]
fn node<'a>(alloc: Global, levels: u32, tokens: Tokens<'a>) -> Result<(Type, Tokens<'a>), Stop>
    ensures { Gives (λ x. (x.0, seen x.1)) result (read_in_type levels type_node (seen tokens.entry)) }
{
    let line = line(tokens)?;
    let ((head, children), rest) = shape(alloc, levels, tokens)?;
    Ok((
        Type {
            line,
            head,
            children,
        },
        rest,
    ))
}

/// The head of a type and the types below it, which nest no deeper than so many levels.
#[cycle(types)]
#[tactic(auto, unfolding(crate::specs::Grammar::shape, crate::specs::Grammar::tuple, crate::specs::Grammar::reference, crate::specs::Grammar::boxed, crate::specs::Grammar::fn_pointer))]
fn shape<'a>(
    alloc: Global,
    levels: u32,
    tokens: Tokens<'a>,
) -> Result<((Head, Items<Type>), Tokens<'a>), Stop>
    ensures { Gives (λ x. (x.0, seen x.1)) result (read_in_type levels shape (seen tokens.entry)) }
{
    if starts_word(Word::SelfType, tokens) {
        let rest = past_word(Word::SelfType, tokens)?;
        return Ok(((Head::SelfType, Items::new(alloc)), rest));
    }
    if starts_word(Word::U64, tokens) {
        let rest = past_word(Word::U64, tokens)?;
        return Ok(((Head::U64, Items::new(alloc)), rest));
    }
    if starts_word(Word::Bool, tokens) {
        let rest = past_word(Word::Bool, tokens)?;
        return Ok(((Head::Bool, Items::new(alloc)), rest));
    }
    if starts_punct(Punct::Open, tokens) {
        return tuple(alloc, levels, tokens);
    }
    if starts_punct(Punct::Ampersand, tokens) {
        return reference(alloc, levels, tokens);
    }
    if starts_word(Word::BoxType, tokens) {
        return boxed(alloc, levels, tokens);
    }
    if starts_word(Word::FnPtr, tokens) {
        return fn_pointer(alloc, levels, tokens);
    }
    path_shape(alloc, levels, tokens)
}

/// No type, or two and more, in parentheses.
#[cycle(types)]
#[tactic(auto, unfolding(crate::specs::Grammar::tuple))]
fn tuple<'a>(
    alloc: Global,
    levels: u32,
    tokens: Tokens<'a>,
) -> Result<((Head, Items<Type>), Tokens<'a>), Stop>
    ensures { Gives (λ x. (x.0, seen x.1)) result (read_in_type levels tuple (seen tokens.entry)) }
{
    let rest = past_punct(Punct::Open, tokens)?;
    if starts_punct(Punct::Close, rest) {
        let rest = past_punct(Punct::Close, rest)?;
        return Ok(((Head::Tuple, Items::new(alloc)), rest));
    }
    let (fields, rest) = fields(alloc, levels, rest)?;
    let rest = past_punct(Punct::Close, rest)?;
    Ok(((Head::Tuple, fields), rest))
}

/// At least two types.
#[cycle(types)]
#[tactic(auto, unfolding(crate::specs::Grammar::fields))]
fn fields<'a>(
    alloc: Global,
    levels: u32,
    tokens: Tokens<'a>,
) -> Result<(Items<Type>, Tokens<'a>), Stop>
    ensures { Gives (λ x. (x.0, seen x.1)) result (read_in_type levels fields (seen tokens.entry)) }
{
    let (first, rest) = within(alloc, levels, tokens)?;
    let rest = past_punct(Punct::Comma, rest)?;
    listed(alloc, first, some_types_within(alloc, levels, rest))
}

/// A reference.
#[cycle(types)]
#[tactic(auto, unfolding(crate::specs::Grammar::reference))]
fn reference<'a>(
    alloc: Global,
    levels: u32,
    tokens: Tokens<'a>,
) -> Result<((Head, Items<Type>), Tokens<'a>), Stop>
    ensures { Gives (λ x. (x.0, seen x.1)) result (read_in_type levels reference (seen tokens.entry)) }
{
    let rest = past_punct(Punct::Ampersand, tokens)?;
    let (target, rest) = within(alloc, levels, rest)?;
    Ok(((Head::Ref, single(alloc, target)?), rest))
}

/// A box.
#[cycle(types)]
#[tactic(auto, unfolding(crate::specs::Grammar::boxed))]
fn boxed<'a>(
    alloc: Global,
    levels: u32,
    tokens: Tokens<'a>,
) -> Result<((Head, Items<Type>), Tokens<'a>), Stop>
    ensures { Gives (λ x. (x.0, seen x.1)) result (read_in_type levels boxed (seen tokens.entry)) }
{
    let rest = past_word(Word::BoxType, tokens)?;
    let rest = past_punct(Punct::Less, rest)?;
    let (content, rest) = within(alloc, levels, rest)?;
    let rest = past_punct(Punct::Greater, rest)?;
    Ok(((Head::Boxed, single(alloc, content)?), rest))
}

/// A pointer to a function.
#[cycle(types)]
#[tactic(auto, unfolding(crate::specs::Grammar::fn_pointer))]
fn fn_pointer<'a>(
    alloc: Global,
    levels: u32,
    tokens: Tokens<'a>,
) -> Result<((Head, Items<Type>), Tokens<'a>), Stop>
    ensures { Gives (λ x. (x.0, seen x.1)) result (read_in_type levels fn_pointer (seen tokens.entry)) }
{
    let rest = past_word(Word::FnPtr, tokens)?;
    let rest = past_punct(Punct::Open, rest)?;
    let (mut types, rest) = tys_within(alloc, levels, rest)?;
    let rest = past_punct(Punct::Arrow, rest)?;
    let (result, rest) = within(alloc, levels, rest)?;
    types.push(result)?;
    Ok(((Head::FnPtr, types), rest))
}

/// A type whose head has a path, or a parameter.
#[cycle(types)]
#[tactic(auto, unfolding(crate::specs::Grammar::path_shape))]
fn path_shape<'a>(
    alloc: Global,
    levels: u32,
    tokens: Tokens<'a>,
) -> Result<((Head, Items<Type>), Tokens<'a>), Stop>
    ensures { Gives (λ x. (x.0, seen x.1)) result (read_in_type levels path_shape (seen tokens.entry)) }
{
    if starts_word(Word::FnItem, tokens) {
        let rest = past_word(Word::FnItem, tokens)?;
        let (PathWithArgs { path, args }, rest) = path_args_within(alloc, levels, rest)?;
        return Ok(((Head::FnItem(path), args), rest));
    }
    if starts_word(Word::Closure, tokens) {
        let rest = past_word(Word::Closure, tokens)?;
        let (PathWithArgs { path, args }, rest) = path_args_within(alloc, levels, rest)?;
        return Ok(((Head::Closure(path), args), rest));
    }
    if starts_word(Word::Dyn, tokens) {
        let rest = past_word(Word::Dyn, tokens)?;
        let (PathWithArgs { path, args }, rest) = path_args_within(alloc, levels, rest)?;
        return Ok(((Head::Dyn(path), args), rest));
    }
    named(alloc, levels, tokens)
}

/// A parameter, or a struct or an enum.
#[cycle(types)]
#[tactic(auto, unfolding(crate::specs::Grammar::named))]
fn named<'a>(
    alloc: Global,
    levels: u32,
    tokens: Tokens<'a>,
) -> Result<((Head, Items<Type>), Tokens<'a>), Stop>
    ensures { Gives (λ x. (x.0, seen x.1)) result (read_in_type levels named (seen tokens.entry)) }
{
    let line = line(tokens)?;
    let (krate, rest) = text(alloc, tokens)?;
    if !begins_behind_krate(rest) {
        return Ok(((Head::Param(krate), Items::new(alloc)), rest));
    }
    let ((names, args), rest) = behind_krate(alloc, levels, rest)?;
    Ok(((Head::Adt(Path { line, krate, names }), args), rest))
}

/// Whether the next token goes on with a path behind its first name.
#[tactic(auto, unfolding(crate::specs::Grammar::behind_krate, crate::specs::Grammar::segments, crate::specs::Grammar::segment))]
fn begins_behind_krate(tokens: Tokens<'_>) -> bool
    ensures { result ≡ begun behind_krate (seen tokens.entry) }
{
    starts_punct(Punct::PathSep, tokens)
}

/// The names of a path behind its first one, and the arguments.
#[cycle(types)]
#[tactic(auto, unfolding(crate::specs::Grammar::behind_krate))]
fn behind_krate<'a>(
    alloc: Global,
    levels: u32,
    tokens: Tokens<'a>,
) -> Result<((Items<Text>, Items<Type>), Tokens<'a>), Stop>
    ensures { Gives (λ x. (x.0, seen x.1)) result (read_in_type levels behind_krate (seen tokens.entry)) }
{
    let (names, rest) = segments_in_type(alloc, levels, tokens)?;
    both(names, args_within(alloc, levels, rest))
}

/// A path and its arguments, which nest no deeper than so many levels.
#[cycle(types)]
#[tactic(auto, unfolding(crate::specs::Grammar::path_args))]
pub fn path_args_within<'a>(
    alloc: Global,
    levels: u32,
    tokens: Tokens<'a>,
) -> Result<(PathWithArgs, Tokens<'a>), Stop>
    ensures { Gives (λ x. (x.0, seen x.1)) result (read_in_type levels path_args (seen tokens.entry)) }
{
    let (path, rest) = path_in_type(alloc, levels, tokens)?;
    let (args, rest) = args_within(alloc, levels, rest)?;
    Ok((PathWithArgs { path, args }, rest))
}

/// Type arguments in angles, none where there are no angles.
#[cycle(types)]
#[tactic(auto, unfolding(crate::specs::Grammar::args))]
pub fn args_within<'a>(
    alloc: Global,
    levels: u32,
    tokens: Tokens<'a>,
) -> Result<(Items<Type>, Tokens<'a>), Stop>
    ensures { Gives (λ x. (x.0, seen x.1)) result (read_in_type levels args (seen tokens.entry)) }
{
    if !starts_punct(Punct::Less, tokens) {
        return Ok((Items::new(alloc), tokens));
    }
    let rest = past_punct(Punct::Less, tokens)?;
    ended(some_types_within(alloc, levels, rest), Punct::Greater)
}

/// Types with the closing parenthesis behind them.
#[cycle(types)]
#[tactic(auto, unfolding(crate::specs::Grammar::tys))]
pub fn tys_within<'a>(
    alloc: Global,
    levels: u32,
    tokens: Tokens<'a>,
) -> Result<(Items<Type>, Tokens<'a>), Stop>
    ensures { Gives (λ x. (x.0, seen x.1)) result (read_in_type levels tys (seen tokens.entry)) }
{
    if starts_punct(Punct::Close, tokens) {
        let rest = past_punct(Punct::Close, tokens)?;
        return Ok((Items::new(alloc), rest));
    }
    ended(some_types_within(alloc, levels, tokens), Punct::Close)
}

/// At least one type.
#[cycle(types)]
#[tactic(auto, unfolding(crate::specs::Grammar::some_types))]
pub fn some_types_within<'a>(
    alloc: Global,
    levels: u32,
    tokens: Tokens<'a>,
) -> Result<(Items<Type>, Tokens<'a>), Stop>
    ensures { Gives (λ x. (x.0, seen x.1)) result (read_in_type levels some_types (seen tokens.entry)) }
{
    let (first, rest) = within(alloc, levels, tokens)?;
    listed(alloc, first, more_types(alloc, levels, rest))
}

/// The types behind the first one.
#[cycle(types)]
#[tactic(auto, unfolding(crate::specs::Grammar::more_types))]
fn more_types<'a>(
    alloc: Global,
    levels: u32,
    tokens: Tokens<'a>,
) -> Result<(Items<Type>, Tokens<'a>), Stop>
    ensures { Gives (λ x. (x.0, seen x.1)) result (read_in_type levels more_types (seen tokens.entry)) }
{
    let mut types = Items::new(alloc);
    let mut rest = tokens;
    'each: for place in 0..tokens.len() {
        if !begins_next_type(rest) {
            break;
        }
        let (ty, after) = next_type(alloc, levels, rest)?;
        types.push(ty)?;
        rest = after;
    }
    Ok((types, rest))
}

/// Whether the next token begins a comma and a type.
#[tactic(auto, unfolding(crate::specs::Grammar::next_type))]
fn begins_next_type(tokens: Tokens<'_>) -> bool
    ensures { result ≡ begun next_type (seen tokens.entry) }
{
    starts_punct(Punct::Comma, tokens)
}

/// A comma and a type.
#[cycle(types)]
#[tactic(auto, unfolding(crate::specs::Grammar::next_type))]
fn next_type<'a>(alloc: Global, levels: u32, tokens: Tokens<'a>) -> Result<(Type, Tokens<'a>), Stop>
    ensures { Gives (λ x. (x.0, seen x.1)) result (read_in_type levels next_type (seen tokens.entry)) }
{
    let rest = past_punct(Punct::Comma, tokens)?;
    within(alloc, levels, rest)
}
