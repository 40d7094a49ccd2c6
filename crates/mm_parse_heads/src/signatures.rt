ghost use Rattle.std.specs.Prelude.{◌≡◌};
ghost use Rattle.mm_ast.specs.declared.types.Type.TheViews.{out-Type};
ghost use Rattle.mm_forms.specs.Given.{Gives};
ghost use Rattle.mm_grammar.specs.ItemGrammar.{next_param as next_param_rule, more_params as more_params_rule, param_types as param_types_rule, result_type as result_type_rule, is_unit as is_unit_type, result_of, signature as signature_rule, bound_form as bound_form_rule, bound as bound_rule, next_bound as next_bound_rule, more_bounds as more_bounds_rule, bounds as bounds_rule, some_params as some_params_rule, some_bounds as some_bounds_rule};
ghost use Rattle.mm_grammar.specs.Reading.{begun, read, read_from};
ghost use Rattle.mm_grammar.specs.Seen.{seen};

use mm_ast::{Bound, BoundForm, Head, Signature, Type};
use mm_forms::{Fault, Stop};
use mm_grammar::cursor::Tokens;
use mm_grammar::pieces::{past_punct, past_word, single, starts_punct, starts_word};
use mm_grammar::sequences::{ended, listed};
use mm_grammar::types::{path_args, starts_type, ty};
use mm_lex::Punct;
use mm_names::Word;
use sqlite_items::Items;
use std::alloc::Global;

/// How many types a signature has at most behind its first one.
const OTHERS_MOST: usize = 65_533;

/// The type of one parameter more, behind the first and so many others.
#[tactic(auto, unfolding(mm_grammar::specs::ItemGrammar::next_param))]
fn next_param<'a>(
    alloc: Global,
    place: usize,
    tokens: Tokens<'a>,
) -> Result<(Type, Tokens<'a>), Stop>
    ensures { Gives (λ x. (x.0, seen x.1)) result (read_from place next_param_rule (seen tokens.entry)) }
{
    let rest = past_punct(Punct::Comma, tokens)?;
    if place < OTHERS_MOST || !starts_type(rest) {
        return ty(alloc, rest);
    }
    Err(Stop::At(Fault::TooMany, rest.len()))
}

/// Whether the next token begins one parameter more.
#[tactic(auto, unfolding(mm_grammar::specs::ItemGrammar::next_param))]
fn starts_next_param(tokens: Tokens<'_>) -> bool
    ensures { result ≡ begun next_param_rule (seen tokens.entry) }
{
    starts_punct(Punct::Comma, tokens)
}

/// The types of the parameters behind the first one.
#[tactic(auto, unfolding(mm_grammar::specs::ItemGrammar::more_params))]
fn more_params<'a>(alloc: Global, tokens: Tokens<'a>) -> Result<(Items<Type>, Tokens<'a>), Stop>
    ensures { Gives (λ x. (x.0, seen x.1)) result (read more_params_rule (seen tokens.entry)) }
{
    let mut types = Items::new(alloc);
    let mut rest = tokens;
    'each: for place in 0..tokens.len() {
        if !starts_next_param(rest) {
            break;
        }
        let (ty, after) = next_param(alloc, place, rest)?;
        types.push(ty)?;
        rest = after;
    }
    Ok((types, rest))
}

/// The types of the parameters, at least one.
#[tactic(auto, unfolding(mm_grammar::specs::ItemGrammar::some_params))]
fn some_params<'a>(alloc: Global, tokens: Tokens<'a>) -> Result<(Items<Type>, Tokens<'a>), Stop>
    ensures { Gives (λ x. (x.0, seen x.1)) result (read some_params_rule (seen tokens.entry)) }
{
    let (first, rest) = ty(alloc, tokens)?;
    listed(alloc, first, more_params(alloc, rest))
}

/// The types of the parameters, in their parentheses.
#[tactic(auto, unfolding(mm_grammar::specs::ItemGrammar::param_types))]
fn param_types<'a>(alloc: Global, tokens: Tokens<'a>) -> Result<(Items<Type>, Tokens<'a>), Stop>
    ensures { Gives (λ x. (x.0, seen x.1)) result (read param_types_rule (seen tokens.entry)) }
{
    let rest = past_punct(Punct::Open, tokens)?;
    if starts_punct(Punct::Close, rest) {
        let rest = past_punct(Punct::Close, rest)?;
        return Ok((Items::new(alloc), rest));
    }
    ended(some_params(alloc, rest), Punct::Close)
}

/// The type of the result behind its arrow, where one is written.
#[tactic(auto, unfolding(mm_grammar::specs::ItemGrammar::result_type))]
fn result_type<'a>(alloc: Global, tokens: Tokens<'a>) -> Result<(Option<Type>, Tokens<'a>), Stop>
    ensures { Gives (λ x. (x.0, seen x.1)) result (read result_type_rule (seen tokens.entry)) }
{
    if starts_punct(Punct::Arrow, tokens) {
        let rest = past_punct(Punct::Arrow, tokens)?;
        let (ty, rest) = ty(alloc, rest)?;
        return Ok((Some(ty), rest));
    }
    Ok((None, tokens))
}

/// Whether a type is `()`.
fn is_unit(ty: &Type) -> bool
    ensures { result ≡ is_unit_type (out-Type ty.now).head (out-Type ty.now).children }
{
    matches!(ty.head, Head::Tuple) && ty.children.is_empty()
}

/// The result of a signature, which none stands for where it is `()`.
fn shown(ty: Option<Type>) -> Option<Type>
    ensures { result ≡ result_of ty }
{
    match ty {
        Some(ty) if !is_unit(&ty) => Some(ty),
        _ => None,
    }
}

/// A signature.
#[tactic(auto, unfolding(mm_grammar::specs::ItemGrammar::signature))]
pub fn signature<'a>(alloc: Global, tokens: Tokens<'a>) -> Result<(Signature, Tokens<'a>), Stop>
    ensures { Gives (λ x. (x.0, seen x.1)) result (read signature_rule (seen tokens.entry)) }
{
    let (params, rest) = param_types(alloc, tokens)?;
    let (written, rest) = result_type(alloc, rest)?;
    Ok((
        Signature {
            params,
            result: shown(written),
        },
        rest,
    ))
}

/// What a bound asks of its type.
#[tactic(auto, unfolding(mm_grammar::specs::ItemGrammar::bound_form))]
fn bound_form<'a>(alloc: Global, tokens: Tokens<'a>) -> Result<(BoundForm, Tokens<'a>), Stop>
    ensures { Gives (λ x. (x.0, seen x.1)) result (read bound_form_rule (seen tokens.entry)) }
{
    if starts_word(Word::CallTrait, tokens) {
        let rest = past_word(Word::CallTrait, tokens)?;
        return Ok((BoundForm::Call, rest));
    }
    let (of, rest) = path_args(alloc, tokens)?;
    Ok((BoundForm::Trait(of), rest))
}

/// A bound.
#[tactic(auto, unfolding(mm_grammar::specs::ItemGrammar::bound))]
fn bound<'a>(alloc: Global, tokens: Tokens<'a>) -> Result<(Bound, Tokens<'a>), Stop>
    ensures { Gives (λ x. (x.0, seen x.1)) result (read bound_rule (seen tokens.entry)) }
{
    let (ty, rest) = ty(alloc, tokens)?;
    let rest = past_punct(Punct::Colon, rest)?;
    let (form, rest) = bound_form(alloc, rest)?;
    Ok((Bound { ty, form }, rest))
}

/// A comma and a bound.
#[tactic(auto, unfolding(mm_grammar::specs::ItemGrammar::next_bound))]
fn next_bound<'a>(alloc: Global, tokens: Tokens<'a>) -> Result<(Bound, Tokens<'a>), Stop>
    ensures { Gives (λ x. (x.0, seen x.1)) result (read next_bound_rule (seen tokens.entry)) }
{
    let rest = past_punct(Punct::Comma, tokens)?;
    bound(alloc, rest)
}

/// Whether the next token begins one bound more.
#[tactic(auto, unfolding(mm_grammar::specs::ItemGrammar::next_bound))]
fn starts_next_bound(tokens: Tokens<'_>) -> bool
    ensures { result ≡ begun next_bound_rule (seen tokens.entry) }
{
    starts_punct(Punct::Comma, tokens)
}

/// The bounds behind the first one.
#[tactic(auto, unfolding(mm_grammar::specs::ItemGrammar::more_bounds))]
fn more_bounds<'a>(alloc: Global, tokens: Tokens<'a>) -> Result<(Items<Bound>, Tokens<'a>), Stop>
    ensures { Gives (λ x. (x.0, seen x.1)) result (read more_bounds_rule (seen tokens.entry)) }
{
    let mut bounds = Items::new(alloc);
    let mut rest = tokens;
    'each: for place in 0..tokens.len() {
        if !starts_next_bound(rest) {
            break;
        }
        let (bound, after) = next_bound(alloc, rest)?;
        bounds.push(bound)?;
        rest = after;
    }
    Ok((bounds, rest))
}

/// At least one bound.
#[tactic(auto, unfolding(mm_grammar::specs::ItemGrammar::some_bounds))]
fn some_bounds<'a>(alloc: Global, tokens: Tokens<'a>) -> Result<(Items<Bound>, Tokens<'a>), Stop>
    ensures { Gives (λ x. (x.0, seen x.1)) result (read some_bounds_rule (seen tokens.entry)) }
{
    let (first, rest) = bound(alloc, tokens)?;
    listed(alloc, first, more_bounds(alloc, rest))
}

/// The bounds behind `where`, none where there is no `where`.
#[tactic(auto, unfolding(mm_grammar::specs::ItemGrammar::bounds))]
pub fn bounds<'a>(alloc: Global, tokens: Tokens<'a>) -> Result<(Items<Bound>, Tokens<'a>), Stop>
    ensures { Gives (λ x. (x.0, seen x.1)) result (read bounds_rule (seen tokens.entry)) }
{
    if starts_word(Word::Where, tokens) {
        let rest = past_word(Word::Where, tokens)?;
        return some_bounds(alloc, rest);
    }
    Ok((Items::new(alloc), tokens))
}
