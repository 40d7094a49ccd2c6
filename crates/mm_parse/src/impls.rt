ghost use Rattle.std.specs.Prelude.{◌≡◌};
ghost use Rattle.mm_forms.specs.Given.{Gives};
ghost use Rattle.mm_grammar.specs.ItemGrammar.{drop_method as drop_method_rule, drop_impl as drop_impl_rule, impl_method as impl_method_rule, impl_methods as impl_methods_rule, trait_impl as trait_impl_rule, impl_form as impl_form_rule, impl_item as impl_rule, drop_param as drop_param_rule, drop_fn as drop_fn_rule, drop_braces as drop_braces_rule, bounded_drop as bounded_drop_rule, impl_braces as impl_braces_rule, bounded_methods as bounded_methods_rule, impl_target as impl_target_rule};
ghost use Rattle.mm_grammar.specs.Reading.{begun, read};
ghost use Rattle.mm_grammar.specs.Seen.{seen};

use crate::functions::{function, starts_fn_head};
use mm_ast::{Body, Bound, DropImpl, Impl, ImplForm, ImplMethod, TraitImpl, Type};
use mm_forms::Stop;
use mm_grammar::cursor::Tokens;
use mm_grammar::heads::DropMethod;
use mm_grammar::names::params;
use mm_grammar::pieces::{line, past_punct, past_word, starts_word};
use mm_grammar::sequences::{both, ended};
use mm_grammar::types::{path_args, ty};
use mm_lex::Punct;
use mm_names::Word;
use mm_parse_bodies::body;
use mm_parse_heads::{bounds, flag};
use sqlite_items::Items;
use std::alloc::Global;

/// `fn drop`, and the type of its parameter in parentheses.
#[tactic(auto, unfolding(mm_grammar::specs::ItemGrammar::drop_param))]
fn drop_param<'a>(alloc: Global, tokens: Tokens<'a>) -> Result<(Type, Tokens<'a>), Stop>
    ensures { Gives (λ x. (x.0, seen x.1)) result (read drop_param_rule (seen tokens.entry)) }
{
    let rest = past_word(Word::Fn, tokens)?;
    let rest = past_word(Word::Drop, rest)?;
    let rest = past_punct(Punct::Open, rest)?;
    ended(ty(alloc, rest), Punct::Close)
}

/// `fn drop`, the type of its parameter, and its body.
#[tactic(auto, unfolding(mm_grammar::specs::ItemGrammar::drop_fn))]
fn drop_fn<'a>(alloc: Global, tokens: Tokens<'a>) -> Result<((Type, Body), Tokens<'a>), Stop>
    ensures { Gives (λ x. (x.0, seen x.1)) result (read drop_fn_rule (seen tokens.entry)) }
{
    let (param, rest) = drop_param(alloc, tokens)?;
    both(param, body(alloc, 2, rest))
}

/// The method of an impl of `Drop`.
#[tactic(auto, unfolding(mm_grammar::specs::ItemGrammar::drop_method))]
fn drop_method<'a>(alloc: Global, tokens: Tokens<'a>) -> Result<(DropMethod, Tokens<'a>), Stop>
    ensures { Gives (λ x. (x.0, seen x.1)) result (read drop_method_rule (seen tokens.entry)) }
{
    let (is_inline, rest) = flag(Word::Inline, tokens)?;
    let ((param, body), rest) = drop_fn(alloc, rest)?;
    Ok((
        DropMethod {
            is_inline,
            param,
            body,
        },
        rest,
    ))
}

/// The method of an impl of `Drop`, in its braces.
#[tactic(auto, unfolding(mm_grammar::specs::ItemGrammar::drop_braces))]
fn drop_braces<'a>(alloc: Global, tokens: Tokens<'a>) -> Result<(DropMethod, Tokens<'a>), Stop>
    ensures { Gives (λ x. (x.0, seen x.1)) result (read drop_braces_rule (seen tokens.entry)) }
{
    let rest = past_punct(Punct::OpenBrace, tokens)?;
    ended(drop_method(alloc, rest), Punct::CloseBrace)
}

/// Bounds, and the method of an impl of `Drop`.
#[tactic(auto, unfolding(mm_grammar::specs::ItemGrammar::bounded_drop))]
fn bounded_drop<'a>(
    alloc: Global,
    tokens: Tokens<'a>,
) -> Result<((Items<Bound>, DropMethod), Tokens<'a>), Stop>
    ensures { Gives (λ x. (x.0, seen x.1)) result (read bounded_drop_rule (seen tokens.entry)) }
{
    let (bounds, rest) = bounds(alloc, tokens)?;
    both(bounds, drop_braces(alloc, rest))
}

/// An impl of `Drop`.
#[tactic(auto, unfolding(mm_grammar::specs::ItemGrammar::drop_impl))]
fn drop_impl<'a>(alloc: Global, tokens: Tokens<'a>) -> Result<(DropImpl, Tokens<'a>), Stop>
    ensures { Gives (λ x. (x.0, seen x.1)) result (read drop_impl_rule (seen tokens.entry)) }
{
    let rest = past_word(Word::DropTrait, tokens)?;
    let rest = past_word(Word::For, rest)?;
    let (target, rest) = ty(alloc, rest)?;
    let ((bounds, method), rest) = bounded_drop(alloc, rest)?;
    Ok((
        DropImpl {
            target,
            bounds,
            is_inline: method.is_inline,
            param: method.param,
            body: method.body,
        },
        rest,
    ))
}

/// Whether the next token begins an impl of `Drop`.
#[tactic(auto, unfolding(mm_grammar::specs::ItemGrammar::drop_impl))]
fn starts_drop_impl(tokens: Tokens<'_>) -> bool
    ensures { result ≡ begun drop_impl_rule (seen tokens.entry) }
{
    starts_word(Word::DropTrait, tokens)
}

/// A method that an impl gives.
#[tactic(auto, unfolding(mm_grammar::specs::ItemGrammar::impl_method))]
fn impl_method<'a>(alloc: Global, tokens: Tokens<'a>) -> Result<(ImplMethod, Tokens<'a>), Stop>
    ensures { Gives (λ x. (x.0, seen x.1)) result (read impl_method_rule (seen tokens.entry)) }
{
    let line = line(tokens)?;
    let (function, rest) = function(alloc, tokens)?;
    Ok((ImplMethod { line, function }, rest))
}

/// Whether the next token begins a method.
#[tactic(auto, unfolding(mm_grammar::specs::ItemGrammar::impl_method, mm_grammar::specs::ItemGrammar::function, mm_grammar::specs::ItemGrammar::fn_head, mm_grammar::specs::ItemGrammar::fn_name))]
fn starts_impl_method(tokens: Tokens<'_>) -> bool
    ensures { result ≡ begun impl_method_rule (seen tokens.entry) }
{
    starts_fn_head(tokens)
}

/// The methods that an impl gives.
#[tactic(auto, unfolding(mm_grammar::specs::ItemGrammar::impl_methods))]
fn impl_methods<'a>(
    alloc: Global,
    tokens: Tokens<'a>,
) -> Result<(Items<ImplMethod>, Tokens<'a>), Stop>
    ensures { Gives (λ x. (x.0, seen x.1)) result (read impl_methods_rule (seen tokens.entry)) }
{
    let mut methods = Items::new(alloc);
    let mut rest = tokens;
    'each: for place in 0..tokens.len() {
        if !starts_impl_method(rest) {
            break;
        }
        let (method, after) = impl_method(alloc, rest)?;
        methods.push(method)?;
        rest = after;
    }
    Ok((methods, rest))
}

/// The methods that an impl gives, in their braces.
#[tactic(auto, unfolding(mm_grammar::specs::ItemGrammar::impl_braces))]
fn impl_braces<'a>(
    alloc: Global,
    tokens: Tokens<'a>,
) -> Result<(Items<ImplMethod>, Tokens<'a>), Stop>
    ensures { Gives (λ x. (x.0, seen x.1)) result (read impl_braces_rule (seen tokens.entry)) }
{
    let rest = past_punct(Punct::OpenBrace, tokens)?;
    ended(impl_methods(alloc, rest), Punct::CloseBrace)
}

/// Bounds, and the methods that an impl gives.
#[tactic(auto, unfolding(mm_grammar::specs::ItemGrammar::bounded_methods))]
fn bounded_methods<'a>(
    alloc: Global,
    tokens: Tokens<'a>,
) -> Result<((Items<Bound>, Items<ImplMethod>), Tokens<'a>), Stop>
    ensures { Gives (λ x. (x.0, seen x.1)) result (read bounded_methods_rule (seen tokens.entry)) }
{
    let (bounds, rest) = bounds(alloc, tokens)?;
    both(bounds, impl_braces(alloc, rest))
}

/// The type for which an impl gives methods, its bounds, and the methods.
#[tactic(auto, unfolding(mm_grammar::specs::ItemGrammar::impl_target))]
fn impl_target<'a>(
    alloc: Global,
    tokens: Tokens<'a>,
) -> Result<((Type, (Items<Bound>, Items<ImplMethod>)), Tokens<'a>), Stop>
    ensures { Gives (λ x. (x.0, seen x.1)) result (read impl_target_rule (seen tokens.entry)) }
{
    let rest = past_word(Word::For, tokens)?;
    let (target, rest) = ty(alloc, rest)?;
    both(target, bounded_methods(alloc, rest))
}

/// An impl of a trait.
#[tactic(auto, unfolding(mm_grammar::specs::ItemGrammar::trait_impl))]
fn trait_impl<'a>(alloc: Global, tokens: Tokens<'a>) -> Result<(TraitImpl, Tokens<'a>), Stop>
    ensures { Gives (λ x. (x.0, seen x.1)) result (read trait_impl_rule (seen tokens.entry)) }
{
    let (of, rest) = path_args(alloc, tokens)?;
    let ((target, (bounds, methods)), rest) = impl_target(alloc, rest)?;
    Ok((
        TraitImpl {
            of,
            target,
            bounds,
            methods,
        },
        rest,
    ))
}

/// What an impl gives.
#[tactic(auto, unfolding(mm_grammar::specs::ItemGrammar::impl_form))]
fn impl_form<'a>(alloc: Global, tokens: Tokens<'a>) -> Result<(ImplForm, Tokens<'a>), Stop>
    ensures { Gives (λ x. (x.0, seen x.1)) result (read impl_form_rule (seen tokens.entry)) }
{
    if starts_drop_impl(tokens) {
        let (drop, rest) = drop_impl(alloc, tokens)?;
        return Ok((ImplForm::Drop(drop), rest));
    }
    let (methods, rest) = trait_impl(alloc, tokens)?;
    Ok((ImplForm::Trait(methods), rest))
}

/// An impl.
#[tactic(auto, unfolding(mm_grammar::specs::ItemGrammar::impl_item))]
pub fn impl_item<'a>(alloc: Global, tokens: Tokens<'a>) -> Result<(Impl, Tokens<'a>), Stop>
    ensures { Gives (λ x. (x.0, seen x.1)) result (read impl_rule (seen tokens.entry)) }
{
    let rest = past_word(Word::Impl, tokens)?;
    let (type_params, rest) = params(alloc, rest)?;
    let (form, rest) = impl_form(alloc, rest)?;
    Ok((Impl { type_params, form }, rest))
}
