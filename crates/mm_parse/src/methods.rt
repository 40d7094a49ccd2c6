ghost use Rattle.std.specs.Prelude.{◌≡◌};
ghost use Rattle.mm_forms.specs.Given.{Gives};
ghost use Rattle.mm_grammar.specs.ItemGrammar.{method_body as method_body_rule, method as method_rule, methods as methods_rule, trait_item as trait_rule, trait_methods as trait_methods_rule, generic_methods as generic_methods_rule};
ghost use Rattle.mm_grammar.specs.Reading.{begun, read, read_from};
ghost use Rattle.mm_grammar.specs.Seen.{seen};

use crate::functions::{fn_head, starts_fn_head};
use mm_ast::{Body, Method, Name, Trait};
use mm_forms::Stop;
use mm_grammar::cursor::Tokens;
use mm_grammar::names::{name, params};
use mm_grammar::pieces::{line, past_punct, past_word, starts_punct, starts_word};
use mm_grammar::sequences::{both, ended};
use mm_lex::Punct;
use mm_names::Word;
use mm_parse_bodies::body;
use sqlite_items::Items;
use std::alloc::Global;

/// The body of a method, or `;` where there is none.
#[tactic(auto, unfolding(mm_grammar::specs::ItemGrammar::method_body))]
fn method_body<'a>(
    alloc: Global,
    first: usize,
    tokens: Tokens<'a>,
) -> Result<(Option<Body>, Tokens<'a>), Stop>
    ensures { Gives (λ x. (x.0, seen x.1)) result (read_from first method_body_rule (seen tokens.entry)) }
{
    if starts_punct(Punct::Semicolon, tokens) {
        let rest = past_punct(Punct::Semicolon, tokens)?;
        return Ok((None, rest));
    }
    let (body, rest) = body(alloc, first, tokens)?;
    Ok((Some(body), rest))
}

/// A method of a trait.
#[tactic(auto, unfolding(mm_grammar::specs::ItemGrammar::method))]
fn method<'a>(alloc: Global, tokens: Tokens<'a>) -> Result<(Method, Tokens<'a>), Stop>
    ensures { Gives (λ x. (x.0, seen x.1)) result (read method_rule (seen tokens.entry)) }
{
    let line = line(tokens)?;
    let (head, rest) = fn_head(alloc, tokens)?;
    let (body, rest) = method_body(alloc, 1 + head.signature.params.len(), rest)?;
    Ok((
        Method {
            line,
            is_inline: head.is_inline,
            name: head.name,
            type_params: head.type_params,
            signature: head.signature,
            bounds: head.bounds,
            body,
        },
        rest,
    ))
}

/// Whether the next token begins a method.
#[tactic(auto, unfolding(mm_grammar::specs::ItemGrammar::method, mm_grammar::specs::ItemGrammar::fn_head, mm_grammar::specs::ItemGrammar::fn_name))]
fn starts_method(tokens: Tokens<'_>) -> bool
    ensures { result ≡ begun method_rule (seen tokens.entry) }
{
    starts_fn_head(tokens)
}

/// The methods of a trait.
#[tactic(auto, unfolding(mm_grammar::specs::ItemGrammar::methods))]
fn methods<'a>(alloc: Global, tokens: Tokens<'a>) -> Result<(Items<Method>, Tokens<'a>), Stop>
    ensures { Gives (λ x. (x.0, seen x.1)) result (read methods_rule (seen tokens.entry)) }
{
    let mut methods = Items::new(alloc);
    let mut rest = tokens;
    'each: for place in 0..tokens.len() {
        if !starts_method(rest) {
            break;
        }
        let (method, after) = method(alloc, rest)?;
        methods.push(method)?;
        rest = after;
    }
    Ok((methods, rest))
}

/// The methods of a trait, in their braces.
#[tactic(auto, unfolding(mm_grammar::specs::ItemGrammar::trait_methods))]
fn trait_methods<'a>(alloc: Global, tokens: Tokens<'a>) -> Result<(Items<Method>, Tokens<'a>), Stop>
    ensures { Gives (λ x. (x.0, seen x.1)) result (read trait_methods_rule (seen tokens.entry)) }
{
    let rest = past_punct(Punct::OpenBrace, tokens)?;
    ended(methods(alloc, rest), Punct::CloseBrace)
}

/// Type parameters, and the methods of a trait.
#[tactic(auto, unfolding(mm_grammar::specs::ItemGrammar::generic_methods))]
fn generic_methods<'a>(
    alloc: Global,
    tokens: Tokens<'a>,
) -> Result<((Items<Name>, Items<Method>), Tokens<'a>), Stop>
    ensures { Gives (λ x. (x.0, seen x.1)) result (read generic_methods_rule (seen tokens.entry)) }
{
    let (params, rest) = params(alloc, tokens)?;
    both(params, trait_methods(alloc, rest))
}

/// A trait.
#[tactic(auto, unfolding(mm_grammar::specs::ItemGrammar::trait_item))]
pub fn trait_item<'a>(alloc: Global, tokens: Tokens<'a>) -> Result<(Trait, Tokens<'a>), Stop>
    ensures { Gives (λ x. (x.0, seen x.1)) result (read trait_rule (seen tokens.entry)) }
{
    let rest = past_word(Word::Trait, tokens)?;
    let (name, rest) = name(alloc, rest)?;
    let ((type_params, methods), rest) = generic_methods(alloc, rest)?;
    Ok((
        Trait {
            name,
            type_params,
            methods,
        },
        rest,
    ))
}

/// Whether the next token begins a trait.
#[tactic(auto, unfolding(mm_grammar::specs::ItemGrammar::trait_item))]
pub fn starts_trait(tokens: Tokens<'_>) -> bool
    ensures { result ≡ begun trait_rule (seen tokens.entry) }
{
    starts_word(Word::Trait, tokens)
}
