ghost use Rattle.std.specs.Prelude.{◌≡◌};
ghost use Rattle.mm_forms.specs.Given.{Gives};
ghost use Rattle.mm_grammar.specs.ItemGrammar.{fn_head as fn_head_rule, function as function_rule, captures as captures_rule, closure_head as closure_head_rule, closure as closure_rule, bounded as bounded_rule, generic as generic_rule, fn_name as fn_name_rule, capturing as capturing_rule, generic_capturing as generic_capturing_rule};
ghost use Rattle.mm_grammar.specs.Reading.{begun, read};
ghost use Rattle.mm_grammar.specs.Seen.{seen};

use mm_ast::{Bound, Closure, Function, Name, Signature, Type};
use mm_forms::Stop;
use mm_grammar::cursor::Tokens;
use mm_grammar::heads::{ClosureHead, FnHead};
use mm_grammar::names::{name, params};
use mm_grammar::pieces::{past_punct, past_word, starts_punct, starts_word};
use mm_grammar::sequences::{both, ended};
use mm_grammar::types::some_types;
use mm_lex::Punct;
use mm_names::Word;
use mm_parse_bodies::body;
use mm_parse_heads::{bounds, flag, signature};
use sqlite_items::Items;
use std::alloc::Global;

/// A signature and its bounds.
#[tactic(auto, unfolding(mm_grammar::specs::ItemGrammar::bounded))]
fn bounded<'a>(
    alloc: Global,
    tokens: Tokens<'a>,
) -> Result<((Signature, Items<Bound>), Tokens<'a>), Stop>
    ensures { Gives (λ x. (x.0, seen x.1)) result (read bounded_rule (seen tokens.entry)) }
{
    let (signature, rest) = signature(alloc, tokens)?;
    both(signature, bounds(alloc, rest))
}

/// Type parameters, a signature and its bounds.
#[tactic(auto, unfolding(mm_grammar::specs::ItemGrammar::generic))]
fn generic<'a>(
    alloc: Global,
    tokens: Tokens<'a>,
) -> Result<((Items<Name>, (Signature, Items<Bound>)), Tokens<'a>), Stop>
    ensures { Gives (λ x. (x.0, seen x.1)) result (read generic_rule (seen tokens.entry)) }
{
    let (params, rest) = params(alloc, tokens)?;
    both(params, bounded(alloc, rest))
}

/// `fn`, a name, type parameters, a signature and its bounds.
#[tactic(auto, unfolding(mm_grammar::specs::ItemGrammar::fn_name))]
fn fn_name<'a>(
    alloc: Global,
    tokens: Tokens<'a>,
) -> Result<((Name, (Items<Name>, (Signature, Items<Bound>))), Tokens<'a>), Stop>
    ensures { Gives (λ x. (x.0, seen x.1)) result (read fn_name_rule (seen tokens.entry)) }
{
    let rest = past_word(Word::Fn, tokens)?;
    let (name, rest) = name(alloc, rest)?;
    both(name, generic(alloc, rest))
}

/// What stands before the body of a function.
#[tactic(auto, unfolding(mm_grammar::specs::ItemGrammar::fn_head))]
pub fn fn_head<'a>(alloc: Global, tokens: Tokens<'a>) -> Result<(FnHead, Tokens<'a>), Stop>
    ensures { Gives (λ x. (x.0, seen x.1)) result (read fn_head_rule (seen tokens.entry)) }
{
    let (is_inline, rest) = flag(Word::Inline, tokens)?;
    let ((name, (type_params, (signature, bounds))), rest) = fn_name(alloc, rest)?;
    Ok((
        FnHead {
            is_inline,
            name,
            type_params,
            signature,
            bounds,
        },
        rest,
    ))
}

/// Whether the next token begins a function.
#[tactic(auto, unfolding(mm_grammar::specs::ItemGrammar::fn_head, mm_grammar::specs::ItemGrammar::fn_name))]
pub fn starts_fn_head(tokens: Tokens<'_>) -> bool
    ensures { result ≡ begun fn_head_rule (seen tokens.entry) }
{
    starts_word(Word::Inline, tokens) || starts_word(Word::Fn, tokens)
}

/// A function.
#[tactic(auto, unfolding(mm_grammar::specs::ItemGrammar::function))]
pub fn function<'a>(alloc: Global, tokens: Tokens<'a>) -> Result<(Function, Tokens<'a>), Stop>
    ensures { Gives (λ x. (x.0, seen x.1)) result (read function_rule (seen tokens.entry)) }
{
    let (head, rest) = fn_head(alloc, tokens)?;
    let (body, rest) = body(alloc, 1 + head.signature.params.len(), rest)?;
    Ok((
        Function {
            is_inline: head.is_inline,
            name: head.name,
            type_params: head.type_params,
            signature: head.signature,
            bounds: head.bounds,
            body,
        },
        rest,
    ))
}

/// The types of what a closure captures, in their brackets.
#[tactic(auto, unfolding(mm_grammar::specs::ItemGrammar::captures))]
fn captures<'a>(alloc: Global, tokens: Tokens<'a>) -> Result<(Items<Type>, Tokens<'a>), Stop>
    ensures { Gives (λ x. (x.0, seen x.1)) result (read captures_rule (seen tokens.entry)) }
{
    let rest = past_punct(Punct::OpenBracket, tokens)?;
    if starts_punct(Punct::CloseBracket, rest) {
        let rest = past_punct(Punct::CloseBracket, rest)?;
        return Ok((Items::new(alloc), rest));
    }
    ended(some_types(alloc, rest), Punct::CloseBracket)
}

/// What a closure captures, and its signature.
#[tactic(auto, unfolding(mm_grammar::specs::ItemGrammar::capturing))]
fn capturing<'a>(
    alloc: Global,
    tokens: Tokens<'a>,
) -> Result<((Items<Type>, Signature), Tokens<'a>), Stop>
    ensures { Gives (λ x. (x.0, seen x.1)) result (read capturing_rule (seen tokens.entry)) }
{
    let (captures, rest) = captures(alloc, tokens)?;
    both(captures, signature(alloc, rest))
}

/// Type parameters, what a closure captures, and its signature.
#[tactic(auto, unfolding(mm_grammar::specs::ItemGrammar::generic_capturing))]
fn generic_capturing<'a>(
    alloc: Global,
    tokens: Tokens<'a>,
) -> Result<((Items<Name>, (Items<Type>, Signature)), Tokens<'a>), Stop>
    ensures { Gives (λ x. (x.0, seen x.1)) result (read generic_capturing_rule (seen tokens.entry)) }
{
    let (params, rest) = params(alloc, tokens)?;
    both(params, capturing(alloc, rest))
}

/// What stands before the body of a closure.
#[tactic(auto, unfolding(mm_grammar::specs::ItemGrammar::closure_head))]
fn closure_head<'a>(alloc: Global, tokens: Tokens<'a>) -> Result<(ClosureHead, Tokens<'a>), Stop>
    ensures { Gives (λ x. (x.0, seen x.1)) result (read closure_head_rule (seen tokens.entry)) }
{
    let rest = past_word(Word::Closure, tokens)?;
    let (name, rest) = name(alloc, rest)?;
    let ((type_params, (captures, signature)), rest) = generic_capturing(alloc, rest)?;
    Ok((
        ClosureHead {
            name,
            type_params,
            captures,
            signature,
        },
        rest,
    ))
}

/// A closure, whose first parameter is the closure itself and is not written.
#[tactic(auto, unfolding(mm_grammar::specs::ItemGrammar::closure))]
pub fn closure<'a>(alloc: Global, tokens: Tokens<'a>) -> Result<(Closure, Tokens<'a>), Stop>
    ensures { Gives (λ x. (x.0, seen x.1)) result (read closure_rule (seen tokens.entry)) }
{
    let (head, rest) = closure_head(alloc, tokens)?;
    let (body, rest) = body(alloc, 2 + head.signature.params.len(), rest)?;
    Ok((
        Closure {
            name: head.name,
            type_params: head.type_params,
            captures: head.captures,
            signature: head.signature,
            body,
        },
        rest,
    ))
}

/// Whether the next token begins a closure.
#[tactic(auto, unfolding(mm_grammar::specs::ItemGrammar::closure, mm_grammar::specs::ItemGrammar::closure_head))]
pub fn starts_closure(tokens: Tokens<'_>) -> bool
    ensures { result ≡ begun closure_rule (seen tokens.entry) }
{
    starts_word(Word::Closure, tokens)
}
