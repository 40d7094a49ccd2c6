ghost use Rattle.std.specs.Prelude.{◌≡◌};
ghost use Rattle.mm_forms.specs.Given.{Gives};
ghost use Rattle.mm_grammar.specs.Grammar.{call_method, called_method, callee, method_callee, method_of, trait_method};
ghost use Rattle.mm_grammar.specs.Reading.{begun, read};
ghost use Rattle.mm_grammar.specs.Seen.{seen};

use crate::cursor::Tokens;
use crate::heads::{CalledMethod, TraitMethod};
use crate::names::name;
use crate::pieces::{line, past_punct, past_word, starts_punct, starts_word};
use crate::types::{args, path_args, ty};
use mm_ast::{CallCallee, Callee, MethodCallee, Name, PathWithArgs, Type};
use mm_forms::Stop;
use mm_lex::Punct;
use mm_names::Word;
use sqlite_items::Items;
use std::alloc::Global;

/// Whether the next token begins the method of what can be called.
#[tactic(auto, unfolding(crate::specs::Grammar::call_method))]
fn begins_call_method(tokens: Tokens<'_>) -> bool
    ensures { result ≡ begun call_method (seen tokens.entry) }
{
    starts_word(Word::CallTrait, tokens)
}

/// The method of what can be called.
#[tactic(auto, unfolding(crate::specs::Grammar::call_method))]
fn call_method<'a>(tokens: Tokens<'a>) -> Result<(CalledMethod, Tokens<'a>), Stop>
    ensures { Gives (λ x. (x.0, seen x.1)) result (read call_method (seen tokens.entry)) }
{
    let line = line(tokens)?;
    let rest = past_word(Word::CallTrait, tokens)?;
    let rest = past_punct(Punct::Greater, rest)?;
    let rest = past_punct(Punct::PathSep, rest)?;
    let rest = past_word(Word::Call, rest)?;
    Ok((CalledMethod::Call(line), rest))
}

/// A method of a trait.
#[tactic(auto, unfolding(crate::specs::Grammar::trait_method))]
fn trait_method<'a>(alloc: Global, tokens: Tokens<'a>) -> Result<(TraitMethod, Tokens<'a>), Stop>
    ensures { Gives (λ x. (x.0, seen x.1)) result (read trait_method (seen tokens.entry)) }
{
    let (of, rest) = path_args(alloc, tokens)?;
    let rest = past_punct(Punct::Greater, rest)?;
    let rest = past_punct(Punct::PathSep, rest)?;
    let (name, rest) = name(alloc, rest)?;
    let (args, rest) = args(alloc, rest)?;
    Ok((TraitMethod { of, name, args }, rest))
}

/// The method behind `as`.
#[tactic(auto, unfolding(crate::specs::Grammar::called_method))]
fn called_method<'a>(alloc: Global, tokens: Tokens<'a>) -> Result<(CalledMethod, Tokens<'a>), Stop>
    ensures { Gives (λ x. (x.0, seen x.1)) result (read called_method (seen tokens.entry)) }
{
    if begins_call_method(tokens) {
        return call_method(tokens);
    }
    let (method, rest) = trait_method(alloc, tokens)?;
    Ok((CalledMethod::Trait(method), rest))
}

/// The callee that a type and its method are.
fn method_of(self_type: Type, method: CalledMethod) -> Callee
    ensures { result ≡ method_of self_type method }
{
    match method {
        CalledMethod::Trait(TraitMethod { of, name, args }) => Callee::Method(MethodCallee {
            self_type,
            of,
            name,
            args,
        }),
        CalledMethod::Call(line) => Callee::Call(CallCallee { self_type, line }),
    }
}

/// A method for a type.
#[tactic(auto, unfolding(crate::specs::Grammar::method_callee))]
fn method_callee<'a>(alloc: Global, tokens: Tokens<'a>) -> Result<(Callee, Tokens<'a>), Stop>
    ensures { Gives (λ x. (x.0, seen x.1)) result (read method_callee (seen tokens.entry)) }
{
    let rest = past_punct(Punct::Less, tokens)?;
    let (self_type, rest) = ty(alloc, rest)?;
    let rest = past_word(Word::As, rest)?;
    let (method, rest) = called_method(alloc, rest)?;
    Ok((method_of(self_type, method), rest))
}

/// Whether the next token begins a method for a type.
#[tactic(auto, unfolding(crate::specs::Grammar::method_callee))]
fn begins_method_callee(tokens: Tokens<'_>) -> bool
    ensures { result ≡ begun method_callee (seen tokens.entry) }
{
    starts_punct(Punct::Less, tokens)
}

/// A callee.
#[tactic(auto, unfolding(crate::specs::Grammar::callee))]
pub fn callee<'a>(alloc: Global, tokens: Tokens<'a>) -> Result<(Callee, Tokens<'a>), Stop>
    ensures { Gives (λ x. (x.0, seen x.1)) result (read callee (seen tokens.entry)) }
{
    if begins_method_callee(tokens) {
        return method_callee(alloc, tokens);
    }
    let (function, rest) = path_args(alloc, tokens)?;
    Ok((Callee::Direct(function), rest))
}
