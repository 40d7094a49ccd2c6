ghost use Rattle.std.specs.Prelude.{◌≡◌, ◌+◌, OnOk, [], ◌∷◌, ◌++◌, length, map, flat_map};
ghost use Rattle.mm_spell.specs.Listed.{kinds};
ghost use Rattle.mm_print.specs.ItemTokens.{method_body_tokens, method_tokens, trait_tokens};

use crate::functions::{first_local, write_bounds, write_flag, write_signature};
use mm_ast::{Body, Method, Trait};
use mm_lex::Punct;
use mm_names::Word;
use mm_spell::Spelled;
use mm_spell::names::{write_name, write_punct, write_word};
use mm_spell::types::write_params;
use mm_spell_bodies::write_body;
use std::alloc::AllocError;

/// Writes the body of a method, or `;` where it has none.
fn write_method_body<'a>(
    first: u64,
    body: &'a Option<Body>,
    out: &mut Vec<Spelled<'a>>,
) -> Result<(), AllocError>
    ensures { OnOk result (kinds out.new.items ≡ kinds out.old.items ++ method_body_tokens first body.now) }
{
    match body {
        None => write_punct(Punct::Semicolon, out),
        Some(body) => write_body(first, body, out),
    }
}

/// Writes a method of a trait.
fn write_method<'a>(method: &'a Method, out: &mut Vec<Spelled<'a>>) -> Result<(), AllocError>
    ensures { OnOk result (kinds out.new.items ≡ kinds out.old.items ++ method_tokens method.now) }
{
    write_flag(method.is_inline, Word::Inline, out)?;
    write_word(Word::Fn, out)?;
    write_name(&method.name, out)?;
    write_params(method.type_params.as_slice(), out)?;
    write_signature(&method.signature, out)?;
    write_bounds(method.bounds.as_slice(), out)?;
    let first = first_local(method.signature.params.as_slice());
    write_method_body(first, &method.body, out)
}

/// Writes the methods of a trait.
fn write_methods<'a>(methods: &'a [Method], out: &mut Vec<Spelled<'a>>) -> Result<(), AllocError>
    ensures { OnOk result (kinds out.new.items ≡ kinds out.old.items ++ flat_map method_tokens methods.now) }
{
    for method in methods {
        write_method(method, out)?;
    }
    Ok(())
}

/// Writes a trait.
pub(crate) fn write_trait<'a>(item: &'a Trait, out: &mut Vec<Spelled<'a>>) -> Result<(), AllocError>
    ensures { OnOk result (kinds out.new.items ≡ kinds out.old.items ++ trait_tokens item.now) }
{
    write_word(Word::Trait, out)?;
    write_name(&item.name, out)?;
    write_params(item.type_params.as_slice(), out)?;
    write_punct(Punct::OpenBrace, out)?;
    write_methods(item.methods.as_slice(), out)?;
    write_punct(Punct::CloseBrace, out)
}
