ghost use Rattle.std.specs.Prelude.{◌≡◌, ◌+◌, ◌^◌, ◌<◌, OnOk, [], ◌∷◌, ◌++◌, length, map, flat_map};
ghost use Rattle.mm_spell.specs.Listed.{kinds, behind_comma, listed, in_parens};
ghost use Rattle.mm_spell.specs.TypeTokens.{types_tokens};
ghost use Rattle.mm_print.specs.ItemTokens.{flag_tokens, result_tokens, signature_tokens, bound_form_tokens, bound_tokens, bounds_tokens, function_tokens, captures_tokens, closure_tokens};

use mm_ast::{Bound, BoundForm, Closure, Function, Signature, Type};
use mm_lex::Punct;
use mm_names::Word;
use mm_spell::Spelled;
use mm_spell::names::{write_name, write_punct, write_word};
use mm_spell::types::{write_params, write_path_args, write_type, write_types};
use mm_spell_bodies::write_body;
use std::alloc::AllocError;

/// Writes a word, where it is written.
pub(crate) fn write_flag<'a>(
    flag: bool,
    word: Word,
    out: &mut Vec<Spelled<'a>>,
) -> Result<(), AllocError>
    ensures { OnOk result (kinds out.new.items ≡ kinds out.old.items ++ flag_tokens flag word) }
{
    if flag {
        write_word(word, out)?;
    }
    Ok(())
}

/// Writes types in parentheses.
pub(crate) fn write_fields<'a>(
    types: &'a [Type],
    out: &mut Vec<Spelled<'a>>,
) -> Result<(), AllocError>
    ensures { OnOk result (kinds out.new.items ≡ kinds out.old.items ++ in_parens (types_tokens types.now)) }
{
    write_punct(Punct::Open, out)?;
    write_types(types, out)?;
    write_punct(Punct::Close, out)
}

/// Writes the type of a result behind `->`, where there is one.
fn write_result<'a>(ty: &'a Option<Type>, out: &mut Vec<Spelled<'a>>) -> Result<(), AllocError>
    ensures { OnOk result (kinds out.new.items ≡ kinds out.old.items ++ result_tokens ty.now) }
{
    match ty {
        None => Ok(()),
        Some(ty) => {
            write_punct(Punct::Arrow, out)?;
            write_type(ty, out)
        }
    }
}

/// Writes a signature.
pub(crate) fn write_signature<'a>(
    signature: &'a Signature,
    out: &mut Vec<Spelled<'a>>,
) -> Result<(), AllocError>
    ensures { OnOk result (kinds out.new.items ≡ kinds out.old.items ++ signature_tokens signature.now) }
{
    write_fields(signature.params.as_slice(), out)?;
    write_result(&signature.result, out)
}

/// Writes what a bound asks of its type.
fn write_bound_form<'a>(form: &'a BoundForm, out: &mut Vec<Spelled<'a>>) -> Result<(), AllocError>
    ensures { OnOk result (kinds out.new.items ≡ kinds out.old.items ++ bound_form_tokens form.now) }
{
    match form {
        BoundForm::Call => write_word(Word::CallTrait, out),
        BoundForm::Trait(path) => write_path_args(path, out),
    }
}

/// Writes a bound.
fn write_bound<'a>(bound: &'a Bound, out: &mut Vec<Spelled<'a>>) -> Result<(), AllocError>
    ensures { OnOk result (kinds out.new.items ≡ kinds out.old.items ++ bound_tokens bound.now) }
{
    write_type(&bound.ty, out)?;
    write_punct(Punct::Colon, out)?;
    write_bound_form(&bound.form, out)
}

/// Writes bounds, each behind a comma.
fn write_more_bounds<'a>(bounds: &'a [Bound], out: &mut Vec<Spelled<'a>>) -> Result<(), AllocError>
    ensures { OnOk result (kinds out.new.items ≡ kinds out.old.items ++ flat_map behind_comma (map bound_tokens bounds.now)) }
{
    for bound in bounds {
        write_punct(Punct::Comma, out)?;
        write_bound(bound, out)?;
    }
    Ok(())
}

/// Writes bounds behind `where`; of none nothing is written.
pub(crate) fn write_bounds<'a>(
    bounds: &'a [Bound],
    out: &mut Vec<Spelled<'a>>,
) -> Result<(), AllocError>
    ensures { OnOk result (kinds out.new.items ≡ kinds out.old.items ++ bounds_tokens bounds.now) }
{
    let Some((first, others)) = bounds.split_first() else {
        return Ok(());
    };
    write_word(Word::Where, out)?;
    write_bound(first, out)?;
    write_more_bounds(others, out)
}

/// The number of the first local behind parameters, where the result has 0.
pub(crate) fn first_local(params: &[Type]) -> u64
    ensures is { result ≡ 1 + length params.now }
    ensures small { result < 2 ^ 63 + 1 }
{
    1 + params.len() as u64
}

/// Writes a function.
pub(crate) fn write_function<'a>(
    function: &'a Function,
    out: &mut Vec<Spelled<'a>>,
) -> Result<(), AllocError>
    ensures { OnOk result (kinds out.new.items ≡ kinds out.old.items ++ function_tokens function.now) }
{
    write_flag(function.is_inline, Word::Inline, out)?;
    write_word(Word::Fn, out)?;
    write_name(&function.name, out)?;
    write_params(function.type_params.as_slice(), out)?;
    write_signature(&function.signature, out)?;
    write_bounds(function.bounds.as_slice(), out)?;
    let first = first_local(function.signature.params.as_slice());
    write_body(first, &function.body, out)
}

/// Writes the types of captures in brackets.
fn write_captures<'a>(types: &'a [Type], out: &mut Vec<Spelled<'a>>) -> Result<(), AllocError>
    ensures { OnOk result (kinds out.new.items ≡ kinds out.old.items ++ captures_tokens types.now) }
{
    write_punct(Punct::OpenBracket, out)?;
    write_types(types, out)?;
    write_punct(Punct::CloseBracket, out)
}

/// Writes a closure, which is its own first parameter.
pub(crate) fn write_closure<'a>(
    closure: &'a Closure,
    out: &mut Vec<Spelled<'a>>,
) -> Result<(), AllocError>
    ensures { OnOk result (kinds out.new.items ≡ kinds out.old.items ++ closure_tokens closure.now) }
{
    write_word(Word::Closure, out)?;
    write_name(&closure.name, out)?;
    write_params(closure.type_params.as_slice(), out)?;
    write_captures(closure.captures.as_slice(), out)?;
    write_signature(&closure.signature, out)?;
    let first = 1 + first_local(closure.signature.params.as_slice());
    write_body(first, &closure.body, out)
}
