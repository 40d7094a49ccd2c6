ghost use Rattle.std.specs.Prelude.{◌≡◌, OnOk, [], ◌∷◌, ◌++◌, map, flat_map};
ghost use Rattle.mm_spell.specs.Listed.{kinds, in_parens};
ghost use Rattle.mm_spell.specs.TypeTokens.{type_tokens};
ghost use Rattle.mm_print.specs.ItemTokens.{target_tokens, drop_method_tokens, drop_impl_tokens, impl_method_tokens, trait_impl_tokens, impl_form_tokens, impl_tokens};

use crate::functions::{write_bounds, write_flag, write_function};
use mm_ast::{Bound, DropImpl, Impl, ImplForm, ImplMethod, TraitImpl, Type};
use mm_lex::Punct;
use mm_names::Word;
use mm_spell::Spelled;
use mm_spell::names::{write_punct, write_word};
use mm_spell::types::{write_params, write_path_args, write_type};
use mm_spell_bodies::write_body;
use std::alloc::AllocError;

/// Writes a type behind `for`, its bounds, and `{`.
fn write_target<'a>(
    target: &'a Type,
    bounds: &'a [Bound],
    out: &mut Vec<Spelled<'a>>,
) -> Result<(), AllocError>
    ensures { OnOk result (kinds out.new.items ≡ kinds out.old.items ++ target_tokens target.now bounds.now) }
{
    write_word(Word::For, out)?;
    write_type(target, out)?;
    write_bounds(bounds, out)?;
    write_punct(Punct::OpenBrace, out)
}

/// Writes the parameter of `drop`, in parentheses.
fn write_param<'a>(ty: &'a Type, out: &mut Vec<Spelled<'a>>) -> Result<(), AllocError>
    ensures { OnOk result (kinds out.new.items ≡ kinds out.old.items ++ in_parens (type_tokens ty.now)) }
{
    write_punct(Punct::Open, out)?;
    write_type(ty, out)?;
    write_punct(Punct::Close, out)
}

/// Writes the method of `impl Drop`.
fn write_drop_method<'a>(item: &'a DropImpl, out: &mut Vec<Spelled<'a>>) -> Result<(), AllocError>
    ensures { OnOk result (kinds out.new.items ≡ kinds out.old.items ++ drop_method_tokens item.now) }
{
    write_flag(item.is_inline, Word::Inline, out)?;
    write_word(Word::Fn, out)?;
    write_word(Word::Drop, out)?;
    write_param(&item.param, out)?;
    write_body(2, &item.body, out)
}

/// Writes what stands behind `impl` of `impl Drop`.
fn write_drop_impl<'a>(item: &'a DropImpl, out: &mut Vec<Spelled<'a>>) -> Result<(), AllocError>
    ensures { OnOk result (kinds out.new.items ≡ kinds out.old.items ++ drop_impl_tokens item.now) }
{
    write_word(Word::DropTrait, out)?;
    write_target(&item.target, item.bounds.as_slice(), out)?;
    write_drop_method(item, out)?;
    write_punct(Punct::CloseBrace, out)
}

/// Writes the methods of an impl.
fn write_impl_methods<'a>(
    methods: &'a [ImplMethod],
    out: &mut Vec<Spelled<'a>>,
) -> Result<(), AllocError>
    ensures { OnOk result (kinds out.new.items ≡ kinds out.old.items ++ flat_map impl_method_tokens methods.now) }
{
    for method in methods {
        write_function(&method.function, out)?;
    }
    Ok(())
}

/// Writes what stands behind `impl` of an impl of a trait.
fn write_trait_impl<'a>(item: &'a TraitImpl, out: &mut Vec<Spelled<'a>>) -> Result<(), AllocError>
    ensures { OnOk result (kinds out.new.items ≡ kinds out.old.items ++ trait_impl_tokens item.now) }
{
    write_path_args(&item.of, out)?;
    write_target(&item.target, item.bounds.as_slice(), out)?;
    write_impl_methods(item.methods.as_slice(), out)?;
    write_punct(Punct::CloseBrace, out)
}

/// Writes what an impl gives.
fn write_impl_form<'a>(form: &'a ImplForm, out: &mut Vec<Spelled<'a>>) -> Result<(), AllocError>
    ensures { OnOk result (kinds out.new.items ≡ kinds out.old.items ++ impl_form_tokens form.now) }
{
    match form {
        ImplForm::Drop(item) => write_drop_impl(item, out),
        ImplForm::Trait(item) => write_trait_impl(item, out),
    }
}

/// Writes an impl.
pub(crate) fn write_impl<'a>(item: &'a Impl, out: &mut Vec<Spelled<'a>>) -> Result<(), AllocError>
    ensures { OnOk result (kinds out.new.items ≡ kinds out.old.items ++ impl_tokens item.now) }
{
    write_word(Word::Impl, out)?;
    write_params(item.type_params.as_slice(), out)?;
    write_impl_form(&item.form, out)
}
