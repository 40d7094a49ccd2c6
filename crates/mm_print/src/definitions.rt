ghost use Rattle.std.specs.Prelude.{◌≡◌, OnOk, [], ◌∷◌, ◌++◌, map, flat_map};
ghost use Rattle.mm_spell.specs.Listed.{kinds, behind_comma, listed};
ghost use Rattle.mm_print.specs.ItemTokens.{struct_tokens, variant_tokens, enum_tokens, typed_tokens, static_tokens, const_tokens};

use crate::functions::write_fields;
use mm_ast::{Const, Enum, Static, Struct, Term, Type, Variant};
use mm_lex::Punct;
use mm_names::Word;
use mm_spell::Spelled;
use mm_spell::names::{write_name, write_punct, write_word};
use mm_spell::types::{write_params, write_type};
use mm_spell_bodies::write_term;
use std::alloc::AllocError;

/// Writes a struct.
pub(crate) fn write_struct<'a>(
    item: &'a Struct,
    out: &mut Vec<Spelled<'a>>,
) -> Result<(), AllocError>
    ensures { OnOk result (kinds out.new.items ≡ kinds out.old.items ++ struct_tokens item.now) }
{
    write_word(Word::Struct, out)?;
    write_name(&item.name, out)?;
    write_params(item.type_params.as_slice(), out)?;
    write_fields(item.fields.as_slice(), out)?;
    write_punct(Punct::Semicolon, out)
}

/// Writes a variant.
fn write_variant<'a>(variant: &'a Variant, out: &mut Vec<Spelled<'a>>) -> Result<(), AllocError>
    ensures { OnOk result (kinds out.new.items ≡ kinds out.old.items ++ variant_tokens variant.now) }
{
    write_name(&variant.name, out)?;
    write_fields(variant.fields.as_slice(), out)
}

/// Writes variants, each behind a comma.
fn write_more_variants<'a>(
    variants: &'a [Variant],
    out: &mut Vec<Spelled<'a>>,
) -> Result<(), AllocError>
    ensures { OnOk result (kinds out.new.items ≡ kinds out.old.items ++ flat_map behind_comma (map variant_tokens variants.now)) }
{
    for variant in variants {
        write_punct(Punct::Comma, out)?;
        write_variant(variant, out)?;
    }
    Ok(())
}

/// Writes variants with commas between them.
fn write_variants<'a>(variants: &'a [Variant], out: &mut Vec<Spelled<'a>>) -> Result<(), AllocError>
    ensures { OnOk result (kinds out.new.items ≡ kinds out.old.items ++ listed (map variant_tokens variants.now)) }
{
    let Some((first, others)) = variants.split_first() else {
        return Ok(());
    };
    write_variant(first, out)?;
    write_more_variants(others, out)
}

/// Writes an enum.
pub(crate) fn write_enum<'a>(item: &'a Enum, out: &mut Vec<Spelled<'a>>) -> Result<(), AllocError>
    ensures { OnOk result (kinds out.new.items ≡ kinds out.old.items ++ enum_tokens item.now) }
{
    write_word(Word::Enum, out)?;
    write_name(&item.name, out)?;
    write_params(item.type_params.as_slice(), out)?;
    write_punct(Punct::OpenBrace, out)?;
    write_variants(item.variants.as_slice(), out)?;
    write_punct(Punct::CloseBrace, out)
}

/// Writes a type behind `:`, and a term behind `=`.
fn write_typed<'a>(
    ty: &'a Type,
    term: &'a Term,
    out: &mut Vec<Spelled<'a>>,
) -> Result<(), AllocError>
    ensures { OnOk result (kinds out.new.items ≡ kinds out.old.items ++ typed_tokens ty.now term.now) }
{
    write_punct(Punct::Colon, out)?;
    write_type(ty, out)?;
    write_punct(Punct::Equals, out)?;
    write_term(term, out)?;
    write_punct(Punct::Semicolon, out)
}

/// Writes a static.
pub(crate) fn write_static<'a>(
    item: &'a Static,
    out: &mut Vec<Spelled<'a>>,
) -> Result<(), AllocError>
    ensures { OnOk result (kinds out.new.items ≡ kinds out.old.items ++ static_tokens item.now) }
{
    write_word(Word::Static, out)?;
    write_name(&item.name, out)?;
    write_typed(&item.ty, &item.term, out)
}

/// Writes a constant.
pub(crate) fn write_const<'a>(item: &'a Const, out: &mut Vec<Spelled<'a>>) -> Result<(), AllocError>
    ensures { OnOk result (kinds out.new.items ≡ kinds out.old.items ++ const_tokens item.now) }
{
    write_word(Word::Const, out)?;
    write_name(&item.name, out)?;
    write_params(item.type_params.as_slice(), out)?;
    write_typed(&item.ty, &item.term, out)
}
