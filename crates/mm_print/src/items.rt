ghost use Rattle.std.specs.Prelude.{◌≡◌, OnOk, [], ◌∷◌, ◌++◌, map, flat_map};
ghost use Rattle.mm_spell.specs.Listed.{kinds};
ghost use Rattle.mm_print.specs.ItemTokens.{definition_form_tokens, definition_tokens, module_tokens, item_tokens};

use crate::definitions::{write_const, write_enum, write_static, write_struct};
use crate::functions::{write_closure, write_flag, write_function};
use crate::impls::write_impl;
use crate::traits::write_trait;
use mm_ast::{Definition, DefinitionForm, Item, ItemForm, Name};
use mm_lex::Punct;
use mm_names::Word;
use mm_spell::Spelled;
use mm_spell::names::{write_name, write_punct, write_word};
use std::alloc::AllocError;

/// Writes what a definition defines.
fn write_definition_form<'a>(
    form: &'a DefinitionForm,
    out: &mut Vec<Spelled<'a>>,
) -> Result<(), AllocError>
    ensures { OnOk result (kinds out.new.items ≡ kinds out.old.items ++ definition_form_tokens form.now) }
{
    match form {
        DefinitionForm::Function(item) => write_function(item, out),
        DefinitionForm::Closure(item) => write_closure(item, out),
        DefinitionForm::Struct(item) => write_struct(item, out),
        DefinitionForm::Enum(item) => write_enum(item, out),
        DefinitionForm::Trait(item) => write_trait(item, out),
        DefinitionForm::Static(item) => write_static(item, out),
        DefinitionForm::Const(item) => write_const(item, out),
    }
}

/// Writes a definition.
fn write_definition<'a>(
    definition: &'a Definition,
    out: &mut Vec<Spelled<'a>>,
) -> Result<(), AllocError>
    ensures { OnOk result (kinds out.new.items ≡ kinds out.old.items ++ definition_tokens definition.now) }
{
    write_flag(definition.is_pub, Word::Pub, out)?;
    write_definition_form(&definition.form, out)
}

/// Writes the items of a module or a crate.
#[cycle(items)]
pub(crate) fn write_items<'a>(
    items: &'a [Item],
    out: &mut Vec<Spelled<'a>>,
) -> Result<(), AllocError>
    ensures { OnOk result (kinds out.new.items ≡ kinds out.old.items ++ flat_map item_tokens items.now) }
{
    for item in items {
        write_item(item, out)?;
    }
    Ok(())
}

/// Writes a module with these items.
#[cycle(items)]
fn write_module<'a>(
    name: &'a Name,
    items: &'a [Item],
    out: &mut Vec<Spelled<'a>>,
) -> Result<(), AllocError>
    ensures { OnOk result (kinds out.new.items ≡ kinds out.old.items ++ module_tokens name.now (flat_map item_tokens items.now)) }
{
    write_word(Word::Mod, out)?;
    write_name(name, out)?;
    write_punct(Punct::OpenBrace, out)?;
    write_items(items, out)?;
    write_punct(Punct::CloseBrace, out)
}

/// Writes an item.
#[cycle(items)]
fn write_item<'a>(item: &'a Item, out: &mut Vec<Spelled<'a>>) -> Result<(), AllocError>
    ensures { OnOk result (kinds out.new.items ≡ kinds out.old.items ++ item_tokens item.now) }
{
    match &item.form {
        ItemForm::Module(name) => write_module(name, item.items.as_slice(), out),
        ItemForm::Impl(form) => write_impl(form.get(), out),
        ItemForm::Definition(definition) => write_definition(definition.get(), out),
    }
}
