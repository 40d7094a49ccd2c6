//! What is mentioned by definitions, and by all items of a crate.
ghost use Rattle.std.specs.List.{flat_map};
ghost use Rattle.std.specs.Prelude.{◌≡◌, ◌++◌, IfOk, OnOk};
ghost use Rattle.mm_mentions.specs.ItemMentions.{definition_in, definition_mentions, form_mentions, item_mentions, items_mentions, mentions_in, params_of, valued_mentions};
ghost use Rattle.mm_mentions.specs.Seen.{names_of, seen};
ghost use Rattle.mm_mentions.specs.TypeMentions.{written_types};

use crate::functions::{mention_closure, mention_function, mention_methods};
use crate::impls::mention_impl;
use crate::mention::Mention;
use crate::scope::{NameSet, Scope, param_names};
use crate::terms::mention_term;
use crate::types::{mention_type, mention_types};
use mm_ast::{Crate, DefinitionForm, Item, ItemForm, Name, Term, Type, Variant};
use mm_terms::NoMemory;
use sqlite_items::Items;
use std::alloc::Global;

/// The type parameters of a definition.
#[tactic(auto, unfolding(crate::specs::ItemMentions::params_of))]
fn params_of(form: &DefinitionForm) -> &[Name]
    ensures { result.now ≡ params_of form.now }
{
    match form {
        DefinitionForm::Function(f) => f.type_params.as_slice(),
        DefinitionForm::Closure(c) => c.type_params.as_slice(),
        DefinitionForm::Struct(s) => s.type_params.as_slice(),
        DefinitionForm::Enum(e) => e.type_params.as_slice(),
        DefinitionForm::Trait(t) => t.type_params.as_slice(),
        DefinitionForm::Static(_) => &[],
        DefinitionForm::Const(c) => c.type_params.as_slice(),
    }
}

/// Adds the types of the fields of variants.
fn mention_variants(
    alloc: Global,
    scope: &Scope<'_>,
    variants: &[Variant],
    out: &mut Vec<Mention>,
) -> Result<(), NoMemory>
    ensures { OnOk result (out.new.items ≡ out.old.items ++ flat_map (λ v. written_types (seen scope.now) v.fields) variants.now) }
{
    for variant in variants {
        mention_types(alloc, scope, variant.fields.as_slice(), out)?;
    }
    Ok(())
}

/// Adds the type and the term of a static or a constant.
fn mention_valued(
    alloc: Global,
    scope: &Scope<'_>,
    ty: &Type,
    term: &Term,
    out: &mut Vec<Mention>,
) -> Result<(), NoMemory>
    ensures { OnOk result (out.new.items ≡ out.old.items ++ valued_mentions (seen scope.now) ty.now term.now) }
{
    mention_type(alloc, scope, ty, out)?;
    mention_term(alloc, scope, term, out)
}

/// Adds a definition with these type parameters.
#[tactic(auto, unfolding(crate::specs::ItemMentions::definition_in, crate::specs::Seen::seen))]
fn mention_definition_in(
    alloc: Global,
    own: &NameSet<'_>,
    form: &DefinitionForm,
    out: &mut Vec<Mention>,
) -> Result<(), NoMemory>
    ensures { OnOk result (out.new.items ≡ out.old.items ++ definition_in (names_of own.now) form.now) }
{
    let scope = Scope {
        outer: None,
        own,
        has_self: false,
    };
    match form {
        DefinitionForm::Function(f) => mention_function(alloc, &scope, f, out),
        DefinitionForm::Closure(c) => mention_closure(alloc, &scope, c, out),
        DefinitionForm::Struct(s) => mention_types(alloc, &scope, s.fields.as_slice(), out),
        DefinitionForm::Enum(e) => mention_variants(alloc, &scope, e.variants.as_slice(), out),
        DefinitionForm::Trait(t) => mention_methods(alloc, own, t.methods.as_slice(), out),
        DefinitionForm::Static(s) => mention_valued(alloc, &scope, &s.ty, &s.term, out),
        DefinitionForm::Const(c) => mention_valued(alloc, &scope, &c.ty, &c.term, out),
    }
}

/// Adds a definition.
fn mention_definition(
    alloc: Global,
    form: &DefinitionForm,
    out: &mut Vec<Mention>,
) -> Result<(), NoMemory>
    ensures { OnOk result (out.new.items ≡ out.old.items ++ definition_mentions form.now) }
{
    let own = param_names(alloc, params_of(form))?;
    mention_definition_in(alloc, &own, form, out)
}

/// Adds an item without the items in it.
#[tactic(auto, unfolding(crate::specs::ItemMentions::form_mentions))]
fn mention_form(
    alloc: Global,
    krate: &[u8],
    line: u32,
    form: &ItemForm,
    out: &mut Vec<Mention>,
) -> Result<(), NoMemory>
    ensures { OnOk result (out.new.items ≡ out.old.items ++ form_mentions krate.now line form.now) }
{
    match form {
        ItemForm::Module(_) => Ok(()),
        ItemForm::Impl(item) => mention_impl(alloc, krate, line, item.get(), out),
        ItemForm::Definition(definition) => {
            mention_definition(alloc, &definition.get().form, out)
        }
    }
}

/// Adds an item, and the items in it.
#[cycle(items)]
fn mention_item(
    alloc: Global,
    krate: &[u8],
    item: &Item,
    out: &mut Vec<Mention>,
) -> Result<(), NoMemory>
    ensures { OnOk result (out.new.items ≡ out.old.items ++ item_mentions krate.now item.now) }
{
    mention_form(alloc, krate, item.line, &item.form, out)?;
    mention_items(alloc, krate, item.items.as_slice(), out)
}

/// Adds items.
#[cycle(items)]
fn mention_items(
    alloc: Global,
    krate: &[u8],
    items: &[Item],
    out: &mut Vec<Mention>,
) -> Result<(), NoMemory>
    ensures { OnOk result (out.new.items ≡ out.old.items ++ items_mentions krate.now items.now) }
{
    for item in items {
        mention_item(alloc, krate, item, out)?;
    }
    Ok(())
}

/// What a crate mentions.
///
/// # Errors
///
/// Out of memory. That is also the answer where a type has 2^64 constructors or a closure so many parameters; no memory
/// holds so many.
#[tactic(auto, unfolding(crate::specs::ItemMentions::mentions_in))]
pub fn mentions(alloc: Global, krate: &Crate) -> Result<Items<Mention>, NoMemory>
    ensures { IfOk result (λ mentions. mentions ≡ mentions_in krate.now) }
{
    let mut mentions = Vec::new(alloc);
    mention_items(
        alloc,
        krate.name.text.as_slice(),
        krate.items.as_slice(),
        &mut mentions,
    )?;
    Ok(Items::from_vec(mentions))
}
