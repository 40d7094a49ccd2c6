//! The names of the items of one module.
ghost use Rattle.std.specs.Prelude.{◌≡◌, [], ◌∷◌, ◌++◌, ℕ, List, OnOk};
ghost use Rattle.std.specs.List.{filter_map};
ghost use Rattle.std.specs.Option.{option_map};
ghost use Rattle.mm_resolve.specs.Doubles.{definition_name, item_name, repeated, texts_of, Holds};

use crate::names_seen::{Seen, add_again};
use indexmap::IndexSet;
use mm_ast as ast;
use mm_terms::NoMemory;
use sqlite_items::Items;
use std::alloc::Global;

/// The name of what is defined.
#[tactic(auto, unfolding(crate::specs::Doubles::definition_name))]
fn definition_name(form: &ast::DefinitionForm) -> &ast::Name
    ensures { result.now ≡ definition_name form.now }
{
    match form {
        ast::DefinitionForm::Function(item) => &item.name,
        ast::DefinitionForm::Closure(item) => &item.name,
        ast::DefinitionForm::Struct(item) => &item.name,
        ast::DefinitionForm::Enum(item) => &item.name,
        ast::DefinitionForm::Trait(item) => &item.name,
        ast::DefinitionForm::Static(item) => &item.name,
        ast::DefinitionForm::Const(item) => &item.name,
    }
}

/// The name of an item; an impl has none.
#[tactic(auto, unfolding(crate::specs::Doubles::form_name))]
fn item_name(item: &ast::Item) -> Option<&ast::Name>
    ensures { option_map (λ n. n.now) result ≡ item_name item.now }
{
    match &item.form {
        ast::ItemForm::Module(name) => Some(name),
        ast::ItemForm::Impl(_) => None,
        ast::ItemForm::Definition(definition) => Some(definition_name(&definition.get().form)),
    }
}

/// Adds the line of the name of an item, where it was seen. It is seen from now on.
fn add_item_name<'a>(
    outside: &Seen<'a>,
    seen: &mut Seen<'a>,
    item: &'a ast::Item,
    lines: &mut Items<u32>,
) -> Result<(), NoMemory>
    ensures lines { OnOk result ((among : List (List ℕ)) → Holds outside.now [] → Holds seen.old among → lines.new ≡ lines.old ++ repeated among (filter_map item_name (item.now ∷ []))) }
    ensures seen { OnOk result ((among : List (List ℕ)) → Holds seen.old among → Holds seen.new (among ++ texts_of (filter_map item_name (item.now ∷ [])))) }
{
    if let Some(name) = item_name(item) {
        add_again(outside, seen, name, lines)?;
    }
    Ok(())
}

/// Adds the lines of the names of items that stand before already in their list.
pub fn add_item_names(
    alloc: Global,
    items: &[ast::Item],
    lines: &mut Items<u32>,
) -> Result<(), NoMemory>
    ensures { OnOk result (lines.new ≡ lines.old ++ repeated [] (filter_map item_name items.now)) }
{
    let outside = IndexSet::new(alloc);
    let mut seen = IndexSet::new(alloc);
    for item in items {
        add_item_name(&outside, &mut seen, item, lines)?;
    }
    Ok(())
}
