//! What a crate defines that something else can name, and the numbers of its definitions.
ghost use Rattle.std.specs.Prelude.{◌≡◌, ◌+◌, IfOk, OnOk};
ghost use Rattle.mm_definitions.specs.Definitions.{definitions_in};
ghost use Rattle.mm_definitions.specs.Numbering.{added};
ghost use Rattle.mm_definitions.specs.Placed.{alone, count_in, item_placed, items_placed};

use crate::form_names::add_form;
use crate::numbered::Numbered;
use crate::paths::path_in;
use crate::sizes::size;
use mm_ast::{Crate, Item, ItemForm};
use mm_terms::NoMemory;
use sqlite_items::Items;
use std::alloc::Global;

/// Adds an item that is no module, of the module with this path.
fn add_alone(
    alloc: Global,
    prefix: &[u8],
    form: &ItemForm,
    out: &mut Numbered,
) -> Result<(), NoMemory>
    ensures { OnOk result (out.new ≡ added out.old (alone prefix.now form.now)) }
{
    add_form(alloc, out.next, prefix, form, &mut out.named)?;
    let size = size(form)?;
    out.next = out.next.checked_add(size).ok_or(NoMemory)?;
    Ok(())
}

/// Adds the items of the module with this path.
#[cycle(items)]
fn add_items(
    alloc: Global,
    prefix: &[u8],
    items: &[Item],
    out: &mut Numbered,
) -> Result<(), NoMemory>
    ensures { OnOk result (out.new ≡ added out.old (items_placed prefix.now items.now)) }
{
    for item in items {
        add_item(alloc, prefix, item, out)?;
    }
    Ok(())
}

/// Adds an item of the module with this path.
#[cycle(items)]
#[tactic(auto, using(crate::proofs::DefinitionLemmas::module_placed, crate::proofs::DefinitionLemmas::impl_placed, crate::proofs::DefinitionLemmas::definition_placed))]
fn add_item(alloc: Global, prefix: &[u8], item: &Item, out: &mut Numbered) -> Result<(), NoMemory>
    ensures { OnOk result (out.new ≡ added out.old (item_placed item.now prefix.now)) }
{
    match &item.form {
        ItemForm::Module(name) => {
            let path = path_in(alloc, prefix, name.text.as_slice())?;
            add_items(alloc, path.as_slice(), item.items.as_slice(), out)
        }
        ItemForm::Impl(_) | ItemForm::Definition(_) => add_alone(alloc, prefix, &item.form, out),
    }
}

/// What a crate defines that something else can name, in the order of its first tokens, if its first definition has this
/// number; and the number of the first definition of the next crate. A number of 2^32 or more gives `NoMemory`, and no
/// text within the limit brings it about.
#[tactic(auto, unfolding(crate::specs::Definitions::definitions_in, crate::specs::Placed::placed_in, crate::specs::Placed::count_in))]
pub fn definitions(alloc: Global, first: u32, krate: &Crate) -> Result<Numbered, NoMemory>
    ensures named { IfOk result (λ found. found.named ≡ definitions_in first krate.now) }
    ensures next { IfOk result (λ found. found.next ≡ first + count_in krate.now) }
{
    let mut found = Numbered {
        named: Items::new(alloc),
        next: first,
    };
    add_items(
        alloc,
        krate.name.text.as_slice(),
        krate.items.as_slice(),
        &mut found,
    )?;
    Ok(found)
}
