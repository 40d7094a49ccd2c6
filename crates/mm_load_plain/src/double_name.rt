//! Names that stand twice.
ghost use Rattle.std.specs.Prelude.{◌≡◌, [], ◌∷◌, ◌++◌, map, OnOk};
ghost use Rattle.mm_load_plain.specs.Asking.{Reports};
ghost use Rattle.mm_load_plain.specs.Rules.{again, repeated, repeated_in, member_of, double_in_items};
ghost use Rattle.mm_load_plain.specs.WrittenItem.{name_of};
ghost use Rattle.mm_load_plain.specs.declared.rule.Rule.TheVariants.{DoubleName};

use crate::item_names::{name_line, name_text};
use crate::load_error::{LoadError, fault_if};
use crate::rule::Rule;
use indexmap::IndexSet;
use mm_ast as ast;
use std::alloc::Global;

/// Adds a name to those that were seen.
fn check_name<'a>(seen: &mut IndexSet<&'a [u8]>, name: &'a [u8], line: u32) -> Result<(), LoadError>
    ensures answer { Reports DoubleName (again (map (λ k. k.now) seen.old.keys) name.now line) result }
    ensures seen { OnOk result (map (λ k. k.now) seen.new.keys ≡ map (λ k. k.now) seen.old.keys ++ name.now ∷ []) }
{
    let (_, is_new) = seen.insert_full(name)?;
    fault_if(!is_new, Rule::DoubleName, line)
}

/// Adds the name of an item to those that were seen.
fn check_item_name<'a>(seen: &mut IndexSet<&'a [u8]>, item: &'a ast::Item) -> Result<(), LoadError>
    ensures answer { Reports DoubleName (again (map (λ k. k.now) seen.old.keys) (name_of item.now).text (name_of item.now).line) result }
    ensures seen { OnOk result (map (λ k. k.now) seen.new.keys ≡ map (λ k. k.now) seen.old.keys ++ (name_of item.now).text ∷ []) }
{
    check_name(seen, name_text(&item.form), name_line(&item.form))
}

/// Asks whether these names differ.
fn check_names(alloc: Global, names: &[ast::Name]) -> Result<(), LoadError>
    ensures { Reports DoubleName (repeated names.now) result }
{
    let mut seen = IndexSet::new(alloc);
    for name in names {
        check_name(&mut seen, name.text.as_slice(), name.line)?;
    }
    Ok(())
}

/// Asks whether the type parameters of a function differ.
#[tactic(auto, unfolding(crate::specs::Rules::repeated_in))]
fn check_form(alloc: Global, form: &ast::ItemForm) -> Result<(), LoadError>
    ensures { Reports DoubleName (repeated_in form.now) result }
{
    let ast::ItemForm::Definition(definition) = form else {
        return Ok(());
    };
    let ast::DefinitionForm::Function(function) = &definition.get().form else {
        return Ok(());
    };
    check_names(alloc, function.type_params.as_slice())
}

/// Asks whether the names inside an item differ: those of the type parameters of a function, and those of the items of
/// a module, and of each module in it.
fn check_inside(alloc: Global, item: &ast::Item) -> Result<(), LoadError>
    ensures { Reports DoubleName (member_of item.now).inside result }
{
    check_form(alloc, &item.form)?;
    let mut seen = IndexSet::new(alloc);
    for inner in item.items.as_slice() {
        check_item_name(&mut seen, inner)?;
        check_inside(alloc, inner)?;
    }
    Ok(())
}

/// Asks whether the names of the items of each module differ, and those of the type parameters of each function.
pub fn check(alloc: Global, items: &[ast::Item]) -> Result<(), LoadError>
    ensures { Reports DoubleName (double_in_items items.now) result }
{
    let mut seen = IndexSet::new(alloc);
    for item in items {
        check_item_name(&mut seen, item)?;
        check_inside(alloc, item)?;
    }
    Ok(())
}
