//! Names that have to differ. Rust Reference: the names of one namespace differ in each scope.
ghost use Rattle.std.specs.Prelude.{◌≡◌, [], ◌++◌, ℕ, List, map, IfOk, OnOk};
ghost use Rattle.std.specs.List.{flat_map};
ghost use Rattle.mm_resolve.specs.Doubles.{repeated, Holds, texts_of, double_methods, double_in_definition, double_in_impl, double_here, member_of, double_in_items, doubled};

use crate::has_name::{HasName, HasParams};
use crate::item_names::add_item_names;
use crate::names_seen::{Seen, add_doubles, add_repeated};
use indexmap::IndexSet;
use mm_ast as ast;
use mm_terms::NoMemory;
use sqlite_items::Items;
use std::alloc::Global;

/// Adds the lines of the type parameters of a method that are among those outside, or stand before in their list.
fn add_inner<'a>(
    alloc: Global,
    outside: &Seen<'a>,
    params: &'a [ast::Name],
    lines: &mut Items<u32>,
) -> Result<(), NoMemory>
    ensures { OnOk result ((before : List (List ℕ)) → Holds outside.now before → lines.new ≡ lines.old ++ repeated before params.now) }
{
    let mut seen = IndexSet::new(alloc);
    add_repeated(outside, &mut seen, params, lines)?;
    Ok(())
}

/// Adds the lines of the type parameters of each method that are among those outside, or stand before in their list.
fn add_each_inner<'a, T: HasParams>(
    alloc: Global,
    outside: &Seen<'a>,
    methods: &'a [T],
    lines: &mut Items<u32>,
) -> Result<(), NoMemory>
    ensures { OnOk result ((before : List (List ℕ)) → Holds outside.now before → lines.new ≡ lines.old ++ flat_map (repeated before) (map T.params methods.now)) }
{
    for method in methods {
        add_inner(alloc, outside, method.params(), lines)?;
    }
    Ok(())
}

/// Adds the lines of type parameters and of those of the methods in their scope, where one stands before already.
fn add_scopes<T: HasParams>(
    alloc: Global,
    params: &[ast::Name],
    methods: &[T],
    lines: &mut Items<u32>,
) -> Result<(), NoMemory>
    ensures { OnOk result (lines.new ≡ lines.old ++ (repeated [] params.now ++ flat_map (repeated (texts_of params.now)) (map T.params methods.now))) }
{
    let outside = IndexSet::new(alloc);
    let mut seen = IndexSet::new(alloc);
    add_repeated(&outside, &mut seen, params, lines)?;
    add_each_inner(alloc, &seen, methods, lines)?;
    Ok(())
}

/// Adds the lines of a trait or an impl.
#[tactic(auto, unfolding(crate::specs::Doubles::double_methods))]
fn add_methods<T: HasName + HasParams>(
    alloc: Global,
    params: &[ast::Name],
    methods: &[T],
    lines: &mut Items<u32>,
) -> Result<(), NoMemory>
    ensures { OnOk result (lines.new ≡ lines.old ++ double_methods params.now (map T.params methods.now) (map T.name methods.now)) }
{
    add_scopes(alloc, params, methods, lines)?;
    add_doubles(alloc, methods, lines)
}

/// Adds the lines of a definition.
#[tactic(auto, unfolding(crate::specs::Doubles::double_in_definition))]
fn add_in_definition(
    alloc: Global,
    form: &ast::DefinitionForm,
    lines: &mut Items<u32>,
) -> Result<(), NoMemory>
    ensures { OnOk result (lines.new ≡ lines.old ++ double_in_definition form.now) }
{
    match form {
        ast::DefinitionForm::Function(item) => add_doubles(
            alloc,
            item.type_params.as_slice(),
            lines,
        ),
        ast::DefinitionForm::Closure(item) => add_doubles(
            alloc,
            item.type_params.as_slice(),
            lines,
        ),
        ast::DefinitionForm::Struct(item) => add_doubles(alloc, item.type_params.as_slice(), lines),
        ast::DefinitionForm::Enum(item) => {
            add_doubles(alloc, item.type_params.as_slice(), lines)?;
            add_doubles(alloc, item.variants.as_slice(), lines)
        }
        ast::DefinitionForm::Trait(item) => add_methods(
            alloc,
            item.type_params.as_slice(),
            item.methods.as_slice(),
            lines,
        ),
        ast::DefinitionForm::Static(_) => Ok(()),
        ast::DefinitionForm::Const(item) => add_doubles(alloc, item.type_params.as_slice(), lines),
    }
}

/// Adds the lines of an impl with these type parameters.
#[tactic(auto, unfolding(crate::specs::Doubles::double_in_impl))]
fn add_in_impl(
    alloc: Global,
    params: &[ast::Name],
    form: &ast::ImplForm,
    lines: &mut Items<u32>,
) -> Result<(), NoMemory>
    ensures { OnOk result (lines.new ≡ lines.old ++ double_in_impl params.now form.now) }
{
    match form {
        ast::ImplForm::Drop(_) => add_doubles(alloc, params, lines),
        ast::ImplForm::Trait(given) => add_methods(alloc, params, given.methods.as_slice(), lines),
    }
}

/// Adds the lines of an item, without those of the items in it.
#[tactic(auto, unfolding(crate::specs::Doubles::double_here))]
fn add_here(alloc: Global, form: &ast::ItemForm, lines: &mut Items<u32>) -> Result<(), NoMemory>
    ensures { OnOk result (lines.new ≡ lines.old ++ double_here form.now) }
{
    match form {
        ast::ItemForm::Module(_) => Ok(()),
        ast::ItemForm::Impl(item) => {
            let item = item.get();
            add_in_impl(alloc, item.type_params.as_slice(), &item.form, lines)
        }
        ast::ItemForm::Definition(definition) => add_in_definition(
            alloc,
            &definition.get().form,
            lines,
        ),
    }
}

/// Adds the lines of what is inside an item.
fn add_inside(alloc: Global, item: &ast::Item, lines: &mut Items<u32>) -> Result<(), NoMemory>
    ensures { OnOk result (lines.new ≡ lines.old ++ (member_of item.now).inside) }
{
    add_here(alloc, &item.form, lines)?;
    add_item_names(alloc, item.items.as_slice(), lines)?;
    for inner in item.items.as_slice() {
        add_inside(alloc, inner, lines)?;
    }
    Ok(())
}

/// Adds the lines of the items of a crate.
fn add_in_items(alloc: Global, items: &[ast::Item], lines: &mut Items<u32>) -> Result<(), NoMemory>
    ensures { OnOk result (lines.new ≡ lines.old ++ double_in_items items.now) }
{
    add_item_names(alloc, items, lines)?;
    for item in items {
        add_inside(alloc, item, lines)?;
    }
    Ok(())
}

/// The lines of the names that have to differ from an earlier one and do not: among the crates, the definitions and modules
/// of one module, the type parameters in scope together, the variants of an enum, and the methods of a trait or an impl.
#[tactic(auto, unfolding(crate::specs::Doubles::doubled))]
pub fn doubled(alloc: Global, crates: &[ast::Crate]) -> Result<Items<u32>, NoMemory>
    ensures { IfOk result (λ lines. lines ≡ doubled crates.now) }
{
    let mut lines = Items::new(alloc);
    add_doubles(alloc, crates, &mut lines)?;
    for krate in crates {
        add_in_items(alloc, krate.items.as_slice(), &mut lines)?;
    }
    Ok(lines)
}
