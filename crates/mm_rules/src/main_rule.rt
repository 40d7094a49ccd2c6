//! The function with which a run begins.
ghost use Rattle.std.specs.Prelude.{◌≡◌, ◌++◌, ◌&&◌, Bool, false, not, IfOk, OnOk};
ghost use Rattle.std.specs.Option.{option_map_or};
ghost use Rattle.mm_ast.specs.declared.items.Function.{Function};
ghost use Rattle.std.specs.List.{list_any, flat_map};
ghost use Rattle.mm_ast.specs.declared.items.Item.TheViews.{out-Item};
ghost use Rattle.mm_resolve.specs.Doubles.{line_if};
ghost use Rattle.mm_rules.specs.MainRule.{is_entry, is_called_main, is_function, is_main, bad_entry, bad_main_in, bad_main};

use mm_ast as ast;
use mm_terms::NoMemory;
use sqlite_items::Items;
use std::alloc::Global;

/// Whether a run can begin with a function.
fn is_entry(function: &ast::Function) -> bool
    ensures { result ≡ is_entry function.now }
{
    function.type_params.is_empty() && function.signature.params.is_empty() && !function.is_inline
}

fn is_called_main(function: &ast::Function) -> bool
    ensures { result ≡ is_called_main function.now }
{
    function.name.text.as_slice() == b"main".as_slice()
}

/// The function that an item is, where it is one.
fn function_of(form: &ast::ItemForm) -> Option<&ast::Function>
    ensures { (test : Function → Bool) → option_map_or (λ f. test f.now) result false ≡ is_function test form.now }
{
    let ast::ItemForm::Definition(definition) = form else {
        return None;
    };
    match &definition.get().form {
        ast::DefinitionForm::Function(function) => Some(function),
        _ => None,
    }
}

fn is_main(item: &ast::Item) -> bool
    ensures { result ≡ is_main item.now }
{
    match function_of(&item.form) {
        Some(function) => is_called_main(function),
        None => false,
    }
}

/// Whether it is a function `main` with which no run can begin.
fn is_bad_main(item: &ast::Item) -> bool
    ensures { result ≡ is_function (λ f. is_called_main f && not (is_entry f)) (out-Item item.now).form }
{
    match function_of(&item.form) {
        Some(function) => is_called_main(function) && !is_entry(function),
        None => false,
    }
}

/// Adds a line, where something fails.
fn add_if(fails: bool, line: u32, lines: &mut Items<u32>) -> Result<(), NoMemory>
    ensures { OnOk result (lines.new ≡ lines.old ++ line_if fails line) }
{
    if fails {
        lines.push(line)?;
    }
    Ok(())
}

/// Adds the lines of the functions `main` with which no run can begin.
fn add_bad_mains(items: &[ast::Item], lines: &mut Items<u32>) -> Result<(), NoMemory>
    ensures { OnOk result (lines.new ≡ lines.old ++ flat_map bad_entry items.now) }
{
    for item in items {
        add_if(is_bad_main(item), item.line, lines)?;
    }
    Ok(())
}

fn has_main(items: &[ast::Item]) -> bool
    ensures { result ≡ list_any is_main items.now }
{
    items.iter().any(|item| is_main(item))
}

/// Adds the lines at which the rule on `main` fails of a crate.
#[tactic(auto, unfolding(crate::specs::MainRule::bad_main_in))]
fn add_bad_main(krate: &ast::Crate, lines: &mut Items<u32>) -> Result<(), NoMemory>
    ensures { OnOk result (lines.new ≡ lines.old ++ bad_main_in krate.now) }
{
    add_bad_mains(krate.items.as_slice(), lines)?;
    add_if(!has_main(krate.items.as_slice()), krate.line, lines)
}

/// The lines at which the rule on `main` fails.
pub fn bad_main(alloc: Global, crates: &[ast::Crate]) -> Result<Items<u32>, NoMemory>
    ensures { IfOk result (λ lines. lines ≡ bad_main crates.now) }
{
    let mut lines = Items::new(alloc);
    if let Some(krate) = crates.last() {
        add_bad_main(krate, &mut lines)?;
    }
    Ok(lines)
}
