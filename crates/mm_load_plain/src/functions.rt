//! The functions of a crate, in order of their first tokens.
ghost use Rattle.std.specs.Prelude.{◌≡◌, ◌++◌, map, IfOk, OnOk};
ghost use Rattle.mm_load_plain.specs.Seen.{function_seen};
ghost use Rattle.mm_load_plain.specs.WrittenItem.{defined_by, functions_in, functions_of, path_in};

use crate::item_names::name_text;
use mm_ast as ast;
use mm_terms::{NoMemory, Text};
use std::alloc::Global;

/// A function of a crate.
#[derive(Drop)]
pub struct Defined<'a> {
    /// The crate's name, the modules' names and the function's own name, separated by `::`.
    pub path: Text,
    /// The line of its first token.
    pub line: u32,
    pub is_pub: bool,
    pub function: &'a ast::Function,
}

/// The path of what has a name in the module with a path.
pub fn path_in(alloc: Global, prefix: &[u8], name: &[u8]) -> Result<Text, NoMemory>
    ensures { IfOk result (λ path. path ≡ path_in prefix.now name.now) }
{
    let mut path = Vec::from_slice(alloc, prefix)?;
    path.extend_from_slice(b"::")?;
    path.extend_from_slice(name)?;
    Ok(Text::from_vec(path))
}

/// Adds what has a path, where it is a function.
fn add_function<'a>(
    alloc: Global,
    path: &[u8],
    line: u32,
    form: &'a ast::ItemForm,
    functions: &mut Vec<Defined<'a>>,
) -> Result<(), NoMemory>
    ensures { OnOk result (map function_seen functions.new.items ≡ map function_seen functions.old.items ++ defined_by path.now line form.now) }
{
    let ast::ItemForm::Definition(definition) = form else {
        return Ok(());
    };
    let definition = definition.get();
    let ast::DefinitionForm::Function(function) = &definition.form else {
        return Ok(());
    };
    let path = Text::from_slice(alloc, path)?;
    let is_pub = definition.is_pub;
    functions.push(Defined {
        path,
        line,
        is_pub,
        function,
    })?;
    Ok(())
}

/// Adds the functions of an item that stands in the module with a path.
fn add_functions<'a>(
    alloc: Global,
    prefix: &[u8],
    item: &'a ast::Item,
    functions: &mut Vec<Defined<'a>>,
) -> Result<(), NoMemory>
    ensures { OnOk result (map function_seen functions.new.items ≡ map function_seen functions.old.items ++ functions_in item.now prefix.now) }
{
    let path = path_in(alloc, prefix, name_text(&item.form))?;
    add_function(alloc, path.as_slice(), item.line, &item.form, functions)?;
    for inner in item.items.as_slice() {
        add_functions(alloc, path.as_slice(), inner, functions)?;
    }
    Ok(())
}

/// The functions of a crate.
#[tactic(auto, unfolding(crate::specs::WrittenItem::functions_of))]
pub fn functions<'a>(alloc: Global, krate: &'a ast::Crate) -> Result<Vec<Defined<'a>>, NoMemory>
    ensures { IfOk result (λ functions. map function_seen functions.items ≡ functions_of krate.now) }
{
    let mut functions = Vec::new(alloc);
    for item in krate.items.as_slice() {
        add_functions(alloc, krate.name.text.as_slice(), item, &mut functions)?;
    }
    Ok(functions)
}
