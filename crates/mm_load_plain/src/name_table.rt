ghost use Rattle.std.specs.Prelude.{◌≡◌, ℕ, List, map, cond, Some, None, IfOk, OnOk};
ghost use Rattle.std.specs.Option.{option_map, option_or};
ghost use Rattle.std.specs.Str.{bytes_eq};
ghost use Rattle.mm_load_plain.specs.Rules.{function_at};
ghost use Rattle.mm_load_plain.specs.Names.{look_up, names_in, path_named};
ghost use Rattle.mm_load_plain.specs.Seen.{function_seen};
ghost use Rattle.mm_load_plain.specs.WrittenItem.{paths_to};

use crate::functions::Defined;
use indexmap::IndexMap;
use mm_ast as ast;
use mm_terms::NoMemory;
use std::alloc::Global;

/// Where names stand first in a list of names, from 0.
pub type NameTable<'a> = IndexMap<&'a [u8], u32>;

/// The path that is named.
pub fn path_text(alloc: Global, path: &ast::Path) -> Result<Vec<u8>, NoMemory>
    ensures { IfOk result (λ text. text.items ≡ path_named path.now) }
{
    let mut text = Vec::from_slice(alloc, path.krate.as_slice())?;
    for name in path.names.as_slice() {
        text.extend_from_slice(b"::")?;
        text.extend_from_slice(name.as_slice())?;
    }
    Ok(text)
}

/// Notes that a name stands at this index, unless it stands at an earlier one.
fn note<'a>(table: &mut NameTable<'a>, name: &'a [u8], index: usize) -> Result<(), NoMemory>
    ensures { OnOk result ((q : List ℕ) → look_up table.new q ≡ option_or (look_up table.old q) (cond (bytes_eq q name.now) (Some index) None)) }
{
    if table.contains_key(name) {
        return Ok(());
    }
    let Ok(index) = u32::try_from(index) else {
        return Err(NoMemory);
    };
    table.insert(name, index)?;
    Ok(())
}

/// The table of the paths of these functions.
pub fn path_table<'a>(
    alloc: Global,
    functions: &'a [Defined<'_>],
) -> Result<NameTable<'a>, NoMemory>
    ensures { IfOk result (λ table. look_up table ≡ paths_to (map function_seen functions.now)) }
{
    let mut table = IndexMap::new(alloc);
    for (index, function) in functions.iter().enumerate() {
        note(&mut table, function.path.as_slice(), index)?;
    }
    Ok(table)
}

/// The table of the type parameters of a function.
pub fn type_param_table(alloc: Global, function: &ast::Function) -> Result<NameTable<'_>, NoMemory>
    ensures { IfOk result (λ table. look_up table ≡ names_in function.now) }
{
    let mut table = IndexMap::new(alloc);
    for (index, param) in function.type_params.as_slice().iter().enumerate() {
        note(&mut table, param.text.as_slice(), index)?;
    }
    Ok(table)
}

/// The index to which a name resolves.
pub fn find(table: &NameTable<'_>, name: &[u8]) -> Option<u32>
    ensures { result ≡ look_up table.now name.now }
{
    table.get(name).copied()
}

/// The function to which a path resolves.
pub fn function_at<'a, 'b>(
    paths: &NameTable<'_>,
    functions: &'b [Defined<'a>],
    path: &[u8],
) -> Option<&'b Defined<'a>>
    ensures { option_map (λ d. function_seen d.now) result ≡ function_at (look_up paths.now) (map function_seen functions.now) path.now }
{
    let index = find(paths, path)?;
    functions.get(index as usize)
}
