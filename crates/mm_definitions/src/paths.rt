//! The texts of paths.
ghost use Rattle.std.specs.Prelude.{◌≡◌, IfOk};
ghost use Rattle.mm_definitions.specs.Paths.{path_in, path_named};

use mm_ast as ast;
use mm_terms::{NoMemory, Text};
use std::alloc::Global;

/// The path of what has a name in a module, an enum or a trait with a path.
pub fn path_in(alloc: Global, prefix: &[u8], name: &[u8]) -> Result<Text, NoMemory>
    ensures { IfOk result (λ path. path ≡ path_in prefix.now name.now) }
{
    let mut path = Vec::from_slice(alloc, prefix)?;
    path.extend_from_slice(b"::")?;
    path.extend_from_slice(name)?;
    Ok(Text::from_vec(path))
}

/// The names of a path, separated by `::`.
#[tactic(auto, unfolding(crate::specs::Paths::path_named))]
pub fn path_text(alloc: Global, path: &ast::Path) -> Result<Text, NoMemory>
    ensures { IfOk result (λ text. text ≡ path_named path.now) }
{
    let mut text = Vec::from_slice(alloc, path.krate.as_slice())?;
    for name in path.names.as_slice() {
        text.extend_from_slice(b"::")?;
        text.extend_from_slice(name.as_slice())?;
    }
    Ok(Text::from_vec(text))
}

/// The names of a path and one name more, separated by `::`.
pub fn path_and_name(alloc: Global, path: &ast::Path, name: &[u8]) -> Result<Text, NoMemory>
    ensures { IfOk result (λ text. text ≡ path_in (path_named path.now) name.now) }
{
    let path = path_text(alloc, path)?;
    path_in(alloc, path.as_slice(), name)
}
