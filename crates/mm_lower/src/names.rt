//! The tables by which names are looked up.
ghost use Rattle.std.specs.Prelude.{◌≡◌, IfOk};
ghost use Rattle.mm_lower.specs.Params.{number_of};
ghost use Rattle.mm_lower.specs.Paths.{def_at, def_of, place_at};
ghost use Rattle.mm_lower.specs.Seen.{params, paths};

use crate::params::ParamTable;
use mm_ast as ast;
use mm_definitions::{Kind, Wanted, path_in, path_text};
use mm_resolve::ScopeTable;
use mm_terms::{DefId, NoMemory};
use std::alloc::Global;

/// What the names mean where something is written.
#[derive(Clone, Copy)]
pub struct Names<'a> {
    /// What paths lead to.
    pub scope: &'a ScopeTable<'a>,
    /// The type parameters in scope.
    pub params: &'a ParamTable<'a>,
}

/// The number of a type parameter.
pub fn number_of(names: &Names<'_>, name: &[u8]) -> u32
    ensures { result ≡ number_of (params names.now) name.now }
{
    names.params.get(name).copied().unwrap_or(0)
}

fn def_at(names: &Names<'_>, wanted: Wanted, path: &[u8]) -> DefId
    ensures { result ≡ def_at (paths names.now) wanted path.now }
{
    match names.scope.find(wanted, path) {
        Some(named) => named.def,
        None => DefId(0),
    }
}

/// The definition that a path names.
pub fn def_of(
    alloc: Global,
    names: &Names<'_>,
    wanted: Wanted,
    path: &ast::Path,
) -> Result<DefId, NoMemory>
    ensures { IfOk result (λ d. d ≡ def_of (paths names.now) wanted path.now) }
{
    let text = path_text(alloc, path)?;
    Ok(def_at(names, wanted, text.as_slice()))
}

/// The place of a variant in its enum, or of a method in its trait.
pub fn place_at(
    alloc: Global,
    names: &Names<'_>,
    kind: Kind,
    path: &ast::Path,
    name: &ast::Name,
) -> Result<u32, NoMemory>
    ensures { IfOk result (λ n. n ≡ place_at (paths names.now) kind path.now name.now) }
{
    let text = path_text(alloc, path)?;
    let text = path_in(alloc, text.as_slice(), name.text.as_slice())?;
    match names.scope.find(Wanted::One(kind), text.as_slice()) {
        Some(named) => Ok(named.place),
        None => Ok(0),
    }
}
