//! The names of type parameters.
ghost use Rattle.std.specs.Prelude.{◌≡◌, List, IfOk, OnOk};
ghost use Rattle.mm_ast.specs.declared.names.Name.{Name};
ghost use Rattle.mm_mentions.specs.Scopes.{of_params};
ghost use Rattle.mm_mentions.specs.Seen.{names_around, names_of, seen};

use indexmap::IndexSet;
use mm_ast::Name;
use mm_terms::NoMemory;
use std::alloc::Global;

/// Names, each once.
pub type NameSet<'a> = IndexSet<&'a [u8]>;

/// What a type may name without a path.
#[derive(Clone, Copy)]
pub struct Scope<'a> {
    /// The type parameters of the trait or impl around it.
    pub outer: Option<&'a NameSet<'a>>,
    /// The type parameters of the definition or method itself.
    pub own: &'a NameSet<'a>,
    /// Whether `Self` is a type.
    pub has_self: bool,
}

/// The names of these type parameters.
pub fn param_names(alloc: Global, params: &[Name]) -> Result<NameSet<'_>, NoMemory>
    ensures { IfOk result (λ set. names_of set ≡ of_params params.now) }
{
    let mut set = IndexSet::new(alloc);
    for param in params {
        set.insert(param.text.as_slice())?;
    }
    Ok(set)
}

/// Whether a name is in the set around, if there is one.
fn is_around(outer: Option<&NameSet<'_>>, name: &[u8]) -> bool
    ensures { result ≡ names_around outer.entry name.now }
{
    match outer {
        Some(names) => names.contains(name),
        None => false,
    }
}

/// Whether a name is that of a type parameter.
#[tactic(auto, unfolding(crate::specs::Seen::seen))]
pub fn is_param(scope: &Scope<'_>, name: &[u8]) -> bool
    ensures { result ≡ (seen scope.now).param name.now }
{
    is_around(scope.outer, name) || scope.own.contains(name)
}

/// Whether `Self` is a type.
#[tactic(auto, unfolding(crate::specs::Seen::seen))]
pub fn has_self(scope: &Scope<'_>) -> bool
    ensures { result ≡ (seen scope.now).has_self }
{
    scope.has_self
}
