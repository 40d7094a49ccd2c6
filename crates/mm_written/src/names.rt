//! Names.
ghost use Rattle.std.specs.List.{list_all};
ghost use Rattle.std.specs.Prelude.{◌≡◌};
ghost use Rattle.mm_written.specs.Names.{written_name, written_names, written_variant_name};

use crate::lists::few;
use mm_ast::Name;
use mm_names::is_name;

#[tactic(auto, unfolding(crate::specs::Names::written_name))]
pub fn written_name(name: &Name) -> bool
    ensures { result ≡ written_name name.now }
{
    is_name(name.text.as_slice())
}

fn each_name(names: &[Name]) -> bool
    ensures { result ≡ list_all written_name names.now }
{
    names.iter().all(|name| written_name(name))
}

#[tactic(auto, unfolding(crate::specs::Names::written_names))]
pub fn written_names(names: &[Name]) -> bool
    ensures { result ≡ written_names names.now }
{
    few(names) && each_name(names)
}

/// The name of a variant, where there is one.
pub fn written_variant_name(variant: &Option<Name>) -> bool
    ensures { result ≡ written_variant_name variant.now }
{
    match variant {
        Some(name) => written_name(name),
        None => true,
    }
}
