ghost use Rattle.std.specs.Prelude.{◌↔◌, IsTrue};
ghost use Rattle.mm_terms.specs.Substitution.{ParamsBelow};

use mm_terms::{Tree, Ty, TyHead};

/// Whether every parameter in the type is below a bound. The time grows with the length of the type.
pub fn params_below(ty: &Ty, bound: usize) -> bool
    ensures { IsTrue result ↔ ParamsBelow bound ty.now }
{
    all_below(ty.as_tree(), bound)
}

/// The same of a tree.
fn all_below(tree: &Tree, bound: usize) -> bool
    ensures { IsTrue result ↔ ParamsBelow bound tree.now }
{
    if let TyHead::Param(place) = tree.head {
        if place as usize >= bound {
            return false;
        }
    }
    for child in tree.children.as_slice() {
        if !all_below(child, bound) {
            return false;
        }
    }
    true
}
