//! What each tree has that is read from a text within the limit, asked of a tree.
#![tactic(auto)]

ghost use Rattle.std.specs.List.{list_all};
ghost use Rattle.std.specs.Prelude.{◌≡◌};
ghost use Rattle.mm_written.specs.Written.{written_crate, is_written};

mod bodies;
mod items;
mod lists;
mod names;
mod signatures;
mod terms;
mod types;

use crate::items::written_items;
use crate::lists::{few, some};
use crate::names::written_name;
use mm_ast::{Ast, Crate};

#[tactic(auto, unfolding(crate::specs::Written::written_crate))]
fn written_crate(krate: &Crate) -> bool
    ensures { result ≡ written_crate krate.now }
{
    written_name(&krate.name) && written_items(krate.items.as_slice())
}

fn each_crate(crates: &[Crate]) -> bool
    ensures { result ≡ list_all written_crate crates.now }
{
    crates.iter().all(|krate| written_crate(krate))
}

/// Whether the tree has what each tree has that is read from a text within the limit: there is a crate, names are names, heads
/// take the children that they have, and no list and no type is too long to be counted in 32 bits.
#[tactic(auto, unfolding(crate::specs::Written::is_written))]
pub fn is_written(tree: &Ast) -> bool
    ensures { result ≡ is_written tree.now }
{
    some(tree.crates.as_slice())
        && few(tree.crates.as_slice())
        && each_crate(tree.crates.as_slice())
}
