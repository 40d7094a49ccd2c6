//! What is built of the language, asked of a tree.
#![tactic(auto)]

ghost use Rattle.std.specs.Prelude.{◌≡◌};
ghost use Rattle.mm_built.specs.Built.{is_built};

mod bodies;
mod items;
mod types;

use crate::items::built_items;
use mm_ast::Ast;

/// Whether all of a tree is built: there is one crate, and each form in it is built.
#[tactic(auto, unfolding(crate::specs::Built::built_crates))]
pub fn is_built(tree: &Ast) -> bool
    ensures { result ≡ is_built tree.now }
{
    let [krate] = tree.crates.as_slice() else {
        return false;
    };
    built_items(krate.items.as_slice())
}
