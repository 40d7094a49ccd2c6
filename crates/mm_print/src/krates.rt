ghost use Rattle.std.specs.Prelude.{◌≡◌, OnOk, [], ◌∷◌, ◌++◌, flat_map};
ghost use Rattle.mm_spell.specs.Listed.{kinds};
ghost use Rattle.mm_print.specs.ItemTokens.{item_tokens, crate_tokens, tree_tokens};

use crate::items::write_items;
use mm_ast::{Ast, Crate};
use mm_lex::Punct;
use mm_names::Word;
use mm_spell::Spelled;
use mm_spell::names::{write_name, write_punct, write_word};
use std::alloc::AllocError;

/// Writes a crate.
fn write_crate<'a>(krate: &'a Crate, out: &mut Vec<Spelled<'a>>) -> Result<(), AllocError>
    ensures { OnOk result (kinds out.new.items ≡ kinds out.old.items ++ crate_tokens krate.now) }
{
    write_word(Word::Crate, out)?;
    write_name(&krate.name, out)?;
    write_punct(Punct::Semicolon, out)?;
    write_items(krate.items.as_slice(), out)
}

/// Writes crates.
fn write_crates<'a>(crates: &'a [Crate], out: &mut Vec<Spelled<'a>>) -> Result<(), AllocError>
    ensures { OnOk result (kinds out.new.items ≡ kinds out.old.items ++ flat_map crate_tokens crates.now) }
{
    for krate in crates {
        write_crate(krate, out)?;
    }
    Ok(())
}

/// Writes a tree.
pub(crate) fn write_tree<'a>(tree: &'a Ast, out: &mut Vec<Spelled<'a>>) -> Result<(), AllocError>
    ensures { OnOk result (kinds out.new.items ≡ kinds out.old.items ++ tree_tokens tree.now) }
{
    write_crates(tree.crates.as_slice(), out)
}
