ghost use Rattle.std.specs.Prelude.{◌≡◌, List, IfOk};
ghost use Rattle.mm_lex.specs.Lexemes.{LexemeKind};
ghost use Rattle.mm_print.specs.Printing.{IsCanonical, Spell};

use crate::bytes::write_canonical;
use crate::krates::write_tree;
use mm_ast::Ast;
use std::alloc::{AllocError, Global};

/// The canonical text of a tree: its tokens in their order, with one line feed, nothing or one blank between each and the
/// next, and without the `-> ()` of a signature. The rules are this project's own.
///
/// A tree that no tokens spell, which is that of no text, gives some bytes.
///
/// # Errors
///
/// Want of memory alone.
pub fn print(alloc: Global, tree: &Ast) -> Result<Vec<u8>, AllocError>
    ensures { IfOk result (λ text. (kinds : List LexemeKind) → Spell tree.now kinds → IsCanonical tree.now text.items) }
{
    let mut tokens = Vec::new(alloc);
    write_tree(tree, &mut tokens)?;
    let mut text = Vec::new(alloc);
    write_canonical(&tokens, &mut text)?;
    Ok(text)
}
