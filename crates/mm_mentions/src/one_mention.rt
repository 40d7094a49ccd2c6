//! One mention more.
ghost use Rattle.std.specs.Prelude.{◌≡◌, [], ◌∷◌, ◌++◌, OnOk};
ghost use Rattle.mm_mentions.specs.Mentions.{at, dyn_at, member_at, path_at};

use crate::mention::{Mention, PathMention, What};
use mm_ast::{Name, Path};
use mm_definitions::{Wanted, path_and_name, path_text};
use mm_terms::NoMemory;
use std::alloc::Global;

/// Adds what is mentioned at a line.
pub fn mention(line: u32, what: What, out: &mut Vec<Mention>) -> Result<(), NoMemory>
    ensures { OnOk result (out.new.items ≡ out.old.items ++ at line what ∷ []) }
{
    out.push(Mention { line, what })?;
    Ok(())
}

/// Adds a path, at the line of its first name.
pub fn mention_path(
    alloc: Global,
    wanted: Wanted,
    path: &Path,
    type_args: usize,
    operands: Option<usize>,
    out: &mut Vec<Mention>,
) -> Result<(), NoMemory>
    ensures { OnOk result (out.new.items ≡ out.old.items ++ path_at wanted path.now type_args operands ∷ []) }
{
    let text = path_text(alloc, path)?;
    let what = What::Path(PathMention {
        wanted,
        path: text,
        type_args,
        operands,
    });
    mention(path.line, what, out)
}

/// Adds a variant of an enum, or a method of a trait, at the line of its name.
pub fn mention_member(
    alloc: Global,
    wanted: Wanted,
    path: &Path,
    name: &Name,
    type_args: usize,
    operands: Option<usize>,
    out: &mut Vec<Mention>,
) -> Result<(), NoMemory>
    ensures { OnOk result (out.new.items ≡ out.old.items ++ member_at wanted path.now name.now type_args operands ∷ []) }
{
    let text = path_and_name(alloc, path, name.text.as_slice())?;
    let what = What::Path(PathMention {
        wanted,
        path: text,
        type_args,
        operands,
    });
    mention(name.line, what, out)
}

/// Adds `dyn` and a trait, at the line of `dyn`.
pub fn mention_dyn(
    alloc: Global,
    line: u32,
    path: &Path,
    out: &mut Vec<Mention>,
) -> Result<(), NoMemory>
    ensures { OnOk result (out.new.items ≡ out.old.items ++ dyn_at line path.now ∷ []) }
{
    let text = path_text(alloc, path)?;
    mention(line, What::Dyn(text), out)
}
