//! The types that Drop impls are for.
ghost use Rattle.std.specs.Prelude.{◌≡◌, ◌++◌, OnOk};
ghost use Rattle.mm_rules.specs.DropTargets.{target_of, targets_in};

use mm_ast::Name;
use mm_mentions::{Mention, What};
use mm_terms::{NoMemory, Text};
use sqlite_items::Items;
use std::alloc::Global;

/// Adds the type that a Drop impl is for, at the line of the impl. Other mentions add none.
fn add_target(alloc: Global, mention: &Mention, targets: &mut Items<Name>) -> Result<(), NoMemory>
    ensures { OnOk result (targets.new ≡ targets.old ++ target_of mention.now.line mention.now.what) }
{
    let What::DropImpl(path) = &mention.what else {
        return Ok(());
    };
    if path.is_empty() {
        return Ok(());
    }
    targets.push(Name {
        line: mention.line,
        text: Text::from_slice(alloc, path.as_slice())?,
    })?;
    Ok(())
}

/// Adds the types that the Drop impls among these are for.
pub fn add_targets(
    alloc: Global,
    mentions: &[Mention],
    targets: &mut Items<Name>,
) -> Result<(), NoMemory>
    ensures { OnOk result (targets.new ≡ targets.old ++ targets_in mentions.now) }
{
    for mention in mentions {
        add_target(alloc, mention, targets)?;
    }
    Ok(())
}
