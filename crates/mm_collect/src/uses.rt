ghost use Rattle.std.specs.Prelude.{◌≡◌, IfOk};
ghost use Rattle.mm_plain.specs.Uses.{called, uses_of, notes_of};
ghost use Rattle.mm_collect.specs.Candidates.{Judges};
ghost use Rattle.mm_plain.specs.Notes.{IsLeast};

use crate::closure::Scan;
use crate::over::least_over;
use mm_plain::{Call, End, Over, Program};
use mm_subst::{applied_length, apply_all};
use mm_terms::{Item, NoMemory, Text, Ty};
use std::alloc::Global;

/// What a call resolves to, by its length.
#[derive(Drop)]
enum Candidate {
    /// It is within the limit, and used.
    Within(Item),
    /// It is too long.
    Over(Over),
}

/// What a call resolves to in the instance at the arguments. It is made only where it is within the limit.
fn judge(
    alloc: Global,
    p: &Program,
    limit: u32,
    args: &[Ty],
    call: &Call,
) -> Result<Candidate, NoMemory>
    ensures { IfOk result (Judges p.now limit (called args.now call.now)) }
{
    let types = call.args.as_slice();
    let Some(length) = applied_length(types, args) else {
        return Err(NoMemory);
    };
    if length > limit {
        let path = Text::from_slice(alloc, p.path(call.callee))?;
        return Ok(Candidate::Over(Over { path, length }));
    }
    let args = apply_all(alloc, types, args)?;
    Ok(Candidate::Within(Item::Fn(call.callee, args)))
}

/// What an item uses, and the least of what it notes. As in rustc, a call uses an instance of its callee, with the
/// arguments of the item put in. An item that has no body uses nothing.
pub fn uses(alloc: Global, p: &Program, limit: u32, item: &Item) -> Result<Scan, NoMemory>
    ensures used { IfOk result (λ scan. scan.used.items ≡ uses_of p.now limit item.now) }
    ensures over { IfOk result (λ scan. IsLeast (notes_of p.now limit item.now) scan.over) }
{
    let mut used = Vec::new(alloc);
    let mut over = None;
    let Item::Fn(def, args) = item else {
        return Ok(Scan { used, over });
    };
    let Some(function) = p.functions.get(def.0 as usize) else {
        return Ok(Scan { used, over });
    };
    for block in function.blocks.as_slice() {
        if let End::Call(call) = &block.end {
            match judge(alloc, p, limit, args.as_slice(), call)? {
                Candidate::Within(item) => used.push(item)?,
                Candidate::Over(note) => over = least_over(over, Some(note)),
            }
        }
    }
    Ok(Scan { used, over })
}
