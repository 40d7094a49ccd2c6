//! Marks what is named. There is a mark for each definition.

ghost use Rattle.std.specs.Prelude.{◌≡◌, true, slice_set};

mod bodies;
mod definitions;
mod operands;
mod terms;
mod types;

pub(crate) use definitions::mark_definitions;
use mm_terms::DefId;

#[tactic(auto, using(std::proofs::lemmas::List::set_past))]
fn mark(marks: &mut [bool], d: DefId)
    ensures { marks.new ≡ slice_set marks.old d.0 true }
{
    let at = d.0 as usize;
    if at < marks.len() {
        marks[at] = true;
    }
}
