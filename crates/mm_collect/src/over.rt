ghost use Rattle.std.specs.Prelude.{◌≡◌, List, ◌++◌};
ghost use Rattle.mm_plain.specs.declared.over.Over.{Over};
ghost use Rattle.mm_plain.specs.Notes.{note_cmp, IsLeast};

use mm_plain::Over;
use std::cmp::Ordering;

/// By the bytes of the paths, and then by the lengths.
#[tactic(auto, unfolding(mm_plain::specs::Notes::note_cmp))]
fn compare(one: &Over, other: &Over) -> Ordering
    ensures { result ≡ note_cmp one.now other.now }
{
    one.path
        .as_slice()
        .cmp(&other.path.as_slice())
        .then(one.length.cmp(&other.length))
}

/// The least of two notes, as far as they are there.
pub fn least_over(one: Option<Over>, other: Option<Over>) -> Option<Over>
    ensures { (notes others : List Over) → IsLeast notes one → IsLeast others other → IsLeast (notes ++ others) result }
{
    let Some(one) = one else {
        return other;
    };
    let Some(other) = other else {
        return Some(one);
    };
    if compare(&other, &one).is_lt() {
        Some(other)
    } else {
        Some(one)
    }
}
