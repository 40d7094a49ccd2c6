//! The first of several faults.
ghost use Rattle.std.specs.Prelude.{◌≡◌, ◌⊎◌, [], true, false, IfSome, IfNone};
ghost use Rattle.mm_rules.specs.Faults.{IsFirst, NoLater};

use crate::fault::Fault;

/// Whether a fault comes no later than another.
fn is_no_later(one: Fault, other: Fault) -> bool
    ensures yes { result ≡ true → NoLater one other }
    ensures no { result ≡ false → NoLater other one }
{
    let (place, there) = (one.rule.place(), other.rule.place());
    place < there || (place == there && one.line <= other.line)
}

/// The one of two faults that comes first.
fn earlier(one: Fault, other: Fault) -> Fault
    ensures one { (result ≡ one) ⊎ (result ≡ other) }
    ensures before_one { NoLater result one }
    ensures before_other { NoLater result other }
{
    if is_no_later(one, other) {
        return one;
    }
    other
}

/// The first of these faults, if there are any.
pub fn first_fault(faults: &[Fault]) -> Option<Fault>
    ensures some { IfSome result (IsFirst faults.now) }
    ensures none { IfNone result (faults.now ≡ []) }
{
    let (first, others) = faults.split_first()?;
    let mut least = *first;
    for fault in others {
        least = earlier(least, *fault);
    }
    Some(least)
}
