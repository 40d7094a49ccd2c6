//! Laws of the closure of uses. Each is proved, and its function does nothing.

ghost use Rattle.std.specs.Prelude.{◌≡◌, ℕ, ◌<◌, Bool, true, List, length};
ghost use Rattle.std.specs.List.Sorted.{IsPermutation};
ghost use Rattle.mm_terms.specs.declared.item.Item.{Item};
ghost use Rattle.mm_terms.specs.Closure.{IsClosed, IsMember, AreMembers, HasMoreThan};

/// The members are the least set that holds the roots and is closed under use: they are such a set, and they are in every
/// such set.
pub fn least_closure()
    ensures closed { (roots : List Item) (uses : Item → List Item) → IsClosed roots uses (IsMember roots uses) }
    ensures least { (roots : List Item) (uses : Item → List Item) (has : Item → Bool) →
        IsClosed roots uses (λ x. has x ≡ true) → (x : Item) → IsMember roots uses x → has x ≡ true }
{}

/// The verdict on a limit is one: where the closure has more than `n` members, each list of all the members is
/// longer than `n`.
pub fn more_is_longer()
    ensures { (roots : List Item) (uses : Item → List Item) (n : ℕ) (items : List Item) →
        HasMoreThan roots uses n → AreMembers roots uses items → n < length items }
{}

/// The members are one set: two lists of all the members have the same items, in some order.
pub fn one_closure()
    ensures { (roots : List Item) (uses : Item → List Item) (items others : List Item) →
        AreMembers roots uses items → AreMembers roots uses others → IsPermutation items others }
{}
