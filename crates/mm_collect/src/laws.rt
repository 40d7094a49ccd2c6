//! Laws of the verdict. Each is proved, and its function does nothing.

ghost use Rattle.std.specs.Prelude.{◌≡◌, ℕ, List, All};
ghost use Rattle.std.specs.List.Sorted.{IsPermutation};
ghost use Rattle.mm_terms.specs.declared.item.Item.{Item};
ghost use Rattle.mm_terms.specs.Closure.{IsMember};
ghost use Rattle.mm_plain.specs.declared.program.Opts.{Opts};
ghost use Rattle.mm_plain.specs.declared.program.Program.{Program};
ghost use Rattle.mm_plain.specs.Finding.{AreInOrder};
ghost use Rattle.mm_plain.specs.Roots.{roots_of};
ghost use Rattle.mm_plain.specs.Uses.{candidates_of, uses_of};
ghost use Rattle.mm_plain.specs.Verdict.{IsAccepted, IsTooLong, IsTooMany};
ghost use Rattle.mm_plain.specs.WellFormed.{IsInstanceIn, IsWellFormed};

/// The verdict on a program is one: no two kinds of it hold, what is reported as too long is one path with one length, and
/// the items of an accepted program are one set, and in order of finding one list.
pub fn one_verdict()
    ensures many_or_long { (p : Program) (opts : Opts) (path : List ℕ) (n : ℕ) → IsTooMany p opts → IsTooLong p opts path n → ⊥ }
    ensures many_or_accepted { (p : Program) (opts : Opts) (items : List Item) → IsTooMany p opts → IsAccepted p opts items → ⊥ }
    ensures long_or_accepted { (p : Program) (opts : Opts) (path : List ℕ) (n : ℕ) (items : List Item) →
        IsTooLong p opts path n → IsAccepted p opts items → ⊥ }
    ensures one_note { (p : Program) (opts : Opts) (path other : List ℕ) (n m : ℕ) →
        IsTooLong p opts path n → IsTooLong p opts other m → (path ≡ other) × (n ≡ m) }
    ensures one_listing { (p : Program) (opts : Opts) (items others : List Item) →
        IsAccepted p opts items → IsAccepted p opts others → IsPermutation items others }
    ensures one_order { (p : Program) (opts : Opts) (items others : List Item) →
        IsAccepted p opts items → IsAccepted p opts others →
        AreInOrder (roots_of p) (uses_of p opts.length) items → AreInOrder (roots_of p) (uses_of p opts.length) others →
        items ≡ others }
{}

/// The items of a well-formed program are instances of its functions: the roots are, and what an instance uses is, and
/// so each member is.
pub fn members_are_instances()
    ensures roots { (p : Program) → IsWellFormed p → All (IsInstanceIn p) (roots_of p) }
    ensures used { (p : Program) (x : Item) → IsWellFormed p → IsInstanceIn p x → All (IsInstanceIn p) (candidates_of p x) }
    ensures members { (p : Program) (limit : ℕ) (x : Item) → IsWellFormed p →
        IsMember (roots_of p) (uses_of p limit) x → IsInstanceIn p x }
{}
