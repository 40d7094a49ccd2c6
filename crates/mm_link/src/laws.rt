//! Laws of linking. Each is proved, and its function does nothing.

ghost use Rattle.std.specs.Prelude.{◌≡◌, ◌≢◌, Result, Err};
ghost use Rattle.mm_objects.specs.declared.objects.Objects.{Objects};
ghost use Rattle.mm_link.specs.Linking.{IsVerdict};
ghost use Rattle.mm_link.specs.declared.fault.LinkFault.{LinkFault};
ghost use Rattle.mm_link.specs.declared.fault.LinkFault.TheVariants as fault;
ghost use Rattle.mm_objects.specs.declared.target.Linked.{Linked};

/// The objects tell the verdict, whatever links them: but for out of memory there is no other.
pub fn one_link_verdict()
    ensures { (o : Objects) (one other : Result Linked LinkFault) →
        IsVerdict o one → IsVerdict o other → one ≢ Err fault.NoMemory → other ≢ Err fault.NoMemory → one ≡ other }
{}
