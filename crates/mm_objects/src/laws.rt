//! What holds of the definitions of this crate: each law is the contract of a function that does nothing.

ghost use Rattle.std.specs.Prelude.{◌≡◌, ℕ, List};
ghost use Rattle.mm_objects.specs.declared.objects.Objects.{Objects};
ghost use Rattle.mm_objects.specs.ObjectForms.{IsObjectText};

/// Bytes are the text of one `Objects` at most, of any number of units.
pub fn one_objects()
    ensures { (bytes : List ℕ) (a b : Objects) →
        IsObjectText bytes a → IsObjectText bytes b → a ≡ b }
{}
