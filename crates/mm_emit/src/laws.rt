//! Laws of what is emitted. Each is proved, and its function does nothing.

ghost use Rattle.std.specs.Prelude.{◌≡◌, List, [], ◌∷◌, Contains, length};
ghost use Rattle.std.specs.List.Sorted.{IsPermutation};
ghost use Rattle.mm_terms.specs.declared.item.Item.{Item};
ghost use Rattle.mm_plain.specs.declared.program.Program.{Program};
ghost use Rattle.mm_plain.specs.Roots.{main_item};
ghost use Rattle.mm_objects.specs.declared.objects.Objects.{Objects};
ghost use Rattle.mm_objects.specs.ObjectForms.{AreObjects};
ghost use Rattle.mm_emit.specs.Complete.{IsComplete};
ghost use Rattle.mm_emit.specs.Faithful.{RunAs};
ghost use Rattle.mm_emit.specs.Numbers.{NumbersFit};
ghost use Rattle.mm_objects.specs.Emitted.{AreObjectsOf, AllResolve, HaveOwnSymbols, Resolves, UseThemselves, whole_crate};

/// Where the items hold all that they use, and no two of them have one symbol, each reference in their objects names a
/// definition of the item that is used there; and where the item that a run begins with is one of them, its symbol names
/// a definition of it.
pub fn references()
    ensures all { (p : Program) (items : List Item) (objects : Objects) →
        HaveOwnSymbols p items → UseThemselves p items → AreObjectsOf p (whole_crate p items ∷ []) objects →
        AllResolve p items objects.units }
    ensures main { (p : Program) (items : List Item) (objects : Objects) →
        HaveOwnSymbols p items → Contains items (main_item p) → AreObjectsOf p (whole_crate p items ∷ []) objects →
        Resolves p items objects.units 0 (main_item p) }
{}

/// Where no two of the items have one symbol, they are compiled to one list of objects, in whatever order they are handed
/// in.
pub fn one_emission()
    ensures { (p : Program) (items others : List Item) (one other : Objects) →
        HaveOwnSymbols p items → IsPermutation items others → AreObjectsOf p (whole_crate p items ∷ []) one →
        AreObjectsOf p (whole_crate p others ∷ []) other → one ≡ other }
{}

/// The objects of complete items have a text, and are one unit.
pub fn have_text()
    ensures { (p : Program) (items : List Item) (objects : Objects) →
        IsComplete p items → AreObjectsOf p (whole_crate p items ∷ []) objects → NumbersFit objects →
        AreObjects objects × (length objects.units ≡ 1) }
{}

/// The objects of complete items are linked, and after any number of steps what is seen of their image is what is seen
/// of the program.
pub fn run_as()
    ensures { (p : Program) (items : List Item) (objects : Objects) →
        IsComplete p items → AreObjectsOf p (whole_crate p items ∷ []) objects → RunAs p objects }
{}
