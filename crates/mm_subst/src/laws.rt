//! Laws of substitution. Each is proved, and its function does nothing.

ghost use Rattle.std.specs.Prelude.{◌≡◌, List, All, length};
ghost use Rattle.mm_terms.specs.declared.tree.Tree.{Tree};
ghost use Rattle.mm_terms.specs.Substitution.{subst, subst_all, ParamsBelow, HasNoParam};

/// One substitution after another is one substitution, by the arguments of the first with the second applied to each.
pub fn composed()
    ensures { (outer args : List Tree) (t : Tree) →
        ParamsBelow (length args) t → subst outer (subst args t) ≡ subst (subst_all outer args) t }
{}

/// A type without parameters stays as it is.
pub fn unchanged()
    ensures { (args : List Tree) (t : Tree) → HasNoParam t → subst args t ≡ t }
{}

/// Arguments without parameters leave none in the type.
pub fn none_left()
    ensures { (args : List Tree) (t : Tree) →
        All HasNoParam args → ParamsBelow (length args) t → HasNoParam (subst args t) }
{}
