//! Laws of the rules. Each is proved, and its function does nothing.

ghost use Rattle.std.specs.Prelude.{◌≡◌, ℕ, [], All, Some};
ghost use Rattle.std.specs.List.{slice_get};
ghost use Rattle.mm_ast.specs.declared.items.Ast.{Ast};
ghost use Rattle.mm_ast.specs.declared.items.Crate.{Crate};
ghost use Rattle.mm_mentions.specs.ItemMentions.{mentions_in};
ghost use Rattle.mm_resolve.specs.Doubles.{repeated, doubled};
ghost use Rattle.mm_rules.specs.declared.fault.Fault as faults;
ghost use Rattle.mm_rules.specs.MainRule.{bad_main};
ghost use Rattle.mm_rules.specs.MentionRules.{broken};
ghost use Rattle.mm_rules.specs.TreeFaults.{KeepsRules, IsFirstFault, scope_of, targets_of};

/// A tree that keeps the rules has no first fault, and a tree has one first fault.
pub fn one_judgement()
    ensures kept { (tree : Ast) (fault : faults.Fault) → KeepsRules tree → IsFirstFault tree fault → ⊥ }
    ensures one { (tree : Ast) (fault other : faults.Fault) → IsFirstFault tree fault → IsFirstFault tree other → fault ≡ other }
{}

/// What a tree has that keeps the rules: no mention of a crate breaks a rule in the scope in which the crate stands, names
/// differ that have to, the last crate has a function with which a run can begin, and no type has two Drop impls.
pub fn kept_rules()
    ensures mentions { (tree : Ast) → KeepsRules tree → (i : ℕ) (krate : Crate) → slice_get tree.crates i ≡ Some krate → All (λ m. broken (scope_of tree.crates i) m.what ≡ []) (mentions_in krate) }
    ensures names { (tree : Ast) → KeepsRules tree → doubled tree.crates ≡ [] }
    ensures main { (tree : Ast) → KeepsRules tree → bad_main tree.crates ≡ [] }
    ensures drops { (tree : Ast) → KeepsRules tree → repeated [] (targets_of tree.crates) ≡ [] }
{}
