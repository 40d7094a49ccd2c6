//! Laws of programs that are read from texts. Each is proved, and its function does nothing.

ghost use Rattle.std.specs.Prelude.{◌≡◌, Contains, true};
ghost use Rattle.mm_ast.specs.declared.items.Ast.{Ast};
ghost use Rattle.mm_program.specs.declared.parts.Parts.{Parts};
ghost use Rattle.mm_program.specs.Valid.{IsValid};
ghost use Rattle.mm_resolve.specs.Scopes.{leads_to};
ghost use Rattle.mm_rules.specs.TreeFaults.{KeepsRules};
ghost use Rattle.mm_written.specs.Written.{is_written};
ghost use Rattle.mm_load.specs.Bodies.{HasBodies};
ghost use Rattle.mm_load.specs.Counted.{is_counted};
ghost use Rattle.mm_load.specs.Leads.{Leads};
ghost use Rattle.mm_load.specs.Located.{Located, items_of};
ghost use Rattle.mm_load.specs.Meaning.{IsProgram, all_parts, program_of};

/// A tree means one program.
pub fn one_program()
    ensures { (tree : Ast) (p q : Parts) → IsProgram tree p → IsProgram tree q → p ≡ q }
{}

/// What a tree that keeps the rules means is a program: every id that stands in it is there and of its kind, and every arity is right. And
/// its bodies name no local and no block but their own.
pub fn meant_programs()
    ensures valid { (tree : Ast) → is_written tree ≡ true → KeepsRules tree → is_counted (program_of tree.crates) ≡ true → IsValid (program_of tree.crates) }
    ensures bodies { (tree : Ast) → is_written tree ≡ true → KeepsRules tree → HasBodies (all_parts tree.crates) }
{}

/// What a path of a tree that keeps the rules leads to is in its program, of the kind that is wanted there, and with as many type
/// parameters and operands as are said of it.
pub fn paths_lead_to_definitions()
    ensures { (tree : Ast) → is_written tree ≡ true → KeepsRules tree → (l : Located) → Contains (items_of tree.crates) l → Leads (program_of tree.crates) (leads_to l.scope) }
{}
