//! Laws of what a tree means. Each is proved, and its function does nothing.

ghost use Rattle.mm_ast.specs.declared.items.Ast.{Ast};
ghost use Rattle.mm_plain.specs.WellFormed.{IsWellFormed};
ghost use Rattle.mm_plain.specs.declared.program.Program.{Program};
ghost use Rattle.mm_load_plain.specs.Meaning.{IsProgram};
ghost use Rattle.mm_ast.specs.Written.{IsWritten};

/// What a tree means that is read from a text is a well-formed program.
pub fn means_well_formed()
    ensures { (tree : Ast) (p : Program) → IsWritten tree → IsProgram tree p → IsWellFormed p }
{}
