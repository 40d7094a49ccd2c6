//! Laws of programs. Each is proved, and its function does nothing.

ghost use Rattle.mm_program.specs.Example.{example};
ghost use Rattle.mm_program.specs.Valid.{IsValid};

/// The condition of `Program::build` can be met: a small program meets it.
pub fn can_be_built()
    ensures { IsValid example }
{}
