//! Instances of the functions of a program are items that symbols tell apart. The law is proved, and its function does
//! nothing.

ghost use Rattle.mm_terms.specs.declared.item.Item.{Item};
ghost use Rattle.mm_plain.specs.declared.program.Program.{Program};
ghost use Rattle.mm_plain.specs.WellFormed.{IsInstanceIn};
ghost use Rattle.mm_symbols.specs.ItemForms.{IsItemIn};

/// An instance of a function of the program is an item of the program.
pub fn instances_are_items()
    ensures { (p : Program) (x : Item) → IsInstanceIn p x → IsItemIn p x }
{}
