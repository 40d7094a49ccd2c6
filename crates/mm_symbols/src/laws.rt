//! Laws of symbols. Each is proved, and its function does nothing.

ghost use Rattle.std.specs.Prelude.{◌≡◌, ◌≤◌, List, ℕ, All};
ghost use Rattle.mm_terms.specs.declared.item.Item.{Item};
ghost use Rattle.mm_terms.specs.Order.{types_of};
ghost use Rattle.mm_plain.specs.declared.program.Program.{Program};
ghost use Rattle.mm_symbols.specs.declared.form.SymbolForm.{SymbolForm};
ghost use Rattle.mm_symbols.specs.SymbolText.{symbol_text};
ghost use Rattle.mm_symbols.specs.SymbolForms.{IsForm, IsSymbolOf};
ghost use Rattle.mm_symbols.specs.ItemForms.{form_of, depth_of, HasNames, IsItemIn};

/// A symbol has one form, and so the form that is read is the form that was written.
pub fn one_form()
    ensures { (bytes : List ℕ) (form other : SymbolForm) → IsSymbolOf form bytes → IsSymbolOf other bytes → form ≡ other }
{}

/// In a program whose functions have paths, and each its own, two items with one symbol are one.
pub fn one_item()
    ensures { (p : Program) (x y : Item) → HasNames p → IsItemIn p x → IsItemIn p y →
        symbol_text (form_of p x) ≡ symbol_text (form_of p y) → x ≡ y }
{}

/// In such a program what is written for an item is a symbol, where its types nest no deeper than types of symbols do.
pub fn is_symbol()
    ensures { (p : Program) (x : Item) → HasNames p → IsItemIn p x → All (λ t. depth_of t ≤ 4096) (types_of x) →
        IsSymbolOf (form_of p x) (symbol_text (form_of p x)) }
{}
