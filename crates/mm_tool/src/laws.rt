//! Laws of the program that a text means. Each is proved, and its function does nothing.

ghost use Rattle.std.specs.Prelude.{◌≡◌, ℕ, List};
ghost use Rattle.mm_terms.specs.Closure.{IsMember};
ghost use Rattle.mm_terms.specs.declared.item.Item.{Item};
ghost use Rattle.mm_plain.specs.Roots.{roots_of};
ghost use Rattle.mm_plain.specs.Uses.{uses_of};
ghost use Rattle.mm_plain.specs.WellFormed.{IsWellFormed};
ghost use Rattle.mm_plain.specs.declared.program.Program.{Program};
ghost use Rattle.mm_names.specs.Names.{IsName};
ghost use Rattle.mm_machines.specs.Demand.{observed_demand};
ghost use Rattle.mm_symbols.specs.ItemForms.{HasNames, IsItemIn};
ghost use Rattle.mm_tool.specs.Observed.{obs_text, obs_status};
ghost use Rattle.mm_tool.specs.Report.{IsLinkAnswer, IsObjectsOf, Means};

/// What a text means is a well-formed program: its crate has a name, and each function has a path, no two the same. So
/// its members are items that symbols tell apart.
pub fn means_names()
    ensures well_formed { (text : List ℕ) (p : Program) → Means text p → IsWellFormed p }
    ensures krate { (text : List ℕ) (p : Program) → Means text p → IsName p.krate }
    ensures names { (text : List ℕ) (p : Program) → Means text p → HasNames p }
    ensures members { (text : List ℕ) (p : Program) (limit : ℕ) (x : Item) → Means text p →
        IsMember (roots_of p) (uses_of p limit) x → IsItemIn p x }
{}

/// What is reported of the bytes that `build` writes is what is seen of the program, for every number of steps. So their run
/// is never refused.
pub fn built_runs()
    ensures { (p : Program) (items : List Item) (bytes : List ℕ) (steps status : ℕ) (output : List ℕ) →
        IsObjectsOf p items bytes → IsLinkAnswer bytes steps status output →
        (status ≡ obs_status (observed_demand p steps).ended) × (output ≡ obs_text (observed_demand p steps)) }
{}
