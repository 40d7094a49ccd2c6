//! Laws of the machines. Each is proved, and its function does nothing.

ghost use Rattle.std.specs.Prelude.{◌≡◌, ℕ, List};
ghost use Rattle.mm_terms.specs.declared.item.Item.{Item};
ghost use Rattle.mm_plain.specs.declared.program.Program.{Program};
ghost use Rattle.mm_objects.specs.declared.objects.ObjUnit.{ObjUnit};
ghost use Rattle.mm_objects.specs.Emitted.{AllResolve};
ghost use Rattle.mm_machines.specs.Agreement.{StandsAt};
ghost use Rattle.mm_plain.specs.Roots.{main_item};
ghost use Rattle.mm_machines.specs.Demand.{observed_demand};
ghost use Rattle.mm_machines.specs.Image.{observed_image};
ghost use Rattle.mm_objects.specs.declared.target.Target.{Target};

/// Units in which each reference names a definition of the item that is called there are seen to do what the program
/// does, after any number of steps, where their run begins with a definition of `main`.
pub fn one_run()
    ensures { (p : Program) (items : List Item) (us : List ObjUnit) (main : Target) (n : ℕ) →
        AllResolve p items us → StandsAt p items us (main_item p) main → observed_image us main n ≡ observed_demand p n }
{}
