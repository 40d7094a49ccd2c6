ghost use Rattle.std.specs.Prelude.{◌≡◌, IfOk};
ghost use Rattle.mm_machines.specs.Image.{def_shape, observed_image};
ghost use Rattle.mm_objects.specs.Resolution.{def_at as def_there};
ghost use Rattle.mm_machines.specs.Runs.{first as first_state};
ghost use Rattle.mm_objects.specs.declared.target.Target.{Target};
ghost use Rattle.mm_objects.specs.declared.target.VtableId.{VtableId};
ghost use Rattle.mm_objrun.specs.Steps.{state_of};

use crate::calls::counts_at;
use crate::machine::Machine;
use mm_link::Image;
use mm_machines::{Ended, Frame, LocalRange, Memory, Obs};
use mm_objects::{ObjUnit, Target};
use mm_terms::NoMemory;
use sqlite_items::Items;
use std::alloc::Global;

/// A machine before the first step.
fn start(alloc: Global, units: &[ObjUnit], main: Target) -> Result<Machine, NoMemory>
    ensures { IfOk result (λ m. state_of m ≡ first_state Target VtableId main (def_shape (def_there units.now main))) }
{
    let count = counts_at(units, main).locals as u64;
    let mut memory = Memory::new(alloc);
    memory.make_unset(count)?;
    let top = Frame {
        function: main,
        block: 0,
        index: 0,
        locals: LocalRange { first: 0, count },
    };
    Ok(Machine {
        top,
        below: Vec::new(alloc),
        memory,
        printed: Vec::new(alloc),
    })
}

/// What is seen of a run of an image, up to so many steps. A step that traps is one of them.
#[tactic(auto, using(crate::proofs::Runs::one_more))]
pub fn run_image(alloc: Global, image: &Image, steps: u32) -> Result<Obs, NoMemory>
    ensures { IfOk result (λ seen. seen ≡ observed_image image.now.objects.units image.now.main steps) }
{
    let mut machine = start(alloc, image.objects().units.as_slice(), image.main())?;
    for i in 0..steps {
        if let Some(ended) = machine.step(alloc, image)? {
            let printed = Items::from_vec(machine.printed);
            return Ok(Obs { printed, ended });
        }
    }
    let printed = Items::from_vec(machine.printed);
    Ok(Obs {
        printed,
        ended: Ended::Running,
    })
}
