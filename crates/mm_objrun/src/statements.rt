ghost use Rattle.std.specs.Prelude.{◌≡◌, ◌+◌, ◌<◌, ◌^◌};
ghost use Rattle.mm_machines.specs.Answers.{allocations_of};
ghost use Rattle.mm_machines.specs.Forms.{assigned, number_from, print as printing, set as setting};
ghost use Rattle.mm_machines.specs.Image.{image_instr, image_operand, image_place, image_rvalue};
ghost use Rattle.mm_objects.specs.declared.target.Target.{Target};
ghost use Rattle.mm_objects.specs.declared.target.VtableId.{VtableId};
ghost use Rattle.mm_objrun.specs.Steps.{Makes, Steps, Writes, state_of};

use crate::machine::Machine;
use crate::operands::{RunMemory, find, operand, rvalue};
use crate::values::number;
use mm_machines::{Ended, Frame, Halt};
use mm_objects::{ObjInstr, ObjOperand, ObjPlace, ObjRvalue, Target};
use std::alloc::Global;

/// Makes a value, and then writes it into a place.
fn assign(
    alloc: Global,
    frame: &Frame<Target>,
    memory: &mut RunMemory,
    place: ObjPlace,
    r: ObjRvalue,
) -> Result<(), Halt>
    ensures { Writes result (allocations_of Target VtableId memory.new) (assigned Target VtableId (image_place frame.now.function place) (image_rvalue frame.now.function r) frame.now.locals (allocations_of Target VtableId memory.old)) }
{
    let v = rvalue(alloc, frame, memory, r)?;
    let block = find(frame, memory, place)?;
    memory.write(block, v)?;
    Ok(())
}

/// The number that an operand is.
fn number_made(
    alloc: Global,
    frame: &Frame<Target>,
    memory: &mut RunMemory,
    o: ObjOperand,
) -> Result<u64, Halt>
    ensures { Makes result (allocations_of Target VtableId memory.new) (number_from Target VtableId (image_operand frame.now.function o) frame.now.locals (allocations_of Target VtableId memory.old)) }
{
    let v = operand(alloc, frame, memory, o)?;
    Ok(number(&v)?)
}

impl Machine {
    fn set(&mut self, alloc: Global, place: ObjPlace, r: ObjRvalue) -> Result<Option<Ended>, Halt>
        requires { self.old.top.index + 1 < 2 ^ 64 }
        ensures { Steps result (state_of self.new) (setting Target VtableId (image_place self.old.top.function place) (image_rvalue self.old.top.function r) (state_of self.old)) }
    {
        assign(alloc, &self.top, &mut self.memory, place, r)?;
        self.top.index += 1;
        Ok(None)
    }

    fn print(&mut self, alloc: Global, o: ObjOperand) -> Result<Option<Ended>, Halt>
        requires { self.old.top.index + 1 < 2 ^ 64 }
        ensures { Steps result (state_of self.new) (printing Target VtableId (image_operand self.old.top.function o) (state_of self.old)) }
    {
        let n = number_made(alloc, &self.top, &mut self.memory, o)?;
        if self.printed.push(n).is_err() {
            return Err(Halt::NoMemory);
        }
        self.top.index += 1;
        Ok(None)
    }

    /// Makes the step of a statement.
    pub fn statement(&mut self, alloc: Global, instr: ObjInstr) -> Result<Option<Ended>, Halt>
        requires { self.old.top.index + 1 < 2 ^ 64 }
        ensures { Steps result (state_of self.new) (image_instr self.old.top.function instr (state_of self.old)) }
    {
        match instr {
            ObjInstr::Set(place, r) => self.set(alloc, place, r),
            ObjInstr::Print(o) => self.print(alloc, o),
        }
    }
}
