ghost use Rattle.std.specs.Prelude.{◌≡◌, IfOk, map};
ghost use Rattle.mm_machines.specs.Answers.{allocations_of};
ghost use Rattle.mm_machines.specs.Forms.{arm_for as arm, choice_from, jumped, switch as switching};
ghost use Rattle.mm_machines.specs.Image.{image as code, image_end, image_operand};
ghost use Rattle.mm_machines.specs.Runs.{step as stepping};
ghost use Rattle.mm_objects.specs.declared.target.Target.{Target};
ghost use Rattle.mm_objects.specs.declared.target.VtableId.{VtableId};
ghost use Rattle.mm_objrun.specs.Steps.{Continues, Makes, Steps, state_of};

use crate::calls::def_at;
use crate::machine::Machine;
use crate::operands::{RunMemory, operand};
use crate::values::choice;
use mm_link::Image;
use mm_machines::{Ended, Frame, Halt, Trap};
use mm_objects::{ObjDef, ObjEnd, ObjOperand, Target};
use mm_plain::Arm;
use mm_terms::NoMemory;
use std::alloc::Global;

/// The label of the first arm with the number, or else the other.
fn arm_for(n: u64, arms: &[Arm], other: u32) -> u32
    ensures { result ≡ arm n arms.now other }
{
    for arm in arms {
        if n == arm.number {
            return arm.label;
        }
    }
    other
}

/// The number by which an operand chooses.
fn choice_made(
    alloc: Global,
    frame: &Frame<Target>,
    memory: &mut RunMemory,
    o: ObjOperand,
) -> Result<u64, Halt>
    ensures { Makes result (allocations_of Target VtableId memory.new) (choice_from Target VtableId (image_operand frame.now.function o) frame.now.locals (allocations_of Target VtableId memory.old)) }
{
    let v = operand(alloc, frame, memory, o)?;
    Ok(choice(&v)?)
}

impl Machine {
    /// Goes on at the start of a block.
    fn jump(&mut self, label: u32)
        ensures { state_of self.new ≡ jumped Target VtableId label (state_of self.old) }
    {
        self.top.block = label;
        self.top.index = 0;
    }

    fn switch(
        &mut self,
        alloc: Global,
        o: ObjOperand,
        arms: &[Arm],
        other: u32,
    ) -> Result<Option<Ended>, Halt>
        ensures { Steps result (state_of self.new) (switching Target VtableId (image_operand self.old.top.function o) arms.now other (state_of self.old)) }
    {
        let n = choice_made(alloc, &self.top, &mut self.memory, o)?;
        let label = arm_for(n, arms, other);
        self.jump(label);
        Ok(None)
    }

    /// Makes the step of the end of a block.
    fn end(&mut self, alloc: Global, image: &Image, end: &ObjEnd) -> Result<Option<Ended>, Halt>
        ensures { Steps result (state_of self.new) (image_end image.now.objects.units self.old.top.function end.now (state_of self.old)) }
    {
        match end {
            ObjEnd::Return => self.leave(alloc),
            ObjEnd::Unreachable => Err(Halt::Trap(Trap::Unreachable)),
            ObjEnd::Goto(label) => {
                self.jump(*label);
                Ok(None)
            }
            ObjEnd::Switch(o, arms, other) => self.switch(alloc, *o, arms.as_slice(), *other),
            ObjEnd::Call(place, callee, os, label) => {
                self.call(alloc, image, callee, os.as_slice(), *place, *label)
            }
        }
    }

    /// Makes one step, as code that may trap.
    fn try_step(&mut self, alloc: Global, image: &Image) -> Result<Option<Ended>, Halt>
        ensures { Steps result (state_of self.new) (stepping Target VtableId (code image.now.objects.units) (state_of self.old)) }
    {
        let Some(def) = def_at(image.objects().units.as_slice(), self.top.function) else {
            return Err(Halt::Trap(Trap::Unreachable));
        };
        let ObjDef::Code { blocks, .. } = def;
        let Some(block) = blocks.get(self.top.block as usize) else {
            return Err(Halt::Trap(Trap::Unreachable));
        };
        let _count = block.instrs.len();
        match block.instrs.get(self.top.index) {
            Some(instr) => self.statement(alloc, *instr),
            None => self.end(alloc, image, &block.end),
        }
    }

    /// Makes one step. It is the end of the run where that is so.
    pub fn step(&mut self, alloc: Global, image: &Image) -> Result<Option<Ended>, NoMemory>
        ensures { IfOk result (λ over. Continues over (state_of self.new) (stepping Target VtableId (code image.now.objects.units) (state_of self.old))) }
    {
        match self.try_step(alloc, image) {
            Ok(over) => Ok(over),
            Err(Halt::Trap(trap)) => Ok(Some(Ended::Trap(trap))),
            Err(Halt::NoMemory) => Err(NoMemory),
        }
    }
}
