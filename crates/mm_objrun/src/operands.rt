ghost use Rattle.std.specs.Prelude.{◌≡◌, map};
ghost use Rattle.mm_machines.specs.Answers.{Answers, allocations_of};
ghost use Rattle.mm_machines.specs.Forms.{all_of, whole_at};
ghost use Rattle.mm_machines.specs.Image.{image_operand, image_place, image_rvalue};
ghost use Rattle.mm_machines.specs.Memory.{whole_allocation};
ghost use Rattle.mm_objects.specs.declared.target.Target.{Target};
ghost use Rattle.mm_objects.specs.declared.target.VtableId.{VtableId};
ghost use Rattle.mm_objrun.specs.Steps.{Finds, Makes, MakesSeen};

use crate::values::{RunValue, applied, negated};
use mm_machines::{Frame, Halt, Memory, Trap, Value};
use mm_objects::{ObjBase, ObjOperand, ObjPlace, ObjRvalue, Target, VtableId};
use std::alloc::Global;

/// The memory of a run.
pub type RunMemory = Memory<Target, VtableId>;

/// The number of the allocation of a place. A number past the last one is out of memory.
pub fn find(frame: &Frame<Target>, _memory: &RunMemory, place: ObjPlace) -> Result<u64, Halt>
    ensures { Finds result (image_place frame.now.function place frame.now.locals (allocations_of Target VtableId _memory.now)) }
{
    let ObjBase::Local(k) = place.base;
    if k as u64 >= frame.locals.count {
        return Err(Halt::Trap(Trap::Dangling));
    }
    match frame.locals.first.checked_add(k as u64) {
        Some(block) => Ok(block),
        None => Err(Halt::NoMemory),
    }
}

/// A copy of an allocation's value, where each of its cells has one.
fn whole(alloc: Global, memory: &RunMemory, block: u64) -> Result<RunValue, Halt>
    ensures { Answers result (whole_at Target VtableId (whole_allocation block) (allocations_of Target VtableId memory.now)) }
{
    let v = memory.read(block)?;
    if !v.is_whole() {
        return Err(Halt::Trap(Trap::Uninit));
    }
    Ok(v.duplicate(alloc)?)
}

/// The value of an operand.
pub fn operand(
    alloc: Global,
    frame: &Frame<Target>,
    memory: &mut RunMemory,
    o: ObjOperand,
) -> Result<RunValue, Halt>
    ensures { Makes result (allocations_of Target VtableId memory.new) (image_operand frame.now.function o frame.now.locals (allocations_of Target VtableId memory.old)) }
{
    match o {
        ObjOperand::Copy(place) => {
            let block = find(frame, memory, place)?;
            whole(alloc, memory, block)
        }
        ObjOperand::Move(place) => {
            let block = find(frame, memory, place)?;
            let v = whole(alloc, memory, block)?;
            memory.write(block, Value::Uninit)?;
            Ok(v)
        }
        ObjOperand::Num(n) => Ok(Value::Num(n)),
        ObjOperand::Truth(b) => Ok(Value::Truth(b)),
    }
}

/// The values of operands, from left to right.
pub fn operands(
    alloc: Global,
    frame: &Frame<Target>,
    memory: &mut RunMemory,
    os: &[ObjOperand],
) -> Result<Vec<RunValue>, Halt>
    ensures { MakesSeen (λ made. made.items) result (allocations_of Target VtableId memory.new) (all_of Target VtableId (map (image_operand frame.now.function) os.now) frame.now.locals (allocations_of Target VtableId memory.old)) }
{
    let mut made = Vec::new(alloc);
    for o in os {
        let v = operand(alloc, frame, memory, *o)?;
        if made.push(v).is_err() {
            return Err(Halt::NoMemory);
        }
    }
    Ok(made)
}

/// The value that is made.
pub fn rvalue(
    alloc: Global,
    frame: &Frame<Target>,
    memory: &mut RunMemory,
    r: ObjRvalue,
) -> Result<RunValue, Halt>
    ensures { Makes result (allocations_of Target VtableId memory.new) (image_rvalue frame.now.function r frame.now.locals (allocations_of Target VtableId memory.old)) }
{
    match r {
        ObjRvalue::Use(o) => operand(alloc, frame, memory, o),
        ObjRvalue::Not(o) => {
            let v = operand(alloc, frame, memory, o)?;
            Ok(negated(&v)?)
        }
        ObjRvalue::Binary(op, a, b) => {
            let x = operand(alloc, frame, memory, a)?;
            let y = operand(alloc, frame, memory, b)?;
            Ok(applied(op, &x, &y)?)
        }
    }
}
