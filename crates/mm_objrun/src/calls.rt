ghost use Rattle.std.specs.Prelude.{◌≡◌, ◌+◌, ◌-◌, ◌<◌, IfOk, OnOk, length, map, option_copied};
ghost use Rattle.mm_machines.specs.Answers.{allocations_of};
ghost use Rattle.mm_machines.specs.Forms.{call as calling, return as returning, Shape, entered, evaluated_call, returned_result, locals_for, started};
ghost use Rattle.mm_machines.specs.Image.{call_found, def_shape, image_call, image_operand, image_place};
ghost use Rattle.mm_objects.specs.Resolution.{def_at as def_there};
ghost use Rattle.mm_machines.specs.Memory.{whole_allocation, with_locals};
ghost use Rattle.mm_objects.specs.declared.target.Target.{Target};
ghost use Rattle.mm_objects.specs.declared.target.VtableId.{VtableId};
ghost use Rattle.mm_objrun.specs.Steps.{EvaluatesCall, Steps, Continues, Writes, evaluated_call_of, set_up, state_of};

use crate::machine::{CallArgs, Machine, SuspendedFrame};
use crate::operands::{RunMemory, find, operands};
use crate::values::RunValue;
use mm_link::Image;
use mm_machines::{BlockKind, Ended, Frame, Halt, LocalRange, Trap, Value};
use mm_objects::{ObjCallee, ObjDef, ObjOperand, ObjPlace, ObjUnit, Target};
use mm_terms::NoMemory;
use std::alloc::Global;

/// How many parameters and locals a function has.
#[derive(Clone, Copy)]
pub struct Counts {
    pub params: u32,
    pub locals: u32,
}

/// The definition with a unit's and its own index.
pub fn def_at(units: &[ObjUnit], t: Target) -> Option<&ObjDef>
    ensures { option_copied result ≡ def_there units.now t }
{
    match units.get(t.unit as usize) {
        None => None,
        Some(unit) => unit.defs.get(t.def as usize),
    }
}

/// The parameters and locals of the definition with a unit's and its own index.
pub fn counts_at(units: &[ObjUnit], t: Target) -> Counts
    ensures params { result.params ≡ (def_shape (def_there units.now t)).params }
    ensures locals { result.locals ≡ (def_shape (def_there units.now t)).locals }
{
    match def_at(units, t) {
        None => Counts {
            params: 0,
            locals: 1,
        },
        Some(ObjDef::Code { params, locals, .. }) => Counts {
            params: *params,
            locals: *locals,
        },
    }
}

/// The operands of a call, and then where its result goes.
fn evaluate_call(
    alloc: Global,
    frame: &Frame<Target>,
    memory: &mut RunMemory,
    os: &[ObjOperand],
    place: ObjPlace,
) -> Result<CallArgs, Halt>
    ensures { EvaluatesCall result (allocations_of Target VtableId memory.new) (evaluated_call Target VtableId (map (image_operand frame.now.function) os.now) (image_place frame.now.function place) frame.now.locals (allocations_of Target VtableId memory.old)) }
{
    let values = operands(alloc, frame, memory, os)?;
    let dest = find(frame, memory, place)?;
    Ok(CallArgs { values, dest })
}

/// Takes the value of the result as it is, frees the locals, and writes the value where the caller wants it.
fn return_result(
    alloc: Global,
    locals: LocalRange,
    memory: &mut RunMemory,
    dest: u64,
) -> Result<(), Halt>
    ensures { Writes result (allocations_of Target VtableId memory.new) (returned_result Target VtableId locals (whole_allocation dest) (allocations_of Target VtableId memory.old)) }
{
    if locals.count == 0 {
        return Err(Halt::Trap(Trap::Dangling));
    }
    let v = memory.read(locals.first)?.duplicate(alloc)?;
    memory.free_locals(locals)?;
    memory.write(dest, v)?;
    Ok(())
}

/// Makes the locals of a function: the result, the arguments, and so many others.
fn make_frame(
    memory: &mut RunMemory,
    function: Target,
    values: Vec<RunValue>,
    more: u64,
) -> Result<Frame<Target>, NoMemory>
    ensures frame { IfOk result (λ f. f ≡ started Target VtableId function (length (set_up values.items more)) (allocations_of Target VtableId memory.old)) }
    ensures made { OnOk result (allocations_of Target VtableId memory.new ≡ with_locals Target VtableId (set_up values.items more) (allocations_of Target VtableId memory.old)) }
{
    let Some(count) = (values.len() as u64).checked_add(1) else {
        return Err(NoMemory);
    };
    let Some(count) = count.checked_add(more) else {
        return Err(NoMemory);
    };
    let first = memory.make(BlockKind::Local, Value::Uninit)?;
    memory.make_locals(values)?;
    memory.make_unset(more)?;
    Ok(Frame {
        function,
        block: 0,
        index: 0,
        locals: LocalRange { first, count },
    })
}

impl Machine {
    /// The function starts, and the one that runs waits for it.
    fn enter(
        &mut self,
        function: Target,
        counts: Counts,
        h: CallArgs,
        label: u32,
    ) -> Result<(), NoMemory>
        ensures { (shape : Shape) → counts.params ≡ shape.params → counts.locals ≡ shape.locals →
            OnOk result (state_of self.new ≡ entered Target VtableId function (locals_for Target VtableId shape h.values.items) label (evaluated_call_of h (allocations_of Target VtableId self.old.memory)) (state_of self.old)) }
    {
        let more = counts
            .locals
            .saturating_sub(1)
            .saturating_sub(counts.params);
        let frame = make_frame(&mut self.memory, function, h.values, more as u64)?;
        let mut caller = std::mem::replace(&mut self.top, frame);
        caller.block = label;
        caller.index = 0;
        self.below.push(SuspendedFrame {
            frame: caller,
            dest: h.dest,
        })?;
        Ok(())
    }

    /// Calls a function, where there are as many operands as parameters.
    fn call_at(
        &mut self,
        alloc: Global,
        units: &[ObjUnit],
        target: Target,
        os: &[ObjOperand],
        place: ObjPlace,
        label: u32,
    ) -> Result<Option<Ended>, Halt>
        ensures { Steps result (state_of self.new) (calling Target VtableId target (def_shape (def_there units.now target)) (map (image_operand self.old.top.function) os.now) (image_place self.old.top.function place) label (state_of self.old)) }
    {
        let counts = counts_at(units, target);
        let args = evaluate_call(alloc, &self.top, &mut self.memory, os, place)?;
        if args.values.len() != counts.params as usize {
            return Err(Halt::Trap(Trap::WrongArity));
        }
        self.enter(target, counts, args, label)?;
        Ok(None)
    }

    /// Makes the step of a call.
    pub fn call(
        &mut self,
        alloc: Global,
        image: &Image,
        callee: &ObjCallee,
        os: &[ObjOperand],
        place: ObjPlace,
        label: u32,
    ) -> Result<Option<Ended>, Halt>
        ensures { Steps result (state_of self.new) (image_call image.now.objects.units self.old.top.function callee.now (map (image_operand self.old.top.function) os.now) (image_place self.old.top.function place) label (state_of self.old)) }
    {
        let ObjCallee::Fn(symbol) = callee;
        match image.find(self.top.function.unit, symbol.as_slice()) {
            None => Err(Halt::Trap(Trap::Dangling)),
            Some(target) => self.call_at(
                alloc,
                image.objects().units.as_slice(),
                target,
                os,
                place,
                label,
            ),
        }
    }

    /// Makes the step of a return.
    pub fn leave(&mut self, alloc: Global) -> Result<Option<Ended>, Halt>
        ensures { Steps result (state_of self.new) (returning Target VtableId (state_of self.old)) }
    {
        let Some(suspended) = self.below.pop() else {
            return Ok(Some(Ended::Returned));
        };
        return_result(alloc, self.top.locals, &mut self.memory, suspended.dest)?;
        self.top = suspended.frame;
        Ok(None)
    }
}
