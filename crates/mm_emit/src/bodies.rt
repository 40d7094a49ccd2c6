//! What stands in a body and names no item. It stays as it is.

ghost use Rattle.std.specs.Prelude.{◌≡◌, map, All, IfOk};
ghost use Rattle.mm_objects.specs.Emitted.{place_of, operand_of, rvalue_of, instr_of};
ghost use Rattle.mm_emit.specs.Numbers.{FitsOperand, FitsRvalue, FitsInstr};

use mm_objects::{ObjBase, ObjInstr, ObjOperand, ObjPlace, ObjRvalue};
use mm_plain::{Operand, Place, Rvalue, Statement};
use mm_terms::NoMemory;
use sqlite_items::Items;
use std::alloc::Global;

pub fn place(place: Place) -> ObjPlace
    ensures { result ≡ place_of place }
{
    ObjPlace {
        base: ObjBase::Local(place.local),
    }
}

pub fn operand(from: Operand) -> ObjOperand
    ensures made { result ≡ operand_of from }
    ensures fits { FitsOperand result }
{
    match from {
        Operand::Copy(from) => ObjOperand::Copy(place(from)),
        Operand::Move(from) => ObjOperand::Move(place(from)),
        Operand::Num(n) => ObjOperand::Num(n),
        Operand::Truth(truth) => ObjOperand::Truth(truth),
    }
}

pub fn operands(alloc: Global, from: &[Operand]) -> Result<Items<ObjOperand>, NoMemory>
    ensures made { IfOk result (λ made. made ≡ map operand_of from.now) }
    ensures fits { IfOk result (All FitsOperand) }
{
    let mut made = Items::new(alloc);
    for one in from {
        made.push(operand(*one))?;
    }
    Ok(made)
}

fn rvalue(from: Rvalue) -> ObjRvalue
    ensures made { result ≡ rvalue_of from }
    ensures fits { FitsRvalue result }
{
    match from {
        Rvalue::Use(from) => ObjRvalue::Use(operand(from)),
        Rvalue::Not(from) => ObjRvalue::Not(operand(from)),
        Rvalue::Binary(op, left, right) => ObjRvalue::Binary(op, operand(left), operand(right)),
    }
}

fn instr(from: Statement) -> ObjInstr
    ensures made { result ≡ instr_of from }
    ensures fits { FitsInstr result }
{
    match from {
        Statement::Set(to, from) => ObjInstr::Set(place(to), rvalue(from)),
        Statement::Print(from) => ObjInstr::Print(operand(from)),
    }
}

pub fn instrs(alloc: Global, from: &[Statement]) -> Result<Items<ObjInstr>, NoMemory>
    ensures made { IfOk result (λ made. made ≡ map instr_of from.now) }
    ensures fits { IfOk result (All FitsInstr) }
{
    let mut made = Items::new(alloc);
    for one in from {
        made.push(instr(*one))?;
    }
    Ok(made)
}
