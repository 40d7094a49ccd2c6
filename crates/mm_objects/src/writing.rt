ghost use Rattle.std.specs.Prelude.{◌≡◌, ◌++◌, [], ◌∷◌, ℕ, List, map, flat_map, length, codes, decimal, IfOk, OnOk};
ghost use Rattle.std.specs.List.{enumerate_from};
ghost use Rattle.mm_objects.specs.ObjectText.{place_text, operand_text, op_text, rvalue_words, instr_words, arm_text, callee_text, end_words, label_line, block_lines, linkage_text, fn_line, def_lines, unit_lines, lines_of, line_text, written, objects_text};
ghost use Rattle.mm_objects.specs.Written.{spaced, pieces};

use crate::objects::{
    Linkage, ObjBase, ObjBlock, ObjCallee, ObjDef, ObjEnd, ObjInstr, ObjOperand, ObjPlace,
    ObjRvalue, ObjUnit, Objects,
};
use itoa::Buffer;
use mm_plain::{Arm, Op};
use mm_terms::NoMemory;
use std::alloc::Global;

/// Writes a number behind what is there.
fn write_number(n: u64, out: &mut Vec<u8>) -> Result<(), NoMemory>
    ensures { OnOk result (out.new.items ≡ out.old.items ++ decimal n) }
{
    let mut buffer = Buffer::new();
    out.extend_from_slice(buffer.format(n).as_bytes())?;
    Ok(())
}

fn write_place(place: &ObjPlace, out: &mut Vec<u8>) -> Result<(), NoMemory>
    ensures { OnOk result (out.new.items ≡ out.old.items ++ place_text place.now) }
{
    match place.base {
        ObjBase::Local(local) => {
            out.push(b'_')?;
            write_number(u64::from(local), out)
        }
    }
}

fn write_operand(operand: &ObjOperand, out: &mut Vec<u8>) -> Result<(), NoMemory>
    ensures { OnOk result (out.new.items ≡ out.old.items ++ operand_text operand.now) }
{
    match operand {
        ObjOperand::Copy(place) => {
            out.extend_from_slice(b"copy:")?;
            write_place(place, out)
        }
        ObjOperand::Move(place) => {
            out.extend_from_slice(b"move:")?;
            write_place(place, out)
        }
        ObjOperand::Num(n) => write_number(*n, out),
        ObjOperand::Truth(true) => {
            out.extend_from_slice(b"true")?;
            Ok(())
        }
        ObjOperand::Truth(false) => {
            out.extend_from_slice(b"false")?;
            Ok(())
        }
    }
}

/// The word for an operation.
fn op_text(op: Op) -> &'static [u8]
    ensures { result.now ≡ op_text op }
{
    match op {
        Op::Add => b"add",
        Op::Sub => b"sub",
        Op::Mul => b"mul",
        Op::Div => b"div",
        Op::Rem => b"rem",
        Op::Eq => b"eq",
        Op::Lt => b"lt",
    }
}

/// Writes a word behind a blank.
fn write_word(word: &[u8], out: &mut Vec<u8>) -> Result<(), NoMemory>
    ensures { OnOk result (out.new.items ≡ out.old.items ++ 32 ∷ word.now) }
{
    out.push(b' ')?;
    out.extend_from_slice(word)?;
    Ok(())
}

fn write_operand_word(operand: &ObjOperand, out: &mut Vec<u8>) -> Result<(), NoMemory>
    ensures { OnOk result (out.new.items ≡ out.old.items ++ 32 ∷ operand_text operand.now) }
{
    out.push(b' ')?;
    write_operand(operand, out)
}

fn write_number_word(n: u64, out: &mut Vec<u8>) -> Result<(), NoMemory>
    ensures { OnOk result (out.new.items ≡ out.old.items ++ 32 ∷ decimal n) }
{
    out.push(b' ')?;
    write_number(n, out)
}

/// Writes the words of a value, each behind a blank.
fn write_rvalue(value: &ObjRvalue, out: &mut Vec<u8>) -> Result<(), NoMemory>
    ensures { OnOk result (out.new.items ≡ out.old.items ++ spaced (rvalue_words value.now)) }
{
    match value {
        ObjRvalue::Use(operand) => {
            write_word(b"use", out)?;
            write_operand_word(operand, out)
        }
        ObjRvalue::Not(operand) => {
            write_word(b"not", out)?;
            write_operand_word(operand, out)
        }
        ObjRvalue::Binary(op, first, second) => {
            write_word(op_text(*op), out)?;
            write_operand_word(first, out)?;
            write_operand_word(second, out)
        }
    }
}

/// Writes the line of an instruction.
fn write_instr(instr: &ObjInstr, out: &mut Vec<u8>) -> Result<(), NoMemory>
    ensures { OnOk result (out.new.items ≡ out.old.items ++ line_text (instr_words instr.now)) }
{
    match instr {
        ObjInstr::Set(place, value) => {
            out.extend_from_slice(b"set ")?;
            write_place(place, out)?;
            write_rvalue(value, out)?;
        }
        ObjInstr::Print(operand) => {
            out.extend_from_slice(b"print")?;
            write_operand_word(operand, out)?;
        }
    }
    out.push(b'\n')?;
    Ok(())
}

/// Writes operands, each behind a blank.
fn write_operands(operands: &[ObjOperand], out: &mut Vec<u8>) -> Result<(), NoMemory>
    ensures { OnOk result (out.new.items ≡ out.old.items ++ spaced (map operand_text operands.now)) }
{
    for operand in operands {
        write_operand_word(operand, out)?;
    }
    Ok(())
}

/// Writes an arm behind a blank.
fn write_arm(arm: &Arm, out: &mut Vec<u8>) -> Result<(), NoMemory>
    ensures { OnOk result (out.new.items ≡ out.old.items ++ 32 ∷ arm_text arm.now) }
{
    write_number_word(arm.number, out)?;
    out.push(b':')?;
    write_number(u64::from(arm.label), out)
}

/// Writes arms, each behind a blank.
fn write_arms(arms: &[Arm], out: &mut Vec<u8>) -> Result<(), NoMemory>
    ensures { OnOk result (out.new.items ≡ out.old.items ++ spaced (map arm_text arms.now)) }
{
    for arm in arms {
        write_arm(arm, out)?;
    }
    Ok(())
}

fn write_callee(callee: &ObjCallee, out: &mut Vec<u8>) -> Result<(), NoMemory>
    ensures { OnOk result (out.new.items ≡ out.old.items ++ callee_text callee.now) }
{
    match callee {
        ObjCallee::Fn(symbol) => {
            out.extend_from_slice(b"fn:")?;
            out.extend_from_slice(symbol.as_slice())?;
        }
    }
    Ok(())
}

fn write_switch(
    on: &ObjOperand,
    arms: &[Arm],
    otherwise: u32,
    out: &mut Vec<u8>,
) -> Result<(), NoMemory>
    ensures { OnOk result (out.new.items ≡ out.old.items ++ pieces (end_words (ObjEnd.Switch on.now arms.now otherwise))) }
{
    out.extend_from_slice(b"switch")?;
    write_operand_word(on, out)?;
    write_arms(arms, out)?;
    write_word(b"else", out)?;
    write_number_word(u64::from(otherwise), out)
}

fn write_call(
    place: &ObjPlace,
    callee: &ObjCallee,
    args: &[ObjOperand],
    target: u32,
    out: &mut Vec<u8>,
) -> Result<(), NoMemory>
    ensures { OnOk result (out.new.items ≡ out.old.items ++ pieces (end_words (ObjEnd.Call place.now callee.now args.now target))) }
{
    out.extend_from_slice(b"call ")?;
    write_place(place, out)?;
    out.push(b' ')?;
    write_callee(callee, out)?;
    write_operands(args, out)?;
    write_word(b"->", out)?;
    write_number_word(u64::from(target), out)
}

/// Writes the words of an end.
fn write_end(end: &ObjEnd, out: &mut Vec<u8>) -> Result<(), NoMemory>
    ensures { OnOk result (out.new.items ≡ out.old.items ++ pieces (end_words end.now)) }
{
    match end {
        ObjEnd::Return => {
            out.extend_from_slice(b"return")?;
            Ok(())
        }
        ObjEnd::Unreachable => {
            out.extend_from_slice(b"unreachable")?;
            Ok(())
        }
        ObjEnd::Goto(label) => {
            out.extend_from_slice(b"goto")?;
            write_number_word(u64::from(*label), out)
        }
        ObjEnd::Switch(on, arms, otherwise) => write_switch(on, arms.as_slice(), *otherwise, out),
        ObjEnd::Call(place, callee, args, target) => {
            write_call(place, callee, args.as_slice(), *target, out)
        }
    }
}

/// Writes the lines of instructions.
fn write_instrs(instrs: &[ObjInstr], out: &mut Vec<u8>) -> Result<(), NoMemory>
    ensures { OnOk result (out.new.items ≡ out.old.items ++ written (map instr_words instrs.now)) }
{
    for instr in instrs {
        write_instr(instr, out)?;
    }
    Ok(())
}

/// Writes the lines of a block behind its label.
fn write_body(block: &ObjBlock, out: &mut Vec<u8>) -> Result<(), NoMemory>
    ensures { OnOk result (out.new.items ≡ out.old.items ++ written (map instr_words block.now.instrs ++ end_words block.now.end ∷ [])) }
{
    write_instrs(block.instrs.as_slice(), out)?;
    write_end(&block.end, out)?;
    out.push(b'\n')?;
    Ok(())
}

/// Writes the lines of a block with its number.
fn write_block(number: u64, block: &ObjBlock, out: &mut Vec<u8>) -> Result<(), NoMemory>
    ensures { OnOk result (out.new.items ≡ out.old.items ++ written (block_lines (number, block.now))) }
{
    out.extend_from_slice(b"bb")?;
    write_number(number, out)?;
    out.push(b'\n')?;
    write_body(block, out)
}

/// Writes the lines of blocks, numbered from 0.
fn write_blocks(blocks: &[ObjBlock], out: &mut Vec<u8>) -> Result<(), NoMemory>
    ensures { OnOk result (out.new.items ≡ out.old.items ++ written (flat_map block_lines (enumerate_from 0 blocks.now))) }
{
    let mut number: u64 = 0;
    for block in blocks {
        write_block(number, block, out)?;
        number += 1;
    }
    Ok(())
}

/// The word for a linkage.
fn linkage_text(link: Linkage) -> &'static [u8]
    ensures { result.now ≡ linkage_text link }
{
    match link {
        Linkage::External => b"External",
        Linkage::Internal => b"Internal",
    }
}

/// Writes the first line of a function, behind its symbol and without its end.
fn write_counts(
    link: Linkage,
    params: u32,
    locals: u32,
    blocks: u64,
    out: &mut Vec<u8>,
) -> Result<(), NoMemory>
    ensures { OnOk result (out.new.items ≡ out.old.items ++ spaced (linkage_text link ∷ decimal params ∷ decimal locals ∷ decimal blocks ∷ [])) }
{
    write_word(linkage_text(link), out)?;
    write_number_word(u64::from(params), out)?;
    write_number_word(u64::from(locals), out)?;
    write_number_word(blocks, out)
}

/// Writes the lines of a definition.
fn write_def(def: &ObjDef, out: &mut Vec<u8>) -> Result<(), NoMemory>
    ensures { OnOk result (out.new.items ≡ out.old.items ++ written (def_lines def.now)) }
{
    match def {
        ObjDef::Code {
            symbol,
            link,
            params,
            locals,
            blocks,
        } => {
            out.extend_from_slice(b"fn")?;
            write_word(symbol.as_slice(), out)?;
            write_counts(*link, *params, *locals, blocks.len() as u64, out)?;
            out.push(b'\n')?;
            write_blocks(blocks.as_slice(), out)
        }
    }
}

/// Writes the lines of definitions.
fn write_defs(defs: &[ObjDef], out: &mut Vec<u8>) -> Result<(), NoMemory>
    ensures { OnOk result (out.new.items ≡ out.old.items ++ written (flat_map def_lines defs.now)) }
{
    for def in defs {
        write_def(def, out)?;
    }
    Ok(())
}

/// Writes the lines of a unit.
fn write_unit(unit: &ObjUnit, out: &mut Vec<u8>) -> Result<(), NoMemory>
    ensures { OnOk result (out.new.items ≡ out.old.items ++ written (unit_lines unit.now)) }
{
    out.extend_from_slice(b"unit ")?;
    out.extend_from_slice(unit.name.as_slice())?;
    out.push(b'\n')?;
    write_defs(unit.defs.as_slice(), out)
}

/// Writes the lines of units.
fn write_units(units: &[ObjUnit], out: &mut Vec<u8>) -> Result<(), NoMemory>
    ensures { OnOk result (out.new.items ≡ out.old.items ++ written (flat_map unit_lines units.now)) }
{
    for unit in units {
        write_unit(unit, out)?;
    }
    Ok(())
}

/// The text of objects, which is their one spelling.
#[tactic(auto, unfolding(crate::specs::ObjectText::objects_text))]
pub fn write_objects(alloc: Global, objects: &Objects) -> Result<Vec<u8>, NoMemory>
    ensures { IfOk result (λ text. text.items ≡ objects_text objects.now) }
{
    let mut out = Vec::new(alloc);
    out.extend_from_slice(b"objects 1\nmain ")?;
    out.extend_from_slice(objects.main.as_slice())?;
    out.push(b'\n')?;
    write_units(objects.units.as_slice(), &mut out)?;
    out.extend_from_slice(b"end\n")?;
    Ok(out)
}
