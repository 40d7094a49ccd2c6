ghost use Rattle.std.specs.Prelude.{◌≡◌, OnOk, [], ◌∷◌, ◌++◌, flat_map};
ghost use Rattle.mm_lex.specs.Lexemes as lexemes;
ghost use Rattle.mm_lex.specs.declared.punct.Punct.TheVariants as puncts;
ghost use Rattle.mm_names.specs.declared.word.Word.TheVariants as words;
ghost use Rattle.mm_spell.specs.Listed.{kinds};
ghost use Rattle.mm_spell_bodies.specs.BodyTokens.{arm_tokens, call_tokens, called_tokens, end_tokens, label_tokens, switch_tokens};

use crate::operands::{write_in_parens, write_operand, write_operands};
use crate::places::write_place;
use mm_ast::{Arm, Call, Called, End, Label, Switch};
use mm_lex::Punct;
use mm_names::Word;
use mm_spell::Spelled;
use mm_spell::callees::write_callee;
use mm_spell::names::{write_number, write_punct, write_word};
use std::alloc::AllocError;

/// Writes the label of the block with this number.
pub(crate) fn write_block_label<'a>(
    number: u64,
    out: &mut Vec<Spelled<'a>>,
) -> Result<(), AllocError>
    ensures { OnOk result (kinds out.new.items ≡ kinds out.old.items ++ lexemes.Label number ∷ []) }
{
    out.push(Spelled::Label(number))?;
    Ok(())
}

/// Writes a label.
fn write_label<'a>(label: Label, out: &mut Vec<Spelled<'a>>) -> Result<(), AllocError>
    ensures { OnOk result (kinds out.new.items ≡ kinds out.old.items ++ label_tokens label) }
{
    write_block_label(u64::from(label.number), out)
}

/// Writes the label behind `->` at which the code goes on.
fn write_target<'a>(target: Label, out: &mut Vec<Spelled<'a>>) -> Result<(), AllocError>
    ensures { OnOk result (kinds out.new.items ≡ kinds out.old.items ++ lexemes.Punct puncts.Arrow ∷ label_tokens target) }
{
    write_punct(Punct::Arrow, out)?;
    write_label(target, out)
}

/// Writes an arm of a switch.
fn write_arm<'a>(arm: &Arm, out: &mut Vec<Spelled<'a>>) -> Result<(), AllocError>
    ensures { OnOk result (kinds out.new.items ≡ kinds out.old.items ++ arm_tokens arm.now) }
{
    write_number(arm.number, out)?;
    write_punct(Punct::FatArrow, out)?;
    write_label(arm.label, out)?;
    write_punct(Punct::Comma, out)
}

/// Writes arms of a switch.
fn write_arms<'a>(arms: &[Arm], out: &mut Vec<Spelled<'a>>) -> Result<(), AllocError>
    ensures { OnOk result (kinds out.new.items ≡ kinds out.old.items ++ flat_map arm_tokens arms.now) }
{
    for arm in arms {
        write_arm(arm, out)?;
    }
    Ok(())
}

/// Writes `else` and the label of a switch behind it.
fn write_otherwise<'a>(label: Label, out: &mut Vec<Spelled<'a>>) -> Result<(), AllocError>
    ensures { OnOk result (kinds out.new.items ≡ kinds out.old.items ++ lexemes.Word words.Else ∷ lexemes.Punct puncts.FatArrow ∷ label_tokens label) }
{
    write_word(Word::Else, out)?;
    write_punct(Punct::FatArrow, out)?;
    write_label(label, out)
}

/// Writes a jump by the value of an operand.
fn write_switch<'a>(switch: &'a Switch, out: &mut Vec<Spelled<'a>>) -> Result<(), AllocError>
    ensures { OnOk result (kinds out.new.items ≡ kinds out.old.items ++ switch_tokens switch.now) }
{
    write_word(Word::Switch, out)?;
    write_operand(&switch.operand, out)?;
    write_punct(Punct::OpenBrace, out)?;
    write_arms(switch.arms.as_slice(), out)?;
    write_otherwise(switch.otherwise, out)?;
    write_punct(Punct::CloseBrace, out)
}

/// Writes what a call calls.
fn write_called<'a>(called: &'a Called, out: &mut Vec<Spelled<'a>>) -> Result<(), AllocError>
    ensures { OnOk result (kinds out.new.items ≡ kinds out.old.items ++ called_tokens called.now) }
{
    match called {
        Called::Callee(callee) => write_callee(callee, out),
        Called::Pointer(operand) => write_in_parens(operand, out),
    }
}

/// Writes a call.
fn write_call<'a>(call: &'a Call, out: &mut Vec<Spelled<'a>>) -> Result<(), AllocError>
    ensures { OnOk result (kinds out.new.items ≡ kinds out.old.items ++ call_tokens call.now) }
{
    write_word(Word::Call, out)?;
    write_place(&call.place, out)?;
    write_punct(Punct::Equals, out)?;
    write_called(&call.called, out)?;
    write_operands(call.operands.as_slice(), out)?;
    write_target(call.target, out)
}

/// Writes the terminator of a block.
pub(crate) fn write_end<'a>(end: &'a End, out: &mut Vec<Spelled<'a>>) -> Result<(), AllocError>
    ensures { OnOk result (kinds out.new.items ≡ kinds out.old.items ++ end_tokens end.now) }
{
    match end {
        End::Return => write_word(Word::Return, out),
        End::Unreachable => write_word(Word::Unreachable, out),
        End::Goto(label) => {
            write_word(Word::Goto, out)?;
            write_label(*label, out)
        }
        End::Switch(switch) => write_switch(switch.get(), out),
        End::Call(call) => write_call(call.get(), out),
        End::Drop(place, label) => {
            write_word(Word::Drop, out)?;
            write_place(place, out)?;
            write_target(*label, out)
        }
    }
}
