ghost use Rattle.std.specs.Prelude.{◌≡◌, OnOk, [], ◌∷◌, ◌++◌, map};
ghost use Rattle.mm_lex.specs.Lexemes as lexemes;
ghost use Rattle.mm_spell.specs.Listed.{in_parens, kinds, listed};
ghost use Rattle.mm_spell_bodies.specs.BodyTokens.{bool_word, operand_tokens, operands_tokens};

use crate::places::write_place;
use mm_ast::Operand;
use mm_lex::Punct;
use mm_names::Word;
use mm_spell::Spelled;
use mm_spell::callees::write_callee;
use mm_spell::names::{write_number, write_punct, write_word};
use mm_spell::types::write_path_args;
use std::alloc::AllocError;

/// Writes a truth value.
pub(crate) fn write_bool<'a>(value: bool, out: &mut Vec<Spelled<'a>>) -> Result<(), AllocError>
    ensures { OnOk result (kinds out.new.items ≡ kinds out.old.items ++ lexemes.Word (bool_word value) ∷ []) }
{
    if value {
        write_word(Word::True, out)
    } else {
        write_word(Word::False, out)
    }
}

/// Writes an operand.
pub(crate) fn write_operand<'a>(
    operand: &'a Operand,
    out: &mut Vec<Spelled<'a>>,
) -> Result<(), AllocError>
    ensures { OnOk result (kinds out.new.items ≡ kinds out.old.items ++ operand_tokens operand.now) }
{
    match operand {
        Operand::Copy(place) => {
            write_word(Word::Copy, out)?;
            write_place(place.get(), out)
        }
        Operand::Move(place) => {
            write_word(Word::Move, out)?;
            write_place(place.get(), out)
        }
        Operand::Number(number) => write_number(*number, out),
        Operand::Bool(value) => write_bool(*value, out),
        Operand::Const(path) => {
            write_word(Word::Const, out)?;
            write_path_args(path.get(), out)
        }
        Operand::Fn(callee) => {
            write_word(Word::Fn, out)?;
            write_callee(callee.get(), out)
        }
    }
}

/// Writes an operand in parentheses.
pub(crate) fn write_in_parens<'a>(
    operand: &'a Operand,
    out: &mut Vec<Spelled<'a>>,
) -> Result<(), AllocError>
    ensures { OnOk result (kinds out.new.items ≡ kinds out.old.items ++ in_parens (operand_tokens operand.now)) }
{
    write_punct(Punct::Open, out)?;
    write_operand(operand, out)?;
    write_punct(Punct::Close, out)
}

/// Writes operands with commas between them.
fn write_listed<'a>(operands: &'a [Operand], out: &mut Vec<Spelled<'a>>) -> Result<(), AllocError>
    ensures { OnOk result (kinds out.new.items ≡ kinds out.old.items ++ listed (map operand_tokens operands.now)) }
{
    let Some((first, others)) = operands.split_first() else {
        return Ok(());
    };
    write_operand(first, out)?;
    for operand in others {
        write_punct(Punct::Comma, out)?;
        write_operand(operand, out)?;
    }
    Ok(())
}

/// Writes operands in parentheses.
pub(crate) fn write_operands<'a>(
    operands: &'a [Operand],
    out: &mut Vec<Spelled<'a>>,
) -> Result<(), AllocError>
    ensures { OnOk result (kinds out.new.items ≡ kinds out.old.items ++ operands_tokens operands.now) }
{
    write_punct(Punct::Open, out)?;
    write_listed(operands, out)?;
    write_punct(Punct::Close, out)
}
