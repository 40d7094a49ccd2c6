ghost use Rattle.std.specs.Prelude.{◌≡◌, OnOk, ◌∷◌, ◌++◌, flat_map};
ghost use Rattle.mm_lex.specs.Lexemes as lexemes;
ghost use Rattle.mm_lex.specs.declared.punct.Punct.TheVariants as puncts;
ghost use Rattle.mm_names.specs.declared.word.Word.TheVariants as words;
ghost use Rattle.mm_spell.specs.Listed.{in_parens, kinds};
ghost use Rattle.mm_spell.specs.TypeTokens.{path_args_tokens, type_tokens};
ghost use Rattle.mm_spell_bodies.specs.BodyTokens.{dyncast_tokens, new_tokens, op_word, operand_tokens, place_tokens, rvalue_tokens, statement_tokens, variant_tokens};

use crate::operands::{write_in_parens, write_operand, write_operands};
use crate::places::write_place;
use mm_ast::{DynTrait, Name, New, Op, Operand, Place, Rvalue, Statement, Type};
use mm_lex::Punct;
use mm_names::Word;
use mm_spell::Spelled;
use mm_spell::names::{write_name, write_punct, write_word};
use mm_spell::types::{write_path_args, write_type};
use std::alloc::AllocError;

/// The word of an operation.
fn op_word(op: Op) -> Word
    ensures { result ≡ op_word op }
{
    match op {
        Op::Add => Word::Add,
        Op::Sub => Word::Sub,
        Op::Mul => Word::Mul,
        Op::Div => Word::Div,
        Op::Rem => Word::Rem,
        Op::Eq => Word::Eq,
        Op::Lt => Word::Lt,
    }
}

/// Writes the variant of an enum behind a dot; of none nothing is written.
pub(crate) fn write_variant<'a>(
    variant: &'a Option<Name>,
    out: &mut Vec<Spelled<'a>>,
) -> Result<(), AllocError>
    ensures { OnOk result (kinds out.new.items ≡ kinds out.old.items ++ variant_tokens variant.now) }
{
    let Some(name) = variant else {
        return Ok(());
    };
    write_punct(Punct::Dot, out)?;
    write_name(name, out)
}

/// Writes a struct, a closure, or a variant of an enum, with its fields.
fn write_new<'a>(new: &'a New, out: &mut Vec<Spelled<'a>>) -> Result<(), AllocError>
    ensures { OnOk result (kinds out.new.items ≡ kinds out.old.items ++ new_tokens new.now) }
{
    write_word(Word::New, out)?;
    write_path_args(&new.of, out)?;
    write_variant(&new.variant, out)?;
    write_operands(new.operands.as_slice(), out)
}

/// Writes `dyn` and a trait.
fn write_dyn<'a>(of: &'a DynTrait, out: &mut Vec<Spelled<'a>>) -> Result<(), AllocError>
    ensures { OnOk result (kinds out.new.items ≡ kinds out.old.items ++ lexemes.Word words.Dyn ∷ path_args_tokens of.now.of) }
{
    write_word(Word::Dyn, out)?;
    write_path_args(&of.of, out)
}

/// Writes an operand, the type behind its pointer and `dyn` of a trait, with commas between them.
fn write_pointer<'a>(
    operand: &'a Operand,
    ty: &'a Type,
    of: &'a DynTrait,
    out: &mut Vec<Spelled<'a>>,
) -> Result<(), AllocError>
    ensures { OnOk result (kinds out.new.items ≡ kinds out.old.items ++ (operand_tokens operand.now ++ lexemes.Punct puncts.Comma ∷ (type_tokens ty.now ++ lexemes.Punct puncts.Comma ∷ lexemes.Word words.Dyn ∷ path_args_tokens of.now.of))) }
{
    write_operand(operand, out)?;
    write_punct(Punct::Comma, out)?;
    write_type(ty, out)?;
    write_punct(Punct::Comma, out)?;
    write_dyn(of, out)
}

/// Writes an operand as a pointer to `dyn` of a trait.
fn write_dyncast<'a>(
    operand: &'a Operand,
    ty: &'a Type,
    of: &'a DynTrait,
    out: &mut Vec<Spelled<'a>>,
) -> Result<(), AllocError>
    ensures { OnOk result (kinds out.new.items ≡ kinds out.old.items ++ dyncast_tokens operand.now ty.now of.now) }
{
    write_word(Word::Dyncast, out)?;
    write_punct(Punct::Open, out)?;
    write_pointer(operand, ty, of, out)?;
    write_punct(Punct::Close, out)
}

/// Writes two operands behind a word, in parentheses.
fn write_two<'a>(
    word: Word,
    left: &'a Operand,
    right: &'a Operand,
    out: &mut Vec<Spelled<'a>>,
) -> Result<(), AllocError>
    ensures { OnOk result (kinds out.new.items ≡ kinds out.old.items ++ lexemes.Word word ∷ in_parens (operand_tokens left.now ++ lexemes.Punct puncts.Comma ∷ operand_tokens right.now)) }
{
    write_word(word, out)?;
    write_punct(Punct::Open, out)?;
    write_operand(left, out)?;
    write_punct(Punct::Comma, out)?;
    write_operand(right, out)?;
    write_punct(Punct::Close, out)
}

/// Writes an operand behind a word, in parentheses.
fn write_one<'a>(
    word: Word,
    operand: &'a Operand,
    out: &mut Vec<Spelled<'a>>,
) -> Result<(), AllocError>
    ensures { OnOk result (kinds out.new.items ≡ kinds out.old.items ++ lexemes.Word word ∷ in_parens (operand_tokens operand.now)) }
{
    write_word(word, out)?;
    write_in_parens(operand, out)
}

/// Writes the number of the active variant at a place.
fn write_active<'a>(place: &'a Place, out: &mut Vec<Spelled<'a>>) -> Result<(), AllocError>
    ensures { OnOk result (kinds out.new.items ≡ kinds out.old.items ++ lexemes.Word words.Variant ∷ in_parens (place_tokens place.now)) }
{
    write_word(Word::Variant, out)?;
    write_punct(Punct::Open, out)?;
    write_place(place, out)?;
    write_punct(Punct::Close, out)
}

/// Writes the value that a statement gives to a place.
fn write_rvalue<'a>(value: &'a Rvalue, out: &mut Vec<Spelled<'a>>) -> Result<(), AllocError>
    ensures { OnOk result (kinds out.new.items ≡ kinds out.old.items ++ rvalue_tokens value.now) }
{
    match value {
        Rvalue::Use(operand) => write_operand(operand, out),
        Rvalue::Ref(place) => {
            write_punct(Punct::Ampersand, out)?;
            write_place(place.get(), out)
        }
        Rvalue::Not(operand) => write_one(Word::Not, operand, out),
        Rvalue::Binary(op, left, right) => write_two(op_word(*op), left.get(), right.get(), out),
        Rvalue::Variant(place) => write_active(place.get(), out),
        Rvalue::Boxed(operand) => write_one(Word::Box, operand, out),
        Rvalue::Tuple(operands) => {
            write_word(Word::Tuple, out)?;
            write_operands(operands.as_slice(), out)
        }
        Rvalue::New(new) => write_new(new.get(), out),
        Rvalue::Dyn(operand, ty, of) => write_dyncast(operand.get(), ty.get(), of.get(), out),
    }
}

/// Writes a statement.
fn write_statement<'a>(
    statement: &'a Statement,
    out: &mut Vec<Spelled<'a>>,
) -> Result<(), AllocError>
    ensures { OnOk result (kinds out.new.items ≡ kinds out.old.items ++ statement_tokens statement.now) }
{
    match statement {
        Statement::Set(place, value) => {
            write_place(place, out)?;
            write_punct(Punct::Equals, out)?;
            write_rvalue(value, out)?;
            write_punct(Punct::Semicolon, out)
        }
        Statement::Print(operand) => {
            write_word(Word::Print, out)?;
            write_operand(operand, out)?;
            write_punct(Punct::Semicolon, out)
        }
    }
}

/// Writes statements.
pub(crate) fn write_statements<'a>(
    statements: &'a [Statement],
    out: &mut Vec<Spelled<'a>>,
) -> Result<(), AllocError>
    ensures { OnOk result (kinds out.new.items ≡ kinds out.old.items ++ flat_map statement_tokens statements.now) }
{
    for statement in statements {
        write_statement(statement, out)?;
    }
    Ok(())
}
