ghost use Rattle.std.specs.Prelude.{◌≡◌, OnOk, ◌++◌};
ghost use Rattle.mm_spell.specs.Listed.{kinds};
ghost use Rattle.mm_spell_bodies.specs.BodyTokens.{block_tokens, blocks_tokens, body_tokens, let_tokens, lets_tokens};

use crate::ends::{write_block_label, write_end};
use crate::places::write_local;
use crate::rvalues::write_statements;
use mm_ast::{Block, Body, Type};
use mm_lex::Punct;
use mm_names::Word;
use mm_spell::Spelled;
use mm_spell::names::{write_punct, write_word};
use mm_spell::types::write_type;
use std::alloc::AllocError;

/// Writes the block with this number.
fn write_block<'a>(
    number: u64,
    block: &'a Block,
    out: &mut Vec<Spelled<'a>>,
) -> Result<(), AllocError>
    ensures { OnOk result (kinds out.new.items ≡ kinds out.old.items ++ block_tokens number block.now) }
{
    write_block_label(number, out)?;
    write_punct(Punct::Colon, out)?;
    write_punct(Punct::OpenBrace, out)?;
    write_statements(block.statements.as_slice(), out)?;
    write_end(&block.end, out)?;
    write_punct(Punct::CloseBrace, out)
}

/// Writes blocks, the first of which has the number 0.
fn write_blocks<'a>(blocks: &'a [Block], out: &mut Vec<Spelled<'a>>) -> Result<(), AllocError>
    ensures { OnOk result (kinds out.new.items ≡ kinds out.old.items ++ blocks_tokens 0 blocks.now) }
{
    for (number, block) in blocks.iter().enumerate() {
        write_block(number as u64, block, out)?;
    }
    Ok(())
}

/// Writes the declaration of the local with this number.
fn write_let<'a>(number: u64, ty: &'a Type, out: &mut Vec<Spelled<'a>>) -> Result<(), AllocError>
    ensures { OnOk result (kinds out.new.items ≡ kinds out.old.items ++ let_tokens number ty.now) }
{
    write_word(Word::Let, out)?;
    write_local(number, out)?;
    write_punct(Punct::Colon, out)?;
    write_type(ty, out)?;
    write_punct(Punct::Semicolon, out)
}

/// Writes the declarations of locals, the first of which has this number.
fn write_lets<'a>(
    first: u64,
    lets: &'a [Type],
    out: &mut Vec<Spelled<'a>>,
) -> Result<(), AllocError>
    ensures { OnOk result (kinds out.new.items ≡ kinds out.old.items ++ lets_tokens first lets.now) }
{
    for (place, ty) in lets.iter().enumerate() {
        let number = first.checked_add(place as u64).ok_or(AllocError)?;
        write_let(number, ty, out)?;
    }
    Ok(())
}

/// Writes a body, whose first declared local has this number. A local with a number past `u64` gives `AllocError`:
/// no memory holds so many.
pub fn write_body<'a>(
    first_let: u64,
    body: &'a Body,
    out: &mut Vec<Spelled<'a>>,
) -> Result<(), AllocError>
    ensures { OnOk result (kinds out.new.items ≡ kinds out.old.items ++ body_tokens first_let body.now) }
{
    write_punct(Punct::OpenBrace, out)?;
    write_lets(first_let, body.lets.as_slice(), out)?;
    write_blocks(body.blocks.as_slice(), out)?;
    write_punct(Punct::CloseBrace, out)
}
