ghost use Rattle.std.specs.Prelude.{◌≡◌, OnOk, ◌++◌, map};
ghost use Rattle.mm_spell.specs.Listed.{in_parens, kinds, listed};
ghost use Rattle.mm_spell_bodies.specs.TermTokens.{term_head_tokens, term_tokens};

use crate::operands::write_bool;
use crate::rvalues::write_variant;
use mm_ast::{Term, TermHead};
use mm_lex::Punct;
use mm_names::Word;
use mm_spell::Spelled;
use mm_spell::callees::write_callee;
use mm_spell::names::{write_number, write_path, write_punct, write_word};
use mm_spell::types::write_path_args;
use std::alloc::AllocError;

/// Writes constant terms with commas between them.
#[cycle(terms)]
fn write_listed<'a>(terms: &'a [Term], out: &mut Vec<Spelled<'a>>) -> Result<(), AllocError>
    ensures { OnOk result (kinds out.new.items ≡ kinds out.old.items ++ listed (map term_tokens terms.now)) }
{
    let Some((first, others)) = terms.split_first() else {
        return Ok(());
    };
    write_term(first, out)?;
    for term in others {
        write_punct(Punct::Comma, out)?;
        write_term(term, out)?;
    }
    Ok(())
}

/// Writes constant terms in parentheses.
#[cycle(terms)]
fn write_parts<'a>(parts: &'a [Term], out: &mut Vec<Spelled<'a>>) -> Result<(), AllocError>
    ensures { OnOk result (kinds out.new.items ≡ kinds out.old.items ++ in_parens (listed (map term_tokens parts.now))) }
{
    write_punct(Punct::Open, out)?;
    write_listed(parts, out)?;
    write_punct(Punct::Close, out)
}

/// Writes what stands at the head of a constant term, and the terms within it.
#[cycle(terms)]
fn write_head<'a>(
    head: &'a TermHead,
    parts: &'a [Term],
    out: &mut Vec<Spelled<'a>>,
) -> Result<(), AllocError>
    ensures { OnOk result (kinds out.new.items ≡ kinds out.old.items ++ term_head_tokens head.now (map term_tokens parts.now)) }
{
    match head {
        TermHead::Number(number) => write_number(*number, out),
        TermHead::Bool(value) => write_bool(*value, out),
        TermHead::Tuple => {
            write_word(Word::Tuple, out)?;
            write_parts(parts, out)
        }
        TermHead::New(path, variant) => {
            write_word(Word::New, out)?;
            write_path_args(path.get(), out)?;
            write_variant(variant, out)?;
            write_parts(parts, out)
        }
        TermHead::Fn(callee) => {
            write_word(Word::Fn, out)?;
            write_callee(callee.get(), out)
        }
        TermHead::At(path) => {
            write_punct(Punct::Ampersand, out)?;
            write_path(path.get(), out)
        }
    }
}

/// Writes a constant term.
#[cycle(terms)]
pub fn write_term<'a>(term: &'a Term, out: &mut Vec<Spelled<'a>>) -> Result<(), AllocError>
    ensures { OnOk result (kinds out.new.items ≡ kinds out.old.items ++ term_tokens term.now) }
{
    write_head(&term.head, term.parts.as_slice(), out)
}
