ghost use Rattle.std.specs.Prelude.{◌≡◌, OnOk, [], ◌∷◌, ◌++◌, flat_map, map};
ghost use Rattle.mm_lex.specs.Lexemes as lexemes;
ghost use Rattle.mm_spell.specs.Listed.{kinds, behind_comma};
ghost use Rattle.mm_spell.specs.TypeTokens.{name_tokens, params_tokens, path_tokens, segment_tokens};

use crate::spelled::Spelled;
use mm_ast::{Name, Path};
use mm_lex::Punct;
use mm_names::Word;
use mm_terms::Text;
use std::alloc::AllocError;

/// Writes a word.
pub fn write_word<'a>(word: Word, out: &mut Vec<Spelled<'a>>) -> Result<(), AllocError>
    ensures { OnOk result (kinds out.new.items ≡ kinds out.old.items ++ lexemes.Word word ∷ []) }
{
    out.push(Spelled::Word(word))?;
    Ok(())
}

/// Writes a punctuation.
pub fn write_punct<'a>(punct: Punct, out: &mut Vec<Spelled<'a>>) -> Result<(), AllocError>
    ensures { OnOk result (kinds out.new.items ≡ kinds out.old.items ++ lexemes.Punct punct ∷ []) }
{
    out.push(Spelled::Punct(punct))?;
    Ok(())
}

/// Writes a number.
pub fn write_number<'a>(number: u64, out: &mut Vec<Spelled<'a>>) -> Result<(), AllocError>
    ensures { OnOk result (kinds out.new.items ≡ kinds out.old.items ++ lexemes.Number number ∷ []) }
{
    out.push(Spelled::Number(number))?;
    Ok(())
}

/// Writes a name by its bytes.
pub fn write_text<'a>(text: &'a [u8], out: &mut Vec<Spelled<'a>>) -> Result<(), AllocError>
    ensures { OnOk result (kinds out.new.items ≡ kinds out.old.items ++ lexemes.Name text.now ∷ []) }
{
    out.push(Spelled::Name(text))?;
    Ok(())
}

/// Writes a name.
pub fn write_name<'a>(name: &'a Name, out: &mut Vec<Spelled<'a>>) -> Result<(), AllocError>
    ensures { OnOk result (kinds out.new.items ≡ kinds out.old.items ++ name_tokens name.now) }
{
    write_text(name.text.as_slice(), out)
}

/// Writes a name of a path behind `::`.
fn write_segment<'a>(text: &'a [u8], out: &mut Vec<Spelled<'a>>) -> Result<(), AllocError>
    ensures { OnOk result (kinds out.new.items ≡ kinds out.old.items ++ segment_tokens text.now) }
{
    write_punct(Punct::PathSep, out)?;
    write_text(text, out)
}

/// Writes the names of a path, each behind `::`.
fn write_segments<'a>(names: &'a [Text], out: &mut Vec<Spelled<'a>>) -> Result<(), AllocError>
    ensures { OnOk result (kinds out.new.items ≡ kinds out.old.items ++ flat_map segment_tokens names.now) }
{
    for name in names {
        write_segment(name.as_slice(), out)?;
    }
    Ok(())
}

/// Writes a path.
pub fn write_path<'a>(path: &'a Path, out: &mut Vec<Spelled<'a>>) -> Result<(), AllocError>
    ensures { OnOk result (kinds out.new.items ≡ kinds out.old.items ++ path_tokens path.now) }
{
    write_text(path.krate.as_slice(), out)?;
    write_segments(path.names.as_slice(), out)
}
