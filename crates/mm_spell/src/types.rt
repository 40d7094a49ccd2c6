ghost use Rattle.std.specs.Prelude.{◌≡◌, OnOk, [], ◌∷◌, ◌++◌, flat_map, map};
ghost use Rattle.mm_lex.specs.declared.punct.Punct.TheVariants as puncts;
ghost use Rattle.mm_lex.specs.Lexemes as lexemes;
ghost use Rattle.mm_names.specs.declared.word.Word.TheVariants as words;
ghost use Rattle.mm_spell.specs.Listed.{kinds, behind_comma, listed, in_angles, in_parens};
ghost use Rattle.mm_spell.specs.TypeTokens.{args_tokens, name_tokens, params_tokens, path_args_tokens, path_tokens, type_tokens, types_tokens};

use crate::names::{write_name, write_path, write_punct, write_text, write_word};
use crate::spelled::Spelled;
use mm_ast::{Head, Name, Path, PathWithArgs, Type};
use mm_lex::Punct;
use mm_names::Word;
use std::alloc::AllocError;

/// Writes names, each behind a comma.
fn write_names_behind<'a>(names: &'a [Name], out: &mut Vec<Spelled<'a>>) -> Result<(), AllocError>
    ensures { OnOk result (kinds out.new.items ≡ kinds out.old.items ++ flat_map behind_comma (map name_tokens names.now)) }
{
    for name in names {
        write_punct(Punct::Comma, out)?;
        write_name(name, out)?;
    }
    Ok(())
}

/// Writes type parameters in angle brackets; of none nothing is written.
pub fn write_params<'a>(params: &'a [Name], out: &mut Vec<Spelled<'a>>) -> Result<(), AllocError>
    ensures { OnOk result (kinds out.new.items ≡ kinds out.old.items ++ params_tokens params.now) }
{
    let Some((first, others)) = params.split_first() else {
        return Ok(());
    };
    write_punct(Punct::Less, out)?;
    write_name(first, out)?;
    write_names_behind(others, out)?;
    write_punct(Punct::Greater, out)
}

/// Writes types with commas between them.
#[cycle(types)]
pub fn write_types<'a>(types: &'a [Type], out: &mut Vec<Spelled<'a>>) -> Result<(), AllocError>
    ensures { OnOk result (kinds out.new.items ≡ kinds out.old.items ++ types_tokens types.now) }
{
    let Some((first, others)) = types.split_first() else {
        return Ok(());
    };
    write_type(first, out)?;
    for ty in others {
        write_punct(Punct::Comma, out)?;
        write_type(ty, out)?;
    }
    Ok(())
}

/// Writes types with commas between them, in parentheses.
#[cycle(types)]
fn write_types_in_parens<'a>(
    types: &'a [Type],
    out: &mut Vec<Spelled<'a>>,
) -> Result<(), AllocError>
    ensures { OnOk result (kinds out.new.items ≡ kinds out.old.items ++ in_parens (types_tokens types.now)) }
{
    write_punct(Punct::Open, out)?;
    write_types(types, out)?;
    write_punct(Punct::Close, out)
}

/// Writes types with commas between them, in angle brackets.
#[cycle(types)]
fn write_types_in_angles<'a>(
    types: &'a [Type],
    out: &mut Vec<Spelled<'a>>,
) -> Result<(), AllocError>
    ensures { OnOk result (kinds out.new.items ≡ kinds out.old.items ++ lexemes.Punct puncts.Less ∷ (types_tokens types.now ++ lexemes.Punct puncts.Greater ∷ [])) }
{
    write_punct(Punct::Less, out)?;
    write_types(types, out)?;
    write_punct(Punct::Greater, out)
}

/// Writes type arguments in angle brackets; of none nothing is written.
#[cycle(types)]
pub fn write_args<'a>(args: &'a [Type], out: &mut Vec<Spelled<'a>>) -> Result<(), AllocError>
    ensures { OnOk result (kinds out.new.items ≡ kinds out.old.items ++ args_tokens args.now) }
{
    if args.is_empty() {
        return Ok(());
    }
    write_types_in_angles(args, out)
}

/// Writes a path and type arguments.
#[cycle(types)]
fn write_path_and_args<'a>(
    path: &'a Path,
    args: &'a [Type],
    out: &mut Vec<Spelled<'a>>,
) -> Result<(), AllocError>
    ensures { OnOk result (kinds out.new.items ≡ kinds out.old.items ++ (path_tokens path.now ++ args_tokens args.now)) }
{
    write_path(path, out)?;
    write_args(args, out)
}

/// Writes a word, a path and type arguments.
#[cycle(types)]
fn write_named<'a>(
    word: Word,
    path: &'a Path,
    args: &'a [Type],
    out: &mut Vec<Spelled<'a>>,
) -> Result<(), AllocError>
    ensures { OnOk result (kinds out.new.items ≡ kinds out.old.items ++ lexemes.Word word ∷ (path_tokens path.now ++ args_tokens args.now)) }
{
    write_word(word, out)?;
    write_path_and_args(path, args, out)
}

/// Writes a type.
#[cycle(types)]
pub fn write_type<'a>(ty: &'a Type, out: &mut Vec<Spelled<'a>>) -> Result<(), AllocError>
    ensures { OnOk result (kinds out.new.items ≡ kinds out.old.items ++ type_tokens ty.now) }
{
    let children = ty.children.as_slice();
    match &ty.head {
        Head::Param(name) => write_text(name.as_slice(), out),
        Head::SelfType => write_word(Word::SelfType, out),
        Head::U64 => write_word(Word::U64, out),
        Head::Bool => write_word(Word::Bool, out),
        Head::Tuple => write_types_in_parens(children, out),
        Head::Ref => {
            write_punct(Punct::Ampersand, out)?;
            write_types(children, out)
        }
        Head::Boxed => {
            write_word(Word::BoxType, out)?;
            write_types_in_angles(children, out)
        }
        Head::FnPtr => {
            let (params, result) = children.split_at(children.len().saturating_sub(1));
            write_word(Word::FnPtr, out)?;
            write_types_in_parens(params, out)?;
            write_punct(Punct::Arrow, out)?;
            write_types(result, out)
        }
        Head::FnItem(path) => write_named(Word::FnItem, path, children, out),
        Head::Closure(path) => write_named(Word::Closure, path, children, out),
        Head::Dyn(path) => write_named(Word::Dyn, path, children, out),
        Head::Adt(path) => write_path_and_args(path, children, out),
    }
}

/// Writes a path and its type arguments.
pub fn write_path_args<'a>(
    path: &'a PathWithArgs,
    out: &mut Vec<Spelled<'a>>,
) -> Result<(), AllocError>
    ensures { OnOk result (kinds out.new.items ≡ kinds out.old.items ++ path_args_tokens path.now) }
{
    write_path_and_args(&path.path, path.args.as_slice(), out)
}
