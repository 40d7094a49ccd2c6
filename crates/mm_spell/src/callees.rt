ghost use Rattle.std.specs.Prelude.{◌≡◌, OnOk, [], ◌∷◌, ◌++◌};
ghost use Rattle.mm_spell.specs.Listed.{kinds};
ghost use Rattle.mm_spell.specs.TypeTokens.{callee_tokens, method_tokens, self_tokens};

use crate::names::{write_name, write_punct, write_word};
use crate::spelled::Spelled;
use crate::types::{write_args, write_path_args, write_type};
use mm_ast::{Callee, MethodCallee, Type};
use mm_lex::Punct;
use mm_names::Word;
use std::alloc::AllocError;

/// Writes `<`, a type and `as`.
fn write_self<'a>(ty: &'a Type, out: &mut Vec<Spelled<'a>>) -> Result<(), AllocError>
    ensures { OnOk result (kinds out.new.items ≡ kinds out.old.items ++ self_tokens ty.now) }
{
    write_punct(Punct::Less, out)?;
    write_type(ty, out)?;
    write_word(Word::As, out)
}

/// Writes a method of a trait.
fn write_method<'a>(method: &'a MethodCallee, out: &mut Vec<Spelled<'a>>) -> Result<(), AllocError>
    ensures { OnOk result (kinds out.new.items ≡ kinds out.old.items ++ method_tokens method.now) }
{
    write_self(&method.self_type, out)?;
    write_path_args(&method.of, out)?;
    write_punct(Punct::Greater, out)?;
    write_punct(Punct::PathSep, out)?;
    write_name(&method.name, out)?;
    write_args(method.args.as_slice(), out)
}

/// Writes a callee.
pub fn write_callee<'a>(callee: &'a Callee, out: &mut Vec<Spelled<'a>>) -> Result<(), AllocError>
    ensures { OnOk result (kinds out.new.items ≡ kinds out.old.items ++ callee_tokens callee.now) }
{
    match callee {
        Callee::Direct(path) => write_path_args(path, out),
        Callee::Method(method) => write_method(method, out),
        Callee::Call(call) => {
            write_self(&call.self_type, out)?;
            write_word(Word::CallTrait, out)?;
            write_punct(Punct::Greater, out)?;
            write_punct(Punct::PathSep, out)?;
            write_word(Word::Call, out)
        }
    }
}
