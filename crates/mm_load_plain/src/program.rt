//! The program of a tree.
ghost use Rattle.std.specs.Prelude.{◌≡◌, map, IfOk};
ghost use Rattle.mm_load_plain.specs.Meaning.{locals_of, function_in, function_of, program_in};
ghost use Rattle.mm_load_plain.specs.Names.{look_up};
ghost use Rattle.mm_load_plain.specs.Seen.{function_seen};

use crate::bodies::load_blocks;
use crate::functions::{Defined, path_in};
use crate::name_table::{NameTable, type_param_table};
use crate::types::{add_types, index_in, load_result};
use mm_ast as ast;
use mm_plain::{Function, Program};
use mm_terms::{DefId, NoMemory, Text, Tys};
use sqlite_items::Items;
use std::alloc::Global;

/// The types of the locals: the result, the parameters, and the `let` locals.
#[tactic(auto, unfolding(crate::specs::Meaning::locals_of))]
fn load_locals(
    alloc: Global,
    scope: &NameTable<'_>,
    function: &ast::Function,
) -> Result<Tys, NoMemory>
    ensures { IfOk result (λ tys. tys ≡ locals_of (look_up scope.now) function.now) }
{
    let mut locals = Tys::new(alloc);
    locals.push(load_result(alloc, scope, &function.signature.result)?)?;
    add_types(
        alloc,
        scope,
        function.signature.params.as_slice(),
        &mut locals,
    )?;
    add_types(alloc, scope, function.body.lets.as_slice(), &mut locals)?;
    Ok(locals)
}

#[tactic(auto, unfolding(crate::specs::Meaning::function_in))]
fn load_in_scope(
    alloc: Global,
    paths: &NameTable<'_>,
    scope: &NameTable<'_>,
    defined: &Defined<'_>,
) -> Result<Function, NoMemory>
    ensures { IfOk result (λ f. f ≡ function_in (look_up paths.now) (look_up scope.now) (function_seen defined.now)) }
{
    let function = defined.function;
    let Ok(type_params) = u32::try_from(function.type_params.len()) else {
        return Err(NoMemory);
    };
    let Ok(params) = u32::try_from(function.signature.params.len()) else {
        return Err(NoMemory);
    };
    Ok(Function {
        is_pub: defined.is_pub,
        path: Text::from_slice(alloc, defined.path.as_slice())?,
        type_params,
        params,
        locals: load_locals(alloc, scope, function)?,
        blocks: load_blocks(alloc, paths, scope, function.body.blocks.as_slice())?,
    })
}

fn load_function(
    alloc: Global,
    paths: &NameTable<'_>,
    defined: &Defined<'_>,
) -> Result<Function, NoMemory>
    ensures { IfOk result (λ f. f ≡ function_of (look_up paths.now) (function_seen defined.now)) }
{
    let scope = type_param_table(alloc, defined.function)?;
    load_in_scope(alloc, paths, &scope, defined)
}

fn load_functions(
    alloc: Global,
    paths: &NameTable<'_>,
    functions: &[Defined<'_>],
) -> Result<Items<Function>, NoMemory>
    ensures { IfOk result (λ fs. fs ≡ map (function_of (look_up paths.now)) (map function_seen functions.now)) }
{
    let mut loaded = Items::new(alloc);
    for function in functions {
        loaded.push(load_function(alloc, paths, function)?)?;
    }
    Ok(loaded)
}

/// The program of a crate, with each name replaced by the index to which it resolves.
#[tactic(auto, unfolding(crate::specs::Meaning::program_in))]
pub fn load_program(
    alloc: Global,
    paths: &NameTable<'_>,
    functions: &[Defined<'_>],
    krate: &ast::Crate,
) -> Result<Program, NoMemory>
    ensures { IfOk result (λ p. p ≡ program_in (look_up paths.now) (map function_seen functions.now) krate.now) }
{
    let main = path_in(alloc, krate.name.text.as_slice(), b"main")?;
    Ok(Program {
        krate: Text::from_slice(alloc, krate.name.text.as_slice())?,
        functions: load_functions(alloc, paths, functions)?,
        main: DefId(index_in(paths, main.as_slice())),
    })
}
