//! The function with which a run begins.
ghost use Rattle.std.specs.Prelude.{◌≡◌, map};
ghost use Rattle.mm_load_plain.specs.Asking.{Reports};
ghost use Rattle.mm_load_plain.specs.Names.{look_up};
ghost use Rattle.mm_load_plain.specs.Seen.{function_seen};
ghost use Rattle.mm_load_plain.specs.Rules.{is_bare, bad_main};
ghost use Rattle.mm_load_plain.specs.declared.rule.Rule.TheVariants.{BadMain};

use crate::functions::{Defined, path_in};
use crate::load_error::{LoadError, fault_if};
use crate::name_table::{NameTable, function_at};
use crate::rule::Rule;
use mm_ast as ast;
use std::alloc::Global;

/// Whether a function has neither type parameters nor parameters.
fn is_bare(function: &ast::Function) -> bool
    ensures { result ≡ is_bare function.now }
{
    function.type_params.len() == 0 && function.signature.params.len() == 0
}

/// Asks whether the crate has at its top a function `main` without type parameters and parameters.
#[tactic(auto, unfolding(crate::specs::Rules::bad_main))]
pub fn check(
    alloc: Global,
    paths: &NameTable<'_>,
    functions: &[Defined<'_>],
    krate: &ast::Crate,
) -> Result<(), LoadError>
    ensures { Reports BadMain (bad_main (look_up paths.now) (map function_seen functions.now) krate.now) result }
{
    let path = path_in(alloc, krate.name.text.as_slice(), b"main")?;
    match function_at(paths, functions, path.as_slice()) {
        Some(main) => fault_if(!is_bare(main.function), Rule::BadMain, main.line),
        None => Err(LoadError::Rule(Rule::BadMain, krate.line)),
    }
}
