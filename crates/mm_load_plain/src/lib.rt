//! The loader of functions with type parameters only, into the program of mm_plain: looking up the names of a tree, and the rules
//! that it has to keep. It stands until all stands over the program of mm_program.
#![tactic(auto)]

ghost use Rattle.std.specs.Prelude.{◌≡◌, ℕ, map, is_some, IfOk, IfSome, Err};
ghost use Rattle.mm_ast.specs.declared.items.Ast.{Ast};
ghost use Rattle.mm_plain.specs.declared.program.Program.{Program};
ghost use Rattle.mm_load_plain.specs.Asking.{Judges};
ghost use Rattle.mm_built.specs.Built.{is_built, IsBuilt};
ghost use Rattle.mm_load_plain.specs.Meaning.{IsProgram, program_of};
ghost use Rattle.mm_load_plain.specs.Names.{look_up};
ghost use Rattle.mm_load_plain.specs.Rules.{IsFirstFault, IsFirstIn, KeepsIn, KeepsRules};
ghost use Rattle.mm_load_plain.specs.Seen.{function_seen};
ghost use Rattle.mm_load_plain.specs.WrittenItem.{functions_of, paths_in, crate_of};
ghost use Rattle.mm_load_plain.specs.declared.load_error.LoadError.TheVariants as errors;
ghost use Rattle.mm_load_plain.specs.declared.rule.Rule as rules;

mod bad_main;
mod bodies;
mod double_name;
mod functions;
mod item_names;
pub mod laws;
mod load_error;
mod long_type;
mod name_table;
mod places;
mod program;
mod rule;
mod types;
mod unknown_name;
mod wrong_arity;

use functions::{Defined, functions};
pub use load_error::LoadError;
use mm_ast as ast;
use mm_built::is_built;
use mm_plain::Program;
use name_table::{NameTable, path_table};
use program::load_program;
pub use rule::Rule;
use std::alloc::Global;

/// Asks the rules of a crate in their order. The table is that of the paths of its functions.
fn check_rules(
    alloc: Global,
    krate: &ast::Crate,
    functions: &[Defined<'_>],
    paths: &NameTable<'_>,
) -> Result<(), LoadError>
    ensures { map function_seen functions.now ≡ functions_of krate.now → look_up paths.now ≡ paths_in krate.now → Judges krate.now result }
{
    unknown_name::check(alloc, paths, functions)?;
    double_name::check(alloc, krate.items.as_slice())?;
    wrong_arity::check(alloc, paths, functions)?;
    bad_main::check(alloc, paths, functions, krate)?;
    long_type::check(functions)
}

/// The program of a crate, where it keeps the rules.
fn load_crate(alloc: Global, krate: &ast::Crate) -> Result<Program, LoadError>
    ensures kept { IfOk result (λ p. KeepsIn krate.now) }
    ensures program { IfOk result (λ p. p ≡ program_of krate.now) }
    ensures fault { (rule : rules.Rule) (line : ℕ) → result ≡ Err (errors.Rule rule line) → IsFirstIn krate.now rule line }
    ensures built { result ≡ Err errors.NotBuilt → ⊥ }
{
    let functions = functions(alloc, krate)?;
    let paths = path_table(alloc, &functions)?;
    check_rules(alloc, krate, &functions, &paths)?;
    Ok(load_program(alloc, &paths, &functions, krate)?)
}

/// The crate of a tree, where there is one alone and all of it is built.
#[tactic(auto, unfolding(mm_built::specs::Built::built_crates))]
fn built_crate(tree: &ast::Ast) -> Option<&ast::Crate>
    ensures krate { IfSome result (λ krate. krate.now ≡ crate_of tree.now) }
    ensures built { is_some result ≡ is_built tree.now }
{
    let [krate] = tree.crates.as_slice() else {
        return None;
    };
    if !is_built(tree) {
        return None;
    }
    Some(krate)
}

/// The program that a tree means, where all of it is built and it keeps the rules.
///
/// # Errors
///
/// That the tree has a form that is not built yet; else the first rule that fails, and the first line where it does;
/// and out of memory. That is also the answer where a written head has children that it does not take, as a tuple of
/// one type, which no text has, and where an index or a number of type parameters or of parameters is 2^32 or more,
/// which no text within the limit brings about.
pub fn load(alloc: Global, tree: &ast::Ast) -> Result<Program, LoadError>
    ensures program { IfOk result (IsProgram tree.now) }
    ensures fault { (rule : rules.Rule) (line : ℕ) → result ≡ Err (errors.Rule rule line) → IsFirstFault tree.now rule line }
    ensures not_built { result ≡ Err errors.NotBuilt → IsBuilt tree.now → ⊥ }
{
    let Some(krate) = built_crate(tree) else {
        return Err(LoadError::NotBuilt);
    };
    load_crate(alloc, krate)
}

/// A tree means one program.
pub fn one_program()
    ensures { (tree : Ast) (p q : Program) → IsProgram tree p → IsProgram tree q → p ≡ q }
{}

/// A tree that keeps the rules has no fault, and a tree has one first fault.
pub fn one_judgement()
    ensures kept { (tree : Ast) (rule : rules.Rule) (line : ℕ) → KeepsRules tree → IsFirstFault tree rule line → ⊥ }
    ensures one { (tree : Ast) (rule other : rules.Rule) (line there : ℕ) → IsFirstFault tree rule line → IsFirstFault tree other there → (rule ≡ other) × (line ≡ there) }
{}
