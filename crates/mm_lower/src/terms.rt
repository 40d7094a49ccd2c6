//! Constant terms with their names looked up.
ghost use Rattle.std.specs.Prelude.{◌≡◌, ◌++◌, map, IfOk, OnOk};
ghost use Rattle.mm_lower.specs.Seen.{params, paths};
ghost use Rattle.mm_lower.specs.Terms.{term_over, term_of};

use crate::bodies::{lower_made, lower_variant};
use crate::callees::lower_callee;
use crate::names::{Names, def_of};
use crate::types::lower_types;
use mm_ast as ast;
use mm_definitions::{Kind, Wanted};
use mm_program::{Term, Terms};
use mm_terms::NoMemory;
use std::alloc::Global;

/// A head over the terms below it.
#[tactic(auto, unfolding(crate::specs::Terms::term_over))]
fn lower_over(
    alloc: Global,
    names: &Names<'_>,
    head: &ast::TermHead,
    parts: Terms,
) -> Result<Term, NoMemory>
    ensures { IfOk result (λ t. t ≡ term_over (paths names.now) (params names.now) head.now parts) }
{
    match head {
        ast::TermHead::Number(number) => Ok(Term::Num(*number)),
        ast::TermHead::Bool(truth) => Ok(Term::Truth(*truth)),
        ast::TermHead::Tuple => Ok(Term::Tuple(parts)),
        ast::TermHead::New(named, variant) => {
            let named = named.get();
            let def = lower_made(alloc, names, named, variant)?;
            let number = lower_variant(alloc, names, named, variant)?;
            let args = lower_types(alloc, names, named.args.as_slice())?;
            Ok(Term::New(def, args, number, parts))
        }
        ast::TermHead::Fn(callee) => Ok(Term::Fn(lower_callee(alloc, names, callee.get())?)),
        ast::TermHead::At(path) => {
            let wanted = Wanted::One(Kind::Static);
            Ok(Term::At(def_of(alloc, names, wanted, path.get())?))
        }
    }
}

/// The constant term that is written.
#[cycle(terms)]
pub fn lower_term(alloc: Global, names: &Names<'_>, term: &ast::Term) -> Result<Term, NoMemory>
    ensures { IfOk result (λ t. t ≡ term_of (paths names.now) (params names.now) term.now) }
{
    let parts = lower_terms(alloc, names, term.parts.as_slice())?;
    lower_over(alloc, names, &term.head, parts)
}

/// The constant terms that are written.
#[cycle(terms)]
fn lower_terms(alloc: Global, names: &Names<'_>, terms: &[ast::Term]) -> Result<Terms, NoMemory>
    ensures { IfOk result (λ ts. ts ≡ map (term_of (paths names.now) (params names.now)) terms.now) }
{
    let mut out = Terms::new(alloc);
    for term in terms {
        out.push(lower_term(alloc, names, term)?)?;
    }
    Ok(out)
}
