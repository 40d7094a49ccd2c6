ghost use Rattle.std.specs.Prelude.{◌≡◌, flat_map};
ghost use Rattle.std.specs.Option.{option_copied};
ghost use Rattle.mm_program.specs.Marks.{marked};
ghost use Rattle.mm_program.specs.Naming.{named_in_term, names_if};

use super::mark;
use super::operands::{mark_callee, mark_instance};
use crate::term::Term;

#[cycle(marking)]
#[tactic(auto, unfolding(crate::specs::Naming::named_in_term))]
fn mark_term(marks: &mut [bool], term: &Term)
    ensures { marks.new ≡ marked marks.old (named_in_term term.now) }
{
    match term {
        Term::Num(_) | Term::Truth(_) => {}
        Term::Tuple(parts) => mark_terms(marks, parts.as_slice()),
        Term::New(d, args, _, parts) => {
            mark_instance(marks, *d, args.as_slice());
            mark_terms(marks, parts.as_slice());
        }
        Term::Fn(callee) => mark_callee(marks, callee),
        Term::At(d) => mark(marks, *d),
    }
}

#[cycle(marking)]
fn mark_terms(marks: &mut [bool], terms: &[Term])
    ensures { marks.new ≡ marked marks.old (flat_map named_in_term terms.now) }
{
    for term in terms {
        mark_term(marks, term);
    }
}

pub(crate) fn mark_term_if(marks: &mut [bool], term: Option<&Term>)
    ensures { marks.new ≡ marked marks.old (names_if named_in_term (option_copied term.entry)) }
{
    if let Some(term) = term {
        mark_term(marks, term);
    }
}
