//! Constant terms.
ghost use Rattle.std.specs.List.{list_all};
ghost use Rattle.std.specs.Prelude.{◌≡◌};
ghost use Rattle.mm_written.specs.Terms.{written_term_head, written_term};

use crate::bodies::written_callee;
use crate::lists::few;
use crate::names::written_variant_name;
use crate::types::written_args;
use mm_ast::{Term, TermHead};

#[tactic(auto, unfolding(crate::specs::Terms::written_term_head))]
fn written_term_head(head: &TermHead) -> bool
    ensures { result ≡ written_term_head head.now }
{
    match head {
        TermHead::Number(_) | TermHead::Bool(_) | TermHead::Tuple | TermHead::At(_) => true,
        TermHead::New(named, variant) => {
            written_args(named.get()) && written_variant_name(variant)
        }
        TermHead::Fn(callee) => written_callee(callee.get()),
    }
}

/// The head of a term, and the terms within.
#[cycle(terms)]
#[tactic(auto, using(crate::proofs::TermLemmas::written_term_parts))]
pub fn written_term(term: &Term) -> bool
    ensures { result ≡ written_term term.now }
{
    written_term_head(&term.head) && few(term.parts.as_slice()) && each_term(term.parts.as_slice())
}

#[cycle(terms)]
fn each_term(terms: &[Term]) -> bool
    ensures { result ≡ list_all written_term terms.now }
{
    for term in terms {
        if !written_term(term) {
            return false;
        }
    }
    true
}
