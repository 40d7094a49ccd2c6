//! What is mentioned by constant terms.
ghost use Rattle.std.specs.Prelude.{◌≡◌, ◌++◌, OnOk};
ghost use Rattle.mm_mentions.specs.Seen.{seen};
ghost use Rattle.mm_mentions.specs.TermMentions.{term_head_mentions, term_mentions, terms_mentions};

use crate::callees::{mention_callee, mention_new};
use crate::mention::Mention;
use crate::one_mention::mention_path;
use crate::scope::Scope;
use mm_ast::{Term, TermHead};
use mm_definitions::{Kind, Wanted};
use mm_terms::NoMemory;
use std::alloc::Global;

/// Adds what stands at the head of a term with so many parts.
#[tactic(auto, unfolding(crate::specs::TermMentions::term_head_mentions))]
fn mention_head(
    alloc: Global,
    scope: &Scope<'_>,
    head: &TermHead,
    parts: usize,
    out: &mut Vec<Mention>,
) -> Result<(), NoMemory>
    ensures { OnOk result (out.new.items ≡ out.old.items ++ term_head_mentions (seen scope.now) head.now parts) }
{
    match head {
        TermHead::Number(_) | TermHead::Bool(_) | TermHead::Tuple => Ok(()),
        TermHead::New(named, variant) => {
            mention_new(alloc, scope, named.get(), variant, parts, out)
        }
        TermHead::Fn(callee) => mention_callee(alloc, scope, callee.get(), None, out),
        TermHead::At(path) => {
            let wanted = Wanted::One(Kind::Static);
            mention_path(alloc, wanted, path.get(), 0, None, out)
        }
    }
}

/// Adds a term: its head, and then the terms within.
#[cycle(terms)]
pub fn mention_term(
    alloc: Global,
    scope: &Scope<'_>,
    term: &Term,
    out: &mut Vec<Mention>,
) -> Result<(), NoMemory>
    ensures { OnOk result (out.new.items ≡ out.old.items ++ term_mentions (seen scope.now) term.now) }
{
    let parts = term.parts.as_slice();
    mention_head(alloc, scope, &term.head, parts.len(), out)?;
    mention_terms(alloc, scope, parts, out)
}

/// Adds terms.
#[cycle(terms)]
fn mention_terms(
    alloc: Global,
    scope: &Scope<'_>,
    terms: &[Term],
    out: &mut Vec<Mention>,
) -> Result<(), NoMemory>
    ensures { OnOk result (out.new.items ≡ out.old.items ++ terms_mentions (seen scope.now) terms.now) }
{
    for term in terms {
        mention_term(alloc, scope, term, out)?;
    }
    Ok(())
}
