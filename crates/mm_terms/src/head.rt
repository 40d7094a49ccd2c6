ghost use Rattle.std.specs.Prelude.{◌≡◌, IfOk, refl};
ghost use Rattle.std.specs.Cmp.{partial_equiv_from_equiv};
ghost use Rattle.std.specs.Ordering.{as_partial_cmp};
ghost use Rattle.std.proofs.Common.{ap};
ghost use Rattle.mm_terms.specs.Hashed.{fed_head};
ghost use Rattle.mm_terms.specs.Order.{head_cmp};
ghost use Rattle.mm_terms.specs.OrderLaws.{head_cmp_total};
ghost use Rattle.mm_terms.specs.Same.{same_head, same_head_equiv, same_head_order, same_head-cmp, heads_equal};

use crate::ids::DefId;
use crate::lists::{NoMemory, Tys};
use crate::ty::duplicate_all;
use std::alloc::Global;
use std::cmp::Ordering;
use std::hash::{Hash, Hasher};

/// The head of an impl: a trait at types, the self type first and then the trait's own arguments.
#[derive(Drop)]
pub struct Head {
    pub tr: DefId,
    pub args: Tys,
}

impl Head {
    pub fn duplicate(&self, alloc: Global) -> Result<Head, NoMemory>
        ensures { IfOk result (λ head. head ≡ self.now) }
    {
        let args = duplicate_all(alloc, self.args.as_slice())?;
        Ok(Head { tr: self.tr, args })
    }
}

impl PartialEq for Head {
    ghost eq = { same_head };

    ghost laws = { partial_equiv_from_equiv same_head_equiv };

    #[tactic(auto, using(crate::proofs::SameLemmas::head_parts))]
    fn eq(&self, other: &Head) -> bool {
        self.tr == other.tr && self.args.as_slice() == other.args.as_slice()
    }
}

impl Eq for Head {
    ghost laws = { same_head_equiv };
}

impl PartialOrd for Head {
    ghost partial_cmp = { as_partial_cmp head_cmp };

    ghost laws = { same_head_order };

    fn partial_cmp(&self, other: &Head) -> Option<Ordering> {
        Some(self.cmp(other))
    }
}

impl Ord for Head {
    ghost cmp = { head_cmp };

    ghost total = { head_cmp_total };

    ghost matches_partial_cmp = { λ _ _. refl };

    ghost matches_eq = { same_head-cmp };

    #[tactic(auto, unfolding(crate::specs::Order::head_cmp))]
    fn cmp(&self, other: &Head) -> Ordering {
        self.tr
            .cmp(&other.tr)
            .then_with(|| self.args.as_slice().cmp(&other.args.as_slice()))
    }
}

impl Hash for Head {
    ghost hash_input = { fed_head };

    ghost respects_eq = { λ a b same. ap fed_head ((heads_equal a b).0 same) };

    #[tactic(auto, unfolding(crate::specs::Hashed::fed_head))]
    fn hash<H: Hasher>(&self, state: &mut H) {
        self.tr.hash(state);
        self.args.as_slice().hash(state);
    }
}
