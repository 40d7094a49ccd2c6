ghost use Rattle.std.specs.Prelude.{◌≡◌, ◌<◌, ◌^◌, IfOk, refl};
ghost use Rattle.std.specs.Cmp.{partial_equiv_from_equiv};
ghost use Rattle.std.specs.Ordering.{as_partial_cmp};
ghost use Rattle.std.proofs.Common.{ap};
ghost use Rattle.mm_terms.specs.Hashed.{fed_tree};
ghost use Rattle.mm_terms.specs.Length.{length_of};
ghost use Rattle.mm_terms.specs.Order.{tree_cmp};
ghost use Rattle.mm_terms.specs.OrderLaws.{tree_cmp_total};
ghost use Rattle.mm_terms.specs.Same.{same_tree, same_tree_equiv, same_tree_order, same_tree-cmp, types_equal};

use crate::lists::NoMemory;
use crate::ty_head::TyHead;
use sqlite_items::Items;
use std::alloc::Global;
use std::cmp::Ordering;
use std::hash::{Hash, Hasher};

/// A type as a finite tree: a head, and the types below it. Contracts see each `Ty` as its tree.
#[derive(Drop)]
pub struct Tree {
    pub head: TyHead,
    pub children: Items<Tree>,
}

impl Tree {
    /// The number of constructors, repeats counted.
    pub(crate) fn length(&self) -> u32
        requires { length_of self.now < 2 ^ 32 }
        ensures { result ≡ length_of self.now }
    {
        let mut total = 1;
        for child in self.children.as_slice() {
            total += child.length();
        }
        total
    }

    pub(crate) fn duplicate(&self, alloc: Global) -> Result<Tree, NoMemory>
        ensures { IfOk result (λ t. t ≡ self.now) }
    {
        let mut children = Vec::with_capacity(alloc, self.children.len())?;
        for child in self.children.as_slice() {
            children.push(child.duplicate(alloc)?)?;
        }
        Ok(Tree {
            head: self.head,
            children: Items::from_vec(children),
        })
    }
}

impl PartialEq for Tree {
    ghost eq = { same_tree };

    ghost laws = { partial_equiv_from_equiv same_tree_equiv };

    fn eq(&self, other: &Tree) -> bool {
        let others = other.children.as_slice();
        if self.head != other.head || self.children.len() != others.len() {
            return false;
        }
        for (i, child) in self.children.as_slice().iter().enumerate() {
            if *child != others[i] {
                return false;
            }
        }
        true
    }
}

impl Eq for Tree {
    ghost laws = { same_tree_equiv };
}

impl PartialOrd for Tree {
    ghost partial_cmp = { as_partial_cmp tree_cmp };

    ghost laws = { same_tree_order };

    fn partial_cmp(&self, other: &Tree) -> Option<Ordering> {
        Some(self.cmp(other))
    }
}

impl Ord for Tree {
    ghost cmp = { tree_cmp };

    ghost total = { tree_cmp_total };

    ghost matches_partial_cmp = { λ _ _. refl };

    ghost matches_eq = { same_tree-cmp };

    fn cmp(&self, other: &Tree) -> Ordering {
        let by_head = self.head.cmp(&other.head);
        if by_head.is_ne() {
            return by_head;
        }
        let others = other.children.as_slice();
        for (i, child) in self.children.as_slice().iter().enumerate() {
            let Some(other) = others.get(i) else {
                return Ordering::Greater;
            };
            let by_child = child.cmp(other);
            if by_child.is_ne() {
                return by_child;
            }
        }
        self.children.len().cmp(&others.len())
    }
}

impl Hash for Tree {
    ghost hash_input = { fed_tree };

    ghost respects_eq = { λ s t same. ap fed_tree ((types_equal s t).0 same) };

    fn hash<H: Hasher>(&self, state: &mut H) {
        self.head.hash(state);
        let children = self.children.as_slice();
        state.write_usize(children.len());
        for child in children {
            child.hash(state);
        }
    }
}
