ghost use Rattle.std.specs.Prelude.{◌≡◌, ◌+◌, ◌<◌, ◌^◌, IfOk, All, length, refl};
ghost use Rattle.std.specs.Option.{SomeIff};
ghost use Rattle.std.specs.Cmp.{partial_equiv_from_equiv};
ghost use Rattle.std.specs.Ordering.{as_partial_cmp};
ghost use Rattle.std.proofs.Common.{ap};
ghost use Rattle.mm_terms.specs.Formed.{FitsHead, IsFormed};
ghost use Rattle.mm_terms.specs.Hashed.{fed_tree};
ghost use Rattle.mm_terms.specs.Length.{length_of, lengths_of};
ghost use Rattle.mm_terms.specs.Order.{tree_cmp};
ghost use Rattle.mm_terms.specs.OrderLaws.{tree_cmp_total};
ghost use Rattle.mm_terms.specs.Same.{same_tree, same_tree_equiv, same_tree_order, same_tree-cmp, types_equal};
ghost use Rattle.mm_terms.specs.Tree.{node, head_of, children_of};

mod substitution;

use crate::lists::{NoMemory, Tys};
use crate::tree::Tree;
use crate::ty_head::TyHead;
use sqlite_items::Items;
use std::alloc::Global;
use std::cmp::Ordering;
use std::hash::{Hash, Hasher};
use std::marker::Model;

/// A type, which contracts see as its tree. Each head in it has as many children as it takes, and its length is below
/// 2^32. The length is kept beside the tree.
#[derive(Drop)]
pub struct Ty {
    tree: Tree,
    length: u32,
}

impl Model for Ty {
    ghost use Rattle.mm_terms.specs.contracts.tree.Tree as tree_row;
    ghost use Rattle.mm_terms.specs.declared.tree.Tree.{Tree};
    ghost use Rattle.std.specs.Coded.{codes};

    ghost Value = { Tree };

    ghost coded = { Prim.hlevel (codes, tree_row.the_row.coded) };

    ghost use Rattle.std.specs.Prelude.{◌≡◌};
    ghost use Rattle.std.proofs.Common.{sym};
    ghost use Rattle.mm_terms.specs.Formed.{IsType};
    ghost use Rattle.mm_terms.specs.Length.{length_of};

    ghost view = { λ t. t.tree };

    ghost invariant = { λ t. IsType t.tree × (t.length ≡ length_of t.tree) };

    ghost inverse = { λ t. record { tree = t; length = length_of t } };

    ghost inverse_ok = { λ t h i. record { tree = t.tree; length = sym h.1 i } };
}

impl Ty {
    /// The type with this head over these children, which are moved. A type of length 2^32 or more is not made: that is
    /// `NoMemory` too.
    pub fn from_children(alloc: Global, head: TyHead, children: Vec<Ty>) -> Result<Ty, NoMemory>
        requires { FitsHead head (length children.items) }
        ensures { IfOk result (λ ty. ty ≡ node head children.items) }
    {
        let Some(length) = length_over(&children) else {
            return Err(NoMemory);
        };
        let children = trees(alloc, children)?;
        Ok(Ty {
            tree: Tree { head, children },
            length,
        })
    }

    /// The type with this head and copies of these children. A type of length 2^32 or more is not made: that is
    /// `NoMemory` too.
    pub fn make(alloc: Global, head: TyHead, children: &[Ty]) -> Result<Ty, NoMemory>
        requires { FitsHead head (length children.now) }
        ensures { IfOk result (λ ty. ty ≡ node head children.now) }
    {
        Ty::from_children(alloc, head, copies(alloc, children)?)
    }

    /// The type as its tree.
    pub fn as_tree(&self) -> &Tree
        ensures { result.now ≡ self.now }
    {
        &self.tree
    }

    pub fn head(&self) -> TyHead
        ensures { result ≡ head_of self.now }
    {
        self.tree.head
    }

    /// The number of children.
    pub fn arity(&self) -> u32
        ensures count { result ≡ length (children_of self.now) }
        ensures fits { FitsHead (head_of self.now) result }
    {
        self.tree.children.len() as u32
    }

    /// Copies of the children, in their order.
    pub fn children(&self, alloc: Global) -> Result<Tys, NoMemory>
        ensures { IfOk result (λ tys. tys ≡ children_of self.now) }
    {
        let mut children = Vec::with_capacity(alloc, self.tree.children.len())?;
        for child in self.tree.children.as_slice() {
            let tree = child.duplicate(alloc)?;
            let length = child.length();
            children.push(Ty { tree, length })?;
        }
        Ok(Items::from_vec(children))
    }

    pub fn duplicate(&self, alloc: Global) -> Result<Ty, NoMemory>
        ensures { IfOk result (λ ty. ty ≡ self.now) }
    {
        let tree = self.tree.duplicate(alloc)?;
        Ok(Ty {
            tree,
            length: self.length,
        })
    }

    /// The number of constructors in the type, repeats counted. `(u64, u64)` and `fnptr(u64) -> bool` have 3, and `()`
    /// has 1.
    pub fn length(&self) -> u32
        ensures { result ≡ length_of self.now }
    {
        self.length
    }
}

/// The sum of the lengths, or `None` where it is 2^32 or more.
pub(crate) fn total_length(types: &[Ty]) -> Option<u32>
    ensures { SomeIff result (lengths_of types.now < 2 ^ 32) (lengths_of types.now) }
{
    let mut total: u32 = 0;
    for ty in types {
        total = total.checked_add(ty.length())?;
    }
    Some(total)
}

/// The length of a type over these children, or `None` where it is 2^32 or more.
fn length_over(children: &[Ty]) -> Option<u32>
    ensures { SomeIff result (1 + lengths_of children.now < 2 ^ 32) (1 + lengths_of children.now) }
{
    total_length(children)?.checked_add(1)
}

/// The types as trees.
fn trees(alloc: Global, types: Vec<Ty>) -> Result<Items<Tree>, NoMemory>
    ensures same { IfOk result (λ trees. trees ≡ types.items) }
    ensures formed { IfOk result (λ trees. All IsFormed trees) }
{
    let mut trees = Vec::with_capacity(alloc, types.len())?;
    for ty in types {
        trees.push(ty.tree)?;
    }
    Ok(Items::from_vec(trees))
}

fn copies(alloc: Global, types: &[Ty]) -> Result<Vec<Ty>, NoMemory>
    ensures { IfOk result (λ tys. tys.items ≡ types.now) }
{
    let mut copies = Vec::with_capacity(alloc, types.len())?;
    for ty in types {
        copies.push(ty.duplicate(alloc)?)?;
    }
    Ok(copies)
}

/// A copy of each of the types, in their order.
pub fn duplicate_all(alloc: Global, types: &[Ty]) -> Result<Tys, NoMemory>
    ensures { IfOk result (λ tys. tys ≡ types.now) }
{
    Ok(Items::from_vec(copies(alloc, types)?))
}

impl PartialEq for Ty {
    ghost eq = { same_tree };

    ghost laws = { partial_equiv_from_equiv same_tree_equiv };

    fn eq(&self, other: &Ty) -> bool {
        self.tree == other.tree
    }
}

impl Eq for Ty {
    ghost laws = { same_tree_equiv };
}

impl PartialOrd for Ty {
    ghost partial_cmp = { as_partial_cmp tree_cmp };

    ghost laws = { same_tree_order };

    fn partial_cmp(&self, other: &Ty) -> Option<Ordering> {
        Some(self.cmp(other))
    }
}

impl Ord for Ty {
    ghost cmp = { tree_cmp };

    ghost total = { tree_cmp_total };

    ghost matches_partial_cmp = { λ _ _. refl };

    ghost matches_eq = { same_tree-cmp };

    fn cmp(&self, other: &Ty) -> Ordering {
        self.tree.cmp(&other.tree)
    }
}

impl Hash for Ty {
    ghost hash_input = { fed_tree };

    ghost respects_eq = { λ s t same. ap fed_tree ((types_equal s t).0 same) };

    fn hash<H: Hasher>(&self, state: &mut H) {
        self.tree.hash(state);
    }
}
