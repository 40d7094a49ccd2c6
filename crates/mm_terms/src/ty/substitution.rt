ghost use Rattle.std.specs.Prelude.{◌≡◌, ◌<◌, ◌^◌, IfOk, List, MatchOption};
ghost use Rattle.std.specs.Option.{SomeIff};
ghost use Rattle.mm_terms.specs.declared.tree.Tree.{Tree};
ghost use Rattle.mm_terms.specs.Formed.{IsFormed};
ghost use Rattle.mm_terms.specs.Length.{length_of};
ghost use Rattle.mm_terms.specs.Substitution.{put, subst};
ghost use Rattle.mm_terms.specs.Tree.{node};

use crate::lists::NoMemory;
use crate::tree::Tree;
use crate::ty::Ty;
use crate::ty_head::TyHead;
use sqlite_items::Items;
use std::alloc::Global;

impl Ty {
    /// The type with `args[i]` in place of each parameter i, and all else as it is; a parameter past the arguments stays
    /// too. The time grows with the length of the result. A result of length 2^32 or more is not made: that is
    /// `NoMemory` too.
    pub fn substitute(&self, alloc: Global, args: &[Ty]) -> Result<Ty, NoMemory>
        ensures { IfOk result (λ t. t ≡ subst args.now self.now) }
    {
        let length = self.substituted_length(args).ok_or(NoMemory)?;
        let tree = substituted(alloc, &self.tree, args)?;
        Ok(Ty { tree, length })
    }

    /// The length of what `substitute` would make, or `None` where it is 2^32 or more. The time grows with the length
    /// of this type alone.
    pub fn substituted_length(&self, args: &[Ty]) -> Option<u32>
        ensures { SomeIff result (length_of (subst args.now self.now) < 2 ^ 32) (length_of (subst args.now self.now)) }
    {
        total_substituted(&self.tree, args)
    }
}

/// The argument in place of the head, where it is a parameter that has one.
fn argument(head: TyHead, args: &[Ty]) -> Option<&Ty>
    ensures { MatchOption result
        ((children : List Tree) → put args.now head children ≡ node head children)
        (λ arg. (children : List Tree) → put args.now head children ≡ arg.now) }
{
    match head {
        TyHead::Param(place) => args.get(place as usize),
        _ => None,
    }
}

/// The tree with the arguments put in.
fn substituted(alloc: Global, tree: &Tree, args: &[Ty]) -> Result<Tree, NoMemory>
    ensures value { IfOk result (λ t. t ≡ subst args.now tree.now) }
    ensures formed { IsFormed tree.now → IfOk result IsFormed }
{
    if let Some(arg) = argument(tree.head, args) {
        return arg.tree.duplicate(alloc);
    }
    let mut children = Vec::with_capacity(alloc, tree.children.len())?;
    for child in tree.children.as_slice() {
        children.push(substituted(alloc, child, args)?)?;
    }
    Ok(Tree {
        head: tree.head,
        children: Items::from_vec(children),
    })
}

/// The length of the tree with the arguments put in, or `None` where it is 2^32 or more.
fn total_substituted(tree: &Tree, args: &[Ty]) -> Option<u32>
    ensures { SomeIff result (length_of (subst args.now tree.now) < 2 ^ 32) (length_of (subst args.now tree.now)) }
{
    if let Some(arg) = argument(tree.head, args) {
        return Some(arg.length());
    }
    let mut total: u32 = 1;
    for child in tree.children.as_slice() {
        total = total.checked_add(total_substituted(child, args)?)?;
    }
    Some(total)
}
