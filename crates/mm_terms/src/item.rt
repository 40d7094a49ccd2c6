ghost use Rattle.std.specs.Prelude.{◌≡◌, ◌<◌, ◌^◌, IfOk, refl};
ghost use Rattle.std.specs.Option.{SomeIff};
ghost use Rattle.std.specs.Cmp.{partial_equiv_from_equiv};
ghost use Rattle.std.specs.Ordering.{as_partial_cmp};
ghost use Rattle.std.proofs.Common.{ap};
ghost use Rattle.mm_terms.specs.Hashed.{fed_item};
ghost use Rattle.mm_terms.specs.Length.{item_length};
ghost use Rattle.mm_terms.specs.Order.{item_cmp, kind_of, id_of, types_of};
ghost use Rattle.mm_terms.specs.OrderLaws.{item_cmp_total};
ghost use Rattle.mm_terms.specs.Same.{same_item, same_item_equiv, same_item_order, same_item-cmp, items_equal};

use crate::ids::DefId;
use crate::lists::{NoMemory, Tys};
use crate::ty::{Ty, duplicate_all, total_length};
use std::alloc::Global;
use std::cmp::Ordering;
use std::hash::{Hash, Hasher};
use std::slice;

/// A mono item: what is compiled once, and has no type parameter left.
#[derive(Drop)]
pub enum Item {
    /// An instance of a function, a method or a closure's body.
    Fn(DefId, Tys),
    /// The drop glue of a type.
    Glue(Ty),
    /// The shim by which a function pointer or function item is called as a value.
    Shim(Ty),
    Static(DefId),
}

impl Item {
    pub fn duplicate(&self, alloc: Global) -> Result<Item, NoMemory>
        ensures { IfOk result (λ item. item ≡ self.now) }
    {
        match self {
            Item::Fn(def, args) => Ok(Item::Fn(*def, duplicate_all(alloc, args.as_slice())?)),
            Item::Glue(ty) => Ok(Item::Glue(ty.duplicate(alloc)?)),
            Item::Shim(ty) => Ok(Item::Shim(ty.duplicate(alloc)?)),
            Item::Static(def) => Ok(Item::Static(*def)),
        }
    }

    /// The number of constructors in the item's types, repeats counted. A static has none.
    pub fn length(&self) -> u32
        requires { item_length self.now < 2 ^ 32 }
        ensures { result ≡ item_length self.now }
    {
        total_length(self.types()).unwrap()
    }

    /// The length, or `None` where it is 2^32 or more.
    pub fn try_length(&self) -> Option<u32>
        ensures { SomeIff result (item_length self.now < 2 ^ 32) (item_length self.now) }
    {
        total_length(self.types())
    }

    /// The place of the variant among the variants.
    fn kind(&self) -> u8
        ensures { result ≡ kind_of self.now }
    {
        match self {
            Item::Fn(..) => 0,
            Item::Glue(_) => 1,
            Item::Shim(_) => 2,
            Item::Static(_) => 3,
        }
    }

    /// The number of the item's definition, or 0 where it has none.
    fn id(&self) -> u32
        ensures { result ≡ id_of self.now }
    {
        match self {
            Item::Fn(def, _) | Item::Static(def) => def.0,
            Item::Glue(_) | Item::Shim(_) => 0,
        }
    }

    /// The types that the item has.
    fn types(&self) -> &[Ty]
        ensures { result.now ≡ types_of self.now }
    {
        match self {
            Item::Fn(_, args) => args.as_slice(),
            Item::Glue(ty) | Item::Shim(ty) => slice::from_ref(ty),
            Item::Static(_) => &[],
        }
    }
}

impl PartialEq for Item {
    ghost eq = { same_item };

    ghost laws = { partial_equiv_from_equiv same_item_equiv };

    #[tactic(auto, using(crate::proofs::SameLemmas::item_parts))]
    fn eq(&self, other: &Item) -> bool {
        self.kind() == other.kind() && self.id() == other.id() && self.types() == other.types()
    }
}

impl Eq for Item {
    ghost laws = { same_item_equiv };
}

impl PartialOrd for Item {
    ghost partial_cmp = { as_partial_cmp item_cmp };

    ghost laws = { same_item_order };

    fn partial_cmp(&self, other: &Item) -> Option<Ordering> {
        Some(self.cmp(other))
    }
}

impl Ord for Item {
    ghost cmp = { item_cmp };

    ghost total = { item_cmp_total };

    ghost matches_partial_cmp = { λ _ _. refl };

    ghost matches_eq = { same_item-cmp };

    #[tactic(auto, unfolding(crate::specs::Order::item_cmp))]
    fn cmp(&self, other: &Item) -> Ordering {
        self.kind()
            .cmp(&other.kind())
            .then(self.id().cmp(&other.id()))
            .then_with(|| self.types().cmp(&other.types()))
    }
}

impl Hash for Item {
    ghost hash_input = { fed_item };

    ghost respects_eq = { λ x y same. ap fed_item ((items_equal x y).0 same) };

    #[tactic(auto, unfolding(crate::specs::Hashed::fed_item))]
    fn hash<H: Hasher>(&self, state: &mut H) {
        self.kind().hash(state);
        self.id().hash(state);
        self.types().hash(state);
    }
}
