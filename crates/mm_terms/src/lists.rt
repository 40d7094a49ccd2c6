use crate::item::Item;
use crate::ty::Ty;
use sqlite_items::Items;

/// Out of memory.
pub use std::alloc::AllocError as NoMemory;

/// A list of bytes.
pub type Text = Items<u8>;

/// A list of types.
pub type Tys = Items<Ty>;

/// A list of items.
pub type ItemList = Items<Item>;

/// A list of numbers.
pub type Nums = Items<u64>;
