use crate::named::Named;
use sqlite_items::Items;

/// What a crate defines, and the number of the definition that comes after it.
#[derive(Drop)]
pub struct Numbered {
    /// In the order of their first tokens.
    pub named: Items<Named>,
    pub next: u32,
}
