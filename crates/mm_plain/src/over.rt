use mm_terms::Text;

/// The note of an instance that is too long.
#[derive(Drop)]
pub struct Over {
    /// The path of its definition.
    pub path: Text,
    /// Its length.
    pub length: u32,
}
