use mm_terms::Text;

/// Why a program is not collected.
#[derive(Debug, Drop)]
pub enum CollectFault {
    /// The program needs more items than the limit, which is given.
    TooMany(u32),
    /// A body calls an instance that is longer than the limit on lengths: the path of its definition, and its length.
    TypeLength(Text, u32),
    /// An instance is missing, which is given as text.
    NoImpl(Text),
    NoMemory,
}
