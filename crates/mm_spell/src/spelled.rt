use mm_lex::Punct;
use mm_names::Word;

/// A token that is written for a part of a tree, by what it spells.
#[derive(Clone, Copy)]
pub enum Spelled<'a> {
    /// A name, by its bytes.
    Name(&'a [u8]),
    Word(Word),
    /// A local by its number.
    Local(u64),
    /// A block by its number.
    Label(u64),
    Number(u64),
    Punct(Punct),
}
