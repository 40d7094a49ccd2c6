//! One thing behind another. What was read before is given to these and is not kept where it is read, so that a reader holds
//! no part of a tree while the next is read.

ghost use Rattle.std.specs.Prelude.{List};
ghost use Rattle.mm_forms.specs.Forms.{Read};
ghost use Rattle.mm_forms.specs.Given.{Gives};
ghost use Rattle.mm_lex.specs.Lexemes.{Lexeme};
ghost use Rattle.mm_grammar.specs.Seen.{seen};
ghost use Rattle.mm_grammar.specs.Sequences.{then_punct, and_then, first_of};

use crate::cursor::Tokens;
use crate::pieces::{past_punct, single};
use mm_forms::Stop;
use mm_lex::Punct;
use sqlite_items::Items;
use std::alloc::Global;

/// What was read, with this punctuation behind it.
pub fn ended<'a, T: Drop>(
    item: Result<(T, Tokens<'a>), Stop>,
    punct: Punct,
) -> Result<(T, Tokens<'a>), Stop>
    ensures { (read : Read Lexeme T) → Gives (λ x. (x.0, seen x.1)) item.entry read → Gives (λ x. (x.0, seen x.1)) result (then_punct punct read) }
{
    let (value, rest) = item?;
    let rest = past_punct(punct, rest)?;
    Ok((value, rest))
}

/// The first, and the second that was read behind it.
pub fn both<'a, A: Drop, B: Drop>(
    first: A,
    second: Result<(B, Tokens<'a>), Stop>,
) -> Result<((A, B), Tokens<'a>), Stop>
    ensures { (read : Read Lexeme B) → Gives (λ x. (x.0, seen x.1)) second.entry read → Gives (λ x. (x.0, seen x.1)) result (and_then first read) }
{
    let (second, rest) = second?;
    Ok(((first, second), rest))
}

/// The first of a list, and the others that were read behind it.
pub fn listed<'a, T: Drop>(
    alloc: Global,
    first: T,
    others: Result<(Items<T>, Tokens<'a>), Stop>,
) -> Result<(Items<T>, Tokens<'a>), Stop>
    ensures { (read : Read Lexeme (List T)) → Gives (λ x. (x.0, seen x.1)) others.entry read → Gives (λ x. (x.0, seen x.1)) result (first_of first read) }
{
    let (others, rest) = others?;
    let mut items = single(alloc, first)?;
    items.append(others)?;
    Ok((items, rest))
}
