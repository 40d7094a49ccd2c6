ghost use Rattle.std.specs.Prelude.{◌≡◌, ◌≢◌, ℕ, List, IfOk};
ghost use Rattle.mm_plain.specs.Finding.{AreInOrder};
ghost use Rattle.mm_plain.specs.Roots.{roots_of};
ghost use Rattle.mm_plain.specs.Uses.{uses_of, notes_of};
ghost use Rattle.mm_plain.specs.Verdict.{IsAccepted, IsTooLong, IsTooMany};

use crate::closure::{Closed, Graph, Scan, Stop, members};
use crate::fault::CollectFault;
use crate::roots::roots;
use crate::uses::uses;
use mm_plain::{Opts, Program};
use mm_terms::{Item, ItemList};
use std::alloc::{AllocError, Global};

/// The items of a program, as far as they are within a limit on their lengths.
#[derive(Clone, Copy)]
struct Instances<'a> {
    program: &'a Program,
    limit: u32,
}

impl Graph for Instances<'_> {
    ghost roots = { λ all. roots_of all.program.now };

    ghost uses = { λ all. uses_of all.program.now all.limit };

    ghost notes = { λ all. notes_of all.program.now all.limit };

    fn start(&self, alloc: Global) -> Result<Vec<Item>, AllocError> {
        roots(alloc, self.program)
    }

    fn scan(&self, alloc: Global, item: &Item) -> Result<Scan, AllocError> {
        uses(alloc, self.program, self.limit, item)
    }
}

/// The mono items of a program, each once, in order of finding: its roots, and all that a chain of uses resolves to from a
/// root. A use is an instance that a call resolves to and that is within the limit on lengths.
///
/// # Errors
/// - `TooMany`, with the limit on items, where the program has more items than that.
/// - Else `TypeLength`, where a body of an item calls an instance that is longer than the limit on lengths: the least
///   such instance by the bytes of its path, and then by its length.
/// - `NoMemory` may come at any time. It also comes where an instance has a length of 2^32 or more.
///
/// `NoImpl` does not come, since there are no traits.
pub fn collect(alloc: Global, p: &Program, opts: &Opts) -> Result<ItemList, CollectFault>
    // Each answer comes only under its own verdict. No two verdicts hold of one program (`one_verdict`), so each comes
    // exactly under its own.
    ensures accepted { IfOk result (IsAccepted p.now opts.now) }
    ensures order { IfOk result (AreInOrder (roots_of p.now) (uses_of p.now opts.now.length)) }
    ensures too_many { (n : ℕ) → result ≡ Err (CollectFault.TooMany n) → (n ≡ opts.now.items) × IsTooMany p.now opts.now }
    ensures too_long { (path : List ℕ) (n : ℕ) → result ≡ Err (CollectFault.TypeLength path n) → IsTooLong p.now opts.now path n }

    // What needs traits.
    ensures no_missing { (text : List ℕ) → result ≢ Err (CollectFault.NoImpl text) }
{
    let graph = Instances {
        program: p,
        limit: opts.length,
    };
    match members(alloc, &graph, opts.items as usize) {
        Ok(Closed { items, over }) => match over {
            None => Ok(items),
            Some(over) => Err(CollectFault::TypeLength(over.path, over.length)),
        },
        Err(Stop::TooMany) => Err(CollectFault::TooMany(opts.items)),
        Err(Stop::NoMemory) => Err(CollectFault::NoMemory),
    }
}
