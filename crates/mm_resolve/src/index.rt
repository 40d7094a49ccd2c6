ghost use Rattle.std.specs.Prelude.{◌≡◌, ◌&&◌, ℕ, List, cond, Some, None, IfOk, OnOk};
ghost use Rattle.std.specs.Option.{option_map, option_or};
ghost use Rattle.std.specs.Str.{bytes_eq};
ghost use Rattle.mm_definitions.specs.declared.kinds.Kind as kinds;
ghost use Rattle.mm_definitions.specs.declared.named.Named as defined;
ghost use Rattle.mm_resolve.specs.Resolving.{is_named, look_up, first_of};

use indexmap::IndexMap;
use mm_definitions::{Kind, Named};
use mm_terms::NoMemory;
use std::alloc::Global;

/// What is looked up: a kind and a path.
#[derive(Clone, Copy, PartialEq, Eq, Hash)]
pub struct Key<'a> {
    pub kind: Kind,
    pub path: &'a [u8],
}

/// The first definition of each kind and path.
pub type Index<'a> = IndexMap<Key<'a>, &'a Named>;

/// The first definition of this kind and path.
pub fn find<'a>(index: &Index<'a>, kind: Kind, path: &[u8]) -> Option<&'a Named>
    ensures { option_map (λ d. d.now) result ≡ look_up index.now kind path.now }
{
    index.get(&Key { kind, path }).copied()
}

/// Adds a definition, unless there is one of its kind and path.
pub fn add<'a>(index: &mut Index<'a>, named: &'a Named) -> Result<(), NoMemory>
    ensures { OnOk result ((kind : kinds.Kind) (path : List ℕ) → look_up index.new kind path ≡ option_or (look_up index.old kind path) (cond (is_named kind path named.now) (Some named.now) None)) }
{
    let key = Key {
        kind: named.kind,
        path: named.path.as_slice(),
    };
    if index.contains_key(&key) {
        return Ok(());
    }
    index.insert(key, named)?;
    Ok(())
}
