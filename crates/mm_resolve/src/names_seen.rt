//! Names that stand before already in their list.
ghost use Rattle.std.specs.Prelude.{◌≡◌, [], ◌∷◌, ◌++◌, ◌||◌, ℕ, List, Bool, map, IfOk, OnOk};
ghost use Rattle.std.specs.List.{list_any};
ghost use Rattle.std.specs.Str.{bytes_eq};
ghost use Rattle.mm_resolve.specs.Doubles.{line_if, again, repeated, texts_of, Holds};

use crate::has_name::HasName;
use indexmap::IndexSet;
use mm_ast::Name;
use mm_terms::NoMemory;
use sqlite_items::Items;
use std::alloc::Global;

/// The texts of names that were seen.
pub type Seen<'a> = IndexSet<&'a [u8]>;

/// Adds a line, where something fails.
fn add_if(fails: bool, line: u32, lines: &mut Items<u32>) -> Result<(), NoMemory>
    ensures { OnOk result (lines.new ≡ lines.old ++ line_if fails line) }
{
    if fails {
        lines.push(line)?;
    }
    Ok(())
}

/// Adds the line of a name that is one of those outside, or was seen. It is seen from now on.
pub fn add_again<'a>(
    outside: &Seen<'a>,
    seen: &mut Seen<'a>,
    name: &'a Name,
    lines: &mut Items<u32>,
) -> Result<(), NoMemory>
    ensures lines { OnOk result ((before among : List (List ℕ)) → Holds outside.now before → Holds seen.old among → lines.new ≡ lines.old ++ again (before ++ among) name.now) }
    ensures seen { OnOk result ((among : List (List ℕ)) → Holds seen.old among → Holds seen.new (among ++ name.now.text ∷ [])) }
{
    let text = name.text.as_slice();
    let (_, is_new) = seen.insert_full(text)?;
    add_if(outside.contains(text) || !is_new, name.line, lines)?;
    Ok(())
}

/// Adds the lines of the names that are among those outside, were seen, or stand before in their list. They are seen from now
/// on.
pub fn add_repeated<'a, T: HasName>(
    outside: &Seen<'a>,
    seen: &mut Seen<'a>,
    things: &'a [T],
    lines: &mut Items<u32>,
) -> Result<(), NoMemory>
    ensures lines { OnOk result ((before among : List (List ℕ)) → Holds outside.now before → Holds seen.old among → lines.new ≡ lines.old ++ repeated (before ++ among) (map T.name things.now)) }
    ensures seen { OnOk result ((among : List (List ℕ)) → Holds seen.old among → Holds seen.new (among ++ texts_of (map T.name things.now))) }
{
    for thing in things {
        add_again(outside, seen, thing.name(), lines)?;
    }
    Ok(())
}

/// Adds the lines of the names that stand before already in their list.
pub fn add_doubles<T: HasName>(
    alloc: Global,
    things: &[T],
    lines: &mut Items<u32>,
) -> Result<(), NoMemory>
    ensures { OnOk result (lines.new ≡ lines.old ++ repeated [] (map T.name things.now)) }
{
    let outside = IndexSet::new(alloc);
    let mut seen = IndexSet::new(alloc);
    add_repeated(&outside, &mut seen, things, lines)?;
    Ok(())
}

/// The lines of the names that stand before already in their list.
pub fn repeated(alloc: Global, names: &[Name]) -> Result<Items<u32>, NoMemory>
    ensures { IfOk result (λ lines. lines ≡ repeated [] names.now) }
{
    let mut lines = Items::new(alloc);
    add_doubles(alloc, names, &mut lines)?;
    Ok(lines)
}
