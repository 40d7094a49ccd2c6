ghost use Rattle.std.specs.Prelude.{◌≡◌, ◌<◌, ◌||◌, List, ◌++◌, length, false, IfOk};
ghost use Rattle.mm_plain.specs.declared.program.Call.{Call};
ghost use Rattle.mm_plain.specs.Roots;
ghost use Rattle.mm_plain.specs.Roots.{is_named, generic_calls, roots_of, AreMarks};
ghost use Rattle.mm_plain.specs.Uses.{calls_of};

use mm_plain::{End, Function, Program};
use mm_terms::{DefId, Item, NoMemory, Tys};
use std::alloc::Global;

/// Marks the functions that a body names.
fn mark_callees(marks: &mut Vec<bool>, function: &Function)
    ensures count { length marks.new.items ≡ length marks.old.items }
    ensures marked { (calls : List Call) → AreMarks calls marks.old.items → AreMarks (calls ++ calls_of function.now) marks.new.items }
{
    for block in function.blocks.as_slice() {
        if let End::Call(call) = &block.end {
            if let Some(mark) = marks.get_mut(call.callee.0 as usize) {
                *mark = true;
            }
        }
    }
}

/// Marks the functions that generic bodies name, each at its own place.
fn named_by_generics(alloc: Global, p: &Program) -> Result<Vec<bool>, NoMemory>
    ensures count { IfOk result (λ marks. length marks.items ≡ length p.now.functions) }
    ensures marked { IfOk result (λ marks. AreMarks (generic_calls p.now) marks.items) }
{
    let mut marks = vec![in alloc; false; p.functions.len()]?;
    for function in p.functions.as_slice() {
        if function.type_params > 0 {
            mark_callees(&mut marks, function);
        }
    }
    Ok(marks)
}

/// Whether a function is needed whatever is used. Its id is given too, and whether a generic body names it.
fn is_root(p: &Program, id: u32, function: &Function, named_by_generic: bool) -> bool
    requires { named_by_generic ≡ is_named (generic_calls p.now) id }
    ensures { result ≡ Roots.is_root p.now (id, function.now) }
{
    let is_exported = function.type_params == 0 && (function.is_pub || named_by_generic);
    is_exported || id == p.main.0
}

/// The items that are needed whatever is used: the functions without type parameters that other crates can name or
/// that a generic body names, and `main`. Each is there once, in order of definition. Collection begins with roots, as
/// in rustc; that exactly these are the roots is this project's own rule.
pub fn roots(alloc: Global, p: &Program) -> Result<Vec<Item>, NoMemory>
    ensures { IfOk result (λ items. items.items ≡ roots_of p.now) }
{
    let named = named_by_generics(alloc, p)?;
    let mut roots = Vec::new(alloc);
    for (place, function) in p.functions.as_slice().iter().enumerate() {
        // There are ids for 2^32 functions.
        let Ok(id) = u32::try_from(place) else {
            return Err(NoMemory);
        };
        if is_root(p, id, function, named[place]) {
            roots.push(Item::Fn(DefId(id), Tys::new(alloc)))?;
        }
    }
    Ok(roots)
}
