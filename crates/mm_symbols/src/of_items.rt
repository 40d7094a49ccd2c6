ghost use Rattle.std.specs.Prelude.{◌≡◌, eqb, map, filter, IfOk};
ghost use Rattle.std.specs.List.{slice_split};
ghost use Rattle.mm_symbols.specs.SymbolText.{symbol_text};
ghost use Rattle.mm_symbols.specs.ItemForms.{has_some, names_in, names_of, head_form, type_form, item_form, form_of};

use crate::form::{Segs, SymHead, SymItem, SymType, SymTypes, SymbolForm};
use crate::writing::write_symbol;
use mm_plain::Program;
use mm_terms::{DefId, Item, NoMemory, Text, Tree, Ty, TyHead};
use sqlite_items::Items;
use std::alloc::Global;

/// What stands between the colons.
fn parts(alloc: Global, path: &[u8]) -> Result<Vec<&[u8]>, NoMemory>
    ensures { IfOk result (λ parts. map (λ x. x.now) parts.items ≡ slice_split (λ c. eqb c 58) path.now) }
{
    path.split(|c| *c == b':').collect(alloc)
}

/// Those of the parts that are not empty.
fn nonempty(alloc: Global, parts: &[&[u8]]) -> Result<Segs, NoMemory>
    ensures { IfOk result (λ names. names ≡ filter has_some (map (λ x. x.now) parts.now)) }
{
    let mut names = Items::new(alloc);
    for part in parts {
        if !part.is_empty() {
            names.push(Text::from_slice(alloc, part)?)?;
        }
    }
    Ok(names)
}

#[tactic(auto, unfolding(crate::specs::ItemForms::names_in))]
fn names_in(alloc: Global, path: &[u8]) -> Result<Segs, NoMemory>
    ensures { IfOk result (λ names. names ≡ names_in path.now) }
{
    let parts = parts(alloc, path)?;
    nonempty(alloc, &parts)
}

/// The names of a definition's path.
fn names(alloc: Global, p: &Program, d: DefId) -> Result<Segs, NoMemory>
    ensures { IfOk result (λ names. names ≡ names_of p.now d) }
{
    names_in(alloc, p.path(d))
}

fn head_form(alloc: Global, p: &Program, head: TyHead) -> Result<SymHead, NoMemory>
    ensures { IfOk result (λ form. form ≡ head_form p.now head) }
{
    let form = match head {
        TyHead::Param(_) => SymHead::Adt(Items::new(alloc)),
        TyHead::U64 => SymHead::U64,
        TyHead::Bool => SymHead::Bool,
        TyHead::Tuple => SymHead::Tuple,
        TyHead::Ref => SymHead::Ref,
        TyHead::Boxed => SymHead::Boxed,
        TyHead::FnPtr => SymHead::FnPtr,
        TyHead::FnItem(d) => SymHead::FnItem(names(alloc, p, d)?),
        TyHead::Closure(d) => SymHead::Closure(names(alloc, p, d)?),
        TyHead::Dyn(d) => SymHead::Dyn(names(alloc, p, d)?),
        TyHead::Adt(d) => SymHead::Adt(names(alloc, p, d)?),
    };
    Ok(form)
}

/// A type, head by head.
fn type_form(alloc: Global, p: &Program, tree: &Tree) -> Result<SymType, NoMemory>
    ensures { IfOk result (λ form. form ≡ type_form p.now tree.now) }
{
    let mut children = Vec::with_capacity(alloc, tree.children.len())?;
    for child in tree.children.as_slice() {
        children.push(type_form(alloc, p, child)?)?;
    }
    let head = head_form(alloc, p, tree.head)?;
    Ok(SymType {
        head,
        children: Items::from_vec(children),
    })
}

fn type_forms(alloc: Global, p: &Program, types: &[Ty]) -> Result<SymTypes, NoMemory>
    ensures { IfOk result (λ forms. forms ≡ map (type_form p.now) types.now) }
{
    let mut forms = Vec::with_capacity(alloc, types.len())?;
    for ty in types {
        forms.push(type_form(alloc, p, ty.as_tree())?)?;
    }
    Ok(Items::from_vec(forms))
}

fn item_form(alloc: Global, p: &Program, item: &Item) -> Result<SymItem, NoMemory>
    ensures { IfOk result (λ form. form ≡ item_form p.now item.now) }
{
    let form = match item {
        Item::Fn(d, args) => {
            SymItem::Fn(names(alloc, p, *d)?, type_forms(alloc, p, args.as_slice())?)
        }
        Item::Glue(ty) => SymItem::Glue(type_form(alloc, p, ty.as_tree())?),
        Item::Shim(ty) => SymItem::Shim(type_form(alloc, p, ty.as_tree())?),
        Item::Static(d) => SymItem::Static(names(alloc, p, *d)?),
    };
    Ok(form)
}

/// The form of an item's symbol. It tells no compiling crate.
pub fn form_of(alloc: Global, p: &Program, item: &Item) -> Result<SymbolForm, NoMemory>
    ensures { IfOk result (λ form. form ≡ form_of p.now item.now) }
{
    let item = item_form(alloc, p, item)?;
    Ok(SymbolForm { item, krate: None })
}

/// The symbol of an item of a program, as in `_MFN3app1fEIByE`.
///
/// A definition is named by the names of its path. For a definition that is not there, and for a type parameter, which no
/// item has, what is written is no symbol.
pub fn symbol(alloc: Global, p: &Program, item: &Item) -> Result<Text, NoMemory>
    ensures { IfOk result (λ text. text ≡ symbol_text (form_of p.now item.now)) }
{
    let form = form_of(alloc, p, item)?;
    write_symbol(alloc, &form)
}
