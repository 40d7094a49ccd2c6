ghost use Rattle.std.specs.Prelude.{◌≡◌, ◌++◌, map, IfOk, OnOk};
ghost use Rattle.std.specs.List.Sorted.{IsPermutation, IsSorted};
ghost use Rattle.std.specs.Cmp.Lexicographic.{slice_cmp};
ghost use Rattle.std.specs.Ordering.{nat_cmp};
ghost use Rattle.mm_symbols.specs.Listing.{item_args_text, item_text, line_of, ended, IsListing};
ghost use Rattle.mm_symbols.specs.TypeText.{type_text};

use crate::type_texts::write_type;
use mm_plain::Program;
use mm_terms::{Item, NoMemory, Ty};
use std::alloc::Global;

/// Writes the type arguments of an item.
fn write_item_args(p: &Program, args: &[Ty], out: &mut Vec<u8>) -> Result<(), NoMemory>
    ensures { OnOk result (out.new.items ≡ out.old.items ++ item_args_text (map (type_text p.now) args.now)) }
{
    let Some((first, others)) = args.split_first() else {
        return Ok(());
    };
    out.push(b'<')?;
    write_type(p, first.as_tree(), out)?;
    for ty in others {
        out.extend_from_slice(b", ")?;
        write_type(p, ty.as_tree(), out)?;
    }
    out.push(b'>')?;
    Ok(())
}

/// Writes the text of an item behind what is there.
fn write_item(p: &Program, item: &Item, out: &mut Vec<u8>) -> Result<(), NoMemory>
    ensures { OnOk result (out.new.items ≡ out.old.items ++ item_text p.now item.now) }
{
    match item {
        Item::Fn(d, args) => {
            out.extend_from_slice(b"fn ")?;
            out.extend_from_slice(p.path(*d))?;
            write_item_args(p, args.as_slice(), out)
        }
        Item::Glue(ty) => {
            out.extend_from_slice(b"glue ")?;
            write_type(p, ty.as_tree(), out)
        }
        Item::Shim(ty) => {
            out.extend_from_slice(b"shim ")?;
            write_type(p, ty.as_tree(), out)
        }
        Item::Static(d) => {
            out.extend_from_slice(b"static ")?;
            out.extend_from_slice(p.path(*d))
        }
    }
}

/// The text of an item, as in `fn app::pair<u64, (u64, bool)>`.
pub fn item_text(alloc: Global, p: &Program, item: &Item) -> Result<Vec<u8>, NoMemory>
    ensures { IfOk result (λ text. text.items ≡ item_text p.now item.now) }
{
    let mut out = Vec::new(alloc);
    write_item(p, item, &mut out)?;
    Ok(out)
}

fn line(alloc: Global, p: &Program, item: &Item) -> Result<Vec<u8>, NoMemory>
    ensures { IfOk result (λ line. line.items ≡ line_of p.now item.now) }
{
    let mut line = Vec::from_slice(alloc, b"MONO_ITEM ")?;
    write_item(p, item, &mut line)?;
    Ok(line)
}

fn lines(alloc: Global, p: &Program, items: &[Item]) -> Result<Vec<Vec<u8>>, NoMemory>
    ensures { IfOk result (λ lines. map (λ l. l.items) lines.items ≡ map (line_of p.now) items.now) }
{
    let mut lines = Vec::new(alloc);
    for item in items {
        lines.push(line(alloc, p, item)?)?;
    }
    Ok(lines)
}

fn sorted(alloc: Global, p: &Program, items: &[Item]) -> Result<Vec<Vec<u8>>, NoMemory>
    ensures of_items { IfOk result (λ lines. IsPermutation (map (line_of p.now) items.now) (map (λ l. l.items) lines.items)) }
    ensures sorted { IfOk result (λ lines. IsSorted (slice_cmp nat_cmp) (map (λ l. l.items) lines.items)) }
{
    let mut lines = lines(alloc, p, items)?;
    lines.sort()?;
    Ok(lines)
}

fn ended_lines(alloc: Global, lines: &[Vec<u8>]) -> Result<Vec<u8>, NoMemory>
    ensures { IfOk result (λ output. output.items ≡ ended (map (λ l. l.items) lines.now)) }
{
    let mut output = Vec::new(alloc);
    for line in lines {
        output.extend_from_slice(line)?;
        output.push(b'\n')?;
    }
    Ok(output)
}

/// The listing of the items: a line each, in the order of their bytes.
pub fn list_items(alloc: Global, p: &Program, items: &[Item]) -> Result<Vec<u8>, NoMemory>
    ensures { IfOk result (λ output. IsListing p.now items.now output.items) }
{
    let lines = sorted(alloc, p, items)?;
    ended_lines(alloc, &lines)
}
