ghost use Rattle.std.specs.Prelude.{◌≡◌, ◌∷◌, [], ◌++◌, map, IfOk, OnOk, codes, decimal};
ghost use Rattle.mm_symbols.specs.TypeText.{opens, behind, list_text, args_text, type_text};
ghost use Rattle.mm_plain.specs.Uses.{path_of};

use itoa::Buffer;
use mm_plain::Program;
use mm_terms::{DefId, NoMemory, Tree, Ty, TyHead};
use std::alloc::Global;

fn begins_with_open(text: &[u8]) -> bool
    ensures { result ≡ opens text.now }
{
    matches!(text, [b'(', ..])
}

/// Whether the text of a type begins with `(`.
fn opens(p: &Program, tree: &Tree) -> bool
    ensures { result ≡ opens (type_text p.now tree.now) }
{
    match tree.head {
        TyHead::Tuple => true,
        TyHead::Adt(d) => begins_with_open(p.path(d)),
        _ => false,
    }
}

fn write_param(i: u32, out: &mut Vec<u8>) -> Result<(), NoMemory>
    ensures { OnOk result (out.new.items ≡ out.old.items ++ (codes "_" ++ decimal i)) }
{
    let mut buffer = Buffer::new();
    out.push(b'_')?;
    out.extend_from_slice(buffer.format(i).as_bytes())
}

/// Writes what parts a type from the one before it.
fn write_comma(p: &Program, tree: &Tree, out: &mut Vec<u8>) -> Result<(), NoMemory>
    ensures { OnOk result (out.new.items ++ type_text p.now tree.now ≡ out.old.items ++ behind (type_text p.now tree.now)) }
{
    out.push(b',')?;
    if !opens(p, tree) {
        out.push(b' ')?;
    }
    Ok(())
}

/// Writes types in a list.
#[cycle(type_texts)]
fn write_list(p: &Program, trees: &[Tree], out: &mut Vec<u8>) -> Result<(), NoMemory>
    ensures { OnOk result (out.new.items ≡ out.old.items ++ list_text (map (type_text p.now) trees.now)) }
{
    let Some((first, others)) = trees.split_first() else {
        return Ok(());
    };
    write_type(p, first, out)?;
    for tree in others {
        write_comma(p, tree, out)?;
        write_type(p, tree, out)?;
    }
    Ok(())
}

/// Writes types in a list, with a prefix before them and a byte behind.
#[cycle(type_texts)]
fn write_within(
    p: &Program,
    prefix: &[u8],
    trees: &[Tree],
    back: u8,
    out: &mut Vec<u8>,
) -> Result<(), NoMemory>
    ensures { OnOk result (out.new.items ≡ out.old.items ++ (prefix.now ++ list_text (map (type_text p.now) trees.now) ++ back ∷ [])) }
{
    out.extend_from_slice(prefix)?;
    write_list(p, trees, out)?;
    out.push(back)?;
    Ok(())
}

/// Writes a word, the path of a definition, and arguments.
#[cycle(type_texts)]
fn write_named(
    p: &Program,
    word: &[u8],
    d: DefId,
    trees: &[Tree],
    out: &mut Vec<u8>,
) -> Result<(), NoMemory>
    ensures { OnOk result (out.new.items ≡ out.old.items ++ (word.now ++ path_of p.now d ++ args_text (map (type_text p.now) trees.now))) }
{
    out.extend_from_slice(word)?;
    out.extend_from_slice(p.path(d))?;
    if trees.is_empty() {
        return Ok(());
    }
    write_within(p, b"<", trees, b'>', out)
}

/// Writes the text of a type behind what is there.
#[cycle(type_texts)]
pub(crate) fn write_type(p: &Program, tree: &Tree, out: &mut Vec<u8>) -> Result<(), NoMemory>
    ensures { OnOk result (out.new.items ≡ out.old.items ++ type_text p.now tree.now) }
{
    let children = tree.children.as_slice();
    match tree.head {
        TyHead::Param(i) => write_param(i, out),
        TyHead::U64 => out.extend_from_slice(b"u64"),
        TyHead::Bool => out.extend_from_slice(b"bool"),
        TyHead::Tuple => write_within(p, b"(", children, b')', out),
        TyHead::Ref => {
            out.push(b'&')?;
            write_list(p, children, out)
        }
        TyHead::Boxed => write_within(p, b"Box<", children, b'>', out),
        TyHead::FnPtr => {
            let (params, result) = children.split_at(children.len().saturating_sub(1));
            write_within(p, b"fnptr(", params, b')', out)?;
            out.extend_from_slice(b" -> ")?;
            write_list(p, result, out)
        }
        TyHead::FnItem(d) => write_named(p, b"fnitem ", d, children, out),
        TyHead::Closure(d) => write_named(p, b"closure ", d, children, out),
        TyHead::Dyn(d) => write_named(p, b"dyn ", d, children, out),
        TyHead::Adt(d) => write_named(p, b"", d, children, out),
    }
}

/// The text of a type, as in `Box<(u64, bool)>`.
pub fn type_text(alloc: Global, p: &Program, ty: &Ty) -> Result<Vec<u8>, NoMemory>
    ensures { IfOk result (λ text. text.items ≡ type_text p.now ty.now) }
{
    let mut out = Vec::new(alloc);
    write_type(p, ty.as_tree(), &mut out)?;
    Ok(out)
}
