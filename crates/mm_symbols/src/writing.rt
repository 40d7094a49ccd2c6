ghost use Rattle.std.specs.Prelude.{◌≡◌, ◌∷◌, [], ◌++◌, map, flat_map, IfOk, OnOk, codes};
ghost use Rattle.std.specs.List.{concat};
ghost use Rattle.mm_symbols.specs.SymTree.{sym_head, sym_children};
ghost use Rattle.mm_symbols.specs.SymbolText.{seg_text, path_text, signature_text, layer_text, type_text, type_args_text, method_text, item_text, krate_text, symbol_text};

use crate::form::{SymHead, SymItem, SymMethod, SymType, SymbolForm};
use itoa::Buffer;
use mm_terms::{NoMemory, Text};
use sqlite_items::Items;
use std::alloc::Global;

/// Writes a name behind its length.
fn write_segment(name: &[u8], out: &mut Vec<u8>) -> Result<(), NoMemory>
    ensures { OnOk result (out.new.items ≡ out.old.items ++ seg_text name.now) }
{
    let mut buffer = Buffer::new();
    out.extend_from_slice(buffer.format(name.len()).as_bytes())?;
    out.extend_from_slice(name)
}

fn write_path(names: &[Text], out: &mut Vec<u8>) -> Result<(), NoMemory>
    ensures { OnOk result (out.new.items ≡ out.old.items ++ path_text names.now) }
{
    out.push(b'N')?;
    for name in names {
        write_segment(name.as_slice(), out)?;
    }
    out.push(b'E')?;
    Ok(())
}

/// Writes types one after the other.
#[cycle(types)]
fn write_types(types: &[SymType], out: &mut Vec<u8>) -> Result<(), NoMemory>
    ensures { OnOk result (out.new.items ≡ out.old.items ++ concat (map type_text types.now)) }
{
    for ty in types {
        write_type(ty, out)?;
    }
    Ok(())
}

/// Writes types, and an `E` behind them.
#[cycle(types)]
fn write_until_end(types: &[SymType], out: &mut Vec<u8>) -> Result<(), NoMemory>
    ensures { OnOk result (out.new.items ≡ out.old.items ++ (concat (map type_text types.now) ++ codes "E")) }
{
    write_types(types, out)?;
    out.push(b'E')?;
    Ok(())
}

#[cycle(types)]
fn write_args(types: &[SymType], out: &mut Vec<u8>) -> Result<(), NoMemory>
    ensures { OnOk result (out.new.items ≡ out.old.items ++ type_args_text types.now) }
{
    out.push(b'I')?;
    write_until_end(types, out)
}

/// Writes a letter, a path and arguments.
#[cycle(types)]
fn write_named(
    letter: u8,
    names: &[Text],
    types: &[SymType],
    out: &mut Vec<u8>,
) -> Result<(), NoMemory>
    ensures { OnOk result (out.new.items ≡ out.old.items ++ (letter ∷ []) ++ path_text names.now ++ type_args_text types.now) }
{
    out.push(letter)?;
    write_path(names, out)?;
    write_args(types, out)
}

/// Writes the parameters of a function pointer and, behind an `E`, its result.
#[cycle(types)]
fn write_signature(ty: &SymType, out: &mut Vec<u8>) -> Result<(), NoMemory>
    ensures { OnOk result (out.new.items ≡ out.old.items ++ signature_text (map type_text (sym_children ty.now))) }
{
    let types = ty.children.as_slice();
    let (params, result) = types.split_at(types.len().saturating_sub(1));
    write_until_end(params, out)?;
    write_types(result, out)
}

/// Writes a letter, and types behind it.
#[cycle(types)]
fn write_behind(letter: u8, types: &[SymType], out: &mut Vec<u8>) -> Result<(), NoMemory>
    ensures { OnOk result (out.new.items ≡ out.old.items ++ (letter ∷ []) ++ concat (map type_text types.now)) }
{
    out.push(letter)?;
    write_types(types, out)
}

/// Writes the head of a type around what is below it.
#[cycle(types)]
fn write_layer(ty: &SymType, out: &mut Vec<u8>) -> Result<(), NoMemory>
    ensures { OnOk result (out.new.items ≡ out.old.items ++ layer_text (sym_head ty.now) (map type_text (sym_children ty.now))) }
{
    let types = ty.children.as_slice();
    match &ty.head {
        SymHead::U64 => out.extend_from_slice(b"y"),
        SymHead::Bool => out.extend_from_slice(b"b"),
        SymHead::Tuple => {
            out.push(b'T')?;
            write_until_end(types, out)
        }
        SymHead::Ref => write_behind(b'R', types, out),
        SymHead::Boxed => write_behind(b'B', types, out),
        SymHead::FnPtr => {
            out.push(b'P')?;
            write_signature(ty, out)
        }
        SymHead::FnItem(names) => write_named(b'G', names.as_slice(), types, out),
        SymHead::Closure(names) => write_named(b'C', names.as_slice(), types, out),
        SymHead::Dyn(names) => write_named(b'D', names.as_slice(), types, out),
        SymHead::Adt(names) => write_named(b'A', names.as_slice(), types, out),
    }
}

/// Writes the text of a type behind what is there.
#[cycle(types)]
fn write_type(ty: &SymType, out: &mut Vec<u8>) -> Result<(), NoMemory>
    ensures { OnOk result (out.new.items ≡ out.old.items ++ type_text ty.now) }
{
    write_layer(ty, out)
}

fn write_method(method: &SymMethod, out: &mut Vec<u8>) -> Result<(), NoMemory>
    ensures { OnOk result (out.new.items ≡ out.old.items ++ method_text method.now) }
{
    write_type(&method.target, out)?;
    write_path(method.tr.as_slice(), out)?;
    write_args(method.args.as_slice(), out)?;
    write_segment(method.name.as_slice(), out)?;
    write_args(method.own.as_slice(), out)
}

/// Writes the text of an item behind what is there.
fn write_item(item: &SymItem, out: &mut Vec<u8>) -> Result<(), NoMemory>
    ensures { OnOk result (out.new.items ≡ out.old.items ++ item_text item.now) }
{
    match item {
        SymItem::Fn(names, types) => write_named(b'F', names.as_slice(), types.as_slice(), out),
        SymItem::Closure(names, types) => {
            write_named(b'K', names.as_slice(), types.as_slice(), out)
        }
        SymItem::Method(method) => {
            out.push(b'M')?;
            write_method(method, out)
        }
        SymItem::Glue(ty) => {
            out.push(b'L')?;
            write_type(ty, out)
        }
        SymItem::Shim(ty) => {
            out.push(b'H')?;
            write_type(ty, out)
        }
        SymItem::Static(names) => {
            out.push(b'S')?;
            write_path(names.as_slice(), out)
        }
    }
}

/// Writes the compiling crate, where one is reported.
fn write_krate(krate: &Option<Text>, out: &mut Vec<u8>) -> Result<(), NoMemory>
    ensures { OnOk result (out.new.items ≡ out.old.items ++ krate_text krate.now) }
{
    match krate {
        Some(name) => {
            out.push(b'X')?;
            write_segment(name.as_slice(), out)
        }
        None => Ok(()),
    }
}

/// The text of a form, as in `_MFN3app1fEIByE`. It is a symbol where the form is that of one.
#[tactic(auto, unfolding(crate::specs::SymbolText::symbol_text))]
pub fn write_symbol(alloc: Global, form: &SymbolForm) -> Result<Text, NoMemory>
    ensures { IfOk result (λ text. text ≡ symbol_text form.now) }
{
    let mut out = Vec::from_slice(alloc, b"_M")?;
    write_item(&form.item, &mut out)?;
    write_krate(&form.krate, &mut out)?;
    Ok(Items::from_vec(out))
}
