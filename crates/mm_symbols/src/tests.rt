use super::*;
use mm_plain::{Function, Program};
use mm_terms::{DefId, Item, NoMemory, Text, Ty, TyHead, Tys};
use sqlite_items::Items;
use std::alloc::Global;
use std::test::Fail;

/// Bytes, and whether they are a symbol.
const SYMBOLS: [(&str, bool); 28] = [
    ("_MFN3app4mainEIE", true),
    ("_MFN3app1fEIByEX3app", true),
    ("_MFN7gr\u{f6}\u{df}e3_\u{664}EIE", true),
    ("_MKN3app1cEIyE", true),
    ("_MSN3app1a1sE", true),
    ("_MLTTETyyRTEEE", true),
    ("_MLPPEyEPyBbERTE", true),
    ("_MHGN3app1fEIyE", true),
    ("_MHCN3app1cEIE", true),
    ("_MLDN3app2TrEITEE", true),
    ("_MLAN3app1SEIyAN3app1TEIEE", true),
    ("_MMAN3app1SEIyEN3app2TrEIbE1mIRyEX3lib", true),
    ("_MMyN4DropEIE4dropIE", true),
    ("_M", false),
    (" _MFN3app4mainEIE", false),
    ("_MFN3app4mainEIEE", false),
    ("_MFN3app4mainEIEX", false),
    ("_MFN3app4mainEIEX2fn", false),
    ("_MFN03app1fEIByE", false),
    ("_MFNEIE", false),
    ("_MFN3app4mai", false),
    ("_MFN99999999999999999999999appEIE", false),
    ("_MFN4SelfEIE", false),
    ("_MFN3bb1EIE", false),
    ("_MFN3app4mainEITyEE", false),
    ("_MFN3app4mainEIPEE", false),
    ("_MMyN4DropEIE1mIE", false),
    ("_MMyN3app2TrEIE4dropIE", false),
];

/// An item as the letter of its form, the head of its type and how many times `u64` stands below the head; its symbol; and
/// its listing.
const ITEMS: [(u8, TyHead, u32, &str, &str); 9] = [
    (
        b'F',
        TyHead::Boxed,
        1,
        "_MFN3app1fEIByE",
        "MONO_ITEM fn app::f<Box<u64>>\n",
    ),
    (
        b'F',
        TyHead::Tuple,
        2,
        "_MFN3app1fEITyyEE",
        "MONO_ITEM fn app::f<(u64, u64)>\n",
    ),
    (
        b'L',
        TyHead::Dyn(DefId(0)),
        1,
        "_MLDN3app1fEIyE",
        "MONO_ITEM glue dyn app::f<u64>\n",
    ),
    (
        b'L',
        TyHead::Adt(DefId(0)),
        1,
        "_MLAN3app1fEIyE",
        "MONO_ITEM glue app::f<u64>\n",
    ),
    (
        b'L',
        TyHead::Closure(DefId(0)),
        1,
        "_MLCN3app1fEIyE",
        "MONO_ITEM glue closure app::f<u64>\n",
    ),
    (
        b'H',
        TyHead::FnItem(DefId(0)),
        1,
        "_MHGN3app1fEIyE",
        "MONO_ITEM shim fnitem app::f<u64>\n",
    ),
    (b'L', TyHead::Ref, 1, "_MLRy", "MONO_ITEM glue &u64\n"),
    (
        b'H',
        TyHead::FnPtr,
        2,
        "_MHPyEy",
        "MONO_ITEM shim fnptr(u64) -> u64\n",
    ),
    (
        b'S',
        TyHead::Bool,
        0,
        "_MSN3app1fE",
        "MONO_ITEM static app::f\n",
    ),
];

/// The symbol that is read, written again; nothing where none is read.
fn written_again(alloc: Global, bytes: &[u8]) -> Result<Text, NoMemory> {
    match read_symbol(alloc, bytes)? {
        Some(form) => write_symbol(alloc, &form),
        None => Ok(Text::new(alloc)),
    }
}

#[test]
fn symbols_are_read_and_written_again(rt: HostRuntime) -> Result<(), Fail> {
    let alloc = rt.alloc();
    for (bytes, is_symbol) in SYMBOLS {
        let written = written_again(alloc, bytes.as_bytes())?;
        let expected = if is_symbol { bytes } else { "" };
        assert_eq!(rt; written.as_slice(), expected.as_bytes(), "{bytes}");
    }
    Ok(())
}

/// The type with this head over so many times `u64`.
fn ty(alloc: Global, head: TyHead, arity: u32) -> Result<Ty, NoMemory> {
    let mut children = Vec::new(alloc);
    for _ in 0..arity {
        children.push(Ty::from_children(alloc, TyHead::U64, Vec::new(alloc))?)?;
    }
    if !head.takes(children.len()) {
        return Err(NoMemory);
    }
    Ty::from_children(alloc, head, children)
}

/// A program with the one function `app::f`.
fn program(alloc: Global) -> Result<Program, NoMemory> {
    let mut functions = Items::new(alloc);
    functions.push(Function {
        is_pub: false,
        path: Text::from_slice(alloc, b"app::f")?,
        type_params: 0,
        params: 0,
        locals: Tys::new(alloc),
        blocks: Items::new(alloc),
    })?;
    Ok(Program {
        krate: Text::from_slice(alloc, b"app")?,
        functions,
        main: DefId(0),
    })
}

/// The item of this form.
fn item(alloc: Global, form: u8, ty: Ty) -> Result<Item, NoMemory> {
    match form {
        b'L' => Ok(Item::Glue(ty)),
        b'H' => Ok(Item::Shim(ty)),
        b'S' => Ok(Item::Static(DefId(0))),
        _ => {
            let mut args = Tys::new(alloc);
            args.push(ty)?;
            Ok(Item::Fn(DefId(0), args))
        }
    }
}

/// The item of this form, of the type with this head over so many times `u64`.
fn row_item(alloc: Global, form: u8, head: TyHead, arity: u32) -> Result<Item, NoMemory> {
    item(alloc, form, ty(alloc, head, arity)?)
}

/// The symbol of an item of the program.
fn symbol_of(alloc: Global, item: &Item) -> Result<Text, NoMemory> {
    symbol(alloc, &program(alloc)?, item)
}

/// The listing of an item of the program.
fn listing_of(alloc: Global, item: Item) -> Result<Vec<u8>, NoMemory> {
    list_items(alloc, &program(alloc)?, &[item])
}

/// The text of an item of the program.
fn item_text_of(alloc: Global, item: &Item) -> Result<Vec<u8>, NoMemory> {
    item_text(alloc, &program(alloc)?, item)
}

/// The text of a type of the program.
fn type_text_of(alloc: Global, ty: &Ty) -> Result<Vec<u8>, NoMemory> {
    type_text(alloc, &program(alloc)?, ty)
}

#[test]
fn items_have_symbols(rt: HostRuntime) -> Result<(), Fail> {
    let alloc = rt.alloc();
    for (form, head, arity, expected, _) in ITEMS {
        let found = symbol_of(alloc, &row_item(alloc, form, head, arity)?)?;
        assert_eq!(rt; found.as_slice(), expected.as_bytes());
    }
    Ok(())
}

#[test]
fn items_are_listed(rt: HostRuntime) -> Result<(), Fail> {
    let alloc = rt.alloc();
    for (form, head, arity, _, expected) in ITEMS {
        let found = listing_of(alloc, row_item(alloc, form, head, arity)?)?;
        assert_eq!(rt; found.as_slice(), expected.as_bytes());
    }
    Ok(())
}

#[test]
fn texts_are_made(rt: HostRuntime) -> Result<(), Fail> {
    let alloc = rt.alloc();
    let of_item = item_text_of(alloc, &row_item(alloc, b'F', TyHead::Boxed, 1)?)?;
    assert_eq!(rt; of_item.as_slice(), b"fn app::f<Box<u64>>".as_slice());
    let of_type = type_text_of(alloc, &ty(alloc, TyHead::Tuple, 2)?)?;
    assert_eq!(rt; of_type.as_slice(), b"(u64, u64)".as_slice());
    Ok(())
}
