use crate::{LinkFault, link};
use mm_objects::{Objects, read_objects};
use mm_terms::NoMemory;
use std::alloc::Global;
use std::test::Fail;

/// What is reported of the objects.
#[derive(Clone, Copy)]
enum Reported {
    Linked,
    NoMain,
    Undefined,
    Double,
}

/// Objects up to the definitions of the one unit.
const PREFIX: &str = "objects 1\nmain _MFN3app4mainEIE\nunit app/app.stable\n";

const MAIN: &str = "fn _MFN3app4mainEIE External 0 1 1\nbb0\nreturn\n";

const OWN_MAIN: &str = "fn _MFN3app4mainEIE Internal 0 1 1\nbb0\nreturn\n";

const MAIN_CALLS_P: &str =
    "fn _MFN3app4mainEIE External 0 1 1\nbb0\ncall _0 fn:_MFN3app1pEIE -> 0\n";

const OWN_P: &str = "fn _MFN3app1pEIE Internal 0 1 1\nbb0\nreturn\n";

/// The definitions of the first unit, those of the second, and what is reported.
const ROWS: [(&[&str], &[&str], Reported); 6] = [
    (&[MAIN_CALLS_P, OWN_P], &[OWN_P], Reported::Linked),
    (&[OWN_MAIN], &[], Reported::NoMain),
    (&[MAIN, MAIN], &[], Reported::Double),
    (&[MAIN], &[MAIN], Reported::Double),
    (&[MAIN_CALLS_P], &[], Reported::Undefined),
    (&[MAIN_CALLS_P], &[OWN_P], Reported::Undefined),
];

/// The objects with one unit of these definitions.
fn objects(alloc: Global, defs: &[&str]) -> Result<Objects, NoMemory> {
    let mut text = Vec::from_slice(alloc, PREFIX.as_bytes())?;
    for def in defs {
        text.extend_from_slice(def.as_bytes())?;
    }
    text.extend_from_slice(b"end\n".as_slice())?;
    read_objects(alloc, &text).ok().ok_or(NoMemory)
}

/// Whether this is reported of the objects with both units.
fn reports(
    alloc: Global,
    first: &[&str],
    second: &[&str],
    reported: Reported,
) -> Result<bool, NoMemory> {
    let mut all = objects(alloc, first)?;
    let Objects { main: _main, units } = objects(alloc, second)?;
    all.units.append(units)?;
    Ok(match link(alloc, all) {
        Ok(_) => matches!(reported, Reported::Linked),
        Err(LinkFault::NoMain) => matches!(reported, Reported::NoMain),
        Err(LinkFault::Undefined(_, _)) => matches!(reported, Reported::Undefined),
        Err(LinkFault::Double(_, _, _)) => matches!(reported, Reported::Double),
        Err(LinkFault::NoMemory) => false,
    })
}

#[test]
fn each_verdict_is_reported(rt: HostRuntime) -> Result<(), Fail> {
    let alloc = rt.alloc();
    for (first, second, reported) in ROWS {
        assert!(rt;
            reports(alloc, first, second, reported)?,
            "{first:?} {second:?}"
        );
    }
    Ok(())
}
