use super::*;
use mm_terms::Text;
use sqlite_items::Items;
use std::test::Fail;

/// How a text of objects begins.
const HEAD: &str = "objects 1\nmain _MFN3app4mainEIE\n";

/// The text of a unit with each form of line.
const FORMS: &str = "unit app/app.stable\n\
    fn _MFN3app1fEIyE Internal 1 3 2\nbb0\nset _2 use move:_1\nset _0 not copy:_2\nprint 18446744073709551615\n\
    goto 1\nbb1\nset _0 add copy:_1 7\nset _0 eq true false\nreturn\n\
    fn _MFN3app4mainEIE External 0 1 3\nbb0\ncall _0 fn:_MFN3app1fEIyE 5 -> 1\nbb1\nswitch copy:_0 0:2 9:1 else 0\n\
    bb2\nunreachable\n";

/// The text of a unit, and the line to blame where the text of one unit ends behind it; 0 where there is none.
const UNITS: [(&str, u32); 9] = [
    (FORMS, 0),
    ("unit u/u.stable\n", 0),
    ("unit u/u.firm\n", 3),
    ("unit u/u.stable\nfn _MFN1uEIE External 1 1 1\n", 4),
    ("unit u/u.stable\nfn _MFN1uEIE External 0 1 1\nbb1\n", 5),
    (
        "unit u/u.stable\nfn _MFN1uEIE External 0 1 1\nbb0\nprint copy:_1\nreturn\n",
        6,
    ),
    (
        "unit u/u.stable\nfn _MFN1uEIE External 0 1 1\nbb0\nprint 18446744073709551616\nreturn\n",
        6,
    ),
    (
        "unit u/u.stable\nfn _MFN1uEIE External 0 1 1\nbb0\ncall _0 fn:u::u -> 0\n",
        6,
    ),
    (
        "unit u/u.stable\nfn _MFN1uEIE External 0 1 1\nbb0\ngoto 1\n",
        6,
    ),
];

/// Each text of a unit is read, and the units that are read are written again as one text.
#[test]
fn texts_are_read_and_written_again(rt: HostRuntime) -> Result<(), Fail> {
    let alloc = rt.alloc();
    let mut whole = Vec::from_slice(alloc, HEAD.as_bytes())?;
    let mut all = Objects {
        main: Text::from_slice(alloc, b"_MFN3app4mainEIE")?,
        units: Items::new(alloc),
    };
    for (unit, line) in UNITS {
        let mut text = Vec::from_slice(alloc, HEAD.as_bytes())?;
        text.extend_from_slice(unit.as_bytes())?;
        text.extend_from_slice(b"end\n".as_slice())?;
        match read_objects(alloc, &text) {
            Ok(objects) => {
                assert_eq!(rt; line, 0, "{unit:?}");
                all.units.append(objects.units)?;
                whole.extend_from_slice(unit.as_bytes())?;
            }
            Err(fault) => assert_eq!(rt; fault, ObjFault::BadObjects(line), "{unit:?}"),
        }
    }
    whole.extend_from_slice(b"end\n".as_slice())?;
    assert_eq!(rt; write_objects(alloc, &all)?.as_slice(), whole.as_slice());
    Ok(())
}
