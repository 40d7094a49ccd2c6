use crate::run_image;
use mm_link::link;
use mm_machines::{Ended, Trap};
use mm_objects::read_objects;
use mm_terms::NoMemory;
use std::alloc::Global;
use std::test::Fail;

/// Objects up to the number of blocks of `main`, which has four locals.
const PREFIX: &str = "objects 1\nmain _MFN3app4mainEIE\nunit app/app.stable\n\
    fn _MFN3app4mainEIE External 0 4 ";

/// The rest of the objects, a number of steps, the numbers that are printed in them, and how the run stands after them.
const ROWS: [(&str, u32, &[u64], Ended); 4] = [
    // each rvalue and each kind of operand, and then a local that was moved from
    (
        "1\nbb0\nset _1 use 7\nset _2 add copy:_1 3\nprint copy:_2\nset _3 not false\n\
        print move:_1\nprint copy:_1\nreturn\nend\n",
        9,
        &[10, 7],
        Ended::Trap(Trap::Uninit),
    ),
    // a call, a switch, and both returns
    (
        "2\nbb0\ncall _1 fn:_MFN3app1fEIE 9 4 -> 1\nbb1\nprint copy:_1\nreturn\n\
        fn _MFN3app1fEIE Internal 2 3 3\nbb0\nswitch copy:_2 4:1 else 2\n\
        bb1\nset _0 sub copy:_1 copy:_2\nreturn\nbb2\nunreachable\nend\n",
        9,
        &[5],
        Ended::Returned,
    ),
    // a loop
    (
        "1\nbb0\nset _1 use 3\ngoto 0\nend\n",
        1_000,
        &[],
        Ended::Running,
    ),
    // calls that do not return
    (
        "1\nbb0\ncall _0 fn:_MFN3app4mainEIE -> 0\nend\n",
        1_000,
        &[],
        Ended::Running,
    ),
];

/// Whether both are the same.
fn same(one: Ended, other: Ended) -> bool {
    match one {
        Ended::Returned => matches!(other, Ended::Returned),
        Ended::Running => matches!(other, Ended::Running),
        Ended::Trap(t) => matches!(other, Ended::Trap(u) if t == u),
    }
}

#[test]
fn runs_take_memory(rt: HostRuntime) -> Result<(), Fail> {
    let alloc = rt.alloc();
    for (text, steps, printed, ended) in ROWS {
        let mut whole = Vec::from_slice(alloc, PREFIX.as_bytes())?;
        whole.extend_from_slice(text.as_bytes())?;
        let objects = read_objects(alloc, &whole).ok().ok_or(NoMemory)?;
        let image = link(alloc, objects).ok().ok_or(NoMemory)?;
        let seen = run_image(alloc, &image, steps)?;
        assert!(rt;
            seen.printed.as_slice() == printed && same(seen.ended, ended),
            "{text}"
        );
    }
    Ok(())
}
