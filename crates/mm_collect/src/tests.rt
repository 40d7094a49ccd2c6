use super::*;
use mm_plain::{Block, Call, End, Function, Opts, Place, Program};
use mm_terms::{DefId, NoMemory, Text, Ty, TyHead, Tys};
use sqlite_items::Items;
use std::alloc::Global;
use std::test::Fail;

/// The limits on lengths and on items, and the outcome: 0 where the program is accepted, 1 where it has too many items,
/// and 2 where an instance is too long.
const ROWS: [(u32, u32, u32); 3] = [(1, 2, 0), (1, 1, 1), (0, 2, 2)];

/// A function that calls itself at these types.
fn function(alloc: Global, path: &[u8], type_params: u32, args: Tys) -> Result<Function, NoMemory> {
    let mut blocks = Items::new(alloc);
    blocks.push(Block {
        statements: Items::new(alloc),
        end: End::Call(Call {
            place: Place { local: 0 },
            callee: DefId(0),
            args,
            operands: Items::new(alloc),
            target: 0,
        }),
    })?;
    Ok(Function {
        is_pub: false,
        path: Text::from_slice(alloc, path)?,
        type_params,
        params: 0,
        locals: Tys::new(alloc),
        blocks,
    })
}

/// A program where `main` calls `f<u64>`, and `f<T>` calls `f<T>`.
fn program(alloc: Global) -> Result<Program, NoMemory> {
    let mut functions = Items::new(alloc);
    for (path, type_params, head) in [
        ("app::f", 1, TyHead::Param(0)),
        ("app::main", 0, TyHead::U64),
    ] {
        let mut args = Tys::new(alloc);
        args.push(Ty::from_children(alloc, head, Vec::new(alloc))?)?;
        functions.push(function(alloc, path.as_bytes(), type_params, args)?)?;
    }
    Ok(Program {
        krate: Text::from_slice(alloc, b"app")?,
        functions,
        main: DefId(1),
    })
}

#[test]
fn limits_decide_the_outcome(rt: HostRuntime) -> Result<(), Fail> {
    let alloc = rt.alloc();
    let p = program(alloc)?;
    for (length, items, outcome) in ROWS {
        let holds = match collect(alloc, &p, &Opts { length, items }) {
            Ok(found) => outcome == 0 && found.len() == 2,
            Err(CollectFault::TooMany(limit)) => outcome == 1 && limit == 1,
            Err(CollectFault::TypeLength(path, found)) => {
                outcome == 2 && path.as_slice() == b"app::f".as_slice() && found == 1
            }
            Err(_other) => false,
        };
        assert!(rt; holds, "outcome {outcome}");
    }
    Ok(())
}
