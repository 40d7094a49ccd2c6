use crate::{applied_length, apply, apply_all, params_below};
use mm_terms::{NoMemory, Ty, TyHead};
use std::alloc::Global;
use std::slice;
use std::test::Fail;

/// So many boxes, one in the other, round a parameter.
fn boxes(alloc: Global, count: u32) -> Result<Ty, NoMemory> {
    let mut ty = Ty::make(alloc, TyHead::Param(0), &[])?;
    for _ in 0..count {
        ty = Ty::make(alloc, TyHead::Boxed, slice::from_ref(&ty))?;
    }
    Ok(ty)
}

/// Each call that takes memory has it here, and a type of the greatest written length goes through each of them.
#[test]
fn a_deep_type_takes_an_argument(rt: HostRuntime) -> Result<(), Fail> {
    let alloc = rt.alloc();
    let number = Ty::make(alloc, TyHead::U64, &[])?;
    let args = slice::from_ref(&number);
    for count in [0, 1, 2_047] {
        let written = boxes(alloc, count)?;
        assert!(rt; !params_below(&written, 0), "{count} boxes");
        let made = apply(alloc, &written, args)?;
        assert!(rt; params_below(&made, 0), "{count} boxes");
        let types = slice::from_ref(&written);
        assert_eq!(rt; applied_length(types, args), count.checked_add(1));
        let all = apply_all(alloc, types, args)?;
        assert!(rt; all.as_slice() == slice::from_ref(&made), "{count} boxes");
    }
    Ok(())
}
