use crate::{DefId, Head, Item, NoMemory, Ty, TyHead, Tys, duplicate_all};
use std::alloc::Global;
use std::slice;
use std::test::Fail;

/// So many boxes, one in the other, round a type.
fn boxes(alloc: Global, head: TyHead, count: u32) -> Result<Ty, NoMemory> {
    if !head.takes(0) {
        return Err(NoMemory);
    }
    let mut ty = Ty::make(alloc, head, &[])?;
    for _ in 0..count {
        ty = Ty::make(alloc, TyHead::Boxed, slice::from_ref(&ty))?;
    }
    Ok(ty)
}

/// Each call that takes memory has it here, and a type of the greatest written length goes through each of them.
#[test]
fn a_deep_type_is_made_copied_and_substituted(rt: HostRuntime) -> Result<(), Fail> {
    let alloc = rt.alloc();
    for count in [0, 1, 2_047] {
        let ty = boxes(alloc, TyHead::U64, count)?;
        let written = boxes(alloc, TyHead::Param(0), count)?;
        let number = boxes(alloc, TyHead::U64, 0)?;
        let made = written.substitute(alloc, slice::from_ref(&number))?;
        assert!(rt; made == ty, "{count} boxes");
        assert!(rt; ty.duplicate(alloc)? == ty, "{count} boxes");
        let item = Item::Glue(made);
        assert_eq!(rt; item.try_length(), count.checked_add(1));
        assert!(rt; item.duplicate(alloc)? == item, "{count} boxes");
        let mut args = Tys::new(alloc);
        args.push(ty)?;
        assert!(rt; duplicate_all(alloc, args.as_slice())?.as_slice() == args.as_slice());
        let head = Head { tr: DefId(4), args };
        assert!(rt; head.duplicate(alloc)? == head, "{count} boxes");
    }
    Ok(())
}
