use crate::{BlockKind, LocalRange, Memory, Value, Values};
use mm_objects::{Target, VtableId};
use std::test::Fail;

#[test]
fn memory_is_taken(rt: HostRuntime) -> Result<(), Fail> {
    let alloc = rt.alloc();
    let mut memory: Memory<Target, VtableId> = Memory::new(alloc);
    let mut parts = Values::new(alloc);
    parts.push(Value::Num(1))?;
    let number = memory.make(BlockKind::Boxed, Value::Agg(parts))?;
    memory.make_locals(vec![in alloc; Value::Num(2)]?)?;
    memory.make_unset(1)?;
    memory.free_locals(LocalRange { first: 1, count: 2 })?;
    let copy = memory.read(number)?.duplicate(alloc)?;
    assert!(rt; matches!(copy, Value::Agg(_)));
    Ok(())
}
