ghost use Rattle.std.specs.Prelude.{◌≡◌, IfOk, MatchResult, None, OnErr, OnOk, Ok, Err, replicate};
ghost use Rattle.mm_machines.specs.Answers.{Changes, allocations_of};
ghost use Rattle.mm_machines.specs.Memory.{freed, no_allocations, read, whole_allocation, with_allocation, with_locals, with_made, written};
ghost use Rattle.mm_machines.specs.Values.{uninit};

use crate::allocation::{Allocation, BlockKind};
use crate::frame::LocalRange;
use crate::trap::Trap;
use crate::value::Value;
use mm_terms::NoMemory;
use std::alloc::Global;
use std::collections::HashMap;

/// Allocations, each under a number of its own. A number is never used again.
#[derive(Drop)]
pub struct Memory<F, V> {
    allocations: HashMap<u64, Allocation<F, V>>,
    next: u64,
}

impl<F: Drop, V: Drop> Memory<F, V> {
    /// A memory in which no allocation was made.
    pub fn new(alloc: Global) -> Memory<F, V>
        ensures { allocations_of F V result ≡ no_allocations F V }
    {
        Memory {
            allocations: HashMap::new(alloc),
            next: 0,
        }
    }

    /// Makes an allocation for a value, and answers its number. When the numbers run out, that is out of memory.
    pub fn make(&mut self, kind: BlockKind, value: Value<F, V>) -> Result<u64, NoMemory>
        ensures number { IfOk result (λ n. n ≡ (allocations_of F V self.old).next) }
        ensures made { OnOk result (allocations_of F V self.new ≡ with_made F V kind value (allocations_of F V self.old)) }
        ensures kept { OnErr result (allocations_of F V self.new ≡ allocations_of F V self.old) }
    {
        let number = self.next;
        if number == u64::MAX {
            return Err(NoMemory);
        }
        match self.allocations.insert(number, Allocation { kind, value }) {
            Err(_) => Err(NoMemory),
            Ok(_) => {
                self.next = number + 1;
                Ok(number)
            }
        }
    }

    /// The value of an allocation. It is `Dangling` where there is none with the number.
    pub fn read(&self, block: u64) -> Result<&Value<F, V>, Trap>
        ensures { MatchResult result (λ v. read F V (whole_allocation block) (allocations_of F V self.now) ≡ Ok v.now) (λ t. read F V (whole_allocation block) (allocations_of F V self.now) ≡ Err t) }
    {
        match self.allocations.get(&block) {
            None => Err(Trap::Dangling),
            Some(found) => Ok(&found.value),
        }
    }

    /// Puts a value into an allocation. It is `Dangling` where there is none with the number, and `TooBig` where an
    /// allocation cannot hold the value.
    pub fn write(&mut self, block: u64, value: Value<F, V>) -> Result<(), Trap>
        ensures written { Changes result (allocations_of F V self.new) (written F V (whole_allocation block) value (allocations_of F V self.old)) }
        ensures kept { OnErr result (allocations_of F V self.new ≡ allocations_of F V self.old) }
    {
        if !value.fits() {
            self.read(block)?;
            return Err(Trap::TooBig);
        }
        match self.allocations.get_mut(&block) {
            None => Err(Trap::Dangling),
            Some(found) => {
                found.value = value;
                Ok(())
            }
        }
    }

    /// Frees an allocation, where there is one with the number.
    pub fn free(&mut self, block: u64)
        ensures { allocations_of F V self.new ≡ with_allocation F V block None (allocations_of F V self.old) }
    {
        self.allocations.remove(&block);
    }

    /// Makes a local for each of the values, in order.
    pub fn make_locals(&mut self, values: Vec<Value<F, V>>) -> Result<(), NoMemory>
        ensures { OnOk result (allocations_of F V self.new ≡ with_locals F V values.items (allocations_of F V self.old)) }
    {
        for value in values {
            self.make(BlockKind::Local, value)?;
        }
        Ok(())
    }

    /// Makes so many locals that have no value.
    pub fn make_unset(&mut self, count: u64) -> Result<(), NoMemory>
        ensures { OnOk result (allocations_of F V self.new ≡ with_locals F V (replicate count (uninit F V)) (allocations_of F V self.old)) }
    {
        for i in 0..count {
            self.make(BlockKind::Local, Value::Uninit)?;
        }
        Ok(())
    }

    /// Frees the locals of a range. A range past the last number is out of memory.
    #[tactic(auto, using(crate::proofs::Locals::one_freed))]
    pub fn free_locals(&mut self, locals: LocalRange) -> Result<(), NoMemory>
        ensures { OnOk result (allocations_of F V self.new ≡ freed F V locals.first locals.count (allocations_of F V self.old)) }
    {
        let Some(end) = locals.first.checked_add(locals.count) else {
            return Err(NoMemory);
        };
        for block in locals.first..end {
            self.free(block);
        }
        Ok(())
    }
}
