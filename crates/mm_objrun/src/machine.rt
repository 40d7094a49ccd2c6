use crate::operands::RunMemory;
use crate::values::RunValue;
use mm_machines::Frame;
use mm_objects::Target;

/// A run, between two steps.
#[derive(Drop)]
pub struct Machine {
    /// The function that runs.
    pub top: Frame<Target>,
    /// The functions that are suspended, the latest last.
    pub below: Vec<SuspendedFrame>,
    pub memory: RunMemory,
    /// The numbers that were printed, in order.
    pub printed: Vec<u64>,
}

/// A function that waits for the return of one that it called.
#[derive(Drop)]
pub struct SuspendedFrame {
    /// The function, which goes on there.
    pub frame: Frame<Target>,
    /// The allocation where the result is written.
    pub dest: u64,
}

/// What a call hands over.
#[derive(Drop)]
pub struct CallArgs {
    /// The values of the operands.
    pub values: Vec<RunValue>,
    /// The allocation where the result is written.
    pub dest: u64,
}
