/// What a worker passes before each piece of its work. All workers share it. It has no answer, so that it can hold a
/// worker up and change nothing else; a test sees by it that several workers have begun.
pub trait Gate: Sync {
    /// A worker calls this before each scan, outside the turn: with its number, and the number of scans that it has
    /// begun before.
    fn pass(&self, worker: u32, scan: u32);

    /// A worker that makes objects calls this before each unit: with its number, from 0, and the unit's index.
    fn unit(&self, worker: u32, unit: u32);
}

/// The gate that holds nobody up.
#[derive(Clone, Copy, Debug, Default, PartialEq, Eq, Hash)]
pub struct OpenGate;

impl Gate for OpenGate {
    fn pass(&self, _worker: u32, _scan: u32) {}

    fn unit(&self, _worker: u32, _unit: u32) {}
}
