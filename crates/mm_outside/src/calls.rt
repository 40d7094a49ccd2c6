ghost use Rattle.std.specs.Prelude.{◌≡◌, ◌≤◌, ◌↔◌, IsTrue};
ghost use Rattle.mm_outside.specs.Calls.{after_pass, after_fault, IsToFail};

use crate::Failed;
use std::marker::Model;

/// The calls of a source or a sink in memory: how many bytes each moves at most, which of them fail, and what came so
/// far.
#[derive(Debug, Drop)]
pub(crate) struct Calls {
    piece: usize,
    fails: Vec<u32>,
    /// Stops at the greatest `u64`. No number past the greatest `u32` stands in `fails`, so that it is as good as the
    /// true number.
    made: u64,
    faults: u64,
}

impl Model for Calls {
    ghost use Rattle.mm_outside.specs.Calls.{CallState};

    ghost Value = { CallState };

    ghost view = { λ c. record { piece = c.piece; fails = c.fails.items; made = c.made; faults = c.faults } };
}

impl Calls {
    pub(crate) fn new(piece: usize, fails: Vec<u32>) -> Self
        ensures { result ≡ record { piece = piece; fails = fails.items; made = 0; faults = 0 } }
    {
        Calls {
            piece,
            fails,
            made: 0,
            faults: 0,
        }
    }

    /// How many bytes a call moves at most.
    pub(crate) fn piece(&self) -> usize
        ensures { result ≡ self.now.piece }
    {
        self.piece
    }

    /// Whether the next call fails.
    pub(crate) fn is_next_to_fail(&self) -> bool
        ensures { IsTrue result ↔ IsToFail self.now }
    {
        self.fails
            .iter()
            .any(|number| u64::from(*number) == self.made)
    }

    /// Counts a call that does not fail.
    pub(crate) fn pass(&mut self)
        ensures { self.new ≡ after_pass self.old }
    {
        self.made = self.made.saturating_add(1);
    }

    /// Counts a call that fails.
    pub(crate) fn fail(&mut self) -> Failed
        ensures state { self.new ≡ after_fault self.old }
        ensures later { self.old.faults ≤ self.new.faults }
    {
        self.made = self.made.saturating_add(1);
        self.faults = self.faults.saturating_add(1);
        Failed
    }
}
