ghost use Rattle.std.specs.Prelude.{ℕ, ◌<◌, List, length, IfOk};
ghost use Rattle.std.specs.declared.option.Option.{Option};
ghost use Rattle.std.specs.Io.{ReadsAtMost, WritesAtMost};
ghost use Rattle.std.specs.Io.KnownBytes.{ReadConsumes, WriteAppends};
ghost use Rattle.mm_outside.specs.Causes.{HasCause};

use crate::Failed;

/// Where bytes come from.
pub trait Source {
    /// The bytes still to come, where they are known.
    ghost left: { Self → Option (List ℕ) };

    /// How often a call has failed, up to the greatest `u64`. It rises by one with each call that fails, and stays as
    /// it was with each that succeeds; at the greatest `u64` it stands still, and counts as risen.
    ghost faults: { Self → ℕ };

    /// Puts the next bytes at the start of `buf` and answers how many they are. 0 is the end: where the bytes are
    /// known, none is left. A call that failed took no byte.
    fn read(&mut self, buf: &mut [u8]) -> Result<usize, Failed>
        requires { 0 < length buf.old }
        ensures bound { ReadsAtMost result buf.new }
        ensures bytes { ReadConsumes (left self.old) (left self.new) result buf.new }
        ensures cause { HasCause (faults self.old) (faults self.new) result };
}

/// Where bytes go.
pub trait Sink {
    /// The bytes written so far, where they are known.
    ghost written: { Self → Option (List ℕ) };

    /// How often a call has failed, up to the greatest `u64`. It rises by one with each call that fails, and stays as
    /// it was with each that succeeds; at the greatest `u64` it stands still, and counts as risen.
    ghost faults: { Self → ℕ };

    /// Writes a prefix of the piece, at least one byte, and answers how many bytes it is. A call that failed wrote none.
    fn write(&mut self, piece: &[u8]) -> Result<usize, Failed>
        requires { 0 < length piece.now }
        ensures some { IfOk result (λ n. 0 < n) }
        ensures bound { WritesAtMost result piece.now }
        ensures bytes { WriteAppends (written self.old) (written self.new) result piece.now }
        ensures cause { HasCause (faults self.old) (faults self.new) result };
}
