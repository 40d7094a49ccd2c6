ghost use Rattle.std.specs.Prelude.{◌≡◌, ◌⊎◌, ◌↔◌, ◌-◌, ◌<◌, ◌≤◌, [], Some, length, min, drop, IsErr, IfOk, OnOk, OnErr};
ghost use Rattle.std.specs.Io.{ReadsAtMost, WritesAtMost};
ghost use Rattle.std.specs.Io.KnownBytes.{ReadConsumes, WriteAppends};
ghost use Rattle.mm_outside.specs.Causes.{HasCause};
ghost use Rattle.mm_outside.specs.Calls.{after_pass, after_fault, IsToFail};

use crate::calls::Calls;
use crate::{Failed, NoMemory, Sink, Source};
use std::alloc::Global;
use std::marker::Model;

/// Bytes in memory as a source that fails at chosen calls.
#[derive(Debug, Drop)]
pub struct BytesSource {
    bytes: Vec<u8>,
    at: usize,
    calls: Calls,
}

impl Model for BytesSource {
    ghost use Rattle.std.specs.Prelude.{◌≤◌, length, drop};
    ghost use Rattle.mm_outside.specs.Memory.{SourceState};

    ghost Value = { SourceState };

    ghost view = { λ s. record { left = drop s.at s.bytes.items; calls = s.calls } };

    ghost invariant = { λ s. (s.at ≤ length s.bytes.items) × (1 ≤ s.calls.piece) };
}

impl BytesSource {
    /// A source of these bytes. A call gives at most `piece` of them, and the calls whose numbers, counted from 0,
    /// stand in `fails` fail. Takes no memory.
    pub fn new(bytes: Vec<u8>, piece: usize, fails: Vec<u32>) -> Self
        requires { 1 ≤ piece }
        ensures left { result.left ≡ bytes.items }
        ensures calls { result.calls ≡ record { piece = piece; fails = fails.items; made = 0; faults = 0 } }
    {
        BytesSource {
            bytes,
            at: 0,
            calls: Calls::new(piece, fails),
        }
    }
}

impl Source for BytesSource {
    ghost left = { λ s. Some s.left };

    ghost faults = { λ s. s.calls.faults };

    fn read(&mut self, buf: &mut [u8]) -> Result<usize, Failed>
        requires { 0 < length buf.old }
        ensures bound { ReadsAtMost result buf.new }
        ensures bytes { ReadConsumes (Some self.old.left) (Some self.new.left) result buf.new }
        ensures cause { HasCause self.old.calls.faults self.new.calls.faults result }

        // A call fails exactly where its number stands in the list.
        ensures fails { IsErr result ↔ IsToFail self.old.calls }
        ensures count { IfOk result (λ n. n ≡ min (min self.old.calls.piece (length buf.old)) (length self.old.left)) }
        ensures passed { OnOk result (self.new.calls ≡ after_pass self.old.calls) }
        ensures failed { OnErr result (self.new.calls ≡ after_fault self.old.calls) }

        // Of the buffer no more is written than the bytes that are given.
        ensures behind { IfOk result (λ n. drop n buf.new ≡ drop n buf.old) }
        ensures untouched { OnErr result (buf.new ≡ buf.old) }
    {
        if self.calls.is_next_to_fail() {
            return Err(self.calls.fail());
        }
        self.calls.pass();
        let rest = &self.bytes[self.at..];
        let count = self.calls.piece().min(buf.len()).min(rest.len());
        buf[..count].copy_from_slice(&rest[..count]);
        self.at += count;
        Ok(count)
    }
}

/// A sink in memory that has room for some bytes and fails at chosen calls.
#[derive(Debug, Drop)]
pub struct BytesSink {
    written: Vec<u8>,
    room: usize,
    calls: Calls,
}

impl Model for BytesSink {
    ghost use Rattle.std.specs.Prelude.{◌≤◌, vec_len, vec_capacity};
    ghost use Rattle.mm_outside.specs.Memory.{SinkState};

    ghost Value = { SinkState };

    ghost view = { λ s. record { written = s.written.items; room = s.room; calls = s.calls } };

    ghost invariant = { λ s. (vec_len s.written ≤ s.room) × (s.room ≤ vec_capacity s.written) × (1 ≤ s.calls.piece) };
}

impl BytesSink {
    /// A sink with room for so many bytes. A call takes at most `piece` of them, and the calls whose numbers, counted
    /// from 0, stand in `fails` fail. The memory for `room` bytes is taken here, and a write takes none.
    pub fn new(alloc: Global, piece: usize, fails: Vec<u32>, room: usize) -> Result<Self, NoMemory>
        requires { 1 ≤ piece }
        ensures written { IfOk result (λ sink. sink.written ≡ []) }
        ensures room { IfOk result (λ sink. sink.room ≡ room) }
        ensures calls { IfOk result (λ sink.
            sink.calls ≡ record { piece = piece; fails = fails.items; made = 0; faults = 0 }) }
    {
        Ok(BytesSink {
            written: Vec::with_capacity(alloc, room)?,
            room,
            calls: Calls::new(piece, fails),
        })
    }

    /// The bytes written so far.
    pub fn written(&self) -> &[u8]
        ensures { result.now ≡ self.now.written }
    {
        &self.written
    }
}

impl Sink for BytesSink {
    ghost written = { λ s. Some s.written };

    ghost faults = { λ s. s.calls.faults };

    fn write(&mut self, piece: &[u8]) -> Result<usize, Failed>
        requires { 0 < length piece.now }
        ensures some { IfOk result (λ n. 0 < n) }
        ensures bound { WritesAtMost result piece.now }
        ensures bytes { WriteAppends (Some self.old.written) (Some self.new.written) result piece.now }
        ensures cause { HasCause self.old.calls.faults self.new.calls.faults result }

        // A call fails exactly where its number stands in the list or there is no room left.
        ensures fails { IsErr result ↔ (IsToFail self.old.calls ⊎ (length self.old.written ≡ self.old.room)) }
        ensures count { IfOk result (λ n.
            n ≡ min (min self.old.calls.piece (length piece.now)) (self.old.room - length self.old.written)) }
        ensures passed { OnOk result (self.new.calls ≡ after_pass self.old.calls) }
        ensures failed { OnErr result (self.new.calls ≡ after_fault self.old.calls) }
        ensures room { self.new.room ≡ self.old.room }
        ensures within { length self.new.written ≤ self.new.room }
    {
        let left = self.room - self.written.len();
        if left == 0 || self.calls.is_next_to_fail() {
            return Err(self.calls.fail());
        }
        self.calls.pass();
        let count = self.calls.piece().min(piece.len()).min(left);
        // The room was taken when the sink was made.
        self.written.extend_from_slice(&piece[..count]).unwrap();
        Ok(count)
    }
}
