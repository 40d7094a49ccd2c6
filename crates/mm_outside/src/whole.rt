ghost use Rattle.std.specs.Prelude.{◌≡◌, ◌≢◌, ◌<◌, ◌≤◌, length, IsErr, IfOk, IfSome, OnOk, OnErr};
ghost use Rattle.std.specs.Io.KnownBytes.{Appends};
ghost use Rattle.mm_outside.specs.Causes.{HasCause, Rose};
ghost use Rattle.mm_outside.specs.Whole.{ReadsWhole, GaveMore, GaveWithin, WritesPrefix};

use crate::{Failed, ReadRefusal, Sink, Source};
use std::alloc::Global;

/// Reads a source to its end: all the bytes that were left, at most `limit`.
///
/// `ReadFault`: a call of the source failed. `TooLong`: the source gave byte `limit + 1`, and no further byte was
/// taken. After every other answer at most `limit` bytes were taken. The source is not called again after a call that
/// failed.
pub fn read_all<S: Source>(
    alloc: Global,
    source: &mut S,
    limit: usize,
) -> Result<Vec<u8>, ReadRefusal>
    requires { limit < usize.MAX }
    ensures ok { IfOk result (λ bytes. ReadsWhole limit (S.left source.old) (S.left source.new) bytes.items) }
    ensures fault { result ≡ Err ReadRefusal.ReadFault → Rose (S.faults source.old) (S.faults source.new) }

    // Too long exactly where the source gave the byte after the limit.
    ensures long { result ≡ Err ReadRefusal.TooLong → GaveMore limit (S.left source.old) (S.left source.new) }
    ensures short { result ≢ Err ReadRefusal.TooLong → GaveWithin limit (S.left source.old) (S.left source.new) }
    ensures refused { IfSome (S.left source.old) (λ text. limit < length text → IsErr result) }
    ensures fitting { IfSome (S.left source.old) (λ text. length text ≤ limit → result ≢ Err ReadRefusal.TooLong) }

    ensures later { S.faults source.old ≤ S.faults source.new }
    ensures kept { result ≢ Err ReadRefusal.ReadFault → S.faults source.new ≡ S.faults source.old }
{
    let mut bytes = Vec::new(alloc);
    let mut buf = [0; 4096];
    loop {
        // At most one byte past the limit is asked for.
        let room = (limit - bytes.len() + 1).min(buf.len());
        let part = &mut buf[..room];
        let count = source.read(part)?;
        if count == 0 {
            return Ok(bytes);
        }
        if count > limit - bytes.len() {
            return Err(ReadRefusal::TooLong);
        }
        bytes.extend_from_slice(&part[..count])?;
    }
}

/// Writes all the bytes, or a prefix of them where a call of the sink fails. The sink is not called again after a call
/// that failed. Takes no memory.
pub fn put_all<K: Sink>(sink: &mut K, bytes: &[u8]) -> Result<(), Failed>
    ensures ok { OnOk result (Appends (K.written sink.old) (K.written sink.new) bytes.now) }
    ensures err { OnErr result (WritesPrefix (K.written sink.old) (K.written sink.new) bytes.now) }
    ensures cause { HasCause (K.faults sink.old) (K.faults sink.new) result }
{
    let mut rest = bytes;
    while !rest.is_empty() {
        let count = sink.write(rest)?;
        rest = &rest[count..];
    }
    Ok(())
}
