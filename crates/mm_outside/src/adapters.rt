ghost use Rattle.std.specs.Prelude.{◌≡◌, ◌<◌, None, length, take, IfOk, OnOk, OnErr};
ghost use Rattle.std.specs.Io.{ReadsAtMost, WritesAtMost};
ghost use Rattle.std.specs.Io.KnownBytes.{Appends, ReadConsumes, WriteAppends};
ghost use Rattle.mm_outside.specs.Causes.{HasCause, one_more};
ghost use Rattle.mm_outside.specs.Whole.{WritesPrefix};

use crate::{Failed, Sink, Source};
use std::io::{self, ErrorKind, Read, Write};

/// A reader of std as a source. As a source its bytes are unknown: that the reader gives the bytes of a file or a
/// device is not proved.
#[derive(Debug, Drop)]
pub struct StdSource<R> {
    reader: R,
    faults: u64,
}

impl<R: Read> StdSource<R> {
    ghost use Rattle.mm_outside.specs.Adapters.{reader_of};

    /// A source over the reader, which has not failed yet.
    pub fn new(reader: R) -> Self
        ensures reader { reader_of result ≡ reader }
        ensures faults { ⟦<StdSource<R> as Source>⟧.faults result ≡ 0 }
    {
        StdSource { reader, faults: 0 }
    }
}

impl<R: Read> Source for StdSource<R> {
    ghost use Rattle.mm_outside.specs.Adapters.{reader_of, reader_faults};

    ghost left = { λ _. None };

    ghost faults = { reader_faults };

    fn read(&mut self, buf: &mut [u8]) -> Result<usize, Failed>
        requires { 0 < length buf.old }
        ensures bound { ReadsAtMost result buf.new }
        ensures bytes { ReadConsumes None None result buf.new }
        ensures cause { HasCause (reader_faults self.old) (reader_faults self.new) result }

        // It hands on what the reader gave, and counts a failure each time that the reader failed.
        ensures given { ReadConsumes (R.remaining (reader_of self.old)) (R.remaining (reader_of self.new)) result buf.new }
        ensures passed { OnOk result (reader_faults self.new ≡ reader_faults self.old) }
        ensures failed { OnErr result (reader_faults self.new ≡ one_more (reader_faults self.old)) }
    {
        match self.reader.read(buf) {
            Ok(count) => Ok(count),
            Err(_) => {
                self.faults = self.faults.saturating_add(1);
                Err(Failed)
            }
        }
    }
}

/// A writer of std as a sink. As a sink its bytes are unknown: that the writer keeps what it took is not proved. Each
/// write is flushed, and counts as failed where the flush fails or the writer takes no byte. No clause sees the flush.
#[derive(Debug, Drop)]
pub struct StdSink<W> {
    writer: W,
    faults: u64,
}

impl<W: Write> StdSink<W> {
    ghost use Rattle.mm_outside.specs.Adapters.{writer_of};

    /// A sink over the writer, which has not failed yet.
    pub fn new(writer: W) -> Self
        ensures writer { writer_of result ≡ writer }
        ensures faults { ⟦<StdSink<W> as Sink>⟧.faults result ≡ 0 }
    {
        StdSink { writer, faults: 0 }
    }
}

impl<W: Write> Sink for StdSink<W> {
    ghost use Rattle.mm_outside.specs.Adapters.{writer_of, writer_faults};

    ghost written = { λ _. None };

    ghost faults = { writer_faults };

    fn write(&mut self, piece: &[u8]) -> Result<usize, Failed>
        requires { 0 < length piece.now }
        ensures some { IfOk result (λ n. 0 < n) }
        ensures bound { WritesAtMost result piece.now }
        ensures bytes { WriteAppends None None result piece.now }
        ensures cause { HasCause (writer_faults self.old) (writer_faults self.new) result }

        // It hands on the bytes. Where the flush fails, the writer has taken some of them.
        ensures taken { IfOk result (λ n.
            Appends (W.contents (writer_of self.old)) (W.contents (writer_of self.new)) (take n piece.now)) }
        ensures prefix { OnErr result
            (WritesPrefix (W.contents (writer_of self.old)) (W.contents (writer_of self.new)) piece.now) }
        ensures passed { OnOk result (writer_faults self.new ≡ writer_faults self.old) }
        ensures failed { OnErr result (writer_faults self.new ≡ one_more (writer_faults self.old)) }
    {
        match write_flushed(&mut self.writer, piece) {
            Ok(count) => Ok(count),
            Err(_) => {
                self.faults = self.faults.saturating_add(1);
                Err(Failed)
            }
        }
    }
}

/// Writes a prefix of the piece, at least one byte, and flushes it.
fn write_flushed<W: Write>(writer: &mut W, piece: &[u8]) -> io::Result<usize>
    ensures some { IfOk result (λ n. 0 < n) }
    ensures bound { WritesAtMost result piece.now }
    ensures taken { IfOk result (λ n. Appends (W.contents writer.old) (W.contents writer.new) (take n piece.now)) }
    ensures prefix { OnErr result (WritesPrefix (W.contents writer.old) (W.contents writer.new) piece.now) }
{
    let count = writer.write(piece)?;
    if count == 0 {
        return Err(io::Error::from(ErrorKind::WriteZero));
    }
    writer.flush()?;
    Ok(count)
}
