use super::*;
use std::io::{self, ErrorKind, Read, Write};
use std::test::Fail;

/// 51 bytes.
const LINE: &[u8] = b"MONO_ITEM fn app::main @@ app/app.stable[External]\n";

/// A stream of std that moves at most so many bytes at a call. One that is broken fails where it is read or flushed.
#[derive(Drop)]
struct Device {
    most: usize,
    is_broken: bool,
}

impl Device {
    fn check(&self) -> io::Result<()> {
        if self.is_broken {
            return Err(io::Error::from(ErrorKind::TimedOut));
        }
        Ok(())
    }
}

impl Read for Device {
    fn read(&mut self, buf: &mut [u8]) -> io::Result<usize> {
        self.check()?;
        Ok(self.most.min(buf.len()))
    }
}

impl Write for Device {
    fn write(&mut self, buf: &[u8]) -> io::Result<usize> {
        Ok(self.most.min(buf.len()))
    }

    fn flush(&mut self) -> io::Result<()> {
        self.check()
    }
}

/// How many bytes a device moves at a call, whether it is broken, what a source over it answers to a
/// buffer of 51 bytes, and what a sink over it answers to the line.
const DEVICES: [(usize, bool, Result<usize, Failed>, Result<usize, Failed>); 4] = [
    (9, false, Ok(9), Ok(9)),
    (60, false, Ok(51), Ok(51)),
    (0, false, Ok(0), Err(Failed)),
    (9, true, Err(Failed), Err(Failed)),
];

#[test]
fn adapters_fail_as_their_devices_do(rt: HostRuntime) {
    for (most, is_broken, read, wrote) in DEVICES {
        let mut source = StdSource::new(Device { most, is_broken });
        assert_eq!(rt; source.read(&mut [0; 51]), read, "{most} {is_broken}");
        let mut sink = StdSink::new(Device { most, is_broken });
        assert_eq!(rt; sink.write(LINE), wrote, "{most} {is_broken}");
    }
}

/// The limit of a read of the line, the call of its source that fails, and the refusal. Eleven calls give the bytes, and
/// one more the end.
const READS: [(usize, u32, Option<ReadRefusal>); 5] = [
    (51, 12, None),
    (50, 12, Some(ReadRefusal::TooLong)),
    (51, 0, Some(ReadRefusal::ReadFault)),
    (51, 5, Some(ReadRefusal::ReadFault)),
    (51, 11, Some(ReadRefusal::ReadFault)),
];

#[test]
fn a_source_is_read_to_its_end_or_refused(rt: HostRuntime) -> Result<(), Fail> {
    let alloc = rt.alloc();
    for (limit, call, refusal) in READS {
        let mut source = BytesSource::new(LINE.to_vec(alloc)?, 5, [call].to_vec(alloc)?);
        assert_eq!(rt;
            read_all(alloc, &mut source, limit).err(),
            refusal,
            "{limit} {call}"
        );
    }
    Ok(())
}

/// The call of a sink that fails, its room, and what it holds of the line.
const PUTS: [(u32, usize, &[u8]); 3] = [
    (11, 51, LINE),
    (1, 51, b"MONO_"),
    (11, 12, b"MONO_ITEM fn"),
];

#[test]
fn a_prefix_is_written_where_the_sink_fails(rt: HostRuntime) -> Result<(), Fail> {
    let alloc = rt.alloc();
    for (call, room, written) in PUTS {
        let mut sink = BytesSink::new(alloc, 5, [call].to_vec(alloc)?, room)?;
        assert_eq!(rt;
            put_all(&mut sink, LINE).is_ok(),
            written == LINE,
            "{call} {room}"
        );
        assert_eq!(rt; sink.written(), written, "{call} {room}");
    }
    Ok(())
}

const WORDS: [(ReadRefusal, &str); 3] = [
    (ReadRefusal::ReadFault, "the source failed"),
    (
        ReadRefusal::TooLong,
        "the source has more bytes than the limit",
    ),
    (ReadRefusal::NoMemory, "no memory"),
];

#[test]
fn refusals_have_words(rt: HostRuntime) -> Result<(), Fail> {
    let alloc = rt.alloc();
    assert_eq!(rt; format!(in alloc; "{Failed}")?.as_str(), "the call failed");
    for (refusal, words) in WORDS {
        assert_eq!(rt; format!(in alloc; "{refusal}")?.as_str(), words);
    }
    Ok(())
}
