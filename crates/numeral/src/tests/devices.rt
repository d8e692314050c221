// Tests of devices over std readers and writers.
ghost use Rattle.std.specs.Prelude.{◌≡◌, false};

use crate::devices::{BufferedSink, Device, DeviceFault, MemorySink, MemorySource, Sink, Source};
use crate::engine::run;
use crate::fault::RunError;
use crate::program::answer_all;
use std::cell::Cell;
use std::io;
use std::io::{ErrorKind, Read, Write};
use std::process::Abort;

// Accepts no byte.
#[derive(Drop)]
struct Full;

impl Write for Full {
    fn write(&mut self, _bytes: &[u8]) -> io::Result<usize> {
        Ok(0)
    }

    fn flush(&mut self) -> io::Result<()> {
        Ok(())
    }
}

// Is interrupted at its first call, and would work at the next.
#[derive(Drop)]
struct Interrupted {
    calls: usize,
}

impl Write for Interrupted {
    fn write(&mut self, bytes: &[u8]) -> io::Result<usize> {
        self.calls = self.calls.saturating_add(1);
        if self.calls == 1 {
            Err(io::Error::from(ErrorKind::Interrupted))
        } else {
            Ok(bytes.len())
        }
    }

    fn flush(&mut self) -> io::Result<()> {
        Ok(())
    }
}

impl Read for Interrupted {
    fn read(&mut self, _buffer: &mut [u8]) -> io::Result<usize> {
        self.calls = self.calls.saturating_add(1);
        if self.calls == 1 {
            Err(io::Error::from(ErrorKind::Interrupted))
        } else {
            Ok(0)
        }
    }
}

// Asserts the result of a run over these devices.
fn ends<R: Source, W: Sink>(
    rt: &(impl Abort + AllocGlobal),
    reader: &mut R,
    writer: &mut W,
    wanted: Result<(), RunError>,
)
    requires reads { (R.state reader.old).failed ≡ false }
    requires writes { (W.state writer.old).failed ≡ false }
{
    assert_eq!(rt; run(rt.alloc(), reader, writer), wanted);
}

#[test]
fn a_writer_that_takes_nothing(rt: HostRuntime) {
    let mut reader = MemorySource::new(b"hello", 9, None);
    ends(
        &rt,
        &mut reader,
        &mut Device::new(Full),
        Err(RunError::Write),
    );
}

#[test]
fn an_interrupted_call_is_a_fault(rt: HostRuntime) {
    let mut reader = MemorySource::new(b"hello", 9, None);
    let mut writer = Device::new(Interrupted { calls: 0 });
    ends(&rt, &mut reader, &mut writer, Err(RunError::Write));
    let mut reader = Device::new(Interrupted { calls: 0 });
    let mut writer = MemorySink::new(9, None);
    ends(&rt, &mut reader, &mut writer, Err(RunError::Read));
}

// With buffered output, the write happens at the next flush: before a read, or at the end.
#[test]
fn an_interrupted_flush_is_a_fault(rt: HostRuntime) {
    let mut reader = MemorySource::new(b"hello\n", 9, None);
    let writer = Device::new(Interrupted { calls: 0 });
    let mut writer = BufferedSink::new(rt.alloc(), writer).expect(&rt, "memory");
    ends(&rt, &mut reader, &mut writer, Err(RunError::Write));
    let mut reader = MemorySource::new(b"hello", 9, None);
    let writer = Device::new(Interrupted { calls: 0 });
    let mut writer = BufferedSink::new(rt.alloc(), writer).expect(&rt, "memory");
    ends(&rt, &mut reader, &mut writer, Ok(()));
    assert_eq!(rt; writer.flush(), Err(DeviceFault));
}

// Counts its calls.
#[derive(Drop)]
struct Counting<'a> {
    writes: &'a Cell<usize>,
    flushes: &'a Cell<usize>,
}

impl Write for Counting<'_> {
    fn write(&mut self, bytes: &[u8]) -> io::Result<usize> {
        self.writes.set(self.writes.get().saturating_add(1));
        Ok(bytes.len())
    }

    fn flush(&mut self) -> io::Result<()> {
        self.flushes.set(self.flushes.get().saturating_add(1));
        Ok(())
    }
}

// A flush calls the flush of the writer.
#[test]
fn a_flush_is_handed_on(rt: HostRuntime) {
    let (writes, flushes) = (Cell::new(0), Cell::new(0));
    let mut device = Device::new(Counting {
        writes: &writes,
        flushes: &flushes,
    });
    assert_eq!(rt; device.flush(), Ok(()));
    assert_eq!(rt; (writes.get(), flushes.get()), (0, 1));
}

// Many answers are written in one call, before the read that follows.
#[test]
fn answers_go_out_together(rt: HostRuntime) {
    let (writes, flushes) = (Cell::new(0), Cell::new(0));
    let device = Device::new(Counting {
        writes: &writes,
        flushes: &flushes,
    });
    let mut reader = MemorySource::new(b"hello\nhello\nhello\n", 99, None);
    let mut writer = BufferedSink::new(rt.alloc(), device).expect(&rt, "memory");
    assert_eq!(rt; answer_all(rt.alloc(), &mut reader, &mut writer), 0);
    assert_eq!(rt; (writes.get(), flushes.get()), (1, 3));
}

// The most bytes that a read moves and the read that fails, the same for writes, the exit status,
// and the bytes that are written.
type Program = (usize, Option<u64>, usize, Option<u64>, u8, &'static str);

static PROGRAMS: [Program; 3] = [
    (9, None, 9, None, 0, "ok 1\nbad line\n"),
    (99, Some(2), 9, None, 1, "ok 1\n"),
    (99, None, 1, Some(5), 1, "ok 1"),
];

// The program over memory: its exit status, and the bytes that it wrote.
#[test]
fn the_program_over_memory(rt: HostRuntime) {
    let input = "read u8 naive 一\nhello".as_bytes();
    for (read_most, read_fails, write_most, write_fails, wanted, output) in &PROGRAMS {
        assert!(rt; *read_most > 0 && *write_most > 0);
        let mut reader = MemorySource::new(input, *read_most, *read_fails);
        let mut writer = MemorySink::new(*write_most, *write_fails);
        assert_eq!(rt; answer_all(rt.alloc(), &mut reader, &mut writer), *wanted);
        assert!(rt; writer.bytes() == output.as_bytes());
    }
}

// Returns this many bytes without a line feed.
#[derive(Drop)]
struct LongLine {
    left: usize,
}

impl Read for LongLine {
    fn read(&mut self, buffer: &mut [u8]) -> io::Result<usize> {
        let count = self.left.min(buffer.len());
        let (front, _) = buffer.split_at_mut(count);
        for byte in front {
            *byte = b'1';
        }
        self.left -= count;
        Ok(count)
    }
}

#[test]
fn a_line_of_fifty_million_bytes(rt: HostRuntime) {
    let mut reader = Device::new(LongLine { left: 50_000_000 });
    let mut writer = MemorySink::new(9, None);
    ends(&rt, &mut reader, &mut writer, Ok(()));
    assert!(rt; writer.bytes() == b"bad line\n".as_slice());
}
