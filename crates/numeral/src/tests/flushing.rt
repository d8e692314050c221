// Tests of a writer that accepts every write and cannot be flushed: no write fails, and the
// program's last flush reports the fault.
use crate::devices::{BufferedSink, Device, DeviceFault, MemorySource, Sink};
use crate::engine::run;
use crate::program::answer_all;
use std::cell::Cell;
use std::io;
use std::io::{ErrorKind, Write};

// Stores the start of the last write, and cannot be flushed.
#[derive(Drop)]
struct Stuck<'a> {
    last: &'a Cell<[u8; 9]>,
}

impl Write for Stuck<'_> {
    fn write(&mut self, bytes: &[u8]) -> io::Result<usize> {
        let mut last = [0; 9];
        for (shown, byte) in last.iter_mut().zip(bytes) {
            *shown = *byte;
        }
        self.last.set(last);
        Ok(bytes.len())
    }

    fn flush(&mut self) -> io::Result<()> {
        Err(io::Error::from(ErrorKind::Other))
    }
}

#[test]
fn a_failed_flush_is_no_failed_write(rt: HostRuntime) {
    let last = Cell::new([0; 9]);
    let mut reader = MemorySource::new(b"hello", 9, None);
    let mut writer = Device::new(Stuck { last: &last });
    assert_eq!(rt; run(rt.alloc(), &mut reader, &mut writer), Ok(()));
    // the line feed after an answer is a write of its own
    assert_eq!(rt; last.get(), *b"\n\0\0\0\0\0\0\0\0");
    assert_eq!(rt; writer.flush(), Err(DeviceFault));
    assert!(rt; !Sink::has_failed(&writer));
}

#[test]
fn a_failed_flush_at_the_end_is_status_one(rt: HostRuntime) {
    let last = Cell::new([0; 9]);
    let mut reader = MemorySource::new(b"hello", 9, None);
    let writer = Device::new(Stuck { last: &last });
    let mut writer = BufferedSink::new(rt.alloc(), writer).expect(&rt, "memory");
    assert_eq!(rt; answer_all(rt.alloc(), &mut reader, &mut writer), 1);
    assert_eq!(rt; last.get(), *b"bad line\n");
}
