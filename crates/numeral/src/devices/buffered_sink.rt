// Output that is buffered and written in few calls: when the buffer is full, and at a flush. Unlike
// std's buffered writer, it does not retry a write that was interrupted.
ghost use Rattle.std.specs.Prelude.{◌≡◌, ◌↔◌, ◌+◌, ◌<◌, ◌≤◌, ◌==◌, ◌||◌, ◌&&◌, ◌++◌, [], drop, false, if◌then◌else◌, is_err, length, not, IfOk, IsTrue, OnOk, vec_capacity, vec_len};
ghost use Rattle.std.specs.Io.KnownBytes.{Keeps, WriteAppends, append_known};
ghost use Rattle.numeral.specs.declared.devices.buffered_sink.TheConstants.{CAPACITY};

use super::{DeviceFault, Sink};
use std::alloc::{AllocError, Global};

// The most bytes that are buffered.
const CAPACITY: usize = 65536;

/// A sink with a buffer before it.
#[derive(Drop)]
pub struct BufferedSink<W> {
    inner: W,
    buffer: Vec<u8>,
    // the number of bytes of the buffer that are written to the inner sink
    written: usize,
    ghost within: { written ≤ vec_len buffer },
    ghost fits: { vec_len buffer ≤ CAPACITY },
    ghost reserved: { CAPACITY ≤ vec_capacity buffer },
}

impl<W: Sink> BufferedSink<W> {
    /// Allocates the memory of its buffer at once. The only error is that it cannot be allocated.
    pub fn new(alloc: Global, inner: W) -> Result<BufferedSink<W>, AllocError>
    where
        W: Drop,
        ensures inner { IfOk result (λ sink. sink.inner ≡ inner) }
        ensures buffer { IfOk result (λ sink. sink.buffer.items ≡ []) }
        ensures written { IfOk result (λ sink. sink.written ≡ 0) }
        ensures memory { IfOk result (λ sink. vec_capacity sink.buffer ≡ 65536) }
    {
        let buffer = Vec::with_capacity(alloc, CAPACITY)?;
        Ok(BufferedSink {
            inner,
            buffer,
            written: 0,
        })
    }

    // Appends the bytes to the buffer if all of them fit. It allocates no memory, so it fails for
    // no other reason.
    fn try_append(&mut self, bytes: &[u8]) -> bool
        ensures takes { IsTrue result ↔ (vec_len self.old.buffer + length bytes.now ≤ CAPACITY) }
        ensures buffer { self.new.buffer.items
            ≡ (if result then self.old.buffer.items ++ bytes.now else self.old.buffer.items) }
        ensures written { self.new.written ≡ self.old.written }
        ensures inner { self.new.inner ≡ self.old.inner }
    {
        bytes.len() <= CAPACITY - self.buffer.len() && self.buffer.extend_from_slice(bytes).is_ok()
    }

    // Writes the buffered bytes. After an error, the bytes that were written are not written again,
    // and the rest is kept.
    fn write_out(&mut self) -> Result<(), DeviceFault>
        requires works { (W.state self.old.inner).failed ≡ false }
        ensures fails { (W.state self.new.inner).failed ≡ is_err result }
        ensures bytes { Keeps
            (append_known (W.state self.old.inner).contents
            (drop self.old.written self.old.buffer.items))
            (append_known (W.state self.new.inner).contents
            (drop self.new.written self.new.buffer.items)) }
        ensures empty { OnOk result (self.new.buffer.items ≡ []) }
        ensures start { OnOk result (self.new.written ≡ 0) }
    {
        'writes: while self.written < self.buffer.len() {
            let count = self.inner.write(&self.buffer[self.written..])?;
            self.written += count;
        }
        self.written = 0;
        self.buffer.clear();
        Ok(())
    }
}

impl<W: Sink> Sink for BufferedSink<W> {
    // Its contents are the bytes of the inner sink and then those that are still to be written to
    // it.
    ghost state = { λ s. record {
      contents = append_known (W.state s.inner).contents (drop s.written s.buffer.items);
      failed = (W.state s.inner).failed;
      holds_back = not (vec_len s.buffer == 0) || (W.state s.inner).holds_back;
      flush_failed = vec_len s.buffer == 0 && (W.state s.inner).flush_failed;
    } };

    // If the bytes and those that are buffered are at most 65,536, they are appended to the buffer,
    // and nothing is written to the inner sink.
    fn write(&mut self, bytes: &[u8]) -> Result<usize, DeviceFault>
        requires some { 0 < length bytes.now }
        requires works { (W.state self.old.inner).failed ≡ false }
        ensures bound { IfOk result (λ n. n ≤ length bytes.now) }
        ensures progress { IfOk result (λ n. 0 < n) }
        ensures fails { (W.state self.new.inner).failed ≡ is_err result }
        ensures bytes { WriteAppends
            (append_known (W.state self.old.inner).contents
            (drop self.old.written self.old.buffer.items))
            (append_known (W.state self.new.inner).contents
            (drop self.new.written self.new.buffer.items)) result bytes.now }
        ensures unflushed { OnOk result
            ((vec_len self.new.buffer == 0 && (W.state self.new.inner).flush_failed) ≡ false) }
        ensures buffers { vec_len self.old.buffer + length bytes.now ≤ 65536
            → (result ≡ Ok (length bytes.now))
            × (self.new.buffer.items ≡ self.old.buffer.items ++ bytes.now)
            × (self.new.inner ≡ self.old.inner) }
    {
        if self.try_append(bytes) {
            return Ok(bytes.len());
        }
        self.write_out()?;
        if !self.try_append(bytes) {
            return self.inner.write(bytes);
        }
        Ok(bytes.len())
    }

    fn flush(&mut self) -> Result<(), DeviceFault> {
        if self.inner.has_failed() {
            return Err(DeviceFault);
        }
        self.write_out()?;
        self.inner.flush()
    }

    fn has_failed(&self) -> bool {
        self.inner.has_failed()
    }
}
