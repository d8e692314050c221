ghost use Rattle.std.specs.Prelude.{◌≡◌, ◌==◌, ◌<◌, ◌≤◌, ◌-◌, Some, min, length, unwrap_or, false, is_err, IfOk, OnOk};
ghost use Rattle.std.specs.Io.KnownBytes.{ReadConsumes};
ghost use Rattle.numeral.specs.Devices.{CountsRead};

use super::{DeviceFault, EmptyReads, Source};

/// A source that returns the bytes of a borrowed slice.
///
/// It fails at call number `failing`, and at no other.
#[derive(Drop)]
pub struct MemorySource<'a> {
    rest: &'a [u8],
    most: usize,
    // the number, from now on, of the call that fails; 0 for none
    fails_in: u64,
    failed: bool,
    empty: EmptyReads,
    ghost gives_some: { 0 < most },
}

impl<'a> MemorySource<'a> {
    /// Returns these bytes, at most `most` in a call; `most` must be at least 1. The call number
    /// `failing`, counted from 1, fails; `Some(0)` makes none fail.
    pub fn new(bytes: &'a [u8], most: usize, failing: Option<u64>) -> MemorySource<'a>
        requires { 0 < most }
        ensures remaining { result.rest.now ≡ bytes.now }
        ensures works { result.failed ≡ false }
        ensures count { result.empty.count ≡ 0 }
        ensures ended { result.empty.ended ≡ false }
        ensures most { result.most ≡ most }
        ensures failing { result.fails_in ≡ unwrap_or failing 0 }
    {
        MemorySource {
            rest: bytes,
            most,
            fails_in: failing.unwrap_or(0),
            failed: false,
            empty: EmptyReads::none(),
        }
    }
}

impl Source for MemorySource<'_> {
    ghost state = { λ s. record {
      remaining = Some s.rest.now;
      failed = s.failed;
      empty = s.empty;
    } };

    ghost reads_left = { λ s. length s.rest.now };

    fn read(&mut self, buffer: &mut [u8]) -> Result<usize, DeviceFault>
        requires some { 0 < length buffer.old }
        requires works { self.old.failed ≡ false }
        ensures bound { IfOk result (λ n. n ≤ length buffer.new) }
        ensures fails { self.new.failed ≡ is_err result }
        ensures bytes { ReadConsumes (Some self.old.rest.now) (Some self.new.rest.now)
            result buffer.new }
        ensures ends { IfOk result (λ n.
            0 < n → length self.new.rest.now < length self.old.rest.now) }
        ensures counts { CountsRead self.old.empty self.new.empty result }
        ensures only { is_err result ≡ (self.old.fails_in == 1) }
        ensures falls { OnOk result (self.new.fails_in ≡ self.old.fails_in - 1) }
        ensures most { IfOk result (λ n.
            n ≡ min (min (length self.old.rest.now) (length buffer.old)) self.old.most) }
        ensures same { self.new.most ≡ self.old.most }
    {
        if self.fails_in == 1 {
            self.failed = true;
            return Err(DeviceFault);
        }
        self.fails_in = self.fails_in.saturating_sub(1);
        let count = self.rest.len().min(buffer.len()).min(self.most);
        let (front, rest) = self.rest.split_at(count);
        buffer[..count].copy_from_slice(front);
        self.rest = rest;
        self.empty.note(count);
        Ok(count)
    }

    fn has_failed(&self) -> bool {
        self.failed
    }
}
