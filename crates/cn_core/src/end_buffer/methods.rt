// Writing into a buffer from its end.
ghost use Rattle.std.specs.Prelude.{◌≡◌, ◌≤◌, length, encode_utf8};
ghost use Rattle.cn_core.specs.Buffers.{Prepends, text_at_end};

use super::EndBuffer;
use std::str;

impl<'a> EndBuffer<'a> {
    /// A buffer in which all of these bytes are free.
    pub fn new(bytes: &'a mut [u8]) -> Self
        ensures free { result.free ≡ length bytes.old }
        ensures empty { result.free ≡ length result.bytes.now }
    {
        let free = bytes.len();
        EndBuffer { bytes, free }
    }

    /// Writes a piece before the text that is there.
    pub fn put(&mut self, more: &str)
        requires { length more.now ≤ self.old.free }
        ensures { Prepends self.old self.new more.now }
    {
        let start = self.free - more.len();
        self.bytes[start..self.free].copy_from_slice(more.as_bytes());
        self.free = start;
    }

    // Same answer (4 → 5): a character has at most four bytes, so the fifth is never written.
    /// Writes a character before the text that is there.
    pub fn put_char(&mut self, character: char)
        requires { length (encode_utf8 character) ≤ self.old.free }
        ensures { Prepends self.old self.new (encode_utf8 character) }
    {
        let mut room = [0; 4];
        self.put(character.encode_utf8(&mut room));
    }

    /// The text.
    pub fn into_text(self) -> &'a str
        ensures { result.now ≡ text_at_end self.entry }
    {
        let EndBuffer { bytes, free } = self;
        unsafe { str::from_utf8_unchecked(&bytes[free..]) }
    }
}
