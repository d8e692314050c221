// Writing into a buffer from its start.
ghost use Rattle.std.specs.Prelude.{[], ◌≡◌, ◌≤◌, length, encode_utf8};
ghost use Rattle.cn_core.specs.Buffers.{Appends, HasText, IsTextOf, PutsIfTheyFit};

use super::Buffer;
use std::str;

// Writes bytes after the first `count` ones of a buffer if they fit, and returns the number of all.
#[inline(always)]
fn put_behind(bytes: &mut [u8], count: usize, more: &[u8]) -> usize
    ensures { PutsIfTheyFit count bytes.old result bytes.new more.now }
{
    let end = count.saturating_add(more.len());
    if end <= bytes.len() {
        bytes[count..end].copy_from_slice(more);
    }
    end
}

impl<'a> Buffer<'a> {
    /// A buffer in which nothing is written.
    pub fn new(bytes: &'a mut [u8]) -> Self
        ensures lender { result.bytes.ghost_name ≡ bytes.entry.ghost_name }
        ensures bytes { result.bytes.now ≡ bytes.old }
        ensures empty { HasText result [] result }
    {
        Buffer { bytes, count: 0 }
    }

    // Writes a piece after the text that is there.
    #[inline(always)]
    fn write(&mut self, more: &str)
        ensures { Appends self.old self.new more.now }
    {
        self.count = put_behind(self.bytes, self.count, more.as_bytes());
    }

    // This is not inlined, since a compiler turns copies of known lengths into stores, and the C
    // source of `dist/` writes to a caller's memory only by copies.
    /// Writes a piece after the text that is there.
    #[inline(never)]
    pub fn put(&mut self, more: &str)
        ensures { Appends self.old self.new more.now }
    {
        self.write(more);
    }

    // Same answer (4 → 5): a character has at most four bytes, so the fifth is never written.
    /// Writes a character after the text that is there. The buffer is not a caller's of the C
    /// source, since this writes by stores.
    pub fn put_char(&mut self, character: char)
        ensures { Appends self.old self.new (encode_utf8 character) }
    {
        let mut room = [0; 4];
        self.write(character.encode_utf8(&mut room));
    }

    /// The text if it fits, and otherwise an empty one.
    pub fn into_text(self) -> &'a str
        ensures { IsTextOf self.entry result.now }
    {
        let Buffer { bytes, count } = self;
        if count > bytes.len() {
            return "";
        }
        unsafe { str::from_utf8_unchecked(&bytes[..count]) }
    }
}
