// The buffer (`room`) that a caller provides for a text.
ghost use Rattle.std.specs.Prelude.{◌≡◌, length};
ghost use Rattle.cn_c.specs.Prints.{PutsIfItFits};

use crate::status::{DONE, NO_ROOM};

/// Copies a text to the start of the buffer if it fits, and writes its length. The status is
/// NO_ROOM if it does not fit; the buffer then does not change.
pub fn put_text(text: &[u8], room: &mut [u8], len: &mut usize) -> u32
    ensures put { PutsIfItFits text.now room.old result room.new len.new }
    ensures length { len.new ≡ length text.now }
{
    *len = text.len();
    if text.len() > room.len() {
        return NO_ROOM;
    }
    room[..text.len()].copy_from_slice(text);
    DONE
}
