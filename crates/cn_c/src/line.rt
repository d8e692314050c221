// Answers lines, as the program `numeral` does.
ghost use Rattle.std.specs.Prelude.{◌≤◌};
ghost use Rattle.cn_c.specs.Lines.{IsAnswered};

use crate::room::put_text;
use cn_lines::answer::{MOST_ANSWER_BYTES, answer};

/// Writes the answer to a line into the caller's buffer, `room`. 256 bytes are enough for any answer.
/// Every line has an answer, whatever its bytes are. The status is NO_ROOM if the answer does not fit.
///
/// Writes `*len`, the length of the answer. If the answer fits, it is written at the start of the
/// buffer; no other byte of the buffer changes.
#[unsafe(no_mangle)]
pub extern "C" fn chinese_number_answer_line(line: &[u8], room: &mut [u8], len: &mut usize) -> u32
    ensures answered { IsAnswered line.now room.old result room.new len.new }
    ensures bound { len.new ≤ 256 }
{
    let mut scratch = [0; MOST_ANSWER_BYTES];
    put_text(answer(&mut scratch, line).as_bytes(), room, len)
}
