// What the calls for columns share: many rows in one call, in the layout of Arrow's large strings.
ghost use Rattle.std.specs.Prelude.{◌≡◌, []};
ghost use Rattle.cn_columns.specs.Columns.{Row};
ghost use Rattle.cn_c.specs.Codes.{CN_DONE};
ghost use Rattle.cn_c.specs.Columns.{AreRead, IsPart};
ghost use Rattle.cn_c.specs.Private.Rows.{refused};

use crate::status::{DONE, NO_ROOM, NONE};
use cn_columns::{
    Presence, Printed, RowPrinter, RowReader, Unread, count_rows, print_rows, read_rows,
};

/// A row that is refused.
#[inline(always)]
pub fn refused<'a>(status: u32) -> Printed<'a>
    ensures { record { status = result.status; text = result.text.now } ≡ refused status }
{
    Printed { status, text: "" }
}

/// Prints the rows of a column until a text does not fit the buffer, and writes how many these are.
/// The status is DONE if these are all rows, and otherwise NO_ROOM.
pub fn print_column<V: Copy, P: RowPrinter<V>>(
    printer: P,
    values: &[V],
    presence: Presence<'_>,
    scratch: &mut P::Scratch,
    offsets: &mut [u64],
    bytes: &mut [u8],
    statuses: &mut [u32],
    done: &mut usize,
) -> u32
    ensures { IsPart (P.row_of printer) values.now presence.entry.bitmap.now presence.entry.first
        (record { offsets = offsets.old; bytes = bytes.old; statuses = statuses.old }) result
        (record { offsets = offsets.new; bytes = bytes.new; statuses = statuses.new }) done.new }
{
    let count = count_rows(values.len(), offsets.len(), statuses.len());
    let printed = print_rows(
        printer, values, presence, NONE, scratch, offsets, bytes, statuses,
    );
    *done = printed;
    if printed == count { DONE } else { NO_ROOM }
}

/// A column of texts, and the bit of its first row.
#[derive(Clone, Copy)]
pub struct Texts<'a> {
    pub bytes: &'a [u8],
    pub offsets: &'a [u64],
    pub presence: Presence<'a>,
}

/// Reads the rows of a column; `nothing` is the value of a row without a text.
pub fn read_column<V: Copy, R: RowReader<V>>(
    reader: R,
    texts: Texts<'_>,
    nothing: V,
    values: &mut [V],
    statuses: &mut [u32],
) -> u32
    ensures { AreRead (R.is_answer reader) nothing (record {
      bytes = texts.entry.bytes.now;
      offsets = texts.entry.offsets.now;
      bitmap = texts.entry.presence.bitmap.now;
      first = texts.entry.presence.first;
    }) values.old statuses.old result values.new statuses.new }
{
    let unread = Unread {
        value: nothing,
        missing: NONE,
        outside: NO_ROOM,
    };
    let Texts {
        bytes,
        offsets,
        presence,
    } = texts;
    read_rows(reader, bytes, offsets, presence, unread, values, statuses);
    DONE
}
