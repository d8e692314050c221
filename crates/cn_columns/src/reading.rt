// Reads the texts of a column.
ghost use Rattle.std.specs.Prelude.{◌≡◌, ◌-◌, ◌+◌, ℕ, List, None, Some, MatchOption, length, min, slice_index};
ghost use Rattle.cn_columns.specs.Bitmaps.{is_present};
ghost use Rattle.cn_columns.specs.Reading.{IsRead, IsRowRead, IsColumnRowRead, text_between};

use crate::Presence;
use crate::printing::count_rows;

/// What a reader answers for a row: a status, and a value.
#[derive(Clone, Copy)]
pub struct Answer<V> {
    pub status: u32,
    pub value: V,
}

/// The answer for a row that is not read: its value, and its status if it is missing, or if its
/// offsets are not those of a text of the column.
#[derive(Clone, Copy)]
pub struct Unread<V> {
    pub value: V,
    pub missing: u32,
    pub outside: u32,
}

/// What reads the rows of a column.
pub trait RowReader<V: Copy>: Copy {
    // Whether a status and a value are the answer for a text.
    ghost is_answer: { Self → List ℕ → ℕ → V → Type 0 };

    /// Reads the text of a row.
    fn read(self, text: &[u8]) -> Answer<V>
        ensures { is_answer self text.now result.status result.value };
}

// The bytes between two offsets; `None` if they are not those of a text.
#[inline(always)]
fn text_between(texts: &[u8], start: u64, end: u64) -> Option<&[u8]>
    ensures { MatchOption result (text_between texts.now start end ≡ None)
        (λ text. text_between texts.now start end ≡ Some text.now) }
{
    if start > end || end > texts.len() as u64 {
        return None;
    }
    Some(&texts[start as usize..end as usize])
}

// Reads a row, given its offsets and whether it is present.
#[inline(always)]
fn read_row<V: Copy, R: RowReader<V>>(
    reader: R,
    texts: &[u8],
    start: u64,
    end: u64,
    is_present: bool,
    unread: Unread<V>,
) -> Answer<V>
    ensures { IsRowRead (R.is_answer reader) (text_between texts.now start end) is_present unread.value
        unread.missing unread.outside result.status result.value }
{
    let Unread {
        value,
        missing,
        outside,
    } = unread;
    if !is_present {
        return Answer {
            status: missing,
            value,
        };
    }
    match text_between(texts, start, end) {
        Some(text) => reader.read(text),
        None => Answer {
            status: outside,
            value,
        },
    }
}

/// Reads each row of a column of texts, and writes the answer for it: its value and its status.
/// There are as many rows as the shortest of the arrays has. Nothing else changes.
pub fn read_rows<V: Copy, R: RowReader<V>>(
    reader: R,
    texts: &[u8],
    offsets: &[u64],
    presence: Presence<'_>,
    unread: Unread<V>,
    values: &mut [V],
    statuses: &mut [u32],
)
    ensures { IsRead (R.is_answer reader) texts.now offsets.now presence.entry.bitmap.now
        presence.entry.first unread.value unread.missing unread.outside
        values.old statuses.old values.new statuses.new }
{
    let count = count_rows(values.len(), offsets.len(), statuses.len());
    let mut row = 0;
    'reading: while row < count {
        let is_present = presence.has(row);
        let answer = read_row(
            reader,
            texts,
            offsets[row],
            offsets[row + 1],
            is_present,
            unread,
        );
        values[row] = answer.value;
        statuses[row] = answer.status;
        row += 1;
    }
}
