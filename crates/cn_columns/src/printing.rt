// Prints the texts of a column.
ghost use Rattle.std.specs.Prelude.{◌≡◌, ◌+◌, ◌-◌, ◌<◌, ◌≤◌, ◌++◌, min, length, take, drop, List, ℕ, MatchOption};
ghost use Rattle.cn_columns.specs.Bitmaps.{is_present};
ghost use Rattle.cn_columns.specs.Columns.{Row, IsPrinted, rows_of, row_if};

use crate::Presence;

/// What is printed for a row: a status, and a text, which is empty if the row is refused.
#[derive(Clone, Copy)]
pub struct Printed<'a> {
    pub status: u32,
    pub text: &'a str,
}

/// What prints the rows of a column, given a value for each.
pub trait RowPrinter<V: Copy>: Copy {
    type Scratch;

    // The row of a value.
    ghost row_of: { Self → V → Row };

    /// Prints a row, with some memory to work in.
    fn print(self, value: V, scratch: &mut Self::Scratch) -> Printed<'_>
        ensures { record { status = result.status; text = result.text.now } ≡ row_of self value };
}

// Prints a row; if it is missing, it is an empty text with the status of missing rows.
fn print_row<'a, V: Copy, P: RowPrinter<V>>(
    printer: P,
    value: V,
    is_present: bool,
    missing: u32,
    scratch: &'a mut P::Scratch,
) -> Printed<'a>
    ensures { record { status = result.status; text = result.text.now }
        ≡ row_if is_present missing (P.row_of printer value) }
{
    if is_present {
        printer.print(value, scratch)
    } else {
        Printed {
            status: missing,
            text: "",
        }
    }
}

// Writes a text from a byte of a buffer on, and returns where it ends; `None` if it does not fit.
#[inline(always)]
fn put_at(text: &str, at: usize, bytes: &mut [u8]) -> Option<usize>
    ensures { MatchOption result
        ((length bytes.old < at + length text.now) × (bytes.new ≡ bytes.old))
        (λ end. (end ≡ at + length text.now) × (end ≤ length bytes.old)
        × (bytes.new ≡ take at bytes.old ++ text.now ++ drop end bytes.old)) }
{
    if at > bytes.len() || text.len() > bytes.len() - at {
        return None;
    }
    let end = at + text.len();
    bytes[at..end].copy_from_slice(text.as_bytes());
    Some(end)
}

/// How many rows a column has: as many as the shortest of its arrays. There is one offset more than
/// there are rows.
pub fn count_rows(values: usize, offsets: usize, statuses: usize) -> usize
    ensures { result ≡ min values (min (offsets - 1) statuses) }
{
    values.min(offsets.saturating_sub(1).min(statuses))
}

/// Prints rows, one text after another, from byte `offsets[0]` of the buffer on, until a text does
/// not fit, and returns how many rows these are. Writes of each its end to the offsets and its
/// status to the statuses. Nothing else changes.
pub fn print_rows<V: Copy, P: RowPrinter<V>>(
    printer: P,
    values: &[V],
    presence: Presence<'_>,
    missing: u32,
    scratch: &mut P::Scratch,
    offsets: &mut [u64],
    bytes: &mut [u8],
    statuses: &mut [u32],
) -> usize
    ensures { IsPrinted
        (take (min (length values.now) (min (length offsets.old - 1) (length statuses.old)))
        (rows_of (P.row_of printer) missing presence.entry.bitmap.now presence.entry.first values.now))
        (record { offsets = offsets.old; bytes = bytes.old; statuses = statuses.old })
        (record { offsets = offsets.new; bytes = bytes.new; statuses = statuses.new }) result }
{
    let count = count_rows(values.len(), offsets.len(), statuses.len());
    if count == 0 {
        return 0;
    }
    let mut at = offsets[0] as usize;
    let mut row = 0;
    'printing: while row < count {
        let printed = print_row(printer, values[row], presence.has(row), missing, scratch);
        let Some(end) = put_at(printed.text, at, bytes) else {
            break;
        };
        statuses[row] = printed.status;
        offsets[row + 1] = end as u64;
        at = end;
        row += 1;
    }
    row
}
