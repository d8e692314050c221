// Columns of dates.
ghost use Rattle.cn_c.specs.Columns.{AreDatesPrinted, AreDatesRead};

use crate::codes::script_of;
use crate::column::{Texts, print_column, read_column, refused};
use crate::date::{NOTHING, chinese_date_read, date_of};
use crate::status::{DONE, NOT_A_DATE, UNKNOWN, tell_none};
use chinese_number::ChineseVariant;
use cn_columns::{Answer, Presence, Printed, RowPrinter, RowReader};
use cn_date::{MOST_DATE_BYTES, date_text};

/// A year, a month and a day.
#[repr(C)]
#[derive(Clone, Copy)]
pub struct Day {
    pub year: u32,
    pub month: u32,
    pub day: u32,
}

/// Prints dates in a script.
#[derive(Clone, Copy)]
pub struct DatePrinter {
    pub script: ChineseVariant,
}

impl RowPrinter<Day> for DatePrinter {
    type Scratch = [u8; MOST_DATE_BYTES];

    ghost use Rattle.cn_c.specs.Dates.{date};
    ghost use Rattle.cn_c.specs.Private.Rows.{date_row};

    ghost row_of = { λ printer day. date_row printer.script (date day.year day.month day.day) };

    fn print(self, day: Day, scratch: &mut [u8; MOST_DATE_BYTES]) -> Printed<'_> {
        match date_of(day.year, day.month, day.day) {
            Some(date) => Printed {
                status: DONE,
                text: date_text(scratch, self.script, date),
            },
            None => refused(NOT_A_DATE),
        }
    }
}

/// Prints dates, each as `chinese_date_print` does, until a text does not fit the buffer. The rows,
/// what is written and the statuses are those of `chinese_numbers_print_column`.
#[unsafe(no_mangle)]
pub extern "C" fn chinese_dates_print_column(
    values: &[Day],
    bitmap: &[u8],
    first: usize,
    script: u32,
    offsets: &mut [u64],
    bytes: &mut [u8],
    statuses: &mut [u32],
    done: &mut usize,
) -> u32
    ensures { AreDatesPrinted values.now bitmap.now first script
        (record { offsets = offsets.old; bytes = bytes.old; statuses = statuses.old }) result
        (record { offsets = offsets.new; bytes = bytes.new; statuses = statuses.new }) done.new }
{
    let Some(script) = script_of(script) else {
        return tell_none(done, UNKNOWN);
    };
    let mut scratch = [0; MOST_DATE_BYTES];
    let presence = Presence { bitmap, first };
    print_column(
        DatePrinter { script },
        values,
        presence,
        &mut scratch,
        offsets,
        bytes,
        statuses,
        done,
    )
}

/// Reads texts as dates.
#[derive(Clone, Copy)]
pub struct DateReader;

impl RowReader<Day> for DateReader {
    ghost use Rattle.std.specs.Prelude.{◌≡◌};
    ghost use Rattle.cn_c.specs.declared.date.Date.{Date as TheDate};
    ghost use Rattle.cn_c.specs.Dates.{IsDateRead};

    ghost is_answer = { λ _ text status day. (read : TheDate) × IsDateRead text status read
        × (day ≡ record { year = read.year; month = read.month; day = read.day }) };

    fn read(self, text: &[u8]) -> Answer<Day> {
        let mut date = NOTHING;
        let status = chinese_date_read(text, &mut date);
        Answer {
            status,
            value: Day {
                year: date.year,
                month: date.month,
                day: date.day,
            },
        }
    }
}

/// Reads each text of a column as a date, as `chinese_date_read` does, and writes the date, and its
/// status. The rows, what is written and the statuses are those of `chinese_numbers_read_column`.
#[unsafe(no_mangle)]
pub extern "C" fn chinese_dates_read_column(
    texts: &[u8],
    offsets: &[u64],
    bitmap: &[u8],
    first: usize,
    values: &mut [Day],
    statuses: &mut [u32],
) -> u32
    ensures { AreDatesRead (record {
      bytes = texts.now;
      offsets = offsets.now;
      bitmap = bitmap.now;
      first = first;
    }) values.old statuses.old result values.new statuses.new }
{
    let texts = Texts {
        bytes: texts,
        offsets,
        presence: Presence { bitmap, first },
    };
    let nothing = Day {
        year: 0,
        month: 0,
        day: 0,
    };
    read_column(DateReader, texts, nothing, values, statuses)
}
