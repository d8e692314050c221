// Dates on bills and cheques.
ghost use Rattle.std.specs.Prelude.{◌≡◌, ◌≤◌, MatchOption};
ghost use Rattle.cn_c.specs.Dates.{date, TellsDate, IsDatePrinted, IsDateRead};
ghost use Rattle.cn_date.specs.Answer.{answer_of};
ghost use Rattle.cn_date.specs.Calendar.{IsDate};

use crate::codes::script_of;
use crate::room::put_text;
use crate::status::{DONE, INCORRECT, NOT_A_DATE, NOT_UTF8, UNFINISHED, UNKNOWN};
use chinese_number::{BillDate, ChineseToDateError, chinese_to_date};
use cn_date::{MOST_DATE_BYTES, date_text};
use cn_dynamic::utf8_text;
use cn_judge::byte_index;

/// The result of reading a date: the date; or, if a character is at fault, how many characters and
/// how many bytes of the text come before it.
#[repr(C)]
#[derive(Clone, Copy)]
pub struct Date {
    pub year: u32,
    pub month: u32,
    pub day: u32,
    pub char_index: usize,
    pub byte_index: usize,
}

/// The result if no date was read.
pub const NOTHING: Date = Date {
    year: 0,
    month: 0,
    day: 0,
    char_index: 0,
    byte_index: 0,
};

/// The date with these numbers; `None` if there is no such date.
pub fn date_of(year: u32, month: u32, day: u32) -> Option<BillDate>
    ensures { MatchOption result (¬ IsDate (date year month day))
        (λ found. (found ≡ date year month day) × IsDate found) }
{
    let date = BillDate {
        year: u16::try_from(year).ok()?,
        month: u8::try_from(month).ok()?,
        day: u8::try_from(day).ok()?,
    };
    if date.is_date() { Some(date) } else { None }
}

/// Prints a date into the caller's buffer, `room`. 39 bytes are enough for any date. The status is
/// UNKNOWN if the code names no script, NOT_A_DATE if there is no such date, and NO_ROOM if the
/// text does not fit.
///
/// Writes `*len`, which is 0 at UNKNOWN and NOT_A_DATE, and otherwise the length of the text. If
/// the text fits, it is written at the start of the buffer; no other byte of the buffer changes.
#[unsafe(no_mangle)]
pub extern "C" fn chinese_date_print(
    year: u32,
    month: u32,
    day: u32,
    script: u32,
    room: &mut [u8],
    len: &mut usize,
) -> u32
    ensures printed { IsDatePrinted year month day script room.old result room.new len.new }
    ensures bound { len.new ≤ 39 }
{
    *len = 0;
    let Some(script) = script_of(script) else {
        return UNKNOWN;
    };
    let mut scratch = [0; MOST_DATE_BYTES];
    match date_of(year, month, day) {
        Some(date) => put_text(date_text(&mut scratch, script, date).as_bytes(), room, len),
        None => NOT_A_DATE,
    }
}

// Writes the answer to a text to `*date`, and returns its status.
fn tell_date(text: &str, answer: Result<BillDate, ChineseToDateError>, date: &mut Date) -> u32
    ensures { TellsDate text.now (answer_of answer) result date.new }
{
    *date = NOTHING;
    match answer {
        Ok(read) => {
            date.year = read.year as u32;
            date.month = read.month as u32;
            date.day = read.day as u32;
            DONE
        }
        Err(ChineseToDateError::Unfinished) => UNFINISHED,
        Err(ChineseToDateError::Incorrect { char_index }) => {
            date.char_index = char_index;
            date.byte_index = byte_index(text, char_index);
            INCORRECT
        }
    }
}

/// Reads a text in capitals as a date. The status is NOT_UTF8 if the bytes are not UTF-8, INCORRECT
/// if a character is at fault, and UNFINISHED if the text is not a date but something after it can
/// make it one. The whole text is tested to be UTF-8; a text that is not a date is read only up to
/// the character at fault.
///
/// Writes all of `*date` at each status, and nothing else.
#[unsafe(no_mangle)]
pub extern "C" fn chinese_date_read(text: &[u8], date: &mut Date) -> u32
    ensures { IsDateRead text.now result date.new }
{
    *date = NOTHING;
    match utf8_text(text) {
        Some(text) => tell_date(text, chinese_to_date(text), date),
        None => NOT_UTF8,
    }
}
