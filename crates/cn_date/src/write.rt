// Writes dates.
ghost use Rattle.std.specs.Prelude.{◌≡◌, ◌≤◌, length, encode_utf8_all};
ghost use Rattle.cn_date.specs.Calendar.{IsDate};
ghost use Rattle.cn_date.specs.Writes.{WritesDate, date_text};

use crate::DateToChineseError;
use crate::date::BillDate;
use crate::put::put_date;
use cn_core::{Buffer, ChineseVariant, string_of};
use std::alloc::Global;

/// The most bytes of a date: three for each of 13 characters.
pub const MOST_DATE_BYTES: usize = 39;

/// Writes a date that exists at the start of a buffer, and returns its text.
pub fn date_text(room: &mut [u8; MOST_DATE_BYTES], variant: ChineseVariant, date: BillDate) -> &str
    requires { IsDate date }
    ensures bytes { result.now ≡ encode_utf8_all (date_text variant date) }
    ensures most { length result.now ≤ 39 }
{
    let mut text = Buffer::new(room);
    put_date(&mut text, variant, date);
    text.into_text()
}

/// The date in capitals, as on a cheque.
///
/// ```text
/// let date = BillDate { year: 2026, month: 1, day: 15 };
/// date_to_chinese(alloc, ChineseVariant::Simple, date) == Ok("贰零贰陆年零壹月壹拾伍日")
/// ```
///
/// The result is `NotADate` if the date does not exist in the Gregorian calendar from year 1 to
/// year 9999; no memory is requested then. It is `OutOfMemory` if there is no memory for the text,
/// which is requested once, in its size.
pub fn date_to_chinese(
    alloc: Global,
    variant: ChineseVariant,
    date: BillDate,
) -> Result<String, DateToChineseError>
    ensures { WritesDate variant date result }
{
    if !date.is_date() {
        return Err(DateToChineseError::NotADate);
    }
    let mut room = [0; MOST_DATE_BYTES];
    Ok(string_of(alloc, date_text(&mut room, variant, date))?)
}
