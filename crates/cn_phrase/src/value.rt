// The values of phrases.
ghost use Rattle.std.specs.Prelude.{◌≡◌, ◌<◌, ◌≤◌, ◌*◌, Some, None, IfSome};
ghost use Rattle.cn_phrase.specs.declared.value.Value.TheVariants.{Years, Months, Days};
ghost use Rattle.cn_phrase.specs.Values.{counted_year, date_of, day_in, duration_of, length_of, month_of, part_of_date, rising, time_of, value_by, within};

use crate::form::Form;
use crate::piece::Numbers;
use cn_date::days_of;

/// A date, as far as it is said.
#[derive(Debug, Copy, Clone, PartialEq, Eq)]
pub struct Date {
    /// As it is said: of two digits, or of an era, too.
    pub year: Option<u16>,
    /// From 1 to 12.
    pub month: Option<u8>,
    /// From 1 to 31.
    pub day: Option<u8>,
}

/// A time of day, as it is said, from 0:00:00 to 24:00:00.
#[derive(Debug, Copy, Clone, PartialEq, Eq)]
pub struct Time {
    pub hour: u8,
    pub minute: u8,
    pub second: u8,
}

/// The value of a phrase.
#[derive(Debug, Copy, Clone, PartialEq, Eq)]
pub enum Value {
    Date(Date),
    /// From a year to another one.
    Years(u16, u16),
    /// From a month to another one of the same year.
    Months(u8, u8),
    /// From a day to another one of the same month.
    Days(u8, u8),
    Time(Time),
    /// Hours, minutes and seconds.
    Duration(u16, u16, u8),
    /// A number and a half.
    Half(u16),
    /// A number, its decimals, and how many decimals there are.
    Length(u16, u8, u8),
    /// Two numbers that are compared.
    Score(u16, u16),
}

// A number from `least` to `most`.
fn within(least: u8, most: u8, number: u16) -> Option<u8>
    ensures value { result ≡ within least most number }
    ensures bound { IfSome result (λ n. n ≤ most) }
{
    if number < 256 && u16::from(least) <= number && number <= u16::from(most) {
        Some(number as u8)
    } else {
        None
    }
}

// The year by which the days of a month are counted.
fn counted_year(year: u16) -> u16
    ensures { result ≡ counted_year year }
{
    if year < 100 { 2000 } else { year }
}

fn month_of(number: u16) -> Option<u8>
    ensures { result ≡ month_of number }
{
    within(1, 12, number)
}

// The day of a month that has it.
fn day_in(year: u16, month: u8, number: u16) -> Option<u8>
    ensures { result ≡ day_in year month number }
{
    within(1, days_of(counted_year(year), month), number)
}

// A month and a day, with a year or without.
fn date_of(said: Option<u16>, year: u16, month: u16, day: u16) -> Option<Value>
    ensures { result ≡ date_of said year month day }
{
    let month = month_of(month)?;
    let day = day_in(year, month, day)?;
    Some(Value::Date(Date {
        year: said,
        month: Some(month),
        day: Some(day),
    }))
}

// A time of day, from 0:00:00 to 24:00:00.
fn time_of(hour: u16, minute: u16, second: u16) -> Option<Value>
    ensures { result ≡ time_of hour minute second }
{
    if (hour < 24 && minute < 60 && second < 60) || (hour == 24 && minute == 0 && second == 0) {
        Some(Value::Time(Time {
            hour: hour as u8,
            minute: minute as u8,
            second: second as u8,
        }))
    } else {
        None
    }
}

// From a month to a later one.
fn months_of(first: u16, last: u16) -> Option<Value>
    ensures { result ≡ rising Months (month_of first) (month_of last) }
{
    let first = month_of(first)?;
    let last = month_of(last)?;
    if first < last {
        Some(Value::Months(first, last))
    } else {
        None
    }
}

// From a day to a later one.
fn days_between(first: u16, last: u16) -> Option<Value>
    ensures { result ≡ rising Days (within 1 31 first) (within 1 31 last) }
{
    let first = within(1, 31, first)?;
    let last = within(1, 31, last)?;
    if first < last {
        Some(Value::Days(first, last))
    } else {
        None
    }
}

// From a year to a later one.
fn years_of(first: u16, last: u16) -> Option<Value>
    ensures { result ≡ rising Years (Some first) (Some last) }
{
    if first < last {
        Some(Value::Years(first, last))
    } else {
        None
    }
}

// A duration, with less than 60 minutes after hours, and less than 60 seconds.
fn duration_of(hours: u16, minutes: u16, seconds: u16) -> Option<Value>
    ensures { result ≡ duration_of hours minutes seconds }
{
    if seconds < 60 && (minutes < 60 || hours == 0) {
        Some(Value::Duration(hours, minutes, seconds as u8))
    } else {
        None
    }
}

// A year and a month, or one of them, or a day by itself.
fn part_of_date(year: Option<u16>, month: Option<u8>, day: Option<u8>) -> Value
    ensures { result ≡ part_of_date year month day }
{
    Value::Date(Date { year, month, day })
}

// The value of a length.
fn length_of(whole: u16, decimals: u16, places: u8) -> Option<Value>
    ensures { result ≡ length_of whole decimals places }
{
    Some(Value::Length(whole, within(0, 99, decimals)?, places))
}

impl Form {
    /// The value of a phrase of this form, by its numbers; `None` if it is refused.
    pub fn value(self, n: Numbers) -> Option<Value>
        ensures { result ≡ value_by self n }
    {
        match self {
            Form::YearMonthDay | Form::DashDate | Form::SlashDate => {
                date_of(Some(n.first), n.first, n.second, n.last)
            }
            Form::MonthDay => date_of(None, 0, n.second, n.last),
            Form::YearMonth => Some(part_of_date(Some(n.second), Some(month_of(n.last)?), None)),
            Form::Year => Some(part_of_date(Some(n.last), None, None)),
            Form::LinkedMonth | Form::PartOfMonth => Some(part_of_date(
                None,
                Some(month_of(n.last)?),
                None,
            )),
            Form::LinkedDay => Some(part_of_date(None, None, Some(within(1, 31, n.last)?))),
            Form::Years => years_of(n.second, n.last),
            Form::Months | Form::MonthsTwice => months_of(n.second, n.last),
            Form::Days | Form::DaysTwice => days_between(n.second, n.last),
            Form::HourMinuteSecond | Form::ColonSecond => time_of(n.first, n.second, n.last),
            Form::HourMinute | Form::HourBare | Form::HourZero | Form::ColonMinute => time_of(
                n.second, n.last, 0,
            ),
            Form::HourHalf => time_of(n.last, 30, 0),
            Form::HourQuarter => time_of(n.second, 15 * within_quarters(n.last)?, 0),
            Form::HourAlone => time_of(n.last, 0, 0),
            Form::HoursMinutesSeconds => duration_of(n.first, n.second, n.last),
            Form::HoursMinutes => duration_of(n.second, n.last, 0),
            Form::MinutesSeconds => duration_of(0, n.second, n.last),
            Form::HalfOf | Form::HalfAfter => Some(Value::Half(n.last)),
            Form::LengthOne => length_of(n.second, n.last, 1),
            Form::LengthTwo => length_of(n.second, n.last, 2),
            Form::Score | Form::ColonScore => Some(Value::Score(n.second, n.last)),
        }
    }
}

// How many quarters of an hour there are.
fn within_quarters(number: u16) -> Option<u16>
    ensures value { result ≡ within 1 3 number }
    ensures bound { IfSome result (λ n. n ≤ 3) }
{
    Some(u16::from(within(1, 3, number)?))
}
