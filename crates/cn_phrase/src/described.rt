// What an item of a text is, in numbers, as other languages get it.
ghost use Rattle.std.specs.Prelude.{◌≡◌, ◌+◌, ◌<◌, ◌≤◌, ◌^◌, chars, is_some, IfSome};
ghost use Rattle.std.specs.Option.{option_map};
ghost use Rattle.cn_find.specs.Spans.{in_front, span_of};
ghost use Rattle.cn_replace.specs.Chains.{IsPart};
ghost use Rattle.cn_phrase.specs.Described.{described, described_item, described_money, described_phrase, described_range, flag, given_parts, kind_of, number_or, numbers, of_date, of_fen, of_time, of_value, state_of, yuan_of_item, yuan_of_phrase};
ghost use Rattle.cn_phrase.specs.Items.{item_of};
ghost use Rattle.cn_phrase.specs.Money.{money_of};
ghost use Rattle.cn_phrase.specs.Phrases.{found_of};
ghost use Rattle.cn_phrase.specs.Ranges.{ends_of};

use crate::form::Form;
use crate::hour::hour_of_day;
use crate::in_text::{is_doubtful, is_range_doubtful, item_for, text_from};
use crate::items::Item;
use crate::money::Money;
use crate::money_text::{fen_of, is_money_doubtful, yuan_of};
use crate::phrase::{Lead, Match};
use crate::range::{Ends, range_of};
use crate::value::{Date, Time, Value};
use cn_find::{Found, Wanted};
use cn_quantity::Quantity;

/// What an item of a text is.
#[derive(Debug, Copy, Clone, PartialEq, Eq)]
pub enum PhraseKind {
    /// An expression in no phrase.
    Expression,
    Date,
    /// From a year to another one.
    Years,
    /// From a month to another one of the same year.
    Months,
    /// From a day to another one of the same month.
    Days,
    /// A time of day.
    Time,
    /// Hours, minutes and seconds.
    Duration,
    /// A number and a half.
    Half,
    /// A number with decimals.
    Length,
    /// Two numbers that are compared.
    Score,
    /// From a quantity to another one.
    Range,
    /// A sum of money.
    Money,
}

/// What is known of an item.
#[derive(Debug, Copy, Clone, PartialEq, Eq)]
pub enum PhraseState {
    /// It has a value.
    Certain,
    /// It has a value, but may mean something else.
    Doubtful,
    /// It has no value: it names a day or a time that does not exist, or does not rise.
    Refused,
}

/// The numbers of a phrase. They are 0 for an expression, for a range, and for a phrase without value.
///
/// - date: the year, the month, the day, and the sum of 1, 2 and 4 for those that are given
/// - years, months, days: the first and the last
/// - time: the hour as it is written, the minute, the second, and the hour of 24, or 255 if it is not
///   known
/// - duration: the hours, the minutes, the seconds
/// - half: the number without the half
/// - length: the number before the decimals, the decimals, and how many decimals there are
/// - score: the two numbers
/// - money: the fen by their lower and their upper 32 bits, and 1; 0 if they are no whole number below 10^18
#[derive(Debug, Copy, Clone, PartialEq, Eq)]
pub struct PhraseNumbers {
    pub first: u32,
    pub second: u32,
    pub third: u32,
    pub fourth: u32,
}

/// What an item of a text is, in numbers.
#[derive(Debug, Copy, Clone, PartialEq, Eq)]
pub struct Described {
    pub kind: PhraseKind,
    pub state: PhraseState,
    pub numbers: PhraseNumbers,
    /// How many bytes the first end of a range has; 0 otherwise.
    pub split: usize,
}

// Numbers that are widened.
fn numbers(first: u16, second: u16, third: u8, fourth: u8) -> PhraseNumbers
    ensures { result ≡ numbers first second third fourth }
{
    PhraseNumbers {
        first: u32::from(first),
        second: u32::from(second),
        third: u32::from(third),
        fourth: u32::from(fourth),
    }
}

// The kind of a form.
fn kind_of(form: Form) -> PhraseKind
    ensures { result ≡ kind_of form }
{
    match form {
        Form::YearMonthDay | Form::YearMonth | Form::MonthDay | Form::Year => PhraseKind::Date,
        Form::DashDate | Form::SlashDate => PhraseKind::Date,
        Form::PartOfMonth | Form::LinkedMonth | Form::LinkedDay => PhraseKind::Date,
        Form::Years => PhraseKind::Years,
        Form::Months | Form::MonthsTwice => PhraseKind::Months,
        Form::Days | Form::DaysTwice => PhraseKind::Days,
        Form::HourMinuteSecond | Form::HourMinute | Form::HourBare | Form::HourZero =>
            PhraseKind::Time,
        Form::HourHalf | Form::HourQuarter | Form::HourAlone => PhraseKind::Time,
        Form::ColonSecond | Form::ColonMinute => PhraseKind::Time,
        Form::HoursMinutesSeconds | Form::HoursMinutes | Form::MinutesSeconds =>
            PhraseKind::Duration,
        Form::HalfOf | Form::HalfAfter => PhraseKind::Half,
        Form::LengthOne | Form::LengthTwo => PhraseKind::Length,
        Form::Score | Form::ColonScore => PhraseKind::Score,
    }
}

// A number, or 0 if there is none.
fn number_or_0(number: Option<u8>) -> u8
    ensures { result ≡ number_or 0 number }
{
    match number {
        Some(number) => number,
        None => 0,
    }
}

// A flag if it applies, and otherwise 0.
fn flag(applies: bool, worth: u8) -> u8
    requires { worth ≤ 4 }
    ensures value { result ≡ flag applies worth }
    ensures bound { result ≤ worth }
{
    if applies { worth } else { 0 }
}

// Which parts of a date are given.
fn given_parts(date: Date) -> u8
    ensures { result ≡ given_parts date }
{
    flag(date.year.is_some(), 1) + flag(date.month.is_some(), 2) + flag(date.day.is_some(), 4)
}

// The numbers of a date.
fn of_date(date: Date) -> PhraseNumbers
    ensures { result ≡ of_date date }
{
    PhraseNumbers {
        first: match date.year {
            Some(year) => u32::from(year),
            None => 0,
        },
        second: u32::from(number_or_0(date.month)),
        third: u32::from(number_or_0(date.day)),
        fourth: u32::from(given_parts(date)),
    }
}

// The numbers of a time with which a text begins.
fn of_time(lead: Lead, text: &str, time: Time) -> PhraseNumbers
    ensures { result ≡ of_time lead (chars text.now) time }
{
    let hour = match hour_of_day(lead, text, time) {
        Some(hour) => hour,
        None => 255,
    };
    numbers(
        u16::from(time.hour),
        u16::from(time.minute),
        time.second,
        hour,
    )
}

// The numbers of a value with which a text begins.
fn of_value(lead: Lead, text: &str, value: Value) -> PhraseNumbers
    ensures { result ≡ of_value lead (chars text.now) value }
{
    match value {
        Value::Date(date) => of_date(date),
        Value::Years(first, last) => numbers(first, last, 0, 0),
        Value::Months(first, last) => numbers(u16::from(first), u16::from(last), 0, 0),
        Value::Days(first, last) => numbers(u16::from(first), u16::from(last), 0, 0),
        Value::Time(time) => of_time(lead, text, time),
        Value::Duration(hours, minutes, seconds) => numbers(hours, minutes, seconds, 0),
        Value::Half(number) => numbers(number, 0, 0, 0),
        Value::Length(whole, decimals, places) => numbers(whole, u16::from(decimals), places, 0),
        Value::Score(first, second) => numbers(first, second, 0, 0),
    }
}

// The state of an item that has a value.
fn state_of(is_doubtful: bool) -> PhraseState
    ensures { result ≡ state_of is_doubtful }
{
    if is_doubtful {
        PhraseState::Doubtful
    } else {
        PhraseState::Certain
    }
}

// A phrase with which a text begins, after another one.
fn described_phrase(before: &str, found: Match<'_>, text: &str) -> Described
    ensures { result ≡ described_phrase (in_front before.now) (found_of found.entry) (chars text.now) }
{
    let kind = kind_of(found.form);
    match found.form.value(found.numbers) {
        Some(value) => Described {
            kind,
            state: state_of(is_doubtful(before, found, text)),
            numbers: of_value(found.lead, text, value),
            split: 0,
        },
        None => Described {
            kind,
            state: PhraseState::Refused,
            numbers: numbers(0, 0, 0, 0),
            split: 0,
        },
    }
}

// A range.
fn described_range(ends: Ends<'_>) -> Described
    ensures { result ≡ described_range (ends_of ends.entry) }
{
    let state = match range_of(ends.low.text, ends.high.text) {
        Some(_) => state_of(is_range_doubtful(ends)),
        None => PhraseState::Refused,
    };
    Described {
        kind: PhraseKind::Range,
        state,
        numbers: numbers(0, 0, 0, 0),
        split: ends.low.text.len(),
    }
}

// A number of fen by its lower and its upper 32 bits, and 1.
fn of_fen(fen: Option<u64>) -> PhraseNumbers
    requires { IfSome fen (λ n. n < 10 ^ 18) }
    ensures { result ≡ of_fen fen }
{
    match fen {
        Some(fen) => PhraseNumbers {
            first: (fen % 4_294_967_296) as u32,
            second: (fen / 4_294_967_296) as u32,
            third: 1,
            fourth: 0,
        },
        None => numbers(0, 0, 0, 0),
    }
}

// A sum of money, after another text.
fn described_money(before: &str, money: Money<'_>) -> Described
    ensures { result ≡ described_money (in_front before.now) (money_of money.entry) }
{
    Described {
        kind: PhraseKind::Money,
        state: state_of(is_money_doubtful(before, money)),
        numbers: of_fen(fen_of(money)),
        split: 0,
    }
}

// An item with which a text begins, after another one.
fn described_item(before: &str, item: Option<Item<'_>>, text: &str) -> Described
    ensures { result ≡ described_item (in_front before.now) (chars text.now)
        (option_map item_of item.entry) }
{
    match item {
        Some(Item::Phrase(found)) => described_phrase(before, found, text),
        Some(Item::Money(money)) => described_money(before, money),
        Some(Item::Range(ends)) => described_range(ends),
        _ => Described {
            kind: PhraseKind::Expression,
            state: PhraseState::Certain,
            numbers: numbers(0, 0, 0, 0),
            split: 0,
        },
    }
}

/// What an item of a text is.
#[tactic(auto, unfolding(crate::specs::Described::described))]
pub fn describe_phrase(whole: &str, part: Found<'_>, wanted: Wanted) -> Described
    requires { IsPart whole.now (span_of part) }
    ensures { result ≡ described wanted (span_of part.entry) }
{
    described_item(
        part.before,
        item_for(whole, part, wanted),
        text_from(whole, part),
    )
}

// The value in yuan of an item that is a sum of money.
fn yuan_of_item(item: Option<Item<'_>>) -> Option<Quantity>
    ensures { result ≡ yuan_of_item (option_map item_of item.entry) }
{
    match item {
        Some(Item::Money(money)) => yuan_of(money),
        _ => None,
    }
}

/// The exact value in yuan of an item of a text that is a sum of money: 352/100 for 三块五毛二. `None` for any
/// other item.
#[tactic(auto, unfolding(crate::specs::Described::yuan_of_phrase))]
pub fn yuan_of_phrase(whole: &str, part: Found<'_>, wanted: Wanted) -> Option<Quantity>
    requires { IsPart whole.now (span_of part) }
    ensures { result ≡ yuan_of_phrase wanted (span_of part.entry) }
{
    yuan_of_item(item_for(whole, part, wanted))
}
