// A phrase in its shortest form: 2026-01-05, 15:30, 1.5小时.
ghost use Rattle.std.specs.Prelude.{◌≡◌, Some, ◌++◌, [], codes, chars, encode_utf8_all, is_some, take, IfOk, OnOk};
ghost use Rattle.cn_find.specs.Spans.{in_front};
ghost use Rattle.cn_replace.specs.Pieces.{begins};
ghost use Rattle.cn_replace.specs.Private.{PutsText};
ghost use Rattle.cn_phrase.specs.Compact.{after_colon, after_dash, after_number, blank_before, clock_text, compact_text, counted_text, date_text, half_text, has_seconds, lead_text, begins_part, goes_on, is_in_words, is_joint, moment_text, names_day, needs_lead, parts_text, seconds_text, text_of_value, time_text, two_figures, unit_text, whole_text};
ghost use Rattle.cn_phrase.specs.Phrases.{found_of};

use crate::form::Form;
use crate::hour::hour_of_day;
use crate::phrase::{Lead, Match, begins_with, ends_with};
use crate::piece::{Numeral, without_blank};
use crate::value::{Date, Time, Value};
use crate::word::{Word, after_halved, after_two};
use crate::written::put_passed;
use cn_core::split_first_char;
use cn_find::{begins_with_two, is_one_of};
use cn_quantity::{Quantity, QuantityForm};
use cn_replace::Sink;
use cn_replace::nothing::Nothing;
use cn_replace::numbers::put_quantity;
use cn_replace::pieces::{Figure, before_rest, begins, ends, split_leading};

// Writes a whole number.
fn put_whole<S: Sink>(sink: &mut S, n: u16) -> Result<(), S::Error>
    ensures { OnOk result (S.took sink.old sink.new (whole_text n)) }
{
    put_quantity(
        sink,
        Quantity {
            numerator: i128::from(n),
            denominator: 1,
            form: QuantityForm::Whole,
        },
    )
}

// Writes a number in two figures or more.
#[tactic(auto, unfolding(crate::specs::Compact::two_figures))]
fn put_two_figures<S: Sink>(sink: &mut S, n: u8) -> Result<(), S::Error>
    ensures { OnOk result (S.took sink.old sink.new (two_figures n)) }
{
    sink.put(if n < 10 { "0" } else { "" })?;
    put_whole(sink, u16::from(n))
}

// Writes a number after a mark.
fn put_after<S: Sink>(sink: &mut S, mark: &str, n: u8) -> Result<(), S::Error>
    ensures { OnOk result (S.took sink.old sink.new (mark.now ++ two_figures n)) }
{
    sink.put(mark)?;
    put_two_figures(sink, n)
}

// Writes a number after a dash.
#[tactic(auto, unfolding(crate::specs::Compact::after_dash))]
fn put_after_dash<S: Sink>(sink: &mut S, n: u8) -> Result<(), S::Error>
    ensures { OnOk result (S.took sink.old sink.new (after_dash n)) }
{
    put_after(sink, "-", n)
}

// Writes a number after a colon.
#[tactic(auto, unfolding(crate::specs::Compact::after_colon))]
fn put_after_colon<S: Sink>(sink: &mut S, n: u8) -> Result<(), S::Error>
    ensures { OnOk result (S.took sink.old sink.new (after_colon n)) }
{
    put_after(sink, ":", n)
}

// Writes a year, a month and a day.
#[tactic(auto, unfolding(crate::specs::Compact::parts_text))]
fn put_parts<S: Sink>(sink: &mut S, year: u16, month: u8, day: u8) -> Result<(), S::Error>
    ensures { OnOk result (S.took sink.old sink.new (parts_text year month day)) }
{
    put_whole(sink, year)?;
    put_after_dash(sink, month)?;
    put_after_dash(sink, day)
}

// Writes a date that has a year of four digits, a month and a day, and returns whether it has them.
#[tactic(auto, unfolding(crate::specs::Compact::date_text))]
fn put_date<S: Sink>(sink: &mut S, date: Date) -> Result<bool, S::Error>
    ensures { IfOk result
        (PutsText S.took sink.old sink.new (date_text date.year date.month date.day)) }
{
    match (date.year, date.month, date.day) {
        (Some(year), Some(month), Some(day)) => {
            if year < 1000 || year >= 10000 {
                return Ok(false);
            }
            put_parts(sink, year, month, day)?;
            Ok(true)
        }
        _ => Ok(false),
    }
}

fn has_seconds(form: Form) -> bool
    ensures { result ≡ has_seconds form }
{
    matches!(form, Form::HourMinuteSecond | Form::ColonSecond)
}

// Writes seconds, if the form has them.
#[tactic(auto, unfolding(crate::specs::Compact::seconds_text))]
fn put_seconds<S: Sink>(sink: &mut S, form: Form, second: u8) -> Result<(), S::Error>
    ensures { OnOk result (S.took sink.old sink.new (seconds_text form second)) }
{
    if has_seconds(form) {
        put_after_colon(sink, second)
    } else {
        Ok(())
    }
}

// Writes an hour of 24, minutes, and seconds if the form has them.
#[tactic(auto, unfolding(crate::specs::Compact::clock_text))]
fn put_clock<S: Sink>(sink: &mut S, form: Form, hour: u8, time: Time) -> Result<(), S::Error>
    ensures { OnOk result (S.took sink.old sink.new (clock_text form hour time)) }
{
    put_two_figures(sink, hour)?;
    put_after_colon(sink, time.minute)?;
    put_seconds(sink, form, time.second)
}

// Writes the weekday before a time.
#[tactic(auto, unfolding(crate::specs::Compact::lead_text))]
fn put_lead<S: Sink>(sink: &mut S, lead: Lead, text: &str) -> Result<(), S::Error>
    ensures { OnOk result (S.took sink.old sink.new (lead_text lead (chars text.now))) }
{
    match lead {
        Lead::Weekday => {
            let Some(start) = lead.after(text) else {
                return Ok(());
            };
            put_passed(sink, text, start)
        }
        _ => Ok(()),
    }
}

// Whether a character may be between two dates or times.
#[tactic(auto, unfolding(crate::specs::Compact::is_joint))]
fn is_joint(c: char) -> bool
    ensures { result ≡ is_joint c }
{
    is_one_of(
        &[
            '到', '至', '~', '～', '－', '–', '—', '〜', '-', '、', '，', ',', '和', '或', '与', '與', '及',
            '跟',
        ],
        c,
    )
}

// The text after the number with which a text begins.
fn after_number(text: &str) -> &str
    ensures { chars result.now ≡ after_number (chars text.now) }
{
    let (_, rest) = split_leading(Numeral, text);
    without_blank(begins(Figure, text), rest)
}

// Whether a text begins with a number and a unit of dates or times that is no year.
#[tactic(auto, unfolding(crate::specs::Compact::begins_part))]
fn begins_part(text: &str) -> bool
    ensures { result ≡ begins_part (chars text.now) }
{
    begins(Numeral, text)
        && begins_with(
            &['月', '日', '号', '號', '点', '點', '时', '時', ':', '：'],
            after_number(text),
        )
}

// Whether a text goes on with a number for which the words before it count too.
#[tactic(auto, unfolding(crate::specs::Compact::goes_on))]
fn goes_on(rest: &str) -> bool
    ensures { result ≡ goes_on (chars rest.now) }
{
    match split_first_char(rest) {
        Some((c, next)) => is_joint(c) && begins_part(next),
        None => false,
    }
}

// Whether a word of half a day, with which a text begins, also says which day it is, or is a part of
// a longer word.
#[tactic(auto, unfolding(crate::specs::Compact::names_day))]
fn names_day(before: &str, text: &str) -> bool
    ensures { result ≡ names_day (in_front before.now) (chars text.now) }
{
    begins_with(&['今', '明', '昨', '当', '當'], text)
        || ends_with(
            &[
                '每', '那', '这', '這', '次', '翌', '同', '隔', '前', '后', '後', '首', '大', '清', '夜', '早',
            ],
            before,
        )
}

// Whether a word of half a day says more than which half it is: the day, or the half of what comes
// next; or it is between two numbers.
#[tactic(auto, unfolding(crate::specs::Compact::needs_lead))]
fn needs_lead(lead: Lead, before: &str, text: &str, rest: &str) -> bool
    ensures { result ≡ needs_lead lead (in_front before.now) (chars text.now) (chars rest.now) }
{
    match lead {
        Lead::HalfDay => names_day(before, text) || ends(Numeral, before) || goes_on(rest),
        _ => false,
    }
}

// Whether what is after a time belongs to its last word.
#[tactic(auto, unfolding(crate::specs::Compact::is_in_words))]
fn is_in_words(rest: &str) -> bool
    ensures { result ≡ is_in_words (chars rest.now) }
{
    begins_with(
        &[
            '钟', '鐘', '多', '许', '許', '余', '餘', '来', '來', '整', '档', '檔', '价', '價',
        ],
        rest,
    ) || begins_with_two(&['成'], &['品'], rest)
}

// Writes a time with which a text begins, with its hour of 24.
#[tactic(auto, unfolding(crate::specs::Compact::moment_text))]
fn put_moment<S: Sink>(
    sink: &mut S,
    found: Match<'_>,
    text: &str,
    hour: u8,
    time: Time,
) -> Result<(), S::Error>
    ensures { OnOk result
        (S.took sink.old sink.new (moment_text (found_of found.entry) (chars text.now) hour time)) }
{
    put_lead(sink, found.lead, text)?;
    put_clock(sink, found.form, hour, time)
}

// Writes a time with which a text begins, if its hour of 24 is known, and returns whether it is.
#[tactic(auto, unfolding(crate::specs::Compact::time_text))]
fn put_time<S: Sink>(
    sink: &mut S,
    before: &str,
    found: Match<'_>,
    text: &str,
    time: Time,
) -> Result<bool, S::Error>
    ensures { IfOk result (PutsText S.took sink.old sink.new
        (time_text (in_front before.now) (found_of found.entry) (chars text.now) time)) }
{
    if needs_lead(found.lead, before, text, found.rest) || is_in_words(found.rest) {
        return Ok(false);
    }
    let Some(hour) = hour_of_day(found.lead, text, time) else {
        return Ok(false);
    };
    put_moment(sink, found, text, hour, time)?;
    Ok(true)
}

// The blank between a date or a time and the text after it.
#[tactic(auto, unfolding(crate::specs::Compact::blank_before))]
fn blank_before(rest: &str) -> &'static str
    ensures { result.now ≡ blank_before (chars rest.now) }
{
    if begins(Numeral, rest) || Word::HalfDay.after(rest).is_some() {
        " "
    } else {
        ""
    }
}

// Writes the blank between a date or a time and the text after it.
fn put_blank<S: Sink>(sink: &mut S, rest: &str) -> Result<bool, S::Error>
    ensures { IfOk result
        (PutsText S.took sink.old sink.new (Some (blank_before (chars rest.now)))) }
{
    sink.put(blank_before(rest))?;
    Ok(true)
}

// Writes the first character of a text.
fn put_first<S: Sink>(sink: &mut S, text: &str) -> Result<(), S::Error>
    ensures { OnOk result (S.took sink.old sink.new (encode_utf8_all (take 1 (chars text.now)))) }
{
    match split_first_char(text) {
        Some((_, rest)) => put_passed(sink, text, rest),
        None => Ok(()),
    }
}

// Writes the word of a half that is counted with 个.
#[tactic(auto, unfolding(crate::specs::Compact::counted_text))]
fn put_counted<S: Sink>(sink: &mut S, text: &str, words: &str) -> Result<(), S::Error>
    ensures { OnOk result
        (S.took sink.old sink.new (counted_text (chars text.now) (chars words.now))) }
{
    if !begins_with(&['小'], words) {
        put_first(sink, text)?;
    }
    let Some(rest) = after_halved(words) else {
        return Ok(());
    };
    put_passed(sink, words, rest)
}

// Writes the words of a half after its number.
#[tactic(auto, unfolding(crate::specs::Compact::unit_text))]
fn put_unit<S: Sink>(sink: &mut S, form: Form, text: &str) -> Result<(), S::Error>
    ensures { OnOk result (S.took sink.old sink.new (unit_text form (chars text.now))) }
{
    match form {
        Form::HalfOf => {
            let Some(words) = after_two(&['个', '個'], &['半'], text) else {
                return Ok(());
            };
            put_counted(sink, text, words)
        }
        _ => put_first(sink, text),
    }
}

// Writes a number and a half, with its unit.
#[tactic(auto, unfolding(crate::specs::Compact::half_text))]
fn put_half<S: Sink>(sink: &mut S, form: Form, n: u16, text: &str) -> Result<(), S::Error>
    ensures { OnOk result (S.took sink.old sink.new (half_text form n (chars text.now))) }
{
    put_quantity(
        sink,
        Quantity {
            numerator: 10 * i128::from(n) + 5,
            denominator: 10,
            form: QuantityForm::Decimal,
        },
    )?;
    put_unit(sink, form, after_number(text))
}

// Writes the shortest form of a phrase that begins with a text, after another one, and returns whether
// it has one. If not, anything may have been written.
#[tactic(auto, unfolding(crate::specs::Compact::text_of_value))]
fn put_value<S: Sink>(
    sink: &mut S,
    before: &str,
    found: Match<'_>,
    text: &str,
    value: Value,
) -> Result<bool, S::Error>
    ensures { IfOk result (PutsText S.took sink.old sink.new
        (text_of_value (in_front before.now) (found_of found.entry) (chars text.now) value)) }
{
    match value {
        Value::Date(date) => {
            if goes_on(found.rest) {
                return Ok(false);
            }
            if !put_date(sink, date)? {
                return Ok(false);
            }
            put_blank(sink, found.rest)
        }
        Value::Time(time) => {
            if !put_time(sink, before, found, text, time)? {
                return Ok(false);
            }
            put_blank(sink, found.rest)
        }
        Value::Half(n) => {
            put_half(sink, found.form, n, text)?;
            Ok(true)
        }
        _ => Ok(false),
    }
}

/// Writes the shortest form of a phrase that begins with a text, after another one, and returns whether
/// it has one. If not, anything may have been written.
#[tactic(auto, unfolding(crate::specs::Compact::compact_text))]
pub fn put_compact<S: Sink>(
    sink: &mut S,
    before: &str,
    found: Match<'_>,
    text: &str,
) -> Result<bool, S::Error>
    ensures { IfOk result (PutsText S.took sink.old sink.new
        (compact_text (in_front before.now) (found_of found.entry) (chars text.now))) }
{
    match found.form.value(found.numbers) {
        Some(value) => put_value(sink, before, found, text, value),
        None => Ok(false),
    }
}

/// Whether a phrase that begins with a text, after another one, has a shortest form.
pub fn has_compact(before: &str, found: Match<'_>, text: &str) -> bool
    ensures { result ≡ is_some
        (compact_text (in_front before.now) (found_of found.entry) (chars text.now)) }
{
    match put_compact(&mut Nothing {}, before, found, text) {
        Ok(is_compact) => is_compact,
        Err(never) => match never {},
    }
}
