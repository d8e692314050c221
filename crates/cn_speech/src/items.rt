// Items of phrases as they are spoken, with the measures after them.
ghost use Rattle.std.specs.Prelude.{◌≡◌, chars, encode_utf8_all, OnOk};
ghost use Rattle.cn_find.specs.Spans.{in_front};
ghost use Rattle.cn_phrase.specs.Items.{item_of, rest_of};
ghost use Rattle.cn_phrase.specs.Suffix.{EndsWith};
ghost use Rattle.cn_speech.specs.SpokenItems.{after_item, has_unit, is_form_of_day, is_item_said, is_of_day, item_said};

use crate::expressions::{after_measure, is_expression_said, put_expression};
use crate::measures::measure_at;
use crate::money::{is_money_said, put_money};
use crate::phrases::{is_phrase_said, put_phrase};
use crate::ranges::{is_range_said, put_range};
use crate::voice::Voice;
use cn_phrase::form::Form;
use cn_phrase::items::Item;
use cn_replace::Sink;
use cn_replace::pieces::before_rest;

fn is_form_of_day(form: Form) -> bool
    ensures { result ≡ is_form_of_day form }
{
    match form {
        Form::YearMonthDay | Form::YearMonth | Form::MonthDay | Form::Year => true,
        Form::DashDate | Form::SlashDate => true,
        Form::PartOfMonth | Form::LinkedMonth | Form::LinkedDay => true,
        Form::HourMinuteSecond | Form::HourMinute | Form::HourBare | Form::HourZero => true,
        Form::HourHalf | Form::HourQuarter | Form::HourAlone => true,
        Form::ColonSecond | Form::ColonMinute => true,
        _ => false,
    }
}

/// Whether an item is a date or a time of day, as 5月1日 and 15:30.
pub fn is_of_day(item: Item<'_>) -> bool
    ensures { result ≡ is_of_day (item_of item.entry) }
{
    match item {
        Item::Phrase(found) => is_form_of_day(found.form),
        _ => false,
    }
}

/// Whether a unit ends what is said for an item, as in 5元 and 5kg: that of a sum of money, or a measure.
pub fn has_unit(item: Item<'_>) -> bool
    ensures { result ≡ has_unit (item_of item.entry) }
{
    match item {
        Item::Phrase(_) => false,
        Item::Money(_) => true,
        Item::Range(ends) => measure_at(ends.high.after).is_some(),
        Item::Expression(rest) => measure_at(rest).is_some(),
    }
}

/// The text after an item, and after the measure of a number or a range: 苹果 for 5 in 5kg苹果.
pub fn after_item(item: Item<'_>) -> &str
    ensures { chars result.now ≡ after_item (item_of item.entry) }
{
    match item {
        Item::Phrase(found) => found.rest,
        Item::Money(money) => money.rest,
        Item::Range(ends) => after_measure(ends.high.after),
        Item::Expression(rest) => after_measure(rest),
    }
}

/// Whether an item that begins with a text, after another text, is spoken.
pub fn is_item_said(before: &str, text: &str, item: Item<'_>) -> bool
    requires { EndsWith (chars text.now) (rest_of (item_of item)) }
    ensures { result
        ≡ is_item_said (in_front before.now) (chars text.now) (item_of item.entry) }
{
    match item {
        Item::Phrase(found) => is_phrase_said(before, found, text),
        Item::Money(money) => is_money_said(before, money),
        Item::Range(ends) => is_range_said(ends),
        Item::Expression(rest) => is_expression_said(before, before_rest(text, rest), rest),
    }
}

/// Writes what is said for an item that begins with a text, after another text.
pub fn put_item<S: Sink>(
    sink: &mut S,
    voice: Voice,
    before: &str,
    text: &str,
    item: Item<'_>,
) -> Result<(), S::Error>
    requires { EndsWith (chars text.now) (rest_of (item_of item)) }
    ensures { OnOk result (S.took sink.old sink.new (encode_utf8_all
        (item_said voice (in_front before.now) (chars text.now) (item_of item.entry)))) }
{
    match item {
        Item::Phrase(found) => put_phrase(sink, voice, before, found, text),
        Item::Money(money) => put_money(sink, voice, money),
        Item::Range(ends) => put_range(sink, voice, before, ends),
        Item::Expression(rest) => {
            put_expression(sink, voice, before, before_rest(text, rest), rest)
        }
    }
}
