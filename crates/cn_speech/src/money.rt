// Sums of money as they are spoken.
ghost use Rattle.std.specs.Prelude.{◌≡◌, [], chars, encode_utf8_all, map, OnOk};
ghost use Rattle.cn_find.specs.Spans.{in_front};
ghost use Rattle.cn_phrase.specs.Money.{money_of};
ghost use Rattle.cn_speech.specs.Numbers.{number_said};
ghost use Rattle.cn_speech.specs.SpokenMoney.{amount_said, figures_said, follows_currency, has_amount, is_money_said, is_signed, is_small, is_two, money_said, part_said, yuan_after};

use crate::Voice;
use crate::joined::{has_figure, is_joined_after, is_joined_before};
use crate::numbers::{is_number, put_number, trimmed};
use crate::voice::{put_char, put_word};
use cn_codes::digits::value_of;
use cn_core::{ChineseCase, digit_char, is_figure, split_first_char};
use cn_find::{begins_with, ends_with, is_exactly};
use cn_phrase::money::{Money, MoneyForm};
use cn_replace::Sink;
use cn_replace::numbers::put_same;

fn is_small(form: MoneyForm) -> bool
    ensures { result ≡ is_small form }
{
    matches!(form, MoneyForm::Small)
}

fn is_signed(form: MoneyForm) -> bool
    ensures { result ≡ is_signed form }
{
    matches!(form, MoneyForm::Signed)
}

fn is_two(number: &str) -> bool
    ensures { result ≡ is_two (chars number.now) }
{
    is_exactly(&['2'], number) || is_exactly(&['２'], number)
}

// Writes a number in figures after no other text.
fn put_plain<S: Sink>(sink: &mut S, voice: Voice, number: &str) -> Result<(), S::Error>
    ensures { OnOk result (S.took sink.old sink.new
        (encode_utf8_all (number_said voice [] (chars number.now)))) }
{
    put_number(sink, voice, "", number)
}

// Writes a number in figures: 两 for 2, but 二 for 2 jiao or fen.
fn put_figures<S: Sink>(
    sink: &mut S,
    voice: Voice,
    form: MoneyForm,
    number: &str,
) -> Result<(), S::Error>
    ensures { OnOk result (S.took sink.old sink.new
        (encode_utf8_all (figures_said voice form (chars number.now)))) }
{
    if is_two(number) && !is_small(form) {
        put_word(sink, voice, "两")
    } else {
        put_plain(sink, voice, number)
    }
}

// Writes the number of a sum.
fn put_amount<S: Sink>(
    sink: &mut S,
    voice: Voice,
    form: MoneyForm,
    number: &str,
) -> Result<(), S::Error>
    ensures { OnOk result (S.took sink.old sink.new
        (encode_utf8_all (amount_said voice form (chars number.now)))) }
{
    if has_figure(number) {
        put_figures(sink, voice, form, trimmed(number))
    } else {
        put_same(sink, number)
    }
}

// Writes 元 after a sum with a sign, unless its unit is there.
fn put_yuan<S: Sink>(
    sink: &mut S,
    voice: Voice,
    form: MoneyForm,
    rest: &str,
) -> Result<(), S::Error>
    ensures { OnOk result (S.took sink.old sink.new
        (encode_utf8_all (yuan_after voice form (chars rest.now)))) }
{
    if is_signed(form) && !begins_with(&['元', '圆', '圓', '块', '塊'], rest) {
        put_word(sink, voice, "元")
    } else {
        Ok(())
    }
}

// What is spoken for a character after the number of a sum.
fn part_said(voice: Voice, c: char) -> char
    ensures { result ≡ part_said voice c }
{
    if is_figure(c) {
        digit_char(voice.variant, ChineseCase::Lower, value_of(c))
    } else {
        c
    }
}

// Writes what is after the number of a sum.
fn put_parts<S: Sink>(sink: &mut S, voice: Voice, text: &str) -> Result<(), S::Error>
    ensures { OnOk result (S.took sink.old sink.new
        (encode_utf8_all (map (part_said voice) (chars text.now)))) }
{
    let mut rest = text;
    'putting: while let Some((c, others)) = split_first_char(rest) {
        put_char(sink, part_said(voice, c))?;
        rest = others;
    }
    Ok(())
}

// Whether the number of a sum can be spoken.
fn has_amount(number: &str) -> bool
    ensures { result ≡ has_amount (chars number.now) }
{
    !has_figure(number) || is_number(trimmed(number))
}

/// Whether the sign of another currency is before a sum, as $ before 5.
pub fn follows_currency(before: &str) -> bool
    ensures { result ≡ follows_currency (in_front before.now) }
{
    ends_with(&['$', '＄', '€', '£'], before)
}

/// Whether a sum of money, after another text, is spoken: it is of no other currency, and no part of
/// a name or a formula.
pub fn is_money_said(before: &str, money: Money<'_>) -> bool
    ensures { result ≡ is_money_said (in_front before.now) (money_of money.entry) }
{
    has_amount(money.number.text)
        && !follows_currency(before)
        && !is_joined_before(before, money.number.text, money.rest)
        && !is_joined_after(money.number.text, money.rest)
}

/// Writes a sum of money as it is spoken: 三点五元 for ￥3.50, 两块五 for 2块5. The error is the one of
/// the sink.
pub fn put_money<S: Sink>(sink: &mut S, voice: Voice, money: Money<'_>) -> Result<(), S::Error>
    ensures { OnOk result (S.took sink.old sink.new
        (encode_utf8_all (money_said voice (money_of money.entry)))) }
{
    put_amount(sink, voice, money.form, money.number.text)?;
    put_yuan(sink, voice, money.form, money.rest)?;
    put_parts(sink, voice, money.tail)
}
