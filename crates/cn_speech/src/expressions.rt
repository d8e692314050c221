// Expressions as they are spoken, with the measures after them.
ghost use Rattle.std.specs.Prelude.{◌≡◌, ◌∷◌, [], chars, codes, encode_utf8_all, OnOk};
ghost use Rattle.cn_find.specs.Spans.{in_front};
ghost use Rattle.cn_speech.specs.SpokenExpressions.{after_measure, begins_counted_by_two, begins_degrees, begins_measure, begins_no_measure, counted_said, counts_two, ends_ordinal, expression_said, has_degrees, is_after_bar, is_counted_two, is_discount, is_expression_said, is_negative, is_number_of_degrees, is_two_alone, links_degrees, measure_said, minus_said, number_or_digits, without_minus, without_signs, yuan_said};
ghost use Rattle.cn_speech.specs.Voice.{two, word};

use crate::joined::{is_joined_after, is_joined_before, may_be_short_year};
use crate::measures::{is_degrees, measure_at};
use crate::numbers::{OfFigures, is_number, put_number, put_one_by_one, trimmed};
use crate::voice::{Voice, in_script, put_char, put_word};
use cn_codes::counted::{is_counted_by_two, without_blank};
use cn_codes::digits::{begins_zero, has_count};
use cn_codes::in_figures::Han;
use cn_codes::words::{begins_any, ends_any, without_first};
use cn_core::{is_currency, is_figure_minus};
use cn_find::{begins_with, begins_with_two, ends_with, is_exactly};
use cn_phrase::range::is_link;
use cn_replace::Sink;
use cn_replace::pieces::{CharTest, Figure, all, begins, ends, split_leading};

/// The text after the measure with which a text begins, or all of it: 苹果 for kg苹果.
pub fn after_measure(rest: &str) -> &str
    ensures { chars result.now ≡ after_measure (chars rest.now) }
{
    match measure_at(rest) {
        Some(measure) => measure.rest,
        None => rest,
    }
}

/// Writes what is said for the measure with which a text begins, as 千克 for kg; nothing without one.
pub fn put_measure<S: Sink>(sink: &mut S, voice: Voice, rest: &str) -> Result<(), S::Error>
    ensures { OnOk result (S.took sink.old sink.new
        (encode_utf8_all (measure_said voice (chars rest.now)))) }
{
    match measure_at(rest) {
        Some(measure) => put_word(sink, voice, measure.spoken),
        None => Ok(()),
    }
}

// Whether 2 is 两 before a measure.
fn counts_two(spoken: &str) -> bool
    ensures { result ≡ counts_two (chars spoken.now) }
{
    begins(Han, spoken) && !is_degrees(spoken) && !begins_with(&['号'], spoken)
}

// Whether a text begins with a measure before which 2 is 两.
fn begins_measure(rest: &str) -> bool
    ensures { result ≡ begins_measure (chars rest.now) }
{
    match measure_at(rest) {
        Some(measure) => counts_two(measure.spoken),
        None => false,
    }
}

// A character that begins a measure word before which 2 is 两.
#[derive(Copy, Clone)]
struct CountedByTwo;

impl CharTest for CountedByTwo {
    ghost use Rattle.cn_codes.specs.Counted.{is_counted_by_two};

    ghost test = { λ _. is_counted_by_two };

    fn passes(self, c: char) -> bool {
        is_counted_by_two(c)
    }
}

// Whether a text begins with a word that begins as a measure word does.
fn begins_no_measure(text: &str) -> bool
    ensures { result ≡ begins_no_measure (chars text.now) }
{
    begins_any(
        &[
            "年级",
            "年級",
            "人民",
            "人称",
            "人稱",
            "小学",
            "小學",
            "小组",
            "小組",
            "分之",
            "家庭",
            "部门",
            "部門",
            "本科",
            "成都",
            "国道",
            "國道",
            "国籍",
            "國籍",
            "平方根",
        ],
        text,
    )
}

// Whether a text ends with a word after which a number is an ordinal, or a year.
fn ends_ordinal(before: &str) -> bool
    ensures { result ≡ ends_ordinal (in_front before.now) }
{
    ends_any(
        &[
            "第",
            "公元",
            "公元前",
            "第1、",
            "第1和",
            "第1或",
            "第1与",
            "第1與",
            "民国",
            "民國",
            "昭和",
            "平成",
            "令和",
        ],
        before,
    )
}

// Whether a text begins with a measure word before which 2 is 两, perhaps after a blank.
fn begins_counted_by_two(rest: &str) -> bool
    ensures { result ≡ begins_counted_by_two (chars rest.now) }
{
    let word = without_blank(rest);
    begins(CountedByTwo, word) && !begins_no_measure(word)
}

// Whether a number is 2 alone.
fn is_two_alone(written: &str) -> bool
    ensures { result ≡ is_two_alone (chars written.now) }
{
    is_exactly(&['2'], written) || is_exactly(&['２'], written) || is_exactly(&['二'], written)
}

/// Whether a number between these texts is 2 alone, and is 两 before a measure word or a measure, as
/// in 2个 and 2kg.
pub fn is_counted_two(before: &str, written: &str, rest: &str) -> bool
    ensures { result
        ≡ is_counted_two (in_front before.now) (chars written.now) (chars rest.now) }
{
    is_two_alone(written)
        && !ends_ordinal(before)
        && (begins_counted_by_two(rest) || begins_measure(rest))
}

// A minus sign in figures.
#[derive(Copy, Clone)]
struct FigureMinus;

impl CharTest for FigureMinus {
    ghost use Rattle.cn_core.specs.FigureCharacters.{is_figure_minus};

    ghost test = { λ _. is_figure_minus };

    fn passes(self, c: char) -> bool {
        is_figure_minus(c)
    }
}

// A sign of yuan.
#[derive(Copy, Clone)]
struct Currency;

impl CharTest for Currency {
    ghost use Rattle.cn_core.specs.FigureCharacters.{is_currency};

    ghost test = { λ _. is_currency };

    fn passes(self, c: char) -> bool {
        is_currency(c)
    }
}

// A link of a range.
#[derive(Copy, Clone)]
struct Link;

impl CharTest for Link {
    ghost use Rattle.cn_phrase.specs.Ranges.{is_link};

    ghost test = { λ _. is_link };

    fn passes(self, c: char) -> bool {
        is_link(c)
    }
}

// Whether an expression begins with a minus sign.
fn is_negative(written: &str) -> bool
    ensures { result ≡ is_negative (chars written.now) }
{
    begins(FigureMinus, written) || begins_with(&['负', '負'], written)
}

// An expression without a minus sign or 零下.
fn without_minus(written: &str) -> &str
    ensures { chars result.now ≡ without_minus (chars written.now) }
{
    if begins_with_two(&['零'], &['下'], written) {
        return without_first(without_first(written));
    }
    if is_negative(written) {
        without_first(written)
    } else {
        written
    }
}

// Whether a text begins with a measure of degrees.
fn begins_degrees(rest: &str) -> bool
    ensures { result ≡ begins_degrees (chars rest.now) }
{
    match measure_at(rest) {
        Some(measure) => is_degrees(measure.spoken),
        None => begins_with(&['度'], rest),
    }
}

// Whether a text begins with a number of degrees, without a sign.
fn is_number_of_degrees(text: &str) -> bool
    ensures { result ≡ is_number_of_degrees (chars text.now) }
{
    let (_, rest) = split_leading(OfFigures, text);
    begins(Figure, text) && begins_degrees(rest)
}

// Whether a text begins with a link to a number of degrees.
fn links_degrees(rest: &str) -> bool
    ensures { result ≡ links_degrees (chars rest.now) }
{
    let (_, other) = split_leading(FigureMinus, without_first(rest));
    begins(Link, rest) && is_number_of_degrees(other)
}

// Whether a number before a text, or the one to which it is linked, is one of degrees.
fn has_degrees(rest: &str) -> bool
    ensures { result ≡ has_degrees (chars rest.now) }
{
    begins_degrees(rest) || links_degrees(rest)
}

// Writes 零下.
fn put_below_zero<S: Sink>(sink: &mut S, voice: Voice) -> Result<(), S::Error>
    ensures { OnOk result
        (S.took sink.old sink.new (encode_utf8_all (word voice (codes "零下")))) }
{
    put_word(sink, voice, "零下")
}

/// Writes a spoken word of one character, which is given in the simplified script, in that of the
/// voice: 兩 for 两.
pub fn put_one<S: Sink>(sink: &mut S, voice: Voice, c: char) -> Result<(), S::Error>
    ensures { OnOk result (S.took sink.old sink.new (encode_utf8_all (word voice (c ∷ [])))) }
{
    put_char(sink, in_script(voice.variant, c))
}

// Writes what is said for a minus sign or 零下; nothing without one.
fn put_minus<S: Sink>(sink: &mut S, voice: Voice, written: &str, rest: &str) -> Result<(), S::Error>
    ensures { OnOk result (S.took sink.old sink.new
        (encode_utf8_all (minus_said voice (chars written.now) (chars rest.now)))) }
{
    if begins_with_two(&['零'], &['下'], written) {
        return put_below_zero(sink, voice);
    }
    if !is_negative(written) {
        return Ok(());
    }
    if has_degrees(rest) {
        put_below_zero(sink, voice)
    } else {
        put_one(sink, voice, '负')
    }
}

// An expression without its signs.
fn without_signs(written: &str) -> &str
    ensures { chars result.now ≡ without_signs (chars written.now) }
{
    let number = without_minus(written);
    if begins(Currency, number) {
        trimmed(without_first(number))
    } else {
        number
    }
}

// Whether a bar after a Han character, before a number that counts nothing, may be no minus sign: 歼-20.
fn is_after_bar(before: &str, written: &str, rest: &str) -> bool
    ensures { result ≡ is_after_bar (in_front before.now) (chars written.now) (chars rest.now) }
{
    begins_with(&['-'], written)
        && ends(Han, before)
        && !ends_with(
            &[
                '为', '為', '是', '约', '約', '达', '達', '到', '至', '于', '於', '得', '值', '温', '溫',
            ],
            before,
        )
        && all(Figure, without_first(written))
        && !begins_counted_by_two(rest)
        && measure_at(rest).is_none()
}

/// Whether an expression with a figure, between these texts, is spoken: it is a number, and no part
/// of a name, an address, a formula or a longer number. 86 in x86 is not, nor is 280 in 1 280.
pub fn is_expression_said(before: &str, written: &str, rest: &str) -> bool
    ensures { result
        ≡ is_expression_said (in_front before.now) (chars written.now) (chars rest.now) }
{
    is_number(without_signs(written))
        && !is_joined_before(before, written, rest)
        && !is_joined_after(written, after_measure(rest))
        && !may_be_short_year(written, rest)
        && !is_after_bar(before, written, rest)
}

/// Writes 两, or in the traditional script 兩.
pub fn put_two<S: Sink>(sink: &mut S, voice: Voice) -> Result<(), S::Error>
    ensures { OnOk result (S.took sink.old sink.new (encode_utf8_all (two voice))) }
{
    put_one(sink, voice, '两')
}

// Whether a number is a discount of two figures, neither of them 0: 95折.
fn is_discount(written: &str, rest: &str) -> bool
    ensures { result ≡ is_discount (chars written.now) (chars rest.now) }
{
    has_count(2, written)
        && !begins_zero(written)
        && !begins_zero(without_first(written))
        && begins_with(&['折'], rest)
}

// Writes what is said for an expression that is no 2 alone, without its signs.
fn put_number_or_digits<S: Sink>(
    sink: &mut S,
    voice: Voice,
    before: &str,
    written: &str,
    rest: &str,
) -> Result<(), S::Error>
    ensures { OnOk result (S.took sink.old sink.new (encode_utf8_all
        (number_or_digits voice (in_front before.now) (chars written.now) (chars rest.now)))) }
{
    if is_discount(written, rest) {
        put_one_by_one(sink, voice, written)
    } else {
        put_number(sink, voice, before, without_signs(written))
    }
}

// Writes what is said for an expression between these texts without its signs.
fn put_counted<S: Sink>(
    sink: &mut S,
    voice: Voice,
    before: &str,
    written: &str,
    rest: &str,
) -> Result<(), S::Error>
    ensures { OnOk result (S.took sink.old sink.new (encode_utf8_all
        (counted_said voice (in_front before.now) (chars written.now) (chars rest.now)))) }
{
    if is_counted_two(before, written, rest) {
        put_two(sink, voice)
    } else {
        put_number_or_digits(sink, voice, before, written, rest)
    }
}

// Writes 元 after an expression with a sign of yuan; nothing without one.
fn put_yuan<S: Sink>(sink: &mut S, voice: Voice, written: &str) -> Result<(), S::Error>
    ensures { OnOk result
        (S.took sink.old sink.new (encode_utf8_all (yuan_said voice (chars written.now)))) }
{
    if begins(Currency, without_minus(written)) {
        put_one(sink, voice, '元')
    } else {
        Ok(())
    }
}

/// Writes an expression between these texts as it is spoken, and the measure after it: 两千克 for 2 in
/// 2kg. `is_expression_said` says whether it is spoken.
pub fn put_expression<S: Sink>(
    sink: &mut S,
    voice: Voice,
    before: &str,
    written: &str,
    rest: &str,
) -> Result<(), S::Error>
    ensures { OnOk result (S.took sink.old sink.new (encode_utf8_all
        (expression_said voice (in_front before.now) (chars written.now) (chars rest.now)))) }
{
    put_minus(sink, voice, written, rest)?;
    put_counted(sink, voice, before, written, rest)?;
    put_yuan(sink, voice, written)?;
    put_measure(sink, voice, rest)
}
