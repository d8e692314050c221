// Ranges as they are spoken, with the measures after them.
ghost use Rattle.std.specs.Prelude.{◌≡◌, chars, codes, encode_utf8_all, OnOk};
ghost use Rattle.cn_find.specs.Spans.{in_front};
ghost use Rattle.cn_phrase.specs.Ranges.{ends_of};
ghost use Rattle.cn_speech.specs.SpokenRanges.{end_said, high_said, is_bar, is_from_hundred, is_measured, is_range_said, is_share_of_both, link_said, low_said, range_said, share_said, units_said, with_units};
ghost use Rattle.cn_speech.specs.Voice.{word};

use crate::expressions::{is_counted_two, put_measure, put_two};
use crate::joined::has_figure;
use crate::measures::measure_at;
use crate::numbers::{OfWhole, ShareSign, put_number};
use crate::voice::{Voice, put_char, put_word};
use cn_codes::counted::begins_counted;
use cn_codes::digits::is_at_most;
use cn_core::Unit;
use cn_find::is_one_of;
use cn_phrase::range::{Ends, range_of, shared_units};
use cn_replace::Sink;
use cn_replace::numbers::put_same;
use cn_replace::pieces::{UnitFrom, any, split_leading};

#[tactic(auto, unfolding(crate::specs::SpokenRanges::is_bar))]
fn is_bar(link: char) -> bool
    ensures { result ≡ is_bar link }
{
    is_one_of(&['-', '－', '–', '—'], link)
}

// Whether a unit from 百 up, a percent sign, a measure word or a measure is at the end of a range.
fn is_measured(high: &str, rest: &str) -> bool
    ensures { result ≡ is_measured (chars high.now) (chars rest.now) }
{
    any(UnitFrom { least: Unit::Bai }, high)
        || any(ShareSign, high)
        || begins_counted(rest)
        || measure_at(rest).is_some()
}

/// Whether a range is spoken: it has a value, and if its link is a bar, something is counted, as in
/// 2-3天; 1-2 alone may be anything.
pub fn is_range_said(ends: Ends<'_>) -> bool
    ensures { result ≡ is_range_said (ends_of ends.entry) }
{
    range_of(ends.low.text, ends.high.text).is_some()
        && (!is_bar(ends.link) || is_measured(ends.high.text, ends.high.after))
}

// Writes an end of a range after a text as it is spoken; one in Chinese characters stays.
fn put_end<S: Sink>(sink: &mut S, voice: Voice, before: &str, end: &str) -> Result<(), S::Error>
    ensures { OnOk result (S.took sink.old sink.new
        (encode_utf8_all (end_said voice (in_front before.now) (chars end.now)))) }
{
    if has_figure(end) {
        put_number(sink, voice, before, end)
    } else {
        put_same(sink, end)
    }
}

// Whether only the second end of a range has a percent sign.
fn is_share_of_both(low: &str, high: &str) -> bool
    ensures { result ≡ is_share_of_both (chars low.now) (chars high.now) }
{
    any(ShareSign, high) && !any(ShareSign, low)
}

// Whether the whole part of a number in figures is 100 or more.
fn is_from_hundred(number: &str) -> bool
    ensures { result ≡ is_from_hundred (chars number.now) }
{
    let (whole, _) = split_leading(OfWhole, number);
    !is_at_most(99, whole)
}

// Writes the units of the second end that are spoken after the first too.
fn put_units<S: Sink>(sink: &mut S, ends: Ends<'_>) -> Result<(), S::Error>
    ensures { OnOk result
        (S.took sink.old sink.new (encode_utf8_all (units_said (ends_of ends.entry)))) }
{
    if is_from_hundred(ends.low.text) {
        put_same(sink, shared_units(ends.low.text, ends.high.text))
    } else {
        Ok(())
    }
}

// Writes 百分之.
fn put_hundredths<S: Sink>(sink: &mut S, voice: Voice) -> Result<(), S::Error>
    ensures { OnOk result
        (S.took sink.old sink.new (encode_utf8_all (word voice (codes "百分之")))) }
{
    put_word(sink, voice, "百分之")
}

// Writes the first end of a range after a text as a percentage.
fn put_share<S: Sink>(sink: &mut S, voice: Voice, before: &str, low: &str) -> Result<(), S::Error>
    ensures { OnOk result (S.took sink.old sink.new
        (encode_utf8_all (share_said voice (in_front before.now) (chars low.now)))) }
{
    put_hundredths(sink, voice)?;
    put_end(sink, voice, before, low)
}

// Writes the first end of a range after a text, with its units.
fn put_with_units<S: Sink>(
    sink: &mut S,
    voice: Voice,
    before: &str,
    ends: Ends<'_>,
) -> Result<(), S::Error>
    ensures { OnOk result (S.took sink.old sink.new
        (encode_utf8_all (with_units voice (in_front before.now) (ends_of ends.entry)))) }
{
    put_end(sink, voice, before, ends.low.text)?;
    put_units(sink, ends)
}

// Writes the first end of a range after a text as it is spoken.
fn put_low<S: Sink>(
    sink: &mut S,
    voice: Voice,
    before: &str,
    ends: Ends<'_>,
) -> Result<(), S::Error>
    ensures { OnOk result (S.took sink.old sink.new
        (encode_utf8_all (low_said voice (in_front before.now) (ends_of ends.entry)))) }
{
    if is_share_of_both(ends.low.text, ends.high.text) {
        return put_share(sink, voice, before, ends.low.text);
    }
    if is_counted_two(before, ends.low.text, ends.high.after) {
        put_two(sink, voice)
    } else {
        put_with_units(sink, voice, before, ends)
    }
}

// Writes the second end of a range after a text as it is spoken.
#[tactic(auto, unfolding(crate::specs::SpokenRanges::high_said))]
fn put_high<S: Sink>(
    sink: &mut S,
    voice: Voice,
    before: &str,
    ends: Ends<'_>,
) -> Result<(), S::Error>
    ensures { OnOk result (S.took sink.old sink.new
        (encode_utf8_all (high_said voice (in_front before.now) (ends_of ends.entry)))) }
{
    if is_counted_two(before, ends.high.text, ends.high.after) {
        put_two(sink, voice)
    } else {
        put_end(sink, voice, before, ends.high.text)
    }
}

// Writes the link of a range as it is spoken: 到 for a sign.
fn put_link<S: Sink>(sink: &mut S, link: char) -> Result<(), S::Error>
    ensures { OnOk result (S.took sink.old sink.new (encode_utf8_all (link_said link))) }
{
    if is_one_of(&['至'], link) {
        put_char(sink, '至')
    } else {
        put_char(sink, '到')
    }
}

/// Writes a range after a text as it is spoken, and the measure after it: 两到三千克 for 2-3 in 2-3kg.
pub fn put_range<S: Sink>(
    sink: &mut S,
    voice: Voice,
    before: &str,
    ends: Ends<'_>,
) -> Result<(), S::Error>
    ensures { OnOk result (S.took sink.old sink.new
        (encode_utf8_all (range_said voice (in_front before.now) (ends_of ends.entry)))) }
{
    put_low(sink, voice, before, ends)?;
    put_link(sink, ends.link)?;
    put_high(sink, voice, before, ends)?;
    put_measure(sink, voice, ends.high.after)
}
