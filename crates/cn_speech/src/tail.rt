// Signs between numbers as they are spoken: links, × and /.
ghost use Rattle.std.specs.Prelude.{◌≡◌, chars, encode_utf8_all, OnOk};
ghost use Rattle.std.specs.Option.{option_map};
ghost use Rattle.cn_speech.specs.Tails.{after_unit, begins_day, begins_next_day, begins_number, is_each, is_bar, is_link_sign, is_times, is_to, known_said, sign_at, sign_of, tail_after_unit, tail_at, tail_of, tail_said, without_han};

use crate::meant::Counted;
use crate::numbers::OfFigures;
use crate::voice::{Voice, put_word};
use cn_codes::in_figures::Han;
use cn_codes::words::{begins_any, without_first};
use cn_core::split_first_char;
use cn_find::{begins_with, is_one_of};
use cn_phrase::range::is_link;
use cn_replace::Sink;
use cn_replace::numbers::put_same;
use cn_replace::pieces::{Figure, before_rest, begins, split_leading};

/// What is said for a sign, and the text after it.
#[derive(Debug, Copy, Clone)]
pub struct Sign<'a> {
    pub word: &'static str,
    pub rest: &'a str,
}

/// What is after a number: a unit that stays, or nothing, what is said for a sign, and the text after it.
#[derive(Debug, Copy, Clone)]
pub struct Tail<'a> {
    pub unit: &'a str,
    pub word: &'static str,
    pub rest: &'a str,
}

// Whether a text begins with a figure, or a minus sign and a figure.
#[tactic(auto, unfolding(crate::specs::Tails::begins_number))]
fn begins_number(text: &str) -> bool
    ensures { result ≡ begins_number (chars text.now) }
{
    begins(Figure, text) || (begins_with(&['-', '−'], text) && begins(Figure, without_first(text)))
}

// Whether a text begins with a word of the next day.
fn begins_day(text: &str) -> bool
    ensures { result ≡ begins_day (chars text.now) }
{
    begins_any(&["次日", "翌日", "当日", "當日", "当天", "當天", "第二天"], text)
}

// Whether a text begins with the next day, or a word of half a day.
fn begins_next_day(text: &str) -> bool
    ensures { result ≡ begins_next_day (chars text.now) }
{
    begins_day(text) || begins_with(&['早', '上', '中', '下', '晚', '凌', '深'], text)
}

#[tactic(auto, unfolding(crate::specs::Tails::is_bar))]
fn is_bar(c: char) -> bool
    ensures { result ≡ is_bar c }
{
    is_one_of(&['-', '－'], c)
}

// Whether a character is a link that is a sign.
#[tactic(auto, unfolding(crate::specs::Tails::is_link_sign))]
fn is_link_sign(c: char) -> bool
    ensures { result ≡ is_link_sign c }
{
    is_link(c) && !is_one_of(&['到', '至'], c)
}

// Whether a sign before a text is spoken 到.
fn is_to(of_day: bool, c: char, rest: &str) -> bool
    ensures { result ≡ is_to of_day c (chars rest.now) }
{
    is_link_sign(c)
        && ((begins_number(rest) && (of_day || !is_bar(c))) || (of_day && begins_next_day(rest)))
}

// Whether a sign before a text is spoken 乘.
#[tactic(auto, unfolding(crate::specs::Tails::is_times))]
fn is_times(c: char, rest: &str) -> bool
    ensures { result ≡ is_times c (chars rest.now) }
{
    let (_, after) = split_leading(OfFigures, rest);
    is_one_of(&['×'], c) && begins(Figure, rest) && !begins_with(&['='], after)
}

// Whether a sign before a text is spoken 每.
#[tactic(auto, unfolding(crate::specs::Tails::is_each))]
fn is_each(has_unit: bool, c: char, rest: &str) -> bool
    ensures { result ≡ is_each has_unit c (chars rest.now) }
{
    is_one_of(&['/'], c) && has_unit && begins(Counted, rest)
}

// The sign with which a text begins, after a date or a time or not, and after a unit or not.
fn sign_at(of_day: bool, has_unit: bool, text: &str) -> Option<Sign<'_>>
    ensures { option_map sign_of result ≡ sign_at of_day has_unit (chars text.now) }
{
    let (c, rest) = split_first_char(text)?;
    if is_to(of_day, c, rest) {
        Some(Sign { word: "到", rest })
    } else if is_times(c, rest) {
        Some(Sign { word: "乘", rest })
    } else if is_each(has_unit, c, rest) {
        Some(Sign { word: "每", rest })
    } else {
        None
    }
}

// A text without a Han character at its start.
fn without_han(text: &str) -> &str
    ensures { chars result.now ≡ without_han (chars text.now) }
{
    if begins(Han, text) {
        without_first(text)
    } else {
        text
    }
}

// The text after a measure word and at most two more Han characters.
fn after_unit(text: &str) -> &str
    ensures { chars result.now ≡ after_unit (chars text.now) }
{
    without_han(without_han(without_first(text)))
}

// The tail with which a text begins that has a unit.
fn tail_after_unit(of_day: bool, text: &str) -> Option<Tail<'_>>
    ensures { option_map tail_of result ≡ tail_after_unit of_day (chars text.now) }
{
    if !begins(Counted, text) {
        return None;
    }
    let rest = after_unit(text);
    let sign = sign_at(of_day, true, rest)?;
    Some(Tail {
        unit: before_rest(text, rest),
        word: sign.word,
        rest: sign.rest,
    })
}

/// The tail with which a text begins, after a date or a time or not, and after a unit or not.
pub fn tail_at(of_day: bool, has_unit: bool, text: &str) -> Option<Tail<'_>>
    ensures { option_map tail_of result ≡ tail_at of_day has_unit (chars text.now) }
{
    match sign_at(of_day, has_unit, text) {
        Some(sign) => Some(Tail {
            unit: "",
            word: sign.word,
            rest: sign.rest,
        }),
        None => tail_after_unit(of_day, text),
    }
}

// Writes what is said for a tail.
fn put_known<S: Sink>(sink: &mut S, voice: Voice, tail: Tail<'_>) -> Result<(), S::Error>
    ensures { OnOk result (S.took sink.old sink.new
        (encode_utf8_all (known_said voice (tail_of tail.entry)))) }
{
    put_same(sink, tail.unit)?;
    put_word(sink, voice, tail.word)
}

/// Writes what is said for a tail: its unit, and 到, 乘 or 每 for its sign; nothing without one.
pub fn put_tail<S: Sink>(sink: &mut S, voice: Voice, tail: Option<Tail<'_>>) -> Result<(), S::Error>
    ensures { OnOk result (S.took sink.old sink.new
        (encode_utf8_all (tail_said voice (option_map tail_of tail.entry)))) }
{
    match tail {
        Some(tail) => put_known(sink, voice, tail),
        None => Ok(()),
    }
}
