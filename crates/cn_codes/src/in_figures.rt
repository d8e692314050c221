// A code of Chinese characters in figures.
ghost use Rattle.std.specs.Prelude.{◌≡◌, [], chars, is_some, unwrap_or, IfOk, OnOk};
ghost use Rattle.cn_find.specs.Expressions.{is_han};
ghost use Rattle.cn_find.specs.Spans.{in_front};
ghost use Rattle.cn_codes.specs.CodesInFigures.{begins_addressed, begins_measured, begins_unit, begins_unmeasured, characters_of, code_character, code_characters, code_text, figure, is_alone, is_building, is_key, is_measured, is_single, single_text, ten_text, tens_characters};

use crate::digits::{Chinese, is_chinese, value_of};
use crate::signs::{Bar, Point};
use crate::tens::Ten;
use crate::words::{begins_any, without_first};
use cn_core::{digit_of, split_first_char};
use cn_find::{begins_with, ends_with, is_one_of};
use cn_replace::Sink;
use cn_replace::pieces::{CharTest, Figure, Letter, any, begins, ends, split_leading};

// The figure of a digit.
fn figure(digit: u8) -> &'static str
    ensures { result.now ≡ figure digit }
{
    match digit {
        0 => "0",
        1 => "1",
        2 => "2",
        3 => "3",
        4 => "4",
        5 => "5",
        6 => "6",
        7 => "7",
        8 => "8",
        9 => "9",
        _ => "",
    }
}

// Writes a character of a code: a digit as its figure, a point as `.`, and a bar as `-`.
#[tactic(auto, unfolding(crate::specs::CodesInFigures::code_character))]
fn put_character<S: Sink>(sink: &mut S, c: char) -> Result<(), S::Error>
    ensures { OnOk result (S.took sink.old sink.new (code_character c)) }
{
    if is_chinese(c) {
        return sink.put(figure(value_of(c)));
    }
    if Point.passes(c) {
        return sink.put(".");
    }
    if Bar.passes(c) {
        return sink.put("-");
    }
    let mut room = [0; 4];
    sink.put(c.encode_utf8(&mut room))
}

// Writes the characters of a code.
fn put_characters<S: Sink>(sink: &mut S, written: &str) -> Result<(), S::Error>
    ensures { OnOk result (S.took sink.old sink.new (code_characters (chars written.now))) }
{
    let mut rest = written;
    'putting: while let Some((c, others)) = split_first_char(rest) {
        put_character(sink, c)?;
        rest = others;
    }
    Ok(())
}

// The figures of 十 between digits: 十七 is 17, 二十 is 20.
fn ten_text(tens: &str, ones: &str) -> &'static str
    ensures { result.now ≡ ten_text (chars tens.now) (chars ones.now) }
{
    match (begins(Chinese, tens), begins(Chinese, ones)) {
        (true, true) => "",
        (true, false) => "0",
        (false, true) => "1",
        (false, false) => "10",
    }
}

// Writes a code whose first number is written with 十, with these digits before it.
fn put_tens<S: Sink>(sink: &mut S, tens: &str, ones: &str) -> Result<(), S::Error>
    ensures { OnOk result
        (S.took sink.old sink.new (tens_characters (chars tens.now) (chars ones.now))) }
{
    put_characters(sink, tens)?;
    sink.put(ten_text(tens, ones))?;
    put_characters(sink, ones)
}

// Writes a code in figures.
fn put_figures<S: Sink>(sink: &mut S, written: &str) -> Result<(), S::Error>
    ensures { OnOk result (S.took sink.old sink.new (characters_of (chars written.now))) }
{
    let (tens, rest) = split_leading(Chinese, written);
    if begins(Ten, rest) {
        put_tens(sink, tens, without_first(rest))
    } else {
        put_characters(sink, written)
    }
}

/// Writes the new text of a code, and returns whether it has one: a code with figures stays, and nothing is
/// written.
pub fn put_code<S: Sink>(sink: &mut S, written: &str) -> Result<bool, S::Error>
    ensures variant { IfOk result (λ is_new. is_new ≡ is_some (code_text (chars written.now))) }
    ensures text { OnOk result
        (S.took sink.old sink.new (unwrap_or (code_text (chars written.now)) [])) }
{
    if any(Figure, written) {
        return Ok(false);
    }
    put_figures(sink, written)?;
    Ok(true)
}

// Whether a text begins with a word before which one digit belongs to an address.
fn begins_addressed(text: &str) -> bool
    ensures { result ≡ begins_addressed (chars text.now) }
{
    begins_any(
        &[
            "号楼",
            "號樓",
            "号院",
            "號院",
            "号线",
            "號線",
            "号柜",
            "號櫃",
            "号门",
            "號門",
            "号口",
            "號口",
            "号出口",
            "號出口",
            "号窗",
            "號窗",
            "号机",
            "號機",
            "号桌",
            "號桌",
            "号床",
            "號床",
            "号车",
            "號車",
            "单元",
            "單元",
            "站台",
            "站臺",
            "检票口",
            "檢票口",
            "登机口",
            "登機口",
            "诊室",
            "診室",
        ],
        text,
    )
}

// Whether a text begins with a measure.
fn begins_unit(text: &str) -> bool
    ensures { result ≡ begins_unit (chars text.now) }
{
    begins_any(
        &[
            "分钟",
            "分鐘",
            "公里",
            "公斤",
            "斤",
            "千克",
            "厘米",
            "毫米",
            "毫升",
            "毫克",
            "平方米",
            "摄氏度",
            "攝氏度",
        ],
        text,
    )
}

// Whether a text begins with a word that begins as a measure does: 三分钟热度.
fn begins_unmeasured(text: &str) -> bool
    ensures { result ≡ begins_unmeasured (chars text.now) }
{
    begins_any(&["分钟热度", "分鐘熱度", "斤斗"], text)
}

// Whether a text begins with a measure before which one digit is written.
#[tactic(auto, unfolding(crate::specs::CodesInFigures::begins_measured))]
fn begins_measured(text: &str) -> bool
    ensures { result ≡ begins_measured (chars text.now) }
{
    begins_unit(text) && !begins_unmeasured(text)
}

// Whether a text begins with 栋; after 一 a digit follows.
#[tactic(auto, unfolding(crate::specs::CodesInFigures::is_building))]
fn is_building(c: char, text: &str) -> bool
    ensures { result ≡ is_building c (chars text.now) }
{
    begins_with(&['栋', '棟', '幢'], text)
        && (!is_one_of(&['一'], c) || begins(Chinese, without_first(text)))
}

/// A Han character.
#[derive(Copy, Clone)]
pub struct Han;

impl CharTest for Han {
    ghost test = { λ _. is_han };

    #[tactic(auto, unfolding(cn_find::specs::Expressions::is_han))]
    fn passes(self, c: char) -> bool {
        matches!(c, '\u{4e00}'..='\u{9fff}')
    }
}

// Whether a digit between these texts is a key: 按一.
#[tactic(auto, unfolding(crate::specs::CodesInFigures::is_key))]
fn is_key(before: &str, text: &str) -> bool
    ensures { result ≡ is_key (in_front before.now) (chars text.now) }
{
    ends_with(&['按'], before) && !begins(Han, text)
}

// Whether a character is a Chinese digit, or 十, that is no part of a longer number or a name.
#[tactic(auto, unfolding(crate::specs::CodesInFigures::is_alone))]
fn is_alone(before: &str, c: char) -> bool
    ensures { result ≡ is_alone (in_front before.now) c }
{
    is_one_of(
        &['零', '一', '二', '两', '三', '四', '五', '六', '七', '八', '九', '十'],
        c,
    ) && !ends(Letter, before)
        && !ends_with(&['第', '这', '這', '那', '每', '几', '幾'], before)
}

// Whether a measure is after a digit that may be more than one.
#[tactic(auto, unfolding(crate::specs::CodesInFigures::is_measured))]
fn is_measured(c: char, text: &str) -> bool
    ensures { result ≡ is_measured c (chars text.now) }
{
    !is_one_of(&['零', '一'], c) && begins_measured(text)
}

/// Whether a single digit between these texts is written in figures.
pub fn is_single(before: &str, c: char, text: &str) -> bool
    ensures { result ≡ is_single (in_front before.now) c (chars text.now) }
{
    is_alone(before, c)
        && (begins_addressed(text)
            || is_building(c, text)
            || is_key(before, text)
            || is_measured(c, text))
}

/// The new text of a single digit: 10 for 十.
#[tactic(auto, unfolding(crate::specs::CodesInFigures::single_text))]
pub fn single_text(c: char) -> &'static str
    ensures { result.now ≡ single_text c }
{
    if is_one_of(&['十'], c) {
        return "10";
    }
    match digit_of(c) {
        Some(digit) => figure(digit),
        None => "",
    }
}
