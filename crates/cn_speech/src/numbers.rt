// Numbers in figures as they are spoken.
ghost use Rattle.std.specs.Prelude.{◌≡◌, ◌∷◌, ◌++◌, ◌<◌, ◌^◌, [], chars, codes, drop, encode_utf8_all, IfSome, OnOk};
ghost use Rattle.cn_find.specs.Spans.{in_front};
ghost use Rattle.cn_replace.specs.Pieces.{after_leading, leading};
ghost use Rattle.cn_speech.specs.Numbers.{as_written, begins_great_two, begins_two, character_before, character_said, decimals_said, digit_said, figures_said, gap_said, has_gap, hundreds_said, is_all, is_great, is_myriad, is_number, is_of_figures, is_of_whole, is_ordinal, is_zero_figure, number_said, one_by_one, per_mille_said, percent_said, plain, share_said, small_number, stretch_said, trimmed, two_or_whole, whole_number_said, whole_part_said, whole_said, with_two};
ghost use Rattle.cn_speech.specs.Private.{next_value};
ghost use Rattle.cn_speech.specs.Voice.{two, word};

use crate::Voice;
use crate::expressions::{put_one, put_two};
use crate::voice::put_char;
use cn_codes::counted::without_blank;
use cn_codes::digits::{has_at_least, has_at_most, has_count, is_at_most, value_of};
use cn_codes::words::without_first;
use cn_core::{
    ChineseCase, ChineseCountMethod, digit_char, is_comma, is_figure, is_figure_point,
    is_per_mille, is_percent, is_share_sign, split_first_char,
};
use cn_find::{begins_with, is_one_of};
use cn_replace::Sink;
use cn_replace::numbers::{put_same, quantity_of};
use cn_replace::pieces::{CharTest, Figure, any, begins, ends, split_leading, split_nearest};
use cn_spell::{ROOM_BYTES, put_chinese};

// What is spoken as a number is below this.
const LIMIT: u64 = 10_000_000_000_000_000;

/// Writes a figure by the name of its digit: 五 for 5.
pub fn put_digit<S: Sink>(sink: &mut S, voice: Voice, c: char) -> Result<(), S::Error>
    ensures { OnOk result
        (S.took sink.old sink.new (encode_utf8_all (digit_said voice c ∷ []))) }
{
    put_char(
        sink,
        digit_char(voice.variant, ChineseCase::Lower, value_of(c)),
    )
}

/// Writes figures one by one, as in a year: 二零二六 for 2026.
pub fn put_one_by_one<S: Sink>(sink: &mut S, voice: Voice, digits: &str) -> Result<(), S::Error>
    ensures { OnOk result (S.took sink.old sink.new
        (encode_utf8_all (one_by_one voice (chars digits.now)))) }
{
    let mut rest = digits;
    'putting: while let Some((c, others)) = split_first_char(rest) {
        put_digit(sink, voice, c)?;
        rest = others;
    }
    Ok(())
}

// The spelling of a number below 10^16.
fn spell(room: &mut [u8; ROOM_BYTES], voice: Voice, n: u64) -> &str
    requires { n < 10 ^ 16 }
    ensures bytes { result.now ≡ encode_utf8_all (whole_said voice n) }
    ensures text { chars result.now ≡ whole_said voice n }
{
    match put_chinese(room, voice.variant, ChineseCase::Lower, voice.method, n) {
        Ok(text) => text,
        Err(_) => unreachable!(),
    }
}

/// Writes a number below 10^16 by its spelling: 二十 for 20.
pub fn put_whole<S: Sink>(sink: &mut S, voice: Voice, n: u64) -> Result<(), S::Error>
    requires { n < 10 ^ 16 }
    ensures { OnOk result (S.took sink.old sink.new (encode_utf8_all (whole_said voice n))) }
{
    let mut room = [0; ROOM_BYTES];
    sink.put(spell(&mut room, voice, n))
}

// The value of a number with another of its characters, which may be a comma.
fn next_value(value: u64, c: char) -> u64
    requires { value < 10 ^ 16 }
    ensures { result ≡ next_value value c }
{
    if is_comma(c) {
        value
    } else {
        10 * value + u64::from(value_of(c))
    }
}

/// The number of figures, with commas or without, if it is below 10^16.
pub fn small_number(figures: &str) -> Option<u64>
    ensures value { result ≡ small_number (chars figures.now) }
    ensures bound { IfSome result (λ n. n < 10 ^ 16) }
{
    let mut value: u64 = 0;
    let mut rest = figures;
    'reading: while let Some((c, others)) = split_first_char(rest) {
        value = next_value(value, c);
        if value >= LIMIT {
            return None;
        }
        rest = others;
    }
    Some(value)
}

// Writes a digit by its name, and nothing for a comma.
fn put_unless_comma<S: Sink>(sink: &mut S, voice: Voice, c: char) -> Result<(), S::Error>
    ensures { OnOk result (S.took sink.old sink.new
        (encode_utf8_all (one_by_one voice (plain (c ∷ []))))) }
{
    if is_comma(c) {
        Ok(())
    } else {
        put_digit(sink, voice, c)
    }
}

// Writes the digits among figures and commas one by one.
fn put_without_commas<S: Sink>(sink: &mut S, voice: Voice, figures: &str) -> Result<(), S::Error>
    ensures { OnOk result (S.took sink.old sink.new
        (encode_utf8_all (one_by_one voice (plain (chars figures.now))))) }
{
    let mut rest = figures;
    'putting: while let Some((c, others)) = split_first_char(rest) {
        put_unless_comma(sink, voice, c)?;
        rest = others;
    }
    Ok(())
}

/// Writes figures, with commas or without, as a number; from 10^16 on each is a digit.
pub fn put_figures<S: Sink>(sink: &mut S, voice: Voice, figures: &str) -> Result<(), S::Error>
    ensures { OnOk result (S.took sink.old sink.new
        (encode_utf8_all (figures_said voice (chars figures.now)))) }
{
    match small_number(figures) {
        Some(n) => put_whole(sink, voice, n),
        None => put_without_commas(sink, voice, figures),
    }
}

// ---- A number with its decimals

/// A figure or a comma.
#[derive(Copy, Clone)]
pub struct OfWhole;

impl CharTest for OfWhole {
    ghost test = { λ _. is_of_whole };

    fn passes(self, c: char) -> bool {
        is_figure(c) || is_comma(c)
    }
}

/// A figure, a comma or a point.
#[derive(Copy, Clone)]
pub struct OfFigures;

impl CharTest for OfFigures {
    ghost test = { λ _. is_of_figures };

    fn passes(self, c: char) -> bool {
        OfWhole.passes(c) || is_figure_point(c)
    }
}

// A character before which 两 is said.
#[derive(Copy, Clone)]
struct Great;

impl CharTest for Great {
    ghost test = { λ _. is_great };

    #[tactic(auto, unfolding(crate::specs::Numbers::is_great))]
    fn passes(self, c: char) -> bool {
        is_one_of(&['千', '万', '萬', '亿', '億'], c)
    }
}

/// The character of ordinal numbers: 第.
#[derive(Copy, Clone)]
pub struct Ordinal;

impl CharTest for Ordinal {
    ghost test = { λ _. is_ordinal };

    #[tactic(auto, unfolding(crate::specs::Numbers::is_ordinal))]
    fn passes(self, c: char) -> bool {
        is_one_of(&['第'], c)
    }
}

#[tactic(auto, unfolding(crate::specs::Numbers::begins_two))]
fn begins_two(said: &str) -> bool
    ensures { result ≡ begins_two (chars said.now) }
{
    begins_with(&['二'], said)
}

// Whether 二 is at the start before 千, 万 or 亿.
fn begins_great_two(said: &str, rest: &str) -> bool
    ensures { result ≡ begins_great_two (chars said.now) (chars rest.now) }
{
    begins_two(said)
        && (begins(Great, without_first(said)) || (has_count(1, said) && begins(Great, rest)))
}

// Writes 两 for the first character of what is said.
fn put_two_for_first<S: Sink>(sink: &mut S, voice: Voice, said: &str) -> Result<(), S::Error>
    ensures { OnOk result (S.took sink.old sink.new
        (encode_utf8_all (two voice ++ drop 1 (chars said.now)))) }
{
    put_two(sink, voice)?;
    put_same(sink, without_first(said))
}

// Writes what is said for a number, with 两 for such a 二, but not after 第.
fn put_with_two<S: Sink>(
    sink: &mut S,
    voice: Voice,
    previous: char,
    said: &str,
    rest: &str,
) -> Result<(), S::Error>
    ensures { OnOk result (S.took sink.old sink.new
        (encode_utf8_all (with_two voice previous (chars said.now) (chars rest.now)))) }
{
    if begins_great_two(said, rest) && !Ordinal.passes(previous) {
        put_two_for_first(sink, voice, said)
    } else {
        put_same(sink, said)
    }
}

/// Writes a point: 点, or in the traditional script 點.
pub fn put_point<S: Sink>(sink: &mut S, voice: Voice) -> Result<(), S::Error>
    ensures { OnOk result (S.took sink.old sink.new
        (encode_utf8_all (word voice (codes "点")))) }
{
    put_one(sink, voice, '点')
}

// Writes a point and the digits after it.
fn put_point_and<S: Sink>(sink: &mut S, voice: Voice, decimals: &str) -> Result<(), S::Error>
    ensures { OnOk result (S.took sink.old sink.new (encode_utf8_all
        (word voice (codes "点") ++ one_by_one voice (chars decimals.now)))) }
{
    put_point(sink, voice)?;
    put_one_by_one(sink, voice, decimals)
}

// Writes the decimals after a point, with that.
fn put_decimals<S: Sink>(sink: &mut S, voice: Voice, text: &str) -> Result<(), S::Error>
    ensures { OnOk result (S.took sink.old sink.new
        (encode_utf8_all (decimals_said voice (chars text.now)))) }
{
    match split_first_char(text) {
        Some((_, decimals)) => put_point_and(sink, voice, decimals),
        None => Ok(()),
    }
}

#[tactic(auto, unfolding(crate::specs::Numbers::is_myriad))]
fn is_myriad(c: char) -> bool
    ensures { result ≡ is_myriad c }
{
    is_one_of(&['万', '萬', '亿', '億'], c)
}

// Whether 零 is said before two or three figures.
fn has_gap(previous: char, whole: &str) -> bool
    ensures { result ≡ has_gap previous (chars whole.now) }
{
    is_myriad(previous) && has_at_least(2, whole) && has_at_most(3, whole)
}

// Writes 零 before such figures.
fn put_gap<S: Sink>(sink: &mut S, previous: char, whole: &str) -> Result<(), S::Error>
    ensures { OnOk result (S.took sink.old sink.new
        (encode_utf8_all (gap_said previous (chars whole.now)))) }
{
    if has_gap(previous, whole) {
        put_char(sink, '零')
    } else {
        Ok(())
    }
}

// Writes a number after a character and before a text, with 两.
fn put_two_or_whole<S: Sink>(
    sink: &mut S,
    voice: Voice,
    previous: char,
    rest: &str,
    n: u64,
) -> Result<(), S::Error>
    requires { n < 10 ^ 16 }
    ensures { OnOk result (S.took sink.old sink.new
        (encode_utf8_all (two_or_whole voice previous (chars rest.now) n))) }
{
    let mut room = [0; ROOM_BYTES];
    put_with_two(sink, voice, previous, spell(&mut room, voice, n), rest)
}

// Writes the number of a whole part after a character and before a text, with 两.
fn put_whole_number<S: Sink>(
    sink: &mut S,
    voice: Voice,
    previous: char,
    whole: &str,
    rest: &str,
) -> Result<(), S::Error>
    ensures { OnOk result (S.took sink.old sink.new (encode_utf8_all
        (whole_number_said voice previous (chars whole.now) (chars rest.now)))) }
{
    match small_number(whole) {
        Some(n) => put_two_or_whole(sink, voice, previous, rest, n),
        None => put_without_commas(sink, voice, whole),
    }
}

// Writes a whole part after a character and before a text, with 两 and 零.
fn put_whole_part<S: Sink>(
    sink: &mut S,
    voice: Voice,
    previous: char,
    whole: &str,
    rest: &str,
) -> Result<(), S::Error>
    ensures { OnOk result (S.took sink.old sink.new
        (encode_utf8_all (whole_part_said voice previous (chars whole.now) (chars rest.now)))) }
{
    put_gap(sink, previous, whole)?;
    put_whole_number(sink, voice, previous, whole, without_blank(rest))
}

// Writes the decimals with which a text begins.
fn put_decimals_of<S: Sink>(sink: &mut S, voice: Voice, text: &str) -> Result<(), S::Error>
    ensures { OnOk result (S.took sink.old sink.new
        (encode_utf8_all (decimals_said voice (leading is_of_figures (chars text.now))))) }
{
    let (decimals, _) = split_leading(OfFigures, text);
    put_decimals(sink, voice, decimals)
}

// Writes the stretch of figures with which a text begins.
fn put_stretch<S: Sink>(
    sink: &mut S,
    voice: Voice,
    previous: char,
    text: &str,
) -> Result<(), S::Error>
    ensures { OnOk result (S.took sink.old sink.new
        (encode_utf8_all (stretch_said voice previous (chars text.now)))) }
{
    let (whole, rest) = split_leading(OfWhole, text);
    put_whole_part(sink, voice, previous, whole, rest)?;
    put_decimals_of(sink, voice, rest)
}

// ---- An expression

// Writes the character with which a text begins, before the rest of that.
fn put_character<S: Sink>(
    sink: &mut S,
    voice: Voice,
    previous: char,
    c: char,
    text: &str,
    rest: &str,
) -> Result<(), S::Error>
    requires { chars text.now ≡ c ∷ chars rest.now }
    ensures { OnOk result (S.took sink.old sink.new
        (encode_utf8_all (character_said voice previous c (chars rest.now)))) }
{
    if OfFigures.passes(c) {
        if OfFigures.passes(previous) {
            return Ok(());
        }
        return put_stretch(sink, voice, previous, text);
    }
    if c == ' ' || is_share_sign(c) {
        return Ok(());
    }
    put_char(sink, c)
}

// Writes a text after a character, as it is written.
fn put_as_written<S: Sink>(
    sink: &mut S,
    voice: Voice,
    before: char,
    text: &str,
) -> Result<(), S::Error>
    ensures { OnOk result (S.took sink.old sink.new
        (encode_utf8_all (as_written voice before (chars text.now)))) }
{
    let mut previous = before;
    let mut rest = text;
    'putting: while let Some((c, others)) = split_first_char(rest) {
        put_character(sink, voice, previous, c, rest, others)?;
        previous = c;
        rest = others;
    }
    Ok(())
}

// A percent sign.
#[derive(Copy, Clone)]
struct Percent;

impl CharTest for Percent {
    ghost use Rattle.cn_core.specs.FigureCharacters.{is_percent};

    ghost test = { λ _. is_percent };

    fn passes(self, c: char) -> bool {
        is_percent(c)
    }
}

// A permille sign.
#[derive(Copy, Clone)]
struct PerMille;

impl CharTest for PerMille {
    ghost use Rattle.cn_core.specs.FigureCharacters.{is_per_mille};

    ghost test = { λ _. is_per_mille };

    fn passes(self, c: char) -> bool {
        is_per_mille(c)
    }
}

/// The sign of a share: `%` or `‰`.
#[derive(Copy, Clone)]
pub struct ShareSign;

impl CharTest for ShareSign {
    ghost use Rattle.cn_core.specs.FigureCharacters.{is_share_sign};

    ghost test = { λ _. is_share_sign };

    fn passes(self, c: char) -> bool {
        is_share_sign(c)
    }
}

// Whether a text begins with 100%.
fn is_all(text: &str) -> bool
    ensures { result ≡ is_all (chars text.now) }
{
    let (figures, rest) = split_leading(Figure, text);
    is_at_most(100, figures) && !is_at_most(99, figures) && begins(Percent, without_blank(rest))
}

fn put_hundredths<S: Sink>(sink: &mut S) -> Result<(), S::Error>
    ensures { OnOk result (S.took sink.old sink.new (encode_utf8_all (codes "百分之"))) }
{
    sink.put("百分之")
}

fn put_thousandths<S: Sink>(sink: &mut S) -> Result<(), S::Error>
    ensures { OnOk result (S.took sink.old sink.new (encode_utf8_all (codes "千分之"))) }
{
    sink.put("千分之")
}

// Writes the number of a percentage: 百 for 100%.
fn put_hundreds<S: Sink>(sink: &mut S, voice: Voice, text: &str) -> Result<(), S::Error>
    ensures { OnOk result (S.took sink.old sink.new
        (encode_utf8_all (hundreds_said voice (chars text.now)))) }
{
    if is_all(text) {
        put_char(sink, '百')
    } else {
        put_as_written(sink, voice, ' ', text)
    }
}

// Writes a percentage.
fn put_percent<S: Sink>(sink: &mut S, voice: Voice, text: &str) -> Result<(), S::Error>
    ensures { OnOk result (S.took sink.old sink.new
        (encode_utf8_all (percent_said voice (chars text.now)))) }
{
    put_hundredths(sink)?;
    put_hundreds(sink, voice, text)
}

// Writes a share of 1000.
fn put_per_mille<S: Sink>(sink: &mut S, voice: Voice, text: &str) -> Result<(), S::Error>
    ensures { OnOk result (S.took sink.old sink.new
        (encode_utf8_all (per_mille_said voice (chars text.now)))) }
{
    put_thousandths(sink)?;
    put_as_written(sink, voice, ' ', text)
}

// Writes a share.
fn put_share<S: Sink>(sink: &mut S, voice: Voice, text: &str) -> Result<(), S::Error>
    ensures { OnOk result (S.took sink.old sink.new
        (encode_utf8_all (share_said voice (chars text.now)))) }
{
    if any(PerMille, text) {
        put_per_mille(sink, voice, text)
    } else {
        put_percent(sink, voice, text)
    }
}

// 第 if it is directly before a number, else a blank.
fn character_before(before: &str) -> char
    ensures { result ≡ character_before (in_front before.now) }
{
    if ends(Ordinal, before) { '第' } else { ' ' }
}

/// Whether a text is a number; what is refused is not spoken.
pub fn is_number(text: &str) -> bool
    ensures { result ≡ is_number (chars text.now) }
{
    quantity_of(ChineseCountMethod::TenThousand, text).is_ok()
}

/// Writes an expression in figures, without its minus sign, after another text: 百分之五 for 5%.
pub fn put_number<S: Sink>(
    sink: &mut S,
    voice: Voice,
    before: &str,
    text: &str,
) -> Result<(), S::Error>
    ensures { OnOk result (S.took sink.old sink.new
        (encode_utf8_all (number_said voice (in_front before.now) (chars text.now)))) }
{
    if any(ShareSign, text) {
        put_share(sink, voice, text)
    } else {
        put_as_written(sink, voice, character_before(before), text)
    }
}

// ---- Sums of money

// A point between figures.
#[derive(Copy, Clone)]
struct FigurePoint;

impl CharTest for FigurePoint {
    ghost use Rattle.cn_core.specs.FigureCharacters.{is_figure_point};

    ghost test = { λ _. is_figure_point };

    fn passes(self, c: char) -> bool {
        is_figure_point(c)
    }
}

// A zero in figures.
#[derive(Copy, Clone)]
struct ZeroFigure;

impl CharTest for ZeroFigure {
    ghost test = { λ _. is_zero_figure };

    fn passes(self, c: char) -> bool {
        value_of(c) == 0 && is_figure(c)
    }
}

// The text before the characters at its end that pass.
fn without_last<T: CharTest>(test: T, text: &str) -> &str
    ensures { in_front result.now ≡ after_leading (T.test test) (in_front text.now) }
{
    let mut front = text;
    'passing: while let Some((c, others)) = split_nearest(front) {
        if !test.passes(c) {
            break;
        }
        front = others;
    }
    front
}

/// Figures without the zeros at the end of their decimals, and without their point if none are left:
/// 3.5 for 3.50, and 3 for 3.00.
pub fn trimmed(figures: &str) -> &str
    ensures { chars result.now ≡ trimmed (chars figures.now) }
{
    if any(FigurePoint, figures) {
        without_last(FigurePoint, without_last(ZeroFigure, figures))
    } else {
        figures
    }
}
