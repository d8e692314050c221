// The parts of a text that have figures: those that are spoken, and those that are left.
ghost use Rattle.std.specs.Prelude.{◌≡◌, ◌++◌, ◌∷◌, chars, drop, encode_utf8_all, OnOk};
ghost use Rattle.std.specs.Option.{option_map};
ghost use Rattle.cn_codes.specs.Codes.{code_of};
ghost use Rattle.cn_find.specs.Spans.{in_front, text_before};
ghost use Rattle.cn_phrase.specs.Items.{item_of, rest_of};
ghost use Rattle.cn_phrase.specs.Suffix.{EndsWith};
ghost use Rattle.cn_speech.specs.Pairs.{said_of as pair_of};
ghost use Rattle.cn_speech.specs.SpokenParts.{IsPartWithin, IsWithin, after_sign, after_said, after_utterance, code_of_figures, code_part, currency_at, currency_name, is_item_spoken, is_of_currency, is_traditional, item_or_left, item_part, name_said, named, number_at, pair_part, part_at, part_of, part_text, rest_of_part, said_of, said_text, sign_word, signed_at, signed_text, utterance_of, utterance_text, with_sign};

use crate::codes::put_code;
use crate::items::{after_item, has_unit, is_item_said, is_of_day, put_item};
use crate::joined::has_figure;
use crate::money::follows_currency;
use crate::pairs::{SaidPair, pair_at, put_pair};
use crate::tail::{Tail, put_tail, tail_at};
use crate::voice::{Voice, put_char, put_word};
use cn_codes::Code;
use cn_codes::code::code_at;
use cn_codes::digits::has_at_least;
use cn_codes::words::without_last;
use cn_core::{ChineseVariant, split_first_char};
use cn_find::{Wanted, begins_with, text_before};
use cn_phrase::items::{Item, item_at};
use cn_replace::Sink;
use cn_replace::numbers::put_same;
use cn_replace::pieces::{Figure, Letter, before_rest, begins, ends};

/// What is spoken.
#[derive(Debug, Copy, Clone)]
pub enum Said<'a> {
    /// Two short runs of figures with a sign between.
    Pair(SaidPair<'a>),
    /// A code.
    Code(Code<'a>),
    /// A phrase, a sum of money, a range or an expression.
    Item(Item<'a>),
}

/// What is spoken, the name of a currency after it, or nothing, and a sign after that.
#[derive(Debug, Copy, Clone)]
pub struct Utterance<'a> {
    pub said: Said<'a>,
    pub name: &'static str,
    pub tail: Option<Tail<'a>>,
}

/// A part of a text.
#[derive(Debug, Copy, Clone)]
pub enum Part<'a> {
    /// It is spoken.
    Spoken(Utterance<'a>),
    /// It is spoken after a sign, for which this word is said.
    Signed(&'static str, Utterance<'a>),
    /// It is left, and this text is after it.
    Left(&'a str),
}

// The text after what is spoken.
fn after_said<'a>(said: Said<'a>) -> &'a str
    ensures { chars result.now ≡ after_said (said_of said.entry) }
{
    match said {
        Said::Pair(pair) => pair.rest,
        Said::Code(code) => code.rest,
        Said::Item(item) => after_item(item),
    }
}

// The text after an utterance.
fn after_utterance<'a>(utterance: Utterance<'a>) -> &'a str
    ensures { chars result.now ≡ after_utterance (utterance_of utterance.entry) }
{
    match utterance.tail {
        Some(tail) => tail.rest,
        None => after_said(utterance.said),
    }
}

impl<'a> Part<'a> {
    /// The text after the part.
    pub fn rest(self) -> &'a str
        ensures { chars result.now ≡ rest_of_part (part_of self.entry) }
    {
        match self {
            Part::Spoken(utterance) => after_utterance(utterance),
            Part::Signed(_, utterance) => after_utterance(utterance),
            Part::Left(rest) => rest,
        }
    }
}

// ---- Which part begins at a place

fn pair_part<'a>(pair: SaidPair<'a>) -> Part<'a>
    ensures { part_of result ≡ pair_part (pair_of pair.entry) }
{
    Part::Spoken(Utterance {
        said: Said::Pair(pair),
        name: "",
        tail: tail_at(false, false, pair.rest),
    })
}

fn code_part<'a>(code: Code<'a>) -> Part<'a>
    ensures { part_of result ≡ code_part (code_of code.entry) }
{
    Part::Spoken(Utterance {
        said: Said::Code(code),
        name: "",
        tail: tail_at(false, false, code.rest),
    })
}

fn item_part<'a>(item: Item<'a>) -> Part<'a>
    ensures { part_of result ≡ item_part (item_of item.entry) }
{
    Part::Spoken(Utterance {
        said: Said::Item(item),
        name: "",
        tail: tail_at(is_of_day(item), has_unit(item), after_item(item)),
    })
}

// Whether an item is spoken: it has a figure, and is not the number of another currency.
fn is_item_spoken(before: &str, text: &str, item: Item<'_>) -> bool
    requires { EndsWith (chars text.now) (rest_of (item_of item)) }
    ensures { result
        ≡ is_item_spoken (in_front before.now) (chars text.now) (item_of item.entry) }
{
    has_figure(before_rest(text, item.rest()))
        && !follows_currency(before)
        && is_item_said(before, text, item)
}

fn item_or_left<'a>(before: &str, text: &str, item: Item<'a>) -> Part<'a>
    requires { EndsWith (chars text.now) (rest_of (item_of item)) }
    ensures { part_of result
        ≡ item_or_left (in_front before.now) (chars text.now) (item_of item.entry) }
{
    if is_item_spoken(before, text, item) {
        item_part(item)
    } else {
        Part::Left(item.rest())
    }
}

// The code with which a text begins, if it begins with a figure.
fn code_of_figures<'a>(before: &str, text: &'a str) -> Option<Code<'a>>
    ensures { option_map code_of result
        ≡ code_of_figures (in_front before.now) (chars text.now) }
{
    if begins(Figure, text) {
        code_at(before, text)
    } else {
        None
    }
}

// The part that begins with a suffix of a text, without a sign before it.
fn number_at<'a>(whole: &'a str, ahead: &'a str, wanted: Wanted) -> Option<Part<'a>>
    requires { text_before whole.now ahead.now ++ ahead.now ≡ whole.now }
    ensures { option_map part_of result
        ≡ number_at wanted (in_front (text_before whole.now ahead.now)) (chars ahead.now) }
{
    let before = text_before(whole, ahead);
    if let Some(pair) = pair_at(before, ahead) {
        return Some(pair_part(pair));
    }
    if let Some(code) = code_of_figures(before, ahead) {
        return Some(code_part(code));
    }
    match item_at(whole, ahead, wanted) {
        Some(item) => Some(item_or_left(before, ahead, item)),
        None => None,
    }
}

// What is said for a sign before a number.
fn sign_word(c: char) -> Option<&'static str>
    ensures { option_map (λ word. chars word.now) result ≡ sign_word c }
{
    match c {
        '≥' => Some("大于等于"),
        '≤' => Some("小于等于"),
        '±' => Some("正负"),
        '≈' => Some("约等于"),
        _ => None,
    }
}

fn with_sign<'a>(sign: &'static str, part: Option<Part<'a>>) -> Option<Part<'a>>
    ensures { option_map part_of result
        ≡ with_sign (chars sign.now) (option_map part_of part.entry) }
{
    match part {
        Some(Part::Spoken(utterance)) => Some(Part::Signed(sign, utterance)),
        _ => None,
    }
}

// The name of a currency, which is said after its number.
fn currency_name(c: char) -> Option<&'static str>
    ensures { option_map (λ name. chars name.now) result ≡ currency_name c }
{
    match c {
        '$' | '＄' => Some("美元"),
        '€' => Some("欧元"),
        '£' => Some("英镑"),
        _ => None,
    }
}

// Whether an item after the sign of a currency is spoken: no letter is before the sign, as in HK$5.
fn is_of_currency(before: &str, text: &str, item: Item<'_>) -> bool
    requires { EndsWith (chars text.now) (rest_of (item_of item)) }
    ensures { result
        ≡ is_of_currency (in_front before.now) (chars text.now) (item_of item.entry) }
{
    let written = before_rest(text, item.rest());
    has_figure(written)
        && has_at_least(2, written)
        && !ends(Letter, without_last(before))
        && is_item_said(before, text, item)
}

fn named<'a>(name: &'static str, item: Item<'a>) -> Part<'a>
    ensures { part_of result ≡ named (chars name.now) (item_of item.entry) }
{
    Part::Signed(
        "",
        Utterance {
            said: Said::Item(item),
            name,
            tail: tail_at(false, true, after_item(item)),
        },
    )
}

// The part after the sign of a currency.
fn currency_at<'a>(
    whole: &'a str,
    ahead: &'a str,
    wanted: Wanted,
    name: &'static str,
) -> Option<Part<'a>>
    requires { text_before whole.now ahead.now ++ ahead.now ≡ whole.now }
    ensures { option_map part_of result ≡ currency_at wanted
        (in_front (text_before whole.now ahead.now)) (chars ahead.now) (chars name.now) }
{
    let item = item_at(whole, ahead, wanted)?;
    if is_of_currency(text_before(whole, ahead), ahead, item) {
        Some(named(name, item))
    } else {
        None
    }
}

// The part that begins with a sign.
fn signed_at<'a>(whole: &'a str, ahead: &'a str, wanted: Wanted) -> Option<Part<'a>>
    requires { text_before whole.now ahead.now ++ ahead.now ≡ whole.now }
    ensures { option_map part_of result
        ≡ signed_at wanted (in_front (text_before whole.now ahead.now)) (chars ahead.now) }
{
    let (c, number) = split_first_char(ahead)?;
    if let Some(sign) = sign_word(c) {
        return with_sign(sign, number_at(whole, number, wanted));
    }
    match currency_name(c) {
        Some(name) => currency_at(whole, number, wanted, name),
        None => None,
    }
}

/// The part that begins with a suffix of a text, if one does.
pub fn part_at<'a>(whole: &'a str, ahead: &'a str, wanted: Wanted) -> Option<Part<'a>>
    requires { text_before whole.now ahead.now ++ ahead.now ≡ whole.now }
    ensures { option_map part_of result
        ≡ part_at wanted (in_front (text_before whole.now ahead.now)) (chars ahead.now) }
{
    match number_at(whole, ahead, wanted) {
        Some(part) => Some(part),
        None => signed_at(whole, ahead, wanted),
    }
}

// ---- What is said

// Writes what is spoken, which begins with a text, after another text.
fn put_said<S: Sink>(
    sink: &mut S,
    voice: Voice,
    before: &str,
    text: &str,
    said: Said<'_>,
) -> Result<(), S::Error>
    requires { IsWithin (chars text.now) (said_of said) }
    ensures { OnOk result (S.took sink.old sink.new (encode_utf8_all
        (said_text voice (in_front before.now) (chars text.now) (said_of said.entry)))) }
{
    match said {
        Said::Pair(pair) => put_pair(sink, voice, pair),
        Said::Code(code) => put_code(sink, voice, text, code),
        Said::Item(item) => put_item(sink, voice, before, text, item),
    }
}

fn is_traditional(variant: ChineseVariant) -> bool
    ensures { result ≡ is_traditional variant }
{
    matches!(variant, ChineseVariant::Traditional)
}

// Writes the name of a currency, or nothing: in the traditional script `$` is the local dollar.
fn put_name<S: Sink>(sink: &mut S, voice: Voice, name: &str) -> Result<(), S::Error>
    ensures { OnOk result (S.took sink.old sink.new
        (encode_utf8_all (name_said voice (chars name.now)))) }
{
    if is_traditional(voice.variant) && begins_with(&['美'], name) {
        put_char(sink, '元')
    } else {
        put_word(sink, voice, name)
    }
}

// Writes an utterance, which begins with a text, after another text.
fn put_utterance<S: Sink>(
    sink: &mut S,
    voice: Voice,
    before: &str,
    text: &str,
    utterance: Utterance<'_>,
) -> Result<(), S::Error>
    requires { IsWithin (chars text.now) (said_of utterance.said) }
    ensures { OnOk result (S.took sink.old sink.new (encode_utf8_all (utterance_text voice
        (in_front before.now) (chars text.now) (utterance_of utterance.entry)))) }
{
    put_said(sink, voice, before, text, utterance.said)?;
    put_name(sink, voice, utterance.name)?;
    put_tail(sink, voice, utterance.tail)
}

// Writes an utterance after the sign with which a suffix of a text begins.
fn put_signed<S: Sink>(
    sink: &mut S,
    voice: Voice,
    whole: &str,
    ahead: &str,
    sign: &str,
    utterance: Utterance<'_>,
) -> Result<(), S::Error>
    requires ends { text_before whole.now ahead.now ++ ahead.now ≡ whole.now }
    requires within { IsWithin (drop 1 (chars ahead.now)) (said_of utterance.said) }
    ensures { OnOk result (S.took sink.old sink.new (encode_utf8_all (signed_text voice
        (in_front (text_before whole.now ahead.now)) (chars ahead.now) (chars sign.now)
        (utterance_of utterance.entry)))) }
{
    let Some((_, text)) = split_first_char(ahead) else {
        return Ok(());
    };
    put_word(sink, voice, sign)?;
    put_utterance(sink, voice, text_before(whole, text), text, utterance)
}

/// Writes what is said for a part with which a suffix of a text begins, or its characters, which are given,
/// if it is left.
pub fn put_part<S: Sink>(
    sink: &mut S,
    voice: Voice,
    whole: &str,
    ahead: &str,
    given: &str,
    part: Part<'_>,
) -> Result<(), S::Error>
    requires ends { text_before whole.now ahead.now ++ ahead.now ≡ whole.now }
    requires within { IsPartWithin (chars ahead.now) (part_of part) }
    ensures { OnOk result (S.took sink.old sink.new (encode_utf8_all (part_text voice
        (in_front (text_before whole.now ahead.now)) (chars ahead.now) (chars given.now)
        (part_of part.entry)))) }
{
    match part {
        Part::Spoken(utterance) => {
            put_utterance(sink, voice, text_before(whole, ahead), ahead, utterance)
        }
        Part::Signed(sign, utterance) => put_signed(sink, voice, whole, ahead, sign, utterance),
        Part::Left(_) => put_same(sink, given),
    }
}
