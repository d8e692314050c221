// Why a text is not an amount, a date or figures, and how to repair it.
use crate::characters::char_at;
use crate::message::Message;
use crate::texts::Sentence;
use crate::{Input, Language};
use cn_core::{digit_of, is_comma, is_figure, is_figure_point, is_share_sign, unit_of};
use cn_figures::{FiguresError, signed_yuan_to_fen};
use cn_grammar::{Expected, Hint, Repair};
use cn_judge::count_chars;
use cn_replace::Sink;

// The sentence for a repair, which inserts a character at the end of the text or elsewhere.
fn repair_sentence(repair: Repair, is_at_end: bool) -> Sentence {
    match repair {
        Repair::Insert(_) if is_at_end => Sentence::MissingAtEnd,
        Repair::Insert(_) => Sentence::Missing,
        Repair::Replace(_) => Sentence::Replace,
        Repair::Delete => Sentence::Delete,
    }
}

fn put_repair<S: Sink>(
    sink: &mut S,
    language: Language,
    text: &str,
    hint: Hint,
) -> Result<(), S::Error> {
    let message = Message {
        new: match hint.repair {
            Repair::Insert(new) | Repair::Replace(new) => Some(new),
            Repair::Delete => None,
        },
        ..Message::new(language, text, hint.char_index)
    };
    message.put(
        sink,
        repair_sentence(hint.repair, hint.char_index >= count_chars(text)),
    )?;
    match hint.repair {
        Repair::Replace(_) if is_small(char_at(text, hint.char_index)) => {
            message.put(sink, Sentence::AllCapitals)
        }
        _ => Ok(()),
    }
}

// Whether a character is a digit or a unit of everyday numerals, or a figure.
fn is_small(there: &str) -> bool {
    let is_numeral = matches!(
        there,
        "〇" | "一" | "二" | "三" | "四" | "五" | "六" | "七" | "八" | "九" | "十" | "百" | "千"
    );
    is_numeral || there.chars().any(|c| is_figure(c))
}

// Whether a text is a day from 29 to 31, which not every month has.
fn is_late_day(text: &str) -> bool {
    matches!(
        text,
        "贰拾玖日" | "貳拾玖日" | "叁拾日" | "參拾日" | "零叁拾日" | "零參拾日" | "叁拾壹日" | "參拾壹日"
    )
}

// Whether a text is a date of which only the day does not exist, given how much of it begins a date.
fn has_no_such_day(text: &str, char_index: usize) -> bool {
    match text.split_once('月') {
        Some((before, day)) => is_late_day(day) && count_chars(before) < char_index,
        None => false,
    }
}

// Whether a text is a date with a wrong digit after 壹拾 in its month, given how much of it begins a
// date.
fn has_no_such_month(text: &str, char_index: usize) -> bool {
    match text.split_once('月') {
        Some((before, _)) => {
            before.contains("年壹拾") && count_chars(before) == char_index.saturating_add(1)
        }
        None => false,
    }
}

// Whether a character is a sign that an amount below zero begins with.
fn is_sign(there: &str) -> bool {
    matches!(there, "负" | "負" | "-" | "−" | "－")
}

// Whether figures have a comma, or a second point.
fn are_grouped(text: &str) -> bool {
    text.chars().any(|c| is_comma(c)) || text.chars().filter(|c| is_figure_point(*c)).count() > 1
}

// Whether a character is one that figures have, or the text ends.
fn is_of_figures(there: &str) -> bool {
    let is_known = |c: char| is_figure(c) || is_comma(c) || is_figure_point(c);
    there.is_empty() || there.chars().any(is_known)
}

// Whether 0 is the only figure that may come next: two decimals are written.
fn has_both_decimals(expected: &Expected) -> bool {
    let next = expected.characters.as_slice();
    next.contains(&'0') && !next.contains(&'1')
}

// Whether a character is a unit below 万.
fn is_unit(there: &str) -> bool {
    matches!(there, "拾" | "佰" | "仟")
}

// Whether a digit comes directly before a place.
fn is_after_digit(text: &str, char_index: usize) -> bool {
    match char_index.checked_sub(1) {
        Some(before) => char_at(text, before)
            .chars()
            .any(|c| matches!(digit_of(c), Some(1..=9))),
        None => false,
    }
}

// Whether so many characters of a text end before its year does.
fn is_in_year(text: &str, char_index: usize) -> bool {
    match text.split_once('年') {
        Some((year, _)) => char_index < count_chars(year),
        None => false,
    }
}

// What a person should know about a date that is wrong at a place.
fn date_advice(text: &str, char_index: usize, there: &str) -> Sentence {
    if is_unit(there) && is_in_year(text, char_index) {
        Sentence::YearDigits
    } else if has_no_such_day(text, char_index) {
        Sentence::NoSuchDay
    } else if has_no_such_month(text, char_index) {
        Sentence::NoSuchMonth
    } else {
        Sentence::Example
    }
}

// What a person should know about a sign that is wrong at a place. In figures only a last - is meant
// as one.
fn sign_advice(input: Input, text: &str, char_index: usize) -> Option<Sentence> {
    match input {
        Input::Amount | Input::TypedAmount => Some(Sentence::NoSign),
        Input::Figures if char_index.saturating_add(1) < count_chars(text) => None,
        _ => Some(Sentence::SignFirst),
    }
}

// Whether a character after figures multiplies or divides them, as in 15k, 15万 and 15%.
fn is_multiple(there: &str) -> bool {
    there.chars().any(|c| c.is_ascii_alphabetic() || is_share_sign(c) || unit_of(c).is_some())
}

// What a person should know about figures that are wrong at a place.
fn figures_advice(text: &str, expected: &Expected, there: &str) -> Option<Sentence> {
    if are_grouped(text) && is_of_figures(there) {
        Some(Sentence::Commas)
    } else if has_both_decimals(expected) && there.chars().any(|c| is_figure(c)) {
        Some(Sentence::TwoDecimals)
    } else if !expected.may_end {
        Some(Sentence::Example)
    } else if is_multiple(there) {
        Some(Sentence::InFull)
    } else {
        None
    }
}

// What a person should know besides what may come next; `None` if that is enough.
fn advice(input: Input, text: &str, expected: &Expected, there: &str) -> Option<Sentence> {
    if is_sign(there) {
        if let Some(sentence) = sign_advice(input, text, expected.char_index) {
            return Some(sentence);
        }
    }
    match input {
        Input::Figures => figures_advice(text, expected, there),
        Input::Date => Some(date_advice(text, expected.char_index, there)),
        _ if expected.may_end => None,
        _ if is_unit(there) && is_after_digit(text, expected.char_index) => {
            Some(Sentence::UnitOrder)
        }
        _ => Some(Sentence::Example),
    }
}

// Whether a message lists what may come next: not if advice says it, or if only a 0 that adds nothing
// may come.
fn lists_next(expected: &Expected, advice: Option<Sentence>) -> bool {
    matches!(advice, None | Some(Sentence::Example))
        && !expected.characters.as_slice().is_empty()
        && !has_both_decimals(expected)
}

// Writes that a text is wrong at a place, or not finished, what may come next, and advice.
fn put_expected<S: Sink>(
    sink: &mut S,
    input: Input,
    message: &Message<'_>,
    expected: &Expected,
    there: &str,
) -> Result<(), S::Error> {
    let advice = advice(input, message.text, expected, there);
    let (first, next) = if !there.is_empty() {
        (Sentence::Wrong, Sentence::Expected)
    } else if message.text.is_empty() {
        (Sentence::Empty, Sentence::Begins)
    } else {
        (Sentence::Unfinished, Sentence::GoesOn)
    };
    message.put(sink, first)?;
    if expected.may_end && advice.is_none() {
        message.put(sink, Sentence::Complete)?;
    }
    if lists_next(expected, advice) {
        message.put(sink, next)?;
    }
    match advice {
        Some(sentence) => message.put(sink, sentence),
        None => Ok(()),
    }
}

// Writes that figures of an amount are too large, if they are.
fn put_too_large<S: Sink>(
    sink: &mut S,
    input: Input,
    language: Language,
    text: &str,
) -> Result<(), S::Error> {
    match (input, signed_yuan_to_fen(text)) {
        (Input::Figures, Err(FiguresError::TooLarge)) => {
            Message::new(language, text, 0).put(sink, Sentence::AmountTooLarge)
        }
        _ => Ok(()),
    }
}

// No contract: tests/rows/messages.tsv tests the wording.
/// Writes why a text is not an input, in a language: the repair if there is one, otherwise the wrong
/// character and what may be there. Nothing is written for a text that the reader of the input
/// reads.
///
/// ```text
/// put_input_message(&mut sink, Input::Amount, Language::Simplified, "壹佰贰元整")
///     // 第3个字“贰”前缺“零”。
/// ```
pub fn put_input_message<S: Sink>(
    sink: &mut S,
    input: Input,
    language: Language,
    text: &str,
) -> Result<(), S::Error> {
    if let Some(hint) = input.repair(text) {
        return put_repair(sink, language, text, hint);
    }
    let expected = input.expected(text);
    let there = char_at(text, expected.char_index);
    if there.is_empty() && expected.may_end {
        return put_too_large(sink, input, language, text);
    }
    let message = Message {
        next: expected.characters.as_slice(),
        example: input.example(language, text),
        ..Message::new(language, text, expected.char_index)
    };
    put_expected(sink, input, &message, &expected, there)
}
