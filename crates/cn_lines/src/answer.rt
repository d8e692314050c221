// The answer to a line.
ghost use Rattle.std.specs.Prelude.{◌≡◌, ◌++◌, ◌≤◌, codes, length};
ghost use Rattle.std.specs.Fmt.{signed_decimal};
ghost use Rattle.chinese_number.specs.Answer.{answer_of, refusal_of};
ghost use Rattle.chinese_number.specs.Refusal.{incorrect_at, refusal_text};
ghost use Rattle.cn_lines.specs.Question.{read_question, print_question};
ghost use Rattle.cn_lines.specs.Answer.{Answers, AnswersAny, AnswersPrinting, reading_text};
ghost use Rattle.cn_dynamic.specs.IntegerTypes.{the_kind};
ghost use Rattle.cn_dynamic.specs.Ways.{stands_for};

use crate::question::{Printing, asked_printing, asked_reading, cut};
use chinese_number::{ChineseToNumberError, NumberToChineseError, ROOM_BYTES, Whole};
use cn_core::EndBuffer;
use cn_dynamic::{SignedMagnitude, put_by, read_as};
use cn_quantity_text::put_number;

/// The most bytes of an answer.
pub const MOST_ANSWER_BYTES: usize = 256;

// The answer to a line that is not a question.
const BAD_LINE: &str = "bad line";

// The answer with a number that was read.
fn number_answer(room: &mut [u8; MOST_ANSWER_BYTES], number: SignedMagnitude) -> &str
    ensures text { result.now ≡ codes "ok " ++ signed_decimal (stands_for number) }
    ensures bound { length result.now ≤ 256 }
{
    let mut text = EndBuffer::new(room);
    put_number(&mut text, number.magnitude);
    text.put(if number.is_negative() { "ok -" } else { "ok " });
    text.into_text()
}

// The answer with the position of a wrong character.
fn position_answer(room: &mut [u8; MOST_ANSWER_BYTES], char_index: usize) -> &str
    ensures text { result.now ≡ codes "err " ++ refusal_text (incorrect_at char_index) }
    ensures bound { length result.now ≤ 256 }
{
    let mut text = EndBuffer::new(room);
    text.put(")");
    put_number(&mut text, char_index as u128);
    text.put("err the chinese number is incorrect (position: ");
    text.into_text()
}

// The answer with the reason why a text is not a number.
fn refusal_answer(room: &mut [u8; MOST_ANSWER_BYTES], error: ChineseToNumberError) -> &str
    ensures text { result.now ≡ codes "err " ++ refusal_text (refusal_of error) }
    ensures bound { length result.now ≤ 256 }
{
    match error {
        ChineseToNumberError::ChineseNumberEmpty => "err a chinese number cannot be empty",
        ChineseToNumberError::ChineseNumberIncorrect { char_index } => {
            position_answer(room, char_index)
        }
        ChineseToNumberError::Overflow => "err number is too large",
        ChineseToNumberError::Underflow => "err number is too small",
    }
}

// The answer with the number that was read, or the error.
fn outcome_answer(
    room: &mut [u8; MOST_ANSWER_BYTES],
    outcome: Result<SignedMagnitude, ChineseToNumberError>,
) -> &str
    ensures text { result.now ≡ reading_text (answer_of stands_for outcome) }
    ensures bound { length result.now ≤ 256 }
{
    match outcome {
        Ok(number) => number_answer(room, number),
        Err(error) => refusal_answer(room, error),
    }
}

// Answers the fields after `read `.
fn answer_read<'a>(room: &'a mut [u8; MOST_ANSWER_BYTES], fields: &[u8]) -> &'a str
    ensures answers { AnswersAny (read_question fields.now) result.now }
    ensures bound { length result.now ≤ 256 }
{
    match asked_reading(fields) {
        Some(asked) => outcome_answer(room, read_as(asked.integer, asked.way, asked.text)),
        None => BAD_LINE,
    }
}

// The answer with the text of a number.
fn text_answer<'a>(room: &'a mut [u8; MOST_ANSWER_BYTES], number: &str) -> &'a str
    requires { length number.now ≤ 234 }
    ensures text { result.now ≡ codes "ok " ++ number.now }
    ensures bound { length result.now ≤ 256 }
{
    let mut text = EndBuffer::new(room);
    text.put(number);
    text.put("ok ");
    text.into_text()
}

// Answers with the text of a number as a number of a type, or the error.
fn answer_print_as<T: Whole>(room: &mut [u8; MOST_ANSWER_BYTES], asked: Printing) -> &str
    ensures answers { AnswersPrinting T.kind asked.way asked.variant asked.case
        (stands_for asked.number) result.now }
    ensures bound { length result.now ≤ 256 }
{
    let SignedMagnitude {
        negative,
        magnitude,
    } = asked.number;
    let Some(value) = T::from_magnitude(negative, magnitude) else {
        return BAD_LINE;
    };
    let mut scratch = [0; ROOM_BYTES];
    match put_by(&mut scratch, asked.way, asked.variant, asked.case, value) {
        Ok(text) => text_answer(room, text),
        Err(NumberToChineseError::Underflow) => "err number is too small",
        Err(_) => "err number is too large",
    }
}

// Answers with the text of a number, written as one of 128 bits, if its own type holds it, or the
// error.
fn answer_number(room: &mut [u8; MOST_ANSWER_BYTES], asked: Printing) -> &str
    ensures answers { AnswersPrinting (the_kind asked.integer) asked.way asked.variant asked.case
        (stands_for asked.number) result.now }
    ensures bound { length result.now ≤ 256 }
{
    if !asked.integer.holds(asked.number) {
        BAD_LINE
    } else if asked.number.negative {
        answer_print_as::<i128>(room, asked)
    } else {
        answer_print_as::<u128>(room, asked)
    }
}

// Answers the fields after `print `.
fn answer_print<'a>(room: &'a mut [u8; MOST_ANSWER_BYTES], fields: &[u8]) -> &'a str
    ensures answers { AnswersAny (print_question fields.now) result.now }
    ensures bound { length result.now ≤ 256 }
{
    match asked_printing(fields) {
        Some(asked) => answer_number(room, asked),
        None => BAD_LINE,
    }
}

/// The answer to a line, which is written into `room` where it is not a constant. It needs no other
/// memory.
///
/// ```text
/// let mut room = [0; MOST_ANSWER_BYTES];
/// answer(&mut room, b"print u8 naive traditional lower 123") // "ok 一二三"
/// ```
#[tactic(auto, unfolding(crate::specs::Answer::Answers, crate::specs::Question::question_of))]
pub fn answer<'a>(room: &'a mut [u8; MOST_ANSWER_BYTES], line: &[u8]) -> &'a str
    ensures answers { Answers line.now result.now }
    ensures bound { length result.now ≤ 256 }
{
    match cut(line) {
        Some((b"read", fields)) => answer_read(room, fields),
        Some((b"print", fields)) => answer_print(room, fields),
        _ => BAD_LINE,
    }
}
