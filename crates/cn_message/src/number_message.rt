// Why a text is not a number or a quantity.
use crate::Language;
use crate::characters::{char_after, char_at};
use crate::message::Message;
use crate::texts::Sentence;
use cn_core::{ChineseCountMethod, digit_of, unit_of};
use cn_dynamic::{IntegerType, Way, explain_as, read_as};
use cn_judge::{ChineseToNumberError, NumeralFault, byte_index, count_chars};
use cn_quantity::{MisreadFault, QuantityFault, chinese_to_quantity, explain_quantity};
use cn_replace::Sink;

// The place of a refusal; 0 if it has none.
fn place_of(error: ChineseToNumberError) -> usize {
    match error {
        ChineseToNumberError::ChineseNumberIncorrect { char_index } => char_index,
        _ => 0,
    }
}

fn numeral_sentence(fault: NumeralFault) -> Sentence {
    match fault {
        NumeralFault::Empty => Sentence::NoNumber,
        NumeralFault::TooLarge => Sentence::TooLarge,
        NumeralFault::TooSmall => Sentence::TooSmall,
        NumeralFault::Start => Sentence::NoDigitBefore,
        NumeralFault::Character => Sentence::NotOfNumerals,
        NumeralFault::Digits => Sentence::NoUnitBetween,
        NumeralFault::Units => Sentence::UnitsTogether,
        NumeralFault::Ge => Sentence::GeAlone,
        NumeralFault::Groups => Sentence::UnitAgain,
    }
}

fn misread_sentence(fault: MisreadFault) -> Sentence {
    match fault {
        MisreadFault::BareTen => Sentence::OneMissing,
        MisreadFault::RepeatedTen => Sentence::AfterTen,
        MisreadFault::AfterZero => Sentence::AfterZero,
        MisreadFault::Weight => Sentence::Weight,
        MisreadFault::TwoReadings => Sentence::TwoReadings,
        MisreadFault::LeftOutZero => Sentence::ZeroMissing,
    }
}

fn quantity_sentence(fault: QuantityFault) -> Sentence {
    match fault {
        QuantityFault::Numeral(fault) => numeral_sentence(fault),
        QuantityFault::Misread(fault) => misread_sentence(fault),
        QuantityFault::Denominator => Sentence::NoDenominator,
    }
}

// Whether a character is followed by the same one.
fn is_doubled(text: &str, char_index: usize) -> bool {
    char_at(text, char_index) == char_after(text, char_index)
}

// The sentence for a fault at a place. In a text of plain digits every other character is wrong.
fn sentence_by(way: Way, fault: NumeralFault, text: &str, char_index: usize) -> Sentence {
    match (way, fault) {
        (Way::Digits, NumeralFault::Character) => Sentence::NotADigit,
        (_, NumeralFault::Units) if is_doubled(text, char_index) => Sentence::WrittenTwice,
        _ => numeral_sentence(fault),
    }
}

// No contract: tests/rows/messages.tsv tests the wording.
/// Writes why a text is not read in a way as a number of a type, in a language. Nothing is written
/// for a text that is read.
///
/// ```text
/// put_number_message(&mut sink, IntegerType::U32, Way::Units(Low), Language::Simplified, "一百角")
///     // 第3个字“角”不是数字用字。
/// ```
pub fn put_number_message<S: Sink>(
    sink: &mut S,
    integer: IntegerType,
    way: Way,
    language: Language,
    text: &str,
) -> Result<(), S::Error> {
    match (read_as(integer, way, text), explain_as(integer, way, text)) {
        (Err(error), Some(fault)) => {
            let place = place_of(error);
            let sentence = sentence_by(way, fault, text, place);
            Message::new(language, text, place).put(sink, sentence)
        }
        _ => Ok(()),
    }
}

// The character that is probably meant, and how many characters come before its place.
fn meant(text: &str, char_index: usize) -> Option<(usize, char)> {
    let before = char_index.checked_sub(1)?;
    match (char_at(text, before), char_at(text, char_index)) {
        ("份", "之") => Some((before, '分')),
        (_, "w" | "W") => Some((char_index, '万')),
        (numeral, "." | "．") if is_numeral(numeral) => Some((char_index, '点')),
        _ => None,
    }
}

// Whether a character is a digit or a unit of numerals, and not a figure.
fn is_numeral(character: &str) -> bool {
    character
        .chars()
        .any(|c| digit_of(c).is_some() || unit_of(c).is_some())
}

// Whether the only point of a text is at a place, and not the second one.
fn is_first_point(text: &str, char_index: usize) -> bool {
    let before = text.get(..byte_index(text, char_index)).unwrap_or("");
    !before.chars().any(|c| matches!(c, '点' | '點' | '.' | '．'))
}

// The sentence for a character that cannot be in a quantity where it is.
fn wrong_sentence(text: &str, char_index: usize) -> Sentence {
    let is_last = char_index.saturating_add(1) == count_chars(text);
    match char_at(text, char_index) {
        "之" if is_last => Sentence::NumberMissingAtEnd,
        "%" | "％" | "‰" if is_last || is_doubled(text, char_index) => Sentence::Delete,
        "点" | "點" if is_first_point(text, char_index) => Sentence::DigitsAfterPoint,
        "点" | "點" | "." | "．" if !is_first_point(text, char_index) => Sentence::SecondPoint,
        _ => Sentence::Wrong,
    }
}

// Writes why a text is not a quantity, at a place.
fn put_quantity_fault<S: Sink>(
    sink: &mut S,
    language: Language,
    text: &str,
    char_index: usize,
    fault: QuantityFault,
) -> Result<(), S::Error> {
    let message = Message::new(language, text, char_index);
    if fault != QuantityFault::Numeral(NumeralFault::Character) {
        return message.put(sink, quantity_sentence(fault));
    }
    match meant(text, char_index) {
        Some((place, new)) => {
            let message = Message {
                new: Some(new),
                ..Message::new(language, text, place)
            };
            message.put(sink, Sentence::Replace)
        }
        None => message.put(sink, wrong_sentence(text, char_index)),
    }
}

// No contract: tests/rows/messages.tsv tests the wording.
/// Writes why a text is not read by a method as a quantity, in a language. Nothing is written for a
/// text that is read.
pub fn put_quantity_message<S: Sink>(
    sink: &mut S,
    method: ChineseCountMethod,
    language: Language,
    text: &str,
) -> Result<(), S::Error> {
    match (
        chinese_to_quantity(text, method),
        explain_quantity(text, method),
    ) {
        (Err(error), Some(fault)) => {
            put_quantity_fault(sink, language, text, place_of(error), fault)
        }
        _ => Ok(()),
    }
}
