// Why a text is not a quantity.
ghost use Rattle.std.specs.Prelude.{◌≡◌, ℕ, ◌+◌, ◌^◌, ◌<◌, ◌≤◌, List, length, Some, Result, option_map};
ghost use Rattle.cn_core.specs.Characters.{rank};
ghost use Rattle.cn_core.specs.Judging.{judge};
ghost use Rattle.cn_core.specs.Refusal.{Refusal};
ghost use Rattle.cn_core.specs.Text.{marks_of, text_of};
ghost use Rattle.cn_judge.specs.Answer.{answer_of, refusal_of};
ghost use Rattle.cn_judge.specs.Piece.{answer_at};
ghost use Rattle.cn_quantity.specs.Private.{SplitsAtMisread};
ghost use Rattle.cn_quantity.specs.Reason.{divisor_fault, fraction_fault, is_later, misread_fault, misread_rule_between, number_fault, numeral_fault, part_fault, placeless_fault, quantity_fault, refused_fault, signed_fault, simple_fault, sum_fault, whole_fault, whole_part};
ghost use Rattle.cn_quantity.specs.WholeNumber.{reader_answer};

use crate::decimal::split_decimal;
use crate::misread::{Misread, MisreadFault, first_misread};
use crate::number::{judge_divisor, judge_number, judge_part};
use crate::quantity::{chinese_to_quantity, split_front};
use crate::ratio::{split_fraction, split_negated, split_share};
use crate::whole_number::{judge_reader, judge_sum, misread_error};
use cn_core::{ChineseCountMethod, Unit};
use cn_judge::{ChineseToNumberError, NumeralFault, judge_text, reason_of};

/// Why a text is not a quantity.
#[derive(Debug, Copy, Clone, Eq, PartialEq)]
pub enum QuantityFault {
    /// The text is empty, or a number in it is too large or too small; or the character at fault
    /// breaks a rule of numerals in the part that is read as a whole number, as 百 does in `百%` and
    /// 個 in `三個分之一`.
    Numeral(NumeralFault),
    /// The character at fault is misread: 二 in `一亿二千`.
    Misread(MisreadFault),
    /// The denominator is not a whole number above 0: `零分之一`.
    Denominator,
}

// The reason for an error that reports no character.
fn placeless_fault(error: ChineseToNumberError) -> Option<QuantityFault>
    ensures { result ≡ placeless_fault (refusal_of error) }
{
    let fault = match error {
        ChineseToNumberError::ChineseNumberEmpty => NumeralFault::Empty,
        ChineseToNumberError::ChineseNumberIncorrect { .. } => return None,
        ChineseToNumberError::Overflow => NumeralFault::TooLarge,
        ChineseToNumberError::Underflow => NumeralFault::TooSmall,
    };
    Some(QuantityFault::Numeral(fault))
}

// The reason in the answer of a reader of numerals to a text.
fn numeral_fault(text: &str, judged: Result<u128, ChineseToNumberError>) -> Option<QuantityFault>
    ensures { (answer : Result ℕ Refusal)
        → answer_of (λ n. n) judged ≡ answer_at 0 text.now answer
        → result ≡ numeral_fault (text_of text.now) answer }
{
    match judged {
        Ok(_) => None,
        Err(error) => Some(QuantityFault::Numeral(reason_of(text, error))),
    }
}

// The reason why the readers of numerals refuse a text.
fn reader_fault(method: ChineseCountMethod, text: &str) -> Option<QuantityFault>
    requires { length text.now < 2 ^ 64 }
    ensures { result
        ≡ numeral_fault (text_of text.now) (reader_answer method (text_of text.now)) }
{
    numeral_fault(text, judge_reader(method, 0, text))
}

// The reason why a text is not a numeral.
fn units_fault(method: ChineseCountMethod, text: &str) -> Option<QuantityFault>
    requires { length text.now < 2 ^ 64 }
    ensures { result
        ≡ numeral_fault (text_of text.now) (judge method (marks_of (text_of text.now))) }
{
    numeral_fault(text, judge_text(method, 0, text))
}

// The reason why a text and what follows it from a bare ten on have no sum.
fn sum_fault(method: ChineseCountMethod, unit: Unit, misread: Misread<'_>) -> Option<QuantityFault>
    requires { length misread.before.now + length misread.from.now < 2 ^ 64 }
    ensures { (bytes : List ℕ)
        → SplitsAtMisread bytes misread.entry.before.now misread.entry.from.now (option_map rank misread.entry.unit)
        → result ≡ sum_fault method (rank unit) (text_of misread.entry.before.now)
        (text_of misread.entry.from.now) }
{
    if let Some(fault) = units_fault(method, misread.before) {
        return Some(fault);
    }
    if let Some(fault) = units_fault(method, misread.from) {
        return Some(fault);
    }
    let Err(error) = judge_sum(method, 0, unit, misread) else {
        return None;
    };
    match placeless_fault(error) {
        Some(fault) => Some(fault),
        None => Some(QuantityFault::Misread(MisreadFault::BareTen)),
    }
}

// Whether a refusal is at a later place than another, or has no place.
fn is_later(error: ChineseToNumberError, other: ChineseToNumberError) -> bool
    ensures { result ≡ is_later (refusal_of error) (refusal_of other) }
{
    match (error, other) {
        (
            ChineseToNumberError::ChineseNumberIncorrect { char_index: one },
            ChineseToNumberError::ChineseNumberIncorrect { char_index: two },
        ) => one > two,
        _ => true,
    }
}

// The reason why a text with a misread character is refused.
fn refused_fault(method: ChineseCountMethod, text: &str, misread: Misread<'_>) -> QuantityFault
    requires whole { length text.now < 2 ^ 64 }
    requires parts { length misread.before.now + length misread.from.now < 2 ^ 64 }
    ensures { SplitsAtMisread text.now misread.entry.before.now misread.entry.from.now (option_map rank misread.entry.unit)
        → Some result ≡ refused_fault (text_of text.now) (reader_answer method (text_of text.now))
        (length (text_of misread.entry.before.now)) misread.entry.rule }
{
    let Err(error) = judge_reader(method, 0, text) else {
        return QuantityFault::Misread(misread.rule);
    };
    if is_later(error, misread_error(0, misread)) {
        QuantityFault::Numeral(reason_of(text, error))
    } else {
        QuantityFault::Misread(misread.rule)
    }
}

// The reason why a text is not a whole number, by its two parts at its first misread character.
fn misread_fault(
    method: ChineseCountMethod,
    text: &str,
    misread: Misread<'_>,
) -> Option<QuantityFault>
    requires whole { length text.now < 2 ^ 64 }
    requires parts { length misread.before.now + length misread.from.now < 2 ^ 64 }
    requires rule { misread.rule
        ≡ misread_rule_between (text_of misread.before.now) (text_of misread.from.now) }
    ensures { SplitsAtMisread text.now misread.entry.before.now misread.entry.from.now (option_map rank misread.entry.unit)
        → result ≡ misread_fault method (text_of misread.entry.before.now)
        (text_of misread.entry.from.now) }
{
    let Some(unit) = misread.unit else {
        return Some(refused_fault(method, text, misread));
    };
    match first_misread(misread.from) {
        None => sum_fault(method, unit, misread),
        Some(_) => Some(refused_fault(method, text, misread)),
    }
}

// The reason why a text is not a whole number.
fn whole_fault(method: ChineseCountMethod, text: &str) -> Option<QuantityFault>
    requires { length text.now < 2 ^ 64 }
    ensures { result ≡ whole_fault method (text_of text.now) }
{
    match first_misread(text) {
        None => reader_fault(method, text),
        Some(misread) => misread_fault(method, text, misread),
    }
}

// The part of a number that is read as a whole number.
fn whole_part(text: &str) -> &str
    ensures part { text_of result.now ≡ whole_part (text_of text.now) }
    ensures within { length result.now ≤ length text.now }
{
    match split_decimal(text) {
        Some(parts) => parts.whole,
        None => text,
    }
}

// The reason why a text is not a number.
fn number_fault(method: ChineseCountMethod, text: &str) -> Option<QuantityFault>
    requires { length text.now < 2 ^ 64 }
    ensures { result ≡ number_fault method (text_of text.now) }
{
    let Err(error) = judge_number(method, 0, text) else {
        return None;
    };
    match placeless_fault(error) {
        Some(fault) => Some(fault),
        None => whole_fault(method, whole_part(text)),
    }
}

// The reason why a text is not a part of a fraction.
fn part_fault(method: ChineseCountMethod, text: &str) -> Option<QuantityFault>
    requires { length text.now < 2 ^ 64 }
    ensures { result ≡ part_fault method (text_of text.now) }
{
    let Err(error) = judge_part(method, 0, text) else {
        return None;
    };
    match placeless_fault(error) {
        Some(fault) => Some(fault),
        None => number_fault(method, text),
    }
}

// The reason why a text is not a denominator.
fn divisor_fault(method: ChineseCountMethod, text: &str) -> Option<QuantityFault>
    requires { length text.now < 2 ^ 64 }
    ensures { result ≡ divisor_fault method (text_of text.now) }
{
    let Err(error) = judge_divisor(method, 0, text) else {
        return None;
    };
    if let Some(fault) = placeless_fault(error) {
        return Some(fault);
    }
    match part_fault(method, text) {
        Some(fault) => Some(fault),
        None => Some(QuantityFault::Denominator),
    }
}

// The reason why two texts are not the parts of a fraction.
fn fraction_fault(method: ChineseCountMethod, divisor: &str, over: &str) -> Option<QuantityFault>
    requires divisor { length divisor.now < 2 ^ 64 }
    requires over { length over.now < 2 ^ 64 }
    ensures { result ≡ fraction_fault method (text_of divisor.now) (text_of over.now) }
{
    match divisor_fault(method, divisor) {
        Some(fault) => Some(fault),
        None => part_fault(method, over),
    }
}

// The reason why a text without sign is refused at a character.
fn simple_fault(method: ChineseCountMethod, text: &str) -> Option<QuantityFault>
    requires { length text.now < 2 ^ 64 }
    ensures { result ≡ simple_fault method (text_of text.now) }
{
    if let Some(bar) = split_fraction(text) {
        return fraction_fault(method, bar.divisor, bar.behind);
    }
    match split_share(text) {
        Some((before, _)) => number_fault(method, before),
        None => number_fault(method, text),
    }
}

// The reason why a string is refused at a character.
fn signed_fault(method: ChineseCountMethod, text: &str) -> Option<QuantityFault>
    ensures { result ≡ signed_fault method text.now }
{
    let after = split_front(text);
    if after.sign.is_none() {
        if let Some(bar) = split_negated(after.rest) {
            return fraction_fault(method, bar.divisor, bar.behind);
        }
    }
    simple_fault(method, after.rest)
}

/// Why a text is not a quantity, as `chinese_to_quantity` reads it.
///
/// ```text
/// explain_quantity("一亿二千", ChineseCountMethod::TenThousand)
/// is Some(QuantityFault::Misread(MisreadFault::LeftOutZero))
/// ```
///
/// `None` if the text is read as a quantity. The error of `chinese_to_quantity` has the place; the
/// reason is that of the part of the text that is refused.
pub fn explain_quantity(text: &str, method: ChineseCountMethod) -> Option<QuantityFault>
    ensures { result ≡ quantity_fault method text.now }
{
    let Err(error) = chinese_to_quantity(text, method) else {
        return None;
    };
    match placeless_fault(error) {
        Some(fault) => Some(fault),
        None => signed_fault(method, text),
    }
}
