// Why a text is not a number: which rule of numerals the character at fault breaks.
ghost use Rattle.std.specs.Prelude.{◌≡◌, ℕ, ◌<◌, [], ◌∷◌, length, IfSome, MatchOption, option_map};
ghost use Rattle.cn_core.specs.Characters.{rank};
ghost use Rattle.cn_core.specs.Mark.{digit, mark_of};
ghost use Rattle.cn_core.specs.Numeral.{groups_strictly, starts_with_digit};
ghost use Rattle.cn_core.specs.Text.{marks_of, text_of};
ghost use Rattle.cn_judge.specs.Answer.{refusal_of};
ghost use Rattle.cn_judge.specs.Reason.{IsReason, broken_rule, naive_reason, reason_of, rule_broken_at, rule_broken_first, text_from};
ghost use Rattle.cn_judge.specs.Marked.{marked, unit_mark};
ghost use Rattle.cn_judge.specs.Private.Walk.{leading_rank};
ghost use Rattle.cn_judge.specs.declared.fault.NumeralFault.TheVariants.{Character};

use crate::ChineseToNumberError;
use crate::judge::read_number;
use crate::mark::{Mark, mark_of};
use crate::naive::read_naive;
use crate::text::{byte_index, split_first};
use crate::walk::{counts_a_unit, multiplies_upwards, separates_digits};
use cn_core::{ChineseCountMethod, Unit, Whole};

/// Why a text is not a number of a type: which rule of numerals the reported character breaks.
///
/// `docs/RULES.md` numbers the rules. The character that [`ChineseToNumberError`] reports is given
/// by its `char_index`.
#[derive(Debug, Copy, Clone, Eq, PartialEq)]
pub enum NumeralFault {
    /// Nothing is left to read: `負` as an `i8`.
    Empty,
    /// The number is greater than the greatest of the type: `二百五十六` as a `u8`.
    TooLarge,
    /// The number is less than the least of the type: `負二百五十六` as an `i8`.
    TooSmall,
    /// Rule 1: a numeral starts with a digit or 十. `百五` is at fault at 0.
    Start,
    /// Rule 2: each character is a digit or a unit, or a digit if the text is read as plain digits.
    /// `一角` is at fault at 1.
    Character,
    /// Rule 3: no nonzero digit is before a digit. `一二三` is at fault at 1.
    Digits,
    /// Rule 4: a unit before a unit is smaller than it, except 十 before 個. `一百十` is at fault at
    /// 1.
    Units,
    /// Rule 5: each 個 is before a greater unit. `三個` is at fault at 1.
    Ge,
    /// Rule 6: for each unit, the next one that is not smaller, if any, is greater. `一萬二萬` is at
    /// fault at 1.
    Groups,
}

// The mark of the first character that is not white space, and the text after it.
fn split_mark(text: &str) -> Option<(Mark, &str)>
    ensures parts { MatchOption result (text_of text.now ≡ [])
        (λ r. (c : ℕ) × (marked r.0 ≡ mark_of c) × (text_of text.now ≡ c ∷ text_of r.1.now)) }
    ensures shorter { IfSome result (λ r. length r.1.now < length text.now) }
{
    let first = split_first(text)?;
    Some((mark_of(first.character), first.rest))
}

// Whether a text begins with a digit.
fn begins_with_digit(text: &str) -> bool
    ensures { result ≡ starts_with_digit (marks_of (text_of text.now)) }
{
    matches!(split_mark(text), Some((Mark::Digit(_), _)))
}

// The unit that a text begins with, if it does.
fn leading_unit(text: &str) -> Option<Unit>
    ensures { option_map rank result ≡ leading_rank (marks_of (text_of text.now)) }
{
    match split_mark(text) {
        Some((Mark::Unit(unit), _)) => Some(unit),
        _ => None,
    }
}

// Rule 6: the first unit of the text after a unit that is not smaller than it is greater.
fn groups_strictly(unit: Unit, after: &str) -> bool
    ensures { result ≡ groups_strictly (unit_mark unit) (marks_of (text_of after.now)) }
{
    let mut ahead = after;
    'looking: while let Some((mark, rest)) = split_mark(ahead) {
        if let Mark::Unit(next) = mark {
            if next >= unit {
                return next > unit;
            }
        }
        ahead = rest;
    }
    true
}

// The rule that a digit breaks, given the text after it.
fn rule_of_digit(value: u8, after: &str) -> NumeralFault
    requires { value < 10 }
    ensures { result ≡ broken_rule (digit value) (marks_of (text_of after.now)) }
{
    if separates_digits(value, begins_with_digit(after)) {
        NumeralFault::Start
    } else {
        NumeralFault::Digits
    }
}

// The rule that a unit breaks, given the text after it.
fn rule_of_unit(unit: Unit, after: &str) -> NumeralFault
    ensures { result ≡ broken_rule (unit_mark unit) (marks_of (text_of after.now)) }
{
    let next = leading_unit(after);
    if !multiplies_upwards(unit, next) {
        NumeralFault::Units
    } else if !counts_a_unit(unit, next) {
        NumeralFault::Ge
    } else if !groups_strictly(unit, after) {
        NumeralFault::Groups
    } else {
        NumeralFault::Start
    }
}

// The rule that the first character of a text breaks.
fn rule_broken_first(text: &str) -> NumeralFault
    ensures { result ≡ rule_broken_first (marks_of (text_of text.now)) }
{
    match split_mark(text) {
        Some((Mark::Digit(value), after)) => rule_of_digit(value, after),
        Some((Mark::Unit(unit), after)) => rule_of_unit(unit, after),
        Some((Mark::Other, _)) => NumeralFault::Character,
        None => NumeralFault::Start,
    }
}

// The text from the character with this char_index on.
fn text_from(text: &str, char_index: usize) -> &str
    ensures { text_of result.now ≡ text_from text.now char_index }
{
    let (_, from) = text.split_at(byte_index(text, char_index));
    from
}

/// The reason for an error that a unit reader returned for this text.
pub fn reason_of(text: &str, error: ChineseToNumberError) -> NumeralFault
    ensures { result ≡ reason_of (rule_broken_at text.now) (refusal_of error) }
{
    match error {
        ChineseToNumberError::ChineseNumberEmpty => NumeralFault::Empty,
        ChineseToNumberError::ChineseNumberIncorrect { char_index } => {
            rule_broken_first(text_from(text, char_index))
        }
        ChineseToNumberError::Overflow => NumeralFault::TooLarge,
        ChineseToNumberError::Underflow => NumeralFault::TooSmall,
    }
}

/// The reason for an error that a reader of plain digits returned.
pub fn naive_reason_of(error: ChineseToNumberError) -> NumeralFault
    ensures { result ≡ reason_of (λ char_index. Character) (refusal_of error) }
{
    match error {
        ChineseToNumberError::ChineseNumberEmpty => NumeralFault::Empty,
        ChineseToNumberError::ChineseNumberIncorrect { .. } => NumeralFault::Character,
        ChineseToNumberError::Overflow => NumeralFault::TooLarge,
        ChineseToNumberError::Underflow => NumeralFault::TooSmall,
    }
}

/// Why a text is not a number of the type `T` when it is read with units, as
/// `ChineseToNumber::to_number` reads it.
///
/// ```text
/// explain_number::<i64>("一百十", ChineseCountMethod::TenThousand) is Some(NumeralFault::Units)
/// ```
///
/// `None` if the text is read as a number. The error of the reader has the place.
pub fn explain_number<T: Whole>(text: &str, method: ChineseCountMethod) -> Option<NumeralFault>
    ensures { IsReason T.kind method text.now result }
{
    match read_number::<T>(method, text) {
        Ok(_) => None,
        Err(error) => Some(reason_of(text, error)),
    }
}

/// Why a text is not a number of the type `T` when it is read as plain digits, as
/// `ChineseToNumber::to_number_naive` reads it.
///
/// ```text
/// explain_number_naive::<i64>("二〇x") is Some(NumeralFault::Character)
/// ```
///
/// `None` if the text is read as a number. The error of the reader has the place.
pub fn explain_number_naive<T: Whole>(text: &str) -> Option<NumeralFault>
    ensures { result ≡ naive_reason T.kind text.now }
{
    match read_naive::<T>(text) {
        Ok(_) => None,
        Err(error) => Some(naive_reason_of(error)),
    }
}
