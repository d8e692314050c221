// What a text is worth as a whole number.
ghost use Rattle.std.specs.Prelude.{◌≡◌, ℕ, ◌+◌, ◌^◌, ◌<◌, List, length, nat_lt, Err, option_map};
ghost use Rattle.cn_core.specs.Characters.{rank};
ghost use Rattle.cn_core.specs.CharIndex.{char_index_of};
ghost use Rattle.cn_core.specs.Refusal.{incorrect_at};
ghost use Rattle.cn_core.specs.Scale.{scale};
ghost use Rattle.cn_core.specs.Text.{text_of};
ghost use Rattle.cn_judge.specs.Answer.{answer_of, refusal_of};
ghost use Rattle.cn_judge.specs.Piece.{answer_at};
ghost use Rattle.cn_quantity.specs.Private.{SplitsAtMisread};
ghost use Rattle.cn_quantity.specs.WholeNumber.{fitting, is_plain, later_of, misread_answer, reader_answer, refused_at, sum_answer, whole_answer};

use crate::misread::{Misread, first_misread};
use crate::pieces::split_first;
use cn_core::{ChineseCountMethod, Unit, digit_of, scale};
use cn_judge::{ChineseToNumberError, count_chars, judge_naive, judge_text};

// Whether each character is a digit of numerals.
fn is_plain(text: &str) -> bool
    ensures { result ≡ is_plain (text_of text.now) }
{
    let mut rest = text;
    'looking: while let Some((c, after)) = split_first(rest) {
        if digit_of(c).is_none() {
            return false;
        }
        rest = after;
    }
    true
}

/// The answer of the readers of numerals to a text; `skipped` characters of the caller's string are
/// before it.
pub fn judge_reader(
    method: ChineseCountMethod,
    skipped: usize,
    text: &str,
) -> Result<u128, ChineseToNumberError>
    requires { skipped + length text.now < 2 ^ 64 }
    ensures { answer_of (λ n. n) result
        ≡ answer_at skipped text.now (reader_answer method (text_of text.now)) }
{
    if is_plain(text) {
        judge_naive(skipped, text)
    } else {
        judge_text(method, skipped, text)
    }
}

// Whether a number is below a unit's scale.
fn is_below_unit(method: ChineseCountMethod, number: u128, unit: Unit) -> bool
    ensures { result ≡ nat_lt number (scale method (rank unit)) }
{
    match scale(method, unit) {
        Some(scale) => number < scale,
        None => true,
    }
}

// The sum of two numbers, if it fits.
fn sum_of(first: u128, second: u128) -> Result<u128, ChineseToNumberError>
    ensures { answer_of (λ n. n) result ≡ fitting (first + second) }
{
    match first.checked_add(second) {
        Some(sum) => Ok(sum),
        None => Err(ChineseToNumberError::Overflow),
    }
}

/// The refusal of a misread character.
pub fn misread_error(skipped: usize, misread: Misread<'_>) -> ChineseToNumberError
    requires { skipped + length misread.before.now + length misread.from.now < 2 ^ 64 }
    ensures { (bytes : List ℕ)
        → SplitsAtMisread bytes misread.entry.before.now misread.entry.from.now (option_map rank misread.entry.unit)
        → refusal_of result
        ≡ incorrect_at (skipped + char_index_of bytes (length (text_of misread.entry.before.now))) }
{
    let Some(first) = cn_judge::split_first(misread.from) else {
        return ChineseToNumberError::ChineseNumberEmpty;
    };
    ChineseToNumberError::ChineseNumberIncorrect {
        char_index: skipped + count_chars(misread.before) + first.skipped,
    }
}

/// The sum of a text and of the rest from a bare ten on, which must be below the unit's scale.
pub fn judge_sum(
    method: ChineseCountMethod,
    skipped: usize,
    unit: Unit,
    misread: Misread<'_>,
) -> Result<u128, ChineseToNumberError>
    requires { skipped + length misread.before.now + length misread.from.now < 2 ^ 64 }
    ensures { (bytes : List ℕ)
        → SplitsAtMisread bytes misread.entry.before.now misread.entry.from.now (option_map rank misread.entry.unit)
        → answer_of (λ n. n) result ≡ answer_at skipped bytes
        (sum_answer method (rank unit) (text_of misread.entry.before.now) (text_of misread.entry.from.now)) }
{
    let first = judge_text(method, skipped, misread.before)?;
    let second = judge_text(method, skipped + count_chars(misread.before), misread.from)?;
    if is_below_unit(method, second, unit) {
        sum_of(first, second)
    } else {
        Err(misread_error(skipped, misread))
    }
}

// The later of two refusals by their places; a refusal without a place comes before these.
fn later_of(error: ChineseToNumberError, other: ChineseToNumberError) -> ChineseToNumberError
    ensures { refusal_of result ≡ later_of (refusal_of error) (refusal_of other) }
{
    match (error, other) {
        (
            ChineseToNumberError::ChineseNumberIncorrect { char_index: one },
            ChineseToNumberError::ChineseNumberIncorrect { char_index: two },
        ) if one <= two => other,
        _ => error,
    }
}

// The refusal of a text with a misread character: there, or later if the readers of numerals refuse it
// at a later place.
fn refusal_of_misread(
    method: ChineseCountMethod,
    skipped: usize,
    text: &str,
    misread: Misread<'_>,
) -> ChineseToNumberError
    requires whole { skipped + length text.now < 2 ^ 64 }
    requires parts { skipped + length misread.before.now + length misread.from.now < 2 ^ 64 }
    ensures { SplitsAtMisread text.now misread.entry.before.now misread.entry.from.now (option_map rank misread.entry.unit)
        → Err (refusal_of result) ≡ answer_at skipped text.now
        (refused_at (reader_answer method (text_of text.now)) (length (text_of misread.entry.before.now))) }
{
    match judge_reader(method, skipped, text) {
        Ok(_) => misread_error(skipped, misread),
        Err(error) => later_of(error, misread_error(skipped, misread)),
    }
}

// The answer to a text by its two parts at its first misread character.
fn judge_misread(
    method: ChineseCountMethod,
    skipped: usize,
    text: &str,
    misread: Misread<'_>,
) -> Result<u128, ChineseToNumberError>
    requires whole { skipped + length text.now < 2 ^ 64 }
    requires parts { skipped + length misread.before.now + length misread.from.now < 2 ^ 64 }
    ensures { SplitsAtMisread text.now misread.entry.before.now misread.entry.from.now (option_map rank misread.entry.unit)
        → answer_of (λ n. n) result ≡ answer_at skipped text.now
        (misread_answer method (text_of misread.entry.before.now) (text_of misread.entry.from.now)) }
{
    let Some(unit) = misread.unit else {
        return Err(refusal_of_misread(method, skipped, text, misread));
    };
    match first_misread(misread.from) {
        None => judge_sum(method, skipped, unit, misread),
        Some(_) => Err(refusal_of_misread(method, skipped, text, misread)),
    }
}

/// The whole number of a text; `skipped` characters of the caller's string are before it. It is
/// read as the readers of numerals read it, if no character is misread.
pub fn judge_whole(
    method: ChineseCountMethod,
    skipped: usize,
    text: &str,
) -> Result<u128, ChineseToNumberError>
    requires { skipped + length text.now < 2 ^ 64 }
    ensures { answer_of (λ n. n) result
        ≡ answer_at skipped text.now (whole_answer method (text_of text.now)) }
{
    match first_misread(text) {
        None => judge_reader(method, skipped, text),
        Some(misread) => judge_misread(method, skipped, text, misread),
    }
}
