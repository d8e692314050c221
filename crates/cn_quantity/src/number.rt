// The value of a text without sign, percent sign and 分之.
ghost use Rattle.std.specs.Prelude.{◌≡◌, ◌+◌, ◌^◌, ◌<◌, length, IfOk};
ghost use Rattle.cn_core.specs.Text.{text_of};
ghost use Rattle.cn_judge.specs.Answer.{answer_of};
ghost use Rattle.cn_judge.specs.Piece.{answer_at};
ghost use Rattle.cn_quantity.specs.Number.{decimal_of, divisor_answer, is_divisor, number_answer, part_answer, shaped_number, short_tens};

use crate::characters::{DigitKind, digit_by};
use crate::decimal::split_decimal;
use crate::digits::read_with_units;
use crate::figures::decimals_in_figures;
use crate::pieces::split_first;
use crate::turns::by_turns;
use crate::units::{are_rising_units, times_units};
use crate::whole_number::judge_whole;
use cn_core::{ChineseCountMethod, tens_of};
use cn_judge::ChineseToNumberError;

/// A number without its point, and the number of its decimals: 314 and 2 for 3.14.
#[derive(Copy, Clone)]
pub struct Decimal {
    pub number: u128,
    pub decimals: usize,
}

// The number of 廿 or 卅, alone or with one digit after it.
fn short_tens(text: &str) -> Option<u128>
    ensures { result ≡ short_tens (text_of text.now) }
{
    let (first, rest) = split_first(text)?;
    let tens = tens_of(first)?;
    let Some((second, behind)) = split_first(rest) else {
        return Some(tens as u128);
    };
    if split_first(behind).is_some() {
        return None;
    }
    let digit = digit_by(DigitKind::Chinese, second)?;
    Some(tens as u128 + digit as u128)
}

// A number with this number of decimals, if it fits.
fn decimal_of(decimals: usize, number: Option<u128>) -> Result<Decimal, ChineseToNumberError>
    ensures { answer_of (λ d. d) result ≡ decimal_of decimals number }
{
    match number {
        Some(number) => Ok(Decimal { number, decimals }),
        None => Err(ChineseToNumberError::Overflow),
    }
}

// The answer to a text by its shape; `skipped` characters of the caller's string are before it.
fn judge_shaped(
    method: ChineseCountMethod,
    skipped: usize,
    text: &str,
) -> Result<Decimal, ChineseToNumberError>
    requires { skipped + length text.now < 2 ^ 64 }
    ensures { answer_of (λ d. d) result
        ≡ answer_at skipped text.now (shaped_number method (text_of text.now)) }
{
    if let Some(decimals) = decimals_in_figures(text) {
        return decimal_of(
            decimals,
            read_with_units(method, DigitKind::Figure, 0, text),
        );
    }
    if let Some(number) = by_turns(method, text) {
        return decimal_of(0, Some(number));
    }
    if let Some(parts) = split_decimal(text) {
        let whole = judge_whole(method, skipped, parts.whole)?;
        return decimal_of(
            parts.decimals,
            read_with_units(method, DigitKind::Chinese, whole, parts.behind),
        );
    }
    if let Some(number) = short_tens(text) {
        return decimal_of(0, Some(number));
    }
    let whole = judge_whole(method, skipped, text)?;
    decimal_of(0, Some(whole))
}

/// The answer to a text without sign, percent sign and 分之, which has `skipped` characters of the
/// caller's string before it. If the readers of numerals read the text, it is that whole number.
pub fn judge_number(
    method: ChineseCountMethod,
    skipped: usize,
    text: &str,
) -> Result<Decimal, ChineseToNumberError>
    requires { skipped + length text.now < 2 ^ 64 }
    ensures { answer_of (λ d. d) result
        ≡ answer_at skipped text.now (number_answer method (text_of text.now)) }
{
    match judge_whole(method, skipped, text) {
        Ok(number) => decimal_of(0, Some(number)),
        Err(_) => judge_shaped(method, skipped, text),
    }
}

/// The same for a part of a fraction, in which units alone count as if 一 were before them.
pub fn judge_part(
    method: ChineseCountMethod,
    skipped: usize,
    text: &str,
) -> Result<Decimal, ChineseToNumberError>
    requires { skipped + length text.now < 2 ^ 64 }
    ensures { answer_of (λ d. d) result
        ≡ answer_at skipped text.now (part_answer method (text_of text.now)) }
{
    if split_first(text).is_some() && are_rising_units(text) {
        decimal_of(0, times_units(method, 1, text))
    } else {
        judge_number(method, skipped, text)
    }
}

// Whether the number can be a denominator: it is whole and above 0.
fn is_divisor(decimal: Decimal) -> bool
    ensures { result ≡ is_divisor decimal }
{
    decimal.number > 0 && decimal.decimals == 0
}

/// The value of a divisor, a whole number above 0. If it is not one, its first character is at
/// fault.
pub fn judge_divisor(
    method: ChineseCountMethod,
    skipped: usize,
    text: &str,
) -> Result<u128, ChineseToNumberError>
    requires { skipped + length text.now < 2 ^ 64 }
    ensures answer { answer_of (λ n. n) result
        ≡ answer_at skipped text.now (divisor_answer method (text_of text.now)) }
    ensures above { IfOk result (λ n. 0 < n) }
{
    let Some(first) = cn_judge::split_first(text) else {
        return Err(ChineseToNumberError::ChineseNumberEmpty);
    };
    let divisor = judge_part(method, skipped, text)?;
    if is_divisor(divisor) {
        Ok(divisor.number)
    } else {
        let char_index = skipped + first.skipped;
        Err(ChineseToNumberError::ChineseNumberIncorrect { char_index })
    }
}
