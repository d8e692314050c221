// Digits that are side by side.
ghost use Rattle.std.specs.Prelude.{◌≡◌, ◌+◌, ◌*◌, ◌^◌, ◌<◌, ◌≤◌, length, SomeIff};
ghost use Rattle.cn_core.specs.Text.{text_of};
ghost use Rattle.cn_quantity.specs.Digits.{after_digits, begins_with_nought, leading_digits, read_on, read_with_units};

use crate::characters::{DigitKind, digit_by};
use crate::pieces::split_first;
use crate::units::times_units;
use cn_core::ChineseCountMethod;

/// The number of digits with which a text begins, and the text after them.
pub fn split_digits(kind: DigitKind, text: &str) -> (usize, &str)
    ensures count { result.0 ≡ leading_digits kind (text_of text.now) }
    ensures rest { text_of result.1.now ≡ after_digits kind (text_of text.now) }
    ensures within { result.0 + length result.1.now ≤ length text.now }
{
    let mut count = 0;
    let mut rest = text;
    'counting: while let Some((c, after)) = split_first(rest) {
        if digit_by(kind, c).is_none() {
            break;
        }
        count += 1;
        rest = after;
    }
    (count, rest)
}

/// Whether the text begins with the figure 0.
pub fn begins_with_nought(text: &str) -> bool
    ensures { result ≡ begins_with_nought (text_of text.now) }
{
    let Some((c, _)) = split_first(text) else {
        return false;
    };
    match digit_by(DigitKind::Figure, c) {
        Some(figure) => figure == 0,
        None => false,
    }
}

/// A number with one more digit, if it fits.
pub fn with_digit(number: u128, digit: u8) -> Option<u128>
    ensures { SomeIff result (number * 10 + digit < 2 ^ 128) (number * 10 + digit) }
{
    number.checked_mul(10)?.checked_add(digit as u128)
}

// The number that the digits of a text write after those of another number, if it fits.
fn read_on(kind: DigitKind, number: u128, text: &str) -> Option<u128>
    ensures { SomeIff result (read_on kind number (text_of text.now) < 2 ^ 128)
        (read_on kind number (text_of text.now)) }
{
    let mut longer = number;
    let mut rest = text;
    'reading: while let Some((c, after)) = split_first(rest) {
        if let Some(digit) = digit_by(kind, c) {
            longer = with_digit(longer, digit)?;
        }
        rest = after;
    }
    Some(longer)
}

/// The number that the digits of a text write after those of another number, times the text's
/// units, if that and each unit's scale fit.
pub fn read_with_units(
    method: ChineseCountMethod,
    kind: DigitKind,
    number: u128,
    text: &str,
) -> Option<u128>
    ensures { result ≡ read_with_units method kind number (text_of text.now) }
{
    times_units(method, read_on(kind, number, text)?, text)
}
