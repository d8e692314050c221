// Numerals that are read either as plain digits or with units, whichever they are, and how a number
// that was read like this is written.
ghost use Rattle.std.specs.Prelude.{◌≡◌, ◌||◌, chars, is_some};
ghost use Rattle.std.specs.Char.{is_whitespace};
ghost use Rattle.std.specs.List.{list_all};
ghost use Rattle.chinese_number.specs.Characters.{digit_of};
ghost use Rattle.chinese_number.specs.Number.{is_plain};
ghost use Rattle.chinese_number.specs.Text.{text_of};
ghost use Rattle.cn_dynamic.specs.Either.{either_way, written_method};
ghost use Rattle.cn_dynamic.specs.IntegerTypes.{the_kind};

use crate::{IntegerType, Way};
use chinese_number::{ChineseCountMethod, ChineseVariant, digit_of};
use cn_judge::split_sign;

// From 10^16 on, `Middle` has its own units.
const MIDDLE_LIMIT: u128 = 10_000_000_000_000_000;

// Whether a character is a digit or white space.
fn is_digit_or_white(c: char) -> bool
    ensures { result ≡ (is_some (digit_of c) || is_whitespace c) }
{
    digit_of(c).is_some() || c.is_whitespace()
}

// Whether each character is a digit or white space.
fn is_digits_and_white(text: &str) -> bool
    ensures { result ≡ list_all (λ c. is_some (digit_of c) || is_whitespace c) (chars text.now) }
{
    text.chars().all(|c| is_digit_or_white(c))
}

// Whether each character that is not white space is a digit.
fn is_plain(text: &str) -> bool
    ensures { result ≡ is_plain (text_of text.now) }
{
    is_digits_and_white(text)
}

// Not inlined, so that reading in a named way stays short.
/// The way in which a text of either kind is read as a number of a type: plain digits as digits,
/// and any other text with `TenThousand`.
#[inline(never)]
pub fn either_way(integer: IntegerType, text: &str) -> Way
    ensures { result ≡ either_way (the_kind integer) text.now }
{
    if is_plain(split_sign(integer.is_signed(), text).rest) {
        Way::Digits
    } else {
        Way::Units(ChineseCountMethod::TenThousand)
    }
}

/// The method with which a magnitude is written after it was read either way: `Middle` in the
/// simple script below 10^16, where 10^12 is 一万亿, else `TenThousand`, which writes 一兆.
pub fn written_method(script: ChineseVariant, magnitude: u128) -> ChineseCountMethod
    ensures { result ≡ written_method script magnitude }
{
    match script {
        ChineseVariant::Simple if magnitude < MIDDLE_LIMIT => ChineseCountMethod::Middle,
        _ => ChineseCountMethod::TenThousand,
    }
}
