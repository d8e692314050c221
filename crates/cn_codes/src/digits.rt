// The digits of codes.
ghost use Rattle.std.specs.Prelude.{◌≡◌, ◌==◌, chars, length, map, nat_le};
ghost use Rattle.cn_codes.specs.Digits.{begins_any_number, begins_number, begins_zero, code_digit, is_chinese, is_yao, number_of, rise_from, value_of};

use cn_core::{digit_of, figure_of, split_first_char};
use cn_find::is_one_of;
use cn_replace::pieces::CharTest;

/// Whether a character is a Chinese digit of a code: 幺 is one.
#[tactic(auto, unfolding(crate::specs::Digits::is_chinese))]
pub fn is_chinese(c: char) -> bool
    ensures { result ≡ is_chinese c }
{
    is_one_of(
        &['零', '〇', '一', '二', '三', '四', '五', '六', '七', '八', '九', '幺'],
        c,
    )
}

/// A Chinese digit of a code.
#[derive(Copy, Clone)]
pub struct Chinese;

impl CharTest for Chinese {
    ghost test = { λ _. is_chinese };

    fn passes(self, c: char) -> bool {
        is_chinese(c)
    }
}

#[tactic(auto, unfolding(crate::specs::Digits::is_yao))]
fn is_yao(c: char) -> bool
    ensures { result ≡ is_yao c }
{
    is_one_of(&['幺'], c)
}

/// The digit 幺.
#[derive(Copy, Clone)]
pub struct Yao;

impl CharTest for Yao {
    ghost test = { λ _. is_yao };

    fn passes(self, c: char) -> bool {
        is_yao(c)
    }
}

/// The value of a digit of a code: 1 for 幺. `None` for a character that is no such digit.
pub fn code_digit(c: char) -> Option<u8>
    ensures { result ≡ code_digit c }
{
    if is_yao(c) {
        return Some(1);
    }
    if is_chinese(c) {
        digit_of(c)
    } else {
        figure_of(c)
    }
}

/// The value of a character that is a digit of a code: 1 for 幺, 0 for any other character.
pub fn value_of(c: char) -> u8
    ensures { result ≡ value_of c }
{
    match code_digit(c) {
        Some(value) => value,
        None => 0,
    }
}

/// Whether the number of these digits is at most this one.
pub fn is_at_most(most: u32, digits: &str) -> bool
    ensures { result ≡ nat_le (number_of (chars digits.now)) most }
{
    let mut value: u64 = 0;
    let mut rest = digits;
    'reading: while let Some((c, others)) = split_first_char(rest) {
        value = 10 * value + u64::from(value_of(c));
        if value > u64::from(most) {
            return false;
        }
        rest = others;
    }
    true
}

// Whether a run begins with the digits of a number.
fn begins_number(number: &str, run: &str) -> bool
    ensures { result ≡ begins_number (chars number.now) (chars run.now) }
{
    let mut ahead = number;
    let mut rest = run;
    'comparing: while let Some((c, others)) = split_first_char(ahead) {
        match split_first_char(rest) {
            Some((d, after)) if value_of(c) == value_of(d) => rest = after,
            _ => return false,
        }
        ahead = others;
    }
    true
}

/// Whether a run begins with one of these numbers.
pub fn begins_any_number(numbers: &[&str], run: &str) -> bool
    ensures { result
        ≡ begins_any_number (map (λ number. chars number.now) numbers.now) (chars run.now) }
{
    numbers.iter().any(|number| begins_number(number, run))
}

/// Whether the first digit is a zero.
pub fn begins_zero(run: &str) -> bool
    ensures { result ≡ begins_zero (chars run.now) }
{
    match split_first_char(run) {
        Some((c, _)) => value_of(c) == 0,
        None => false,
    }
}

/// Whether each digit is at least the one before it: 一二三四五六七.
pub fn do_rise(digits: &str) -> bool
    ensures { result ≡ rise_from 0 (chars digits.now) }
{
    let mut least = 0;
    let mut rest = digits;
    'looking: while let Some((c, others)) = split_first_char(rest) {
        let value = value_of(c);
        if value < least {
            return false;
        }
        least = value;
        rest = others;
    }
    true
}

/// Whether a text has so many characters.
pub fn has_count(count: u8, text: &str) -> bool
    ensures { result ≡ (length (chars text.now) == count) }
{
    match split_first_char(text) {
        Some((_, rest)) => count > 0 && has_count(count - 1, rest),
        None => count == 0,
    }
}

/// Whether a text has at most so many characters.
pub fn has_at_most(most: u8, text: &str) -> bool
    ensures { result ≡ nat_le (length (chars text.now)) most }
{
    match split_first_char(text) {
        Some((_, rest)) => most > 0 && has_at_most(most - 1, rest),
        None => true,
    }
}

/// Whether a text has at least so many characters.
pub fn has_at_least(least: u8, text: &str) -> bool
    ensures { result ≡ nat_le least (length (chars text.now)) }
{
    if least == 0 {
        return true;
    }
    match split_first_char(text) {
        Some((_, rest)) => has_at_least(least - 1, rest),
        None => false,
    }
}
