// A Chinese decimal, such as 三點一四 and 一百二十點五億.
ghost use Rattle.std.specs.Prelude.{◌≡◌, ◌≤◌, ◌<◌, [], true, false, length, IfSome, MatchOption};
ghost use Rattle.cn_core.specs.Text.{text_of};
ghost use Rattle.cn_quantity.specs.Decimal.{after_point, decimals_behind_point, ends_colloquially, is_chinese_decimal, is_great_unit};
ghost use Rattle.cn_quantity.specs.Private.{SplitsAtPoint};

use crate::characters::{DigitKind, is_point};
use crate::digits::split_digits;
use crate::figures::count_decimals;
use crate::pieces::{before_end, split_first, split_last};
use crate::units::{are_below, first_factor};
use cn_core::{Unit, digit_of, unit_of};

// The text before the first point, and the text after it.
fn split_point(text: &str) -> Option<(&str, &str)>
    ensures parts { MatchOption result (after_point (text_of text.now) ≡ [])
        (λ r. SplitsAtPoint text.now r.0.now r.1.now) }
    ensures within { IfSome result (λ r. length r.0.now ≤ length text.now) }
{
    let mut rest = text;
    'seeking: while let Some((c, after)) = split_first(rest) {
        if is_point(DigitKind::Chinese, c) {
            return Some((before_end(text, rest), after));
        }
        rest = after;
    }
    None
}

// Whether the character is a unit from 百 up.
fn is_great_unit(c: char) -> bool
    ensures { result ≡ is_great_unit c }
{
    match unit_of(c) {
        Some(unit) => unit >= Unit::Bai,
        None => false,
    }
}

// Whether the text ends with a digit directly after a unit from 百 up, as 一百二 does.
fn ends_colloquially(text: &str) -> bool
    ensures { result ≡ ends_colloquially (text_of text.now) }
{
    let Some((last, before)) = split_last(text) else {
        return false;
    };
    let Some((second, _)) = split_last(before) else {
        return false;
    };
    is_great_unit(second) && digit_of(last).is_some()
}

/// A Chinese decimal: the text before its point, the text after it, and the number of its decimals.
#[derive(Copy, Clone)]
pub struct ChineseDecimal<'a> {
    pub whole: &'a str,
    pub behind: &'a str,
    pub decimals: usize,
}

/// The parts of the text, if it is a Chinese decimal.
pub fn split_decimal(text: &str) -> Option<ChineseDecimal<'_>>
    ensures decimal { MatchOption result (is_chinese_decimal (text_of text.now) ≡ false)
        (λ _. is_chinese_decimal (text_of text.now) ≡ true) }
    ensures parts { IfSome result (λ r. SplitsAtPoint text.now r.whole.now r.behind.now) }
    ensures within { IfSome result (λ r. length r.whole.now ≤ length text.now) }
    ensures count { IfSome result (λ r. r.decimals ≡ decimals_behind_point (text_of text.now)) }
{
    let (whole, behind) = split_point(text)?;
    split_first(whole)?;
    let decimals = count_decimals(DigitKind::Chinese, behind)?;
    let (_, units) = split_digits(DigitKind::Chinese, behind);
    if !ends_colloquially(whole) && are_below(first_factor(units), whole) {
        Some(ChineseDecimal {
            whole,
            behind,
            decimals,
        })
    } else {
        None
    }
}
