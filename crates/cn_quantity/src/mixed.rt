// A mixed fraction, such as 二又五分之三.
ghost use Rattle.std.specs.Prelude.{◌≡◌, ◌+◌, ◌*◌, ◌^◌, ◌<◌, ◌≤◌, [], length, IfSome, MatchOption};
ghost use Rattle.cn_core.specs.Text.{text_of};
ghost use Rattle.cn_judge.specs.Answer.{answer_of};
ghost use Rattle.cn_quantity.specs.Private.{SplitsAtYou};
ghost use Rattle.cn_quantity.specs.Ratio.{after_you, mixed, mixed_of, mixed_ratio};

use crate::QuantityForm;
use crate::characters::is_you;
use crate::number::{Decimal, judge_divisor, judge_part};
use crate::pieces::{before_end, split_first};
use crate::ratio::{Ratio, split_fraction};
use crate::whole_number::judge_whole;
use cn_core::ChineseCountMethod;
use cn_judge::ChineseToNumberError;

// The text before the first 又, and the text after it.
fn split_you(text: &str) -> Option<(&str, &str)>
    ensures parts { MatchOption result (after_you (text_of text.now) ≡ [])
        (λ r. SplitsAtYou text.now r.0.now r.1.now) }
    ensures before { IfSome result (λ r. length r.0.now ≤ length text.now) }
    ensures rest { IfSome result (λ r. length r.1.now ≤ length text.now) }
{
    let mut rest = text;
    'seeking: while let Some((c, after)) = split_first(rest) {
        if is_you(c) {
            return Some((before_end(text, rest), after));
        }
        rest = after;
    }
    None
}

// The sum of a whole number and a fraction whose numerator is a whole number below its denominator.
fn mixed_ratio(whole: u128, divisor: u128, decimal: Decimal) -> Option<Ratio>
    ensures { result ≡ mixed_ratio whole divisor decimal }
{
    if decimal.decimals > 0 || decimal.number >= divisor {
        return None;
    }
    let numerator = whole.checked_mul(divisor)?.checked_add(decimal.number)?;
    Some(Ratio {
        numerator,
        denominator: divisor,
        form: QuantityForm::Fraction,
    })
}

// The same sum, from the answers to its parts.
fn mixed_of(
    whole: Result<u128, ChineseToNumberError>,
    divisor: Result<u128, ChineseToNumberError>,
    decimal: Result<Decimal, ChineseToNumberError>,
) -> Option<Ratio>
    ensures { result ≡ mixed_of (answer_of (λ n. n) whole) (answer_of (λ n. n) divisor)
        (answer_of (λ d. d) decimal) }
{
    match (whole, divisor, decimal) {
        (Ok(whole), Ok(divisor), Ok(decimal)) => mixed_ratio(whole, divisor, decimal),
        _ => None,
    }
}

/// The value of a text that is a mixed fraction, if it fits.
pub fn mixed(method: ChineseCountMethod, text: &str) -> Option<Ratio>
    requires { length text.now < 2 ^ 64 }
    ensures { result ≡ mixed method (text_of text.now) }
{
    let (before, rest) = split_you(text)?;
    split_first(before)?;
    let bar = split_fraction(rest)?;
    mixed_of(
        judge_whole(method, 0, before),
        judge_divisor(method, 0, bar.divisor),
        judge_part(method, 0, bar.behind),
    )
}
