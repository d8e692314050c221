// The value of a text without sign: a fraction, a percentage, or a number by itself.
ghost use Rattle.std.specs.Prelude.{◌≡◌, ℕ, List, ◌+◌, ◌-◌, ◌*◌, ◌^◌, ◌<◌, ◌≤◌, ◌&&◌, true, false, [], length, take, IfSome, MatchOption, None, Some, SomeIff};
ghost use Rattle.cn_core.specs.Text.{text_of};
ghost use Rattle.cn_judge.specs.Answer.{answer_of};
ghost use Rattle.cn_judge.specs.Piece.{answer_at};
ghost use Rattle.cn_quantity.specs.Characters.{is_fen, is_zhi};
ghost use Rattle.cn_quantity.specs.Private.{BeginsWith, IsFront, SplitsAtBar, SplitsFraction, SplitsNegated};
ghost use Rattle.cn_quantity.specs.Ratio.{after_bar, begins_with_zhi, form_of, form_over, fraction_answer, is_fraction, is_negated, ratio_answer, ratio_of, share, simple_answer};

use crate::QuantityForm;
use crate::characters::{is_fen, is_zhi, share_of, sign_of};
use crate::mixed::mixed;
use crate::number::{Decimal, judge_divisor, judge_number, judge_part};
use crate::pieces::{before_end, count_before, split_first, split_last};
use cn_core::{ChineseCountMethod, Sign, power_of_ten};
use cn_judge::{ChineseToNumberError, count_chars};

/// A quantity without its sign.
#[derive(Copy, Clone)]
pub struct Ratio {
    pub numerator: u128,
    pub denominator: u128,
    pub form: QuantityForm,
}

// The divisor times ten for each decimal, if it fits.
fn denominator(divisor: u128, decimals: usize) -> Option<u128>
    requires { 0 < divisor }
    ensures { SomeIff result (divisor * 10 ^ decimals < 2 ^ 128) (divisor * 10 ^ decimals) }
{
    divisor.checked_mul(power_of_ten(decimals)?)
}

// A decimal over a divisor, as written.
fn ratio_of(
    divisor: u128,
    form: QuantityForm,
    decimal: Decimal,
) -> Result<Ratio, ChineseToNumberError>
    requires { 0 < divisor }
    ensures { answer_of (λ r. r) result ≡ ratio_of divisor form decimal }
{
    match denominator(divisor, decimal.decimals) {
        Some(denominator) => Ok(Ratio {
            numerator: decimal.number,
            denominator,
            form,
        }),
        None => Err(ChineseToNumberError::Overflow),
    }
}

/// The form of a number by itself, given the number of its decimals.
pub fn form_of(decimals: usize) -> QuantityForm
    ensures { result ≡ form_of decimals }
{
    if decimals == 0 {
        QuantityForm::Whole
    } else {
        QuantityForm::Decimal
    }
}

// The text after 分之, if this character and the text after it begin with 分之.
fn after_bar<'a>(c: char, text: &'a str) -> Option<&'a str>
    ensures parts { MatchOption result ((is_fen c && begins_with_zhi (text_of text.now)) ≡ false)
        (λ r. (zhi : ℕ) × (is_fen c ≡ true) × (is_zhi zhi ≡ true) × BeginsWith text.now zhi r.now) }
    ensures shorter { IfSome result (λ r. length r.now < length text.now) }
{
    if !is_fen(c) {
        return None;
    }
    let (next, behind) = split_first(text)?;
    if is_zhi(next) { Some(behind) } else { None }
}

/// The text before 分之, the numerator after it, and the number of characters before the numerator.
#[derive(Copy, Clone)]
pub struct Bar<'a> {
    pub divisor: &'a str,
    pub skipped: usize,
    pub behind: &'a str,
}

// The parts of a text at its first 分之.
fn split_bar(text: &str) -> Option<Bar<'_>>
    ensures parts { MatchOption result (after_bar (text_of text.now) ≡ [])
        (λ bar. SplitsAtBar text.now bar.divisor.now bar.skipped bar.behind.now) }
    ensures divisor { IfSome result (λ bar. length bar.divisor.now ≤ length text.now) }
    ensures behind { IfSome result
        (λ bar. bar.skipped + length bar.behind.now ≤ length text.now) }
{
    let mut rest = text;
    'seeking: while let Some((c, after)) = split_first(rest) {
        if let Some(behind) = after_bar(c, after) {
            return Some(Bar {
                divisor: before_end(text, rest),
                skipped: count_chars(before_end(text, behind)),
                behind,
            });
        }
        rest = after;
    }
    None
}

/// The parts of the text, if it is a fraction.
pub fn split_fraction(text: &str) -> Option<Bar<'_>>
    ensures fraction { MatchOption result (is_fraction (text_of text.now) ≡ false)
        (λ _. is_fraction (text_of text.now) ≡ true) }
    ensures parts { IfSome result
        (λ bar. SplitsAtBar text.now bar.divisor.now bar.skipped bar.behind.now) }
    ensures divisor { IfSome result (λ bar. length bar.divisor.now ≤ length text.now) }
    ensures behind { IfSome result
        (λ bar. bar.skipped + length bar.behind.now ≤ length text.now) }
{
    let bar = split_bar(text)?;
    split_first(bar.divisor)?;
    split_first(bar.behind)?;
    Some(bar)
}

/// The text before a percent sign or ‰ at the end, unless it is empty, and the number by which the
/// sign divides.
pub fn split_share(text: &str) -> Option<(&str, u128)>
    ensures share { MatchOption result (share (text_of text.now) ≡ None)
        (λ r. share (text_of text.now) ≡ Some r.1) }
    ensures above { IfSome result (λ r. 0 < r.1) }
    ensures parts { IfSome result (λ r. text_of r.0.now
        ≡ take (length (text_of text.now) - 1) (text_of text.now)) }
    ensures front { IfSome result (λ r. IsFront text.now r.0.now) }
    ensures shorter { IfSome result (λ r. length r.0.now < length text.now) }
{
    let (c, before) = split_last(text)?;
    split_first(before)?;
    let divisor = share_of(c)?;
    Some((before, divisor))
}

// The form of a number over this divisor.
fn form_over(divisor: u128) -> QuantityForm
    ensures { result ≡ form_over divisor }
{
    if divisor == 100 {
        QuantityForm::Percent
    } else {
        QuantityForm::Fraction
    }
}

/// The parts of a fraction with a minus sign directly after 分之, if the text is one.
pub fn split_negated(text: &str) -> Option<Bar<'_>>
    ensures negated { MatchOption result (is_negated (text_of text.now) ≡ false)
        (λ _. is_negated (text_of text.now) ≡ true) }
    ensures parts { IfSome result
        (λ bar. SplitsNegated text.now bar.divisor.now bar.skipped bar.behind.now) }
    ensures divisor { IfSome result (λ bar. length bar.divisor.now ≤ length text.now) }
    ensures behind { IfSome result
        (λ bar. bar.skipped + length bar.behind.now ≤ length text.now) }
{
    let bar = split_fraction(text)?;
    let (c, behind) = split_first(bar.behind)?;
    split_first(behind)?;
    match sign_of(c) {
        Some(Sign::Minus) => Some(Bar {
            divisor: bar.divisor,
            skipped: count_before(text, behind),
            behind,
        }),
        _ => None,
    }
}

/// The answer to a fraction, given its parts; `skipped` characters of the caller's string are
/// before it.
pub fn judge_fraction(
    method: ChineseCountMethod,
    skipped: usize,
    bar: Bar<'_>,
) -> Result<Ratio, ChineseToNumberError>
    requires divisor { skipped + length bar.divisor.now < 2 ^ 64 }
    requires behind { skipped + bar.skipped + length bar.behind.now < 2 ^ 64 }
    ensures { (bytes : List ℕ) (place : ℕ)
        → SplitsFraction bytes bar.entry.divisor.now bar.entry.skipped place bar.entry.behind.now
        → answer_of (λ r. r) result ≡ answer_at skipped bytes (fraction_answer method
        (text_of bar.entry.divisor.now) place (text_of bar.entry.behind.now)) }
{
    let divisor = judge_divisor(method, skipped, bar.divisor)?;
    let decimal = judge_part(method, skipped + bar.skipped, bar.behind)?;
    ratio_of(divisor, form_over(divisor), decimal)
}

// The answer to a text without sign that is not a mixed fraction.
fn judge_simple(
    method: ChineseCountMethod,
    skipped: usize,
    text: &str,
) -> Result<Ratio, ChineseToNumberError>
    requires { skipped + length text.now < 2 ^ 64 }
    ensures { answer_of (λ r. r) result
        ≡ answer_at skipped text.now (simple_answer method (text_of text.now)) }
{
    if let Some(bar) = split_fraction(text) {
        return judge_fraction(method, skipped, bar);
    }
    if let Some((before, divisor)) = split_share(text) {
        let decimal = judge_number(method, skipped, before)?;
        return ratio_of(divisor, form_over(divisor), decimal);
    }
    let decimal = judge_number(method, skipped, text)?;
    ratio_of(1, form_of(decimal.decimals), decimal)
}

/// The answer to a text without sign; `skipped` characters of the caller's string are before it.
pub fn judge_ratio(
    method: ChineseCountMethod,
    skipped: usize,
    text: &str,
) -> Result<Ratio, ChineseToNumberError>
    requires { skipped + length text.now < 2 ^ 64 }
    ensures { answer_of (λ r. r) result
        ≡ answer_at skipped text.now (ratio_answer method (text_of text.now)) }
{
    match mixed(method, text) {
        Some(ratio) => Ok(ratio),
        None => judge_simple(method, skipped, text),
    }
}
