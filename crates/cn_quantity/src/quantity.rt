ghost use Rattle.std.specs.Prelude.{◌≡◌, ◌+◌, ◌*◌, ◌^◌, ◌<◌, ◌≤◌, ℤ, true, false, length, drop, chars, IfSome, IsTrue, MatchOption, SomeIff};
ghost use Rattle.cn_core.specs.Text.{text_of};
ghost use Rattle.cn_core.specs.Whole.{holds};
ghost use Rattle.cn_judge.specs.Answer.{answer_of, refusal_of};
ghost use Rattle.cn_judge.specs.Piece.{StandsAt};
ghost use Rattle.cn_quantity.specs.Reading.{begins_number, front_length, is_below_zero, number_sign, quantity_answer, sign_length, signed_ratio, yen_length};
ghost use Rattle.cn_quantity.specs.Private.{IsEnd, signed_by, signed_refusal};
ghost use Rattle.cn_quantity.specs.Ratio.{form_of};
ghost use Rattle.cn_quantity.specs.Trimmed.{trimmed};
ghost use Rattle.cn_quantity.specs.Whole.{IsTimes};
ghost use Rattle.cn_quantity.specs.declared.quantity.QuantityForm.TheVariants.{Percent, Fraction};

use crate::characters::{DigitKind, digit_by, is_ling, is_xia, sign_of};
use crate::pieces::{count_before, split_first};
use crate::ratio::{Ratio, form_of, judge_fraction, judge_ratio, split_negated};
use crate::trimmed::{decimals_of, without_zeros, zeros_at_end};
use cn_core::{
    ChineseCountMethod, Sign, Unit, Whole, digit_of, is_currency, power_of_ten, unit_of,
};
use cn_judge::{AfterSign, ChineseToNumberError, signed_answer};

/// How a quantity is written.
#[derive(Debug, Copy, Clone, Eq, PartialEq)]
pub enum QuantityForm {
    /// 35, 三十五, 3万
    Whole,
    /// 3.5, 三點五, 3.5万
    Decimal,
    /// 12.5%, 百分之五十
    Percent,
    /// 三分之一, 千分之五
    Fraction,
}

/// An exact quantity, as written and not reduced: 12.5% is 125/1000.
///
/// Two quantities are equal if numerators, denominators and forms are: 3.10 and 3.1 are different.
#[derive(Debug, Copy, Clone, Eq, PartialEq)]
pub struct Quantity {
    /// The number above the line, with the sign.
    pub numerator: i128,
    /// The number below the line, above 0.
    pub denominator: u128,
    /// How the quantity is written.
    pub form: QuantityForm,
}

impl Quantity {
    /// The whole number that the quantity equals, if there is one and the type holds it.
    ///
    /// ```text
    /// 3.5万, which is 350000/10, is Some(35000); 3.5 is None
    /// ```
    pub fn to_whole<T: Whole>(self) -> Option<T>
        ensures { MatchOption result
            ((n : ℤ) → IsTimes self.numerator self.denominator n → ¬ IsTrue (holds T.kind n))
            (λ value. IsTimes self.numerator self.denominator (T.number value)) }
    {
        if self.denominator == 0 {
            return None;
        }
        let magnitude = self.numerator.unsigned_abs();
        let rest = magnitude % self.denominator;
        if rest > 0 {
            return None;
        }
        T::from_magnitude(self.numerator < 0, magnitude / self.denominator)
    }

    /// The quantity without the zeros at the end of its decimals; a decimal with none left is a
    /// whole number. A fraction does not change, nor does a quantity whose denominator does not fit
    /// its form.
    ///
    /// ```text
    /// 350000/10 is 35000/1, and 12.50%, which is 1250/10000, is 125/1000
    /// ```
    pub fn trimmed(self) -> Quantity
        ensures { result ≡ trimmed self }
    {
        match decimals_of(self) {
            Some(decimals) => {
                let zeros = zeros_at_end(decimals, self.numerator.unsigned_abs());
                without_zeros(self, decimals, zeros)
            }
            None => self,
        }
    }

    /// The number with this number of decimals, a whole number if there are none; `None` from 39
    /// decimals on, since the denominator does not fit.
    ///
    /// ```text
    /// Quantity::decimal(314, 2) is 314/100
    /// ```
    pub fn decimal(numerator: i128, decimals: u32) -> Option<Quantity>
        ensures { SomeIff result (decimals ≤ 38) (record {
          numerator = numerator;
          denominator = 10 ^ decimals;
          form = form_of decimals;
        }) }
    {
        let denominator = power_of_ten(decimals as usize)?;
        Some(Quantity {
            numerator,
            denominator,
            form: form_of(decimals as usize),
        })
    }

    /// The percentage of a number with this number of decimals; `None` from 37 decimals on, since
    /// the denominator does not fit.
    ///
    /// ```text
    /// Quantity::percent(125, 1) is 125/1000, which is 12.5%
    /// ```
    pub fn percent(numerator: i128, decimals: u32) -> Option<Quantity>
        ensures { SomeIff result (decimals ≤ 36) (record {
          numerator = numerator;
          denominator = 100 * 10 ^ decimals;
          form = Percent;
        }) }
    {
        let denominator = power_of_ten(decimals as usize + 2)?;
        Some(Quantity {
            numerator,
            denominator,
            form: QuantityForm::Percent,
        })
    }

    /// The fraction of these two numbers, not reduced; `None` if the denominator is 0.
    ///
    /// ```text
    /// Quantity::fraction(2, 6) is 2/6
    /// ```
    pub fn fraction(numerator: i128, denominator: u128) -> Option<Quantity>
        ensures { SomeIff result (0 < denominator) (record {
          numerator = numerator;
          denominator = denominator;
          form = Fraction;
        }) }
    {
        if denominator == 0 {
            return None;
        }
        Some(Quantity {
            numerator,
            denominator,
            form: QuantityForm::Fraction,
        })
    }
}

// Whether a number may begin with the character: a digit of numerals, a figure or 十.
fn begins_number(c: char) -> bool
    ensures { result ≡ begins_number c }
{
    digit_of(c).is_some()
        || digit_by(DigitKind::Figure, c).is_some()
        || unit_of(c) == Some(Unit::Shi)
}

// The text after 零下, if a number follows it.
fn after_below_zero(text: &str) -> Option<&str>
    ensures below { MatchOption result (is_below_zero (text_of text.now) ≡ false)
        (λ r. (is_below_zero (text_of text.now) ≡ true)
        × (text_of r.now ≡ drop 2 (text_of text.now))) }
    ensures end { IfSome result (λ r. IsEnd text.now r.now) }
{
    let (first, rest) = split_first(text)?;
    let (second, number) = split_first(rest)?;
    let (third, _) = split_first(number)?;
    if is_ling(first) && is_xia(second) && begins_number(third) {
        Some(number)
    } else {
        None
    }
}

// The sign before a number, and the text after it.
fn split_sign(text: &str) -> (Option<Sign>, &str)
    ensures sign { result.0 ≡ number_sign (text_of text.now) }
    ensures rest { text_of result.1.now ≡ drop (sign_length (text_of text.now)) (text_of text.now) }
    ensures end { IsEnd text.now result.1.now }
{
    if let Some(number) = after_below_zero(text) {
        return (Some(Sign::Minus), number);
    }
    if let Some((c, rest)) = split_first(text) {
        if let Some(sign) = sign_of(c) {
            return (Some(sign), rest);
        }
    }
    (None, text)
}

// The text after a ¥ before a figure, or the whole text if there is none.
fn after_yen(text: &str) -> &str
    ensures rest { text_of result.now ≡ drop (yen_length (text_of text.now)) (text_of text.now) }
    ensures end { IsEnd text.now result.now }
{
    if let Some((first, rest)) = split_first(text) {
        if let Some((second, _)) = split_first(rest) {
            if is_currency(first) && digit_by(DigitKind::Figure, second).is_some() {
                return rest;
            }
        }
    }
    text
}

/// The sign before a number, and the number without it and without ¥.
pub fn split_front(text: &str) -> AfterSign<'_>
    ensures sign { result.sign ≡ number_sign (text_of text.now) }
    ensures rest { StandsAt text.now (chars result.rest.now) result.skipped
        (front_length (text_of text.now)) }
    ensures within { result.skipped + length result.rest.now ≤ length text.now }
{
    let (sign, number) = split_sign(text);
    let rest = after_yen(number);
    AfterSign {
        sign,
        skipped: count_before(text, rest),
        rest,
    }
}

// The ratio with its sign, if its numerator fits.
fn signed_ratio(sign: Option<Sign>, ratio: Ratio) -> Result<Quantity, ChineseToNumberError>
    ensures { answer_of (λ q. q) result ≡ signed_ratio sign ratio }
{
    let numerator = signed_answer::<i128>(sign, Ok(ratio.numerator))?;
    Ok(Quantity {
        numerator,
        denominator: ratio.denominator,
        form: ratio.form,
    })
}

// The refusal of the text after a sign.
fn signed_error(sign: Option<Sign>, error: ChineseToNumberError) -> ChineseToNumberError
    ensures { refusal_of result ≡ signed_refusal sign (refusal_of error) }
{
    match (sign, error) {
        (Some(Sign::Minus), ChineseToNumberError::Overflow) => ChineseToNumberError::Underflow,
        _ => error,
    }
}

// The answer with its sign.
fn signed_quantity(
    sign: Option<Sign>,
    answer: Result<Ratio, ChineseToNumberError>,
) -> Result<Quantity, ChineseToNumberError>
    ensures { answer_of (λ q. q) result ≡ signed_by sign (answer_of (λ r. r) answer) }
{
    match answer {
        Ok(ratio) => signed_ratio(sign, ratio),
        Err(error) => Err(signed_error(sign, error)),
    }
}

/// Reads a text as a quantity: a whole number, a decimal, a percentage or a fraction, in figures or
/// numerals, with or without a leading sign. The quantity is exact, and as written.
///
/// ```text
/// "三點五" is 35/10, "1,280.5萬" 128050000/10, "-12.5%" -125/1000, "三分之一" 1/3, "廿三" 23/1,
/// "1亿2000万" 120000000/1, "一百十五" 115/1
/// ```
///
/// `ChineseNumberEmpty` if nothing but white space and a sign is there; `Overflow` if a number or a
/// unit's scale does not fit 128 bits, or `Underflow` after a minus; `ChineseNumberIncorrect` for
/// any other text, with the char_index of the character at fault, also if a numeral has a value
/// that nobody means, such as 一亿二千.
pub fn chinese_to_quantity(
    text: &str,
    method: ChineseCountMethod,
) -> Result<Quantity, ChineseToNumberError>
    ensures { answer_of (λ q. q) result ≡ quantity_answer method text.now }
{
    let after = split_front(text);
    if after.sign.is_none() {
        if let Some(bar) = split_negated(after.rest) {
            return signed_quantity(
                Some(Sign::Minus),
                judge_fraction(method, after.skipped, bar),
            );
        }
    }
    signed_quantity(after.sign, judge_ratio(method, after.skipped, after.rest))
}
