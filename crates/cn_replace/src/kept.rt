// The new text of an expression in the kept style.
ghost use Rattle.std.specs.Prelude.{◌≡◌, ◌∷◌, ◌&&◌, ℕ, List, nat_lt, length, true, false, chars, encode_utf8_all, IfOk, MatchOption, Some};
ghost use Rattle.cn_find.specs.Spans.{in_front};
ghost use Rattle.cn_quantity.specs.Characters.{is_fen, is_zhi};
ghost use Rattle.cn_quantity.specs.Ratio.{after_bar, before_bar, is_fraction};
ghost use Rattle.cn_replace.specs.Kept.{denominator_text, divisor_text, is_below_zero, is_minus, is_small, kept_text, numerator_text, percent_text, signed_text, unsigned_text};
ghost use Rattle.cn_replace.specs.KeptNumbers.{and_text, number_text, quantity_of};
ghost use Rattle.cn_replace.specs.Pieces.{begins};
ghost use Rattle.cn_replace.specs.Private.{PutsText};

use crate::Sink;
use crate::numbers::{put_number, put_quantity, put_same, quantity_of};
use crate::pieces::{UnitFrom, all, before_rest, split_last};
use cn_core::{ChineseCountMethod, Unit, is_share_sign, split_first_char};
use cn_quantity::{Quantity, QuantityForm};

// The text after 分之, if this character and the text after it begin with 分之.
#[tactic(auto, unfolding(cn_quantity::specs::Characters::is_fen, cn_quantity::specs::Characters::is_zhi))]
fn after_zhi(c: char, others: &str) -> Option<&str>
    ensures { MatchOption result
        ((d : ℕ) (after : List ℕ) → chars others.now ≡ d ∷ after → (is_fen c && is_zhi d) ≡ false)
        (λ r. (d : ℕ) × (is_fen c ≡ true) × (is_zhi d ≡ true)
        × (chars others.now ≡ d ∷ chars r.now)) }
{
    let (next, after) = split_first_char(others)?;
    if c == '分' && next == '之' {
        Some(after)
    } else {
        None
    }
}

// Whether a text has a character.
fn has_some(text: &str) -> bool
    ensures { result ≡ nat_lt 0 (length (chars text.now)) }
{
    split_first_char(text).is_some()
}

/// The text before 分之 and the text after it, if neither is empty.
pub fn split_bar(text: &str) -> Option<(&str, &str)>
    ensures { MatchOption result (is_fraction (chars text.now) ≡ false)
        (λ r. (is_fraction (chars text.now) ≡ true)
        × (chars r.0.now ≡ before_bar (chars text.now))
        × (chars r.1.now ≡ after_bar (chars text.now))) }
{
    let mut rest = text;
    'looking: while let Some((c, others)) = split_first_char(rest) {
        if let Some(after) = after_zhi(c, others) {
            let before = before_rest(text, rest);
            return if has_some(before) && has_some(after) {
                Some((before, after))
            } else {
                None
            };
        }
        rest = others;
    }
    None
}

// The text after a minus sign, if the text begins with one.
#[tactic(auto, unfolding(crate::specs::Kept::is_minus))]
fn after_minus(text: &str) -> Option<&str>
    ensures { MatchOption result (begins is_minus (chars text.now) ≡ false)
        (λ r. (c : ℕ) × (is_minus c ≡ true) × (chars text.now ≡ c ∷ chars r.now)) }
{
    let (c, others) = split_first_char(text)?;
    if matches!(c, '负' | '負' | '-' | '−' | '－') {
        Some(others)
    } else {
        None
    }
}

// Writes a number that may have a minus sign.
fn put_signed<S: Sink>(
    sink: &mut S,
    method: ChineseCountMethod,
    text: &str,
) -> Result<bool, S::Error>
    ensures { IfOk result (PutsText S.took sink.old sink.new
        (signed_text (number_text method) (chars text.now))) }
{
    let Some(rest) = after_minus(text) else {
        return put_number(sink, method, text);
    };
    sink.put("-")?;
    put_number(sink, method, rest)
}

// Writes the numerator of a fraction.
#[tactic(auto, unfolding(crate::specs::Kept::numerator_text))]
fn put_numerator<S: Sink>(
    sink: &mut S,
    method: ChineseCountMethod,
    quantity: Quantity,
    text: &str,
) -> Result<bool, S::Error>
    ensures { IfOk result (PutsText S.took sink.old sink.new
        (numerator_text method quantity (chars text.now))) }
{
    if !all(UnitFrom { least: Unit::Bai }, text) {
        return put_signed(sink, method, text);
    }
    let whole = Quantity {
        numerator: quantity.numerator,
        denominator: 1,
        form: QuantityForm::Whole,
    };
    put_quantity(sink, whole)?;
    Ok(true)
}

// Whether a text is a number below 1000.
fn is_small(method: ChineseCountMethod, text: &str) -> bool
    ensures { result ≡ is_small (quantity_of method (chars text.now)) }
{
    match quantity_of(method, text) {
        Ok(quantity) => quantity.numerator < 1000,
        Err(_) => false,
    }
}

// Writes the text after a numerator whose denominator is not 100.
#[tactic(auto, unfolding(crate::specs::Kept::denominator_text))]
fn put_denominator<S: Sink>(
    sink: &mut S,
    method: ChineseCountMethod,
    before: &str,
) -> Result<bool, S::Error>
    ensures { IfOk result (PutsText S.took sink.old sink.new
        (denominator_text method (chars before.now))) }
{
    if !is_small(method, before) {
        return Ok(false);
    }
    sink.put("/")?;
    put_number(sink, method, before)
}

// Writes the text after a numerator.
fn put_divisor<S: Sink>(
    sink: &mut S,
    method: ChineseCountMethod,
    form: QuantityForm,
    before: &str,
) -> Result<bool, S::Error>
    ensures { IfOk result (PutsText S.took sink.old sink.new
        (divisor_text method form (chars before.now))) }
{
    match form {
        QuantityForm::Percent => {
            sink.put("%")?;
            Ok(true)
        }
        _ => put_denominator(sink, method, before),
    }
}

// Writes a fraction with these parts.
fn put_fraction<S: Sink>(
    sink: &mut S,
    method: ChineseCountMethod,
    quantity: Quantity,
    before: &str,
    after: &str,
) -> Result<bool, S::Error>
    ensures { IfOk result (PutsText S.took sink.old sink.new
        (and_text (numerator_text method quantity (chars after.now))
        (divisor_text method quantity.form (chars before.now)))) }
{
    if !put_numerator(sink, method, quantity, after)? {
        return Ok(false);
    }
    put_divisor(sink, method, quantity.form, before)
}

// Writes a number and the percent sign after it.
fn put_with_percent<S: Sink>(
    sink: &mut S,
    method: ChineseCountMethod,
    number: &str,
    sign: &str,
) -> Result<bool, S::Error>
    ensures { IfOk result (PutsText S.took sink.old sink.new
        (and_text (number_text method (chars number.now))
        (Some (encode_utf8_all (chars sign.now))))) }
{
    if !put_number(sink, method, number)? {
        return Ok(false);
    }
    put_same(sink, sign)?;
    Ok(true)
}

// Writes a number, with or without a percent sign after it.
#[tactic(auto, unfolding(crate::specs::Kept::percent_text))]
fn put_percent<S: Sink>(
    sink: &mut S,
    method: ChineseCountMethod,
    text: &str,
) -> Result<bool, S::Error>
    ensures { IfOk result (PutsText S.took sink.old sink.new
        (percent_text method (in_front text.now))) }
{
    let Some((c, front, sign)) = split_last(text) else {
        return Ok(false);
    };
    if is_share_sign(c) {
        put_with_percent(sink, method, front, sign)
    } else {
        put_number(sink, method, text)
    }
}

// Writes an expression without sign.
#[tactic(auto, unfolding(crate::specs::Kept::unsigned_text, crate::specs::Kept::fraction_text))]
fn put_unsigned<S: Sink>(
    sink: &mut S,
    method: ChineseCountMethod,
    text: &str,
) -> Result<bool, S::Error>
    ensures { IfOk result (PutsText S.took sink.old sink.new
        (unsigned_text method (chars text.now))) }
{
    let Some((before, after)) = split_bar(text) else {
        return put_percent(sink, method, text);
    };
    match quantity_of(method, text) {
        Ok(quantity) => put_fraction(sink, method, quantity, before, after),
        Err(_) => Ok(false),
    }
}

// The text after 零下, if it begins so.
#[tactic(auto, unfolding(crate::specs::Kept::is_below_zero))]
fn after_below_zero(text: &str) -> Option<&str>
    ensures { MatchOption result
        ((c d : ℕ) (rest : List ℕ) → chars text.now ≡ c ∷ d ∷ rest → is_below_zero c d ≡ false)
        (λ r. (c : ℕ) × (d : ℕ) × (is_below_zero c d ≡ true)
        × (chars text.now ≡ c ∷ d ∷ chars r.now)) }
{
    let (c, others) = split_first_char(text)?;
    let (next, rest) = split_first_char(others)?;
    if c == '零' && next == '下' {
        Some(rest)
    } else {
        None
    }
}

// Writes an expression that may begin with a minus sign.
fn put_with_sign<S: Sink>(
    sink: &mut S,
    method: ChineseCountMethod,
    text: &str,
) -> Result<bool, S::Error>
    ensures { IfOk result (PutsText S.took sink.old sink.new
        (signed_text (unsigned_text method) (chars text.now))) }
{
    let Some(rest) = after_minus(text) else {
        return put_unsigned(sink, method, text);
    };
    sink.put("-")?;
    put_unsigned(sink, method, rest)
}

/// Writes an expression in the kept style, and returns whether it has a text in that style. If not,
/// anything may have been written.
#[tactic(auto, unfolding(crate::specs::Kept::kept_text))]
pub fn put_kept<S: Sink>(
    sink: &mut S,
    method: ChineseCountMethod,
    text: &str,
) -> Result<bool, S::Error>
    ensures { IfOk result (PutsText S.took sink.old sink.new
        (kept_text method (chars text.now))) }
{
    let Some(rest) = after_below_zero(text) else {
        return put_with_sign(sink, method, text);
    };
    put_same(sink, before_rest(text, rest))?;
    put_unsigned(sink, method, rest)
}
