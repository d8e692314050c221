// Writes a quantity in numerals.
ghost use Rattle.std.specs.Prelude.{◌≡◌, ◌/◌, ◌^◌, ◌&&◌, ◌≤◌, pos, IsTrue, IsFalse, MatchResult, chars, length};
ghost use Rattle.cn_core.specs.declared.method.ChineseCountMethod.{ChineseCountMethod};
ghost use Rattle.cn_core.specs.Characters.{digit_char};
ghost use Rattle.cn_core.specs.Printing.{is_printable};
ghost use Rattle.cn_core.specs.Text.{text_of};
ghost use Rattle.cn_quantity_text.specs.Numerals.{decimal_text, divisor_text, fraction_text, greatest_spelled, hundredths, is_written_by, magnitude_text, point_char, quantity_text, sign_text, stand_alone, unsigned_text, without_front};
ghost use Rattle.cn_quantity_text.specs.Working.Putting.{PutsCharacters, PutsIfWritten};
ghost use Rattle.cn_quantity_text.specs.Working.Spelled.{IsSpelled};
ghost use Rattle.cn_quantity_text.specs.Writes.{IsTooGreat, IsUnwritten, PutsQuantity, WritesQuantity};

use crate::QuantityToChineseError;
use crate::digits::{Hand, put_behind_point};
use cn_core::{
    ChineseCase, ChineseCountMethod, ChineseVariant, EndBuffer, Unit, digit_char, minus_char,
    split_first_char, string_of, unit_char,
};
use cn_quantity::{Quantity, QuantityForm, are_rising_units, decimals_of, first_unit};
use cn_spell::{NumberToChineseError, ROOM_BYTES, put_chinese};
use std::alloc::Global;

/// The most bytes of a quantity in numerals: three for each character of a sign, two numbers of 39
/// digits and 38 units, and 分之.
pub const MOST_QUANTITY_BYTES: usize = 471;

// The characters in which numbers are written, and the method.
#[derive(Clone, Copy)]
struct Style {
    variant: ChineseVariant,
    case: ChineseCase,
    method: ChineseCountMethod,
}

impl Hand for Style {
    ghost point = { λ style. point_char style.variant };

    ghost character = { λ style. digit_char style.variant style.case };

    ghost most = { 3 };

    fn point(&self) -> char {
        match self.variant {
            ChineseVariant::Traditional => '點',
            ChineseVariant::Simple => '点',
        }
    }

    fn digit(&self, digit: u8) -> char {
        digit_char(self.variant, self.case, digit)
    }
}

// The spelling of a magnitude, if the method writes it.
fn spell(
    room: &mut [u8; ROOM_BYTES],
    style: Style,
    number: u128,
) -> Result<&str, NumberToChineseError>
    ensures { MatchResult result
        (λ text. IsSpelled style.variant style.case style.method number text.now)
        (λ _. IsFalse (is_printable style.method (pos number))) }
{
    put_chinese(room, style.variant, style.case, style.method, number)
}

// Writes a magnitude, if the method writes it.
fn put_magnitude(
    text: &mut EndBuffer,
    style: Style,
    number: u128,
) -> Result<(), NumberToChineseError>
    requires { 231 ≤ text.old.free }
    ensures { PutsIfWritten (is_printable style.method (pos number)) text.old text.new
        (magnitude_text style.variant style.case style.method number) 231 result }
{
    let mut room = [0; ROOM_BYTES];
    text.put(spell(&mut room, style, number)?);
    Ok(())
}

// Whether a divisor has no 一 before this text: the text is rising units, and the first is 百, 千, 萬
// or 億.
fn stand_alone(text: &str) -> bool
    ensures { result ≡ stand_alone (text_of text.now) }
{
    match first_unit(text) {
        Some(unit) => unit <= Unit::Yi && are_rising_units(text),
        None => false,
    }
}

// The text without its first character, if that is `front` and units that stand alone follow it.
fn without_front(front: char, text: &str) -> &str
    requires { text_of text.now ≡ chars text.now }
    ensures text { chars result.now ≡ without_front front (chars text.now) }
    ensures bound { length result.now ≤ length text.now }
{
    match split_first_char(text) {
        Some((first, rest)) if first == front && stand_alone(rest) => rest,
        _ => text,
    }
}

// Writes a divisor, if the method writes it.
fn put_divisor(
    text: &mut EndBuffer,
    style: Style,
    divisor: u128,
) -> Result<(), NumberToChineseError>
    requires { 231 ≤ text.old.free }
    ensures { PutsIfWritten (is_printable style.method (pos divisor)) text.old text.new
        (divisor_text style.variant style.case style.method divisor) 231 result }
{
    let mut room = [0; ROOM_BYTES];
    let spelled = spell(&mut room, style, divisor)?;
    text.put(without_front(style.digit(1), spelled));
    Ok(())
}

// Writes a number whose last `decimals` digits are after the point, if the method writes it.
fn put_with_decimals(
    text: &mut EndBuffer,
    style: Style,
    decimals: usize,
    number: u128,
) -> Result<(), NumberToChineseError>
    requires decimals { decimals ≤ 38 }
    requires room { 348 ≤ text.old.free }
    ensures { PutsIfWritten (is_printable style.method (pos (number / 10 ^ decimals)))
        text.old text.new
        (decimal_text style.variant style.case style.method decimals number) 348 result }
{
    put_behind_point(text, &style, decimals, number);
    put_magnitude(text, style, number / 10_u128.pow(decimals as u32))
}

// Writes a fraction, if the method writes it.
fn put_fraction(
    text: &mut EndBuffer,
    style: Style,
    divisor: u128,
    number: u128,
) -> Result<(), NumberToChineseError>
    requires { 468 ≤ text.old.free }
    ensures { PutsIfWritten
        (is_printable style.method (pos divisor) && is_printable style.method (pos number))
        text.old text.new
        (fraction_text style.variant style.case style.method divisor number) 468 result }
{
    put_magnitude(text, style, number)?;
    text.put("分之");
    put_divisor(text, style, divisor)
}

// Writes 百分之, which begins a percentage.
fn put_hundredths(text: &mut EndBuffer, style: Style, form: QuantityForm)
    requires { 9 ≤ text.old.free }
    ensures { PutsCharacters text.old text.new (hundredths style.variant style.case form) 9 }
{
    if form == QuantityForm::Percent {
        text.put("分之");
        text.put_char(unit_char(style.variant, style.case, Unit::Bai));
    }
}

// Writes a quantity without its sign, if the method writes it.
fn put_unsigned(
    text: &mut EndBuffer,
    style: Style,
    quantity: Quantity,
) -> Result<(), NumberToChineseError>
    requires { 468 ≤ text.old.free }
    ensures { PutsIfWritten (is_written_by style.method quantity) text.old text.new
        (unsigned_text style.variant style.case style.method quantity) 468 result }
{
    let magnitude = quantity.numerator.unsigned_abs();
    match decimals_of(quantity) {
        Some(decimals) => {
            put_with_decimals(text, style, decimals, magnitude)?;
            put_hundredths(text, style, quantity.form);
            Ok(())
        }
        None => put_fraction(text, style, quantity.denominator, magnitude),
    }
}

// Writes the minus sign if the numerator is below 0.
fn put_sign(text: &mut EndBuffer, variant: ChineseVariant, numerator: i128)
    requires { 3 ≤ text.old.free }
    ensures { PutsCharacters text.old text.new (sign_text variant numerator) 3 }
{
    if numerator < 0 {
        text.put_char(minus_char(variant));
    }
}

// Writes a quantity, if the method writes it.
fn put_signed(
    text: &mut EndBuffer,
    style: Style,
    quantity: Quantity,
) -> Result<(), NumberToChineseError>
    requires { 471 ≤ text.old.free }
    ensures { PutsIfWritten (is_written_by style.method quantity) text.old text.new
        (quantity_text style.variant style.case style.method quantity) 471 result }
{
    put_unsigned(text, style, quantity)?;
    put_sign(text, style.variant, quantity.numerator);
    Ok(())
}

/// The greatest number that is spelled when a quantity is written: the number before its point or,
/// for a fraction, the greater of the numerator without its sign and the denominator.
///
/// ```text
/// greatest_spelled(quantity) == 31 // for 314/10, which is 三十一点四
/// greatest_spelled(quantity) == 7 // for -1/7, which is 负七分之一
/// ```
pub fn greatest_spelled(quantity: Quantity) -> u128
    ensures { result ≡ greatest_spelled quantity }
{
    let magnitude = quantity.numerator.unsigned_abs();
    match decimals_of(quantity) {
        Some(decimals) => magnitude / 10_u128.pow(decimals as u32),
        None => quantity.denominator.max(magnitude),
    }
}

// The reason why the method does not write a quantity with a number that is too great.
fn too_far(quantity: Quantity) -> QuantityToChineseError
    ensures { (method : ChineseCountMethod) → IsTooGreat method quantity
        → IsUnwritten method quantity result }
{
    if quantity.numerator < 0 {
        QuantityToChineseError::Underflow
    } else {
        QuantityToChineseError::Overflow
    }
}

/// Writes a quantity in numerals at the end of a buffer, and returns its text. Zeros at the end of
/// its decimals are kept.
///
/// ```text
/// let mut room = [0; MOST_QUANTITY_BYTES];
/// put_quantity(&mut room, variant, case, method, quantity)
/// // 三点一四 for 314/100, 百分之十二点五 for 125/1000 as a percentage, 三分之一 for 1/3
/// ```
///
/// It allocates no memory. Returns `ZeroDenominator` if the denominator is 0. With `Low`, if a
/// number in the quantity is 10^16 or more, returns `Overflow`, or `Underflow` for a quantity below
/// zero.
pub fn put_quantity<'a>(
    room: &'a mut [u8; MOST_QUANTITY_BYTES],
    variant: ChineseVariant,
    case: ChineseCase,
    method: ChineseCountMethod,
    quantity: Quantity,
) -> Result<&'a str, QuantityToChineseError>
    ensures { MatchResult result (λ text. PutsQuantity variant case method quantity text.now)
        (IsUnwritten method quantity) }
{
    if quantity.denominator == 0 {
        return Err(QuantityToChineseError::ZeroDenominator);
    }
    let style = Style {
        variant,
        case,
        method,
    };
    let mut text = EndBuffer::new(room);
    match put_signed(&mut text, style, quantity) {
        Ok(()) => Ok(text.into_text()),
        Err(_) => Err(too_far(quantity)),
    }
}

/// A quantity in numerals, as `put_quantity` writes it, with one allocation of exactly its size.
///
/// ```text
/// quantity_to_chinese(alloc, variant, case, method, quantity) == Ok("三点五") // for 35/10
/// ```
///
/// Returns the errors of `put_quantity`, before memory is allocated, and `OutOfMemory` if the
/// memory cannot be allocated.
pub fn quantity_to_chinese(
    alloc: Global,
    variant: ChineseVariant,
    case: ChineseCase,
    method: ChineseCountMethod,
    quantity: Quantity,
) -> Result<String, QuantityToChineseError>
    ensures { WritesQuantity variant case method quantity result }
{
    let mut room = [0; MOST_QUANTITY_BYTES];
    let text = put_quantity(&mut room, variant, case, method, quantity)?;
    Ok(string_of(alloc, text)?)
}
