// Writes a quantity in figures.
ghost use Rattle.std.specs.Prelude.{◌≡◌, ◌+◌, ◌≤◌, IfOk, decimal, length};
ghost use Rattle.cn_quantity_text.specs.Figures.{figure_char, figures_of, figures_text, figures_with, percent_sign, unsigned_figures};
ghost use Rattle.cn_core.specs.Buffers.{Prepends};
ghost use Rattle.cn_core.specs.Strings.{IsStringOf};

use crate::digits::{Hand, put_behind_point};
use cn_core::{EndBuffer, string_of};
use cn_quantity::{Quantity, QuantityForm, decimals_of};
use std::alloc::{AllocError, Global};

/// The most bytes of a quantity in figures.
pub const MOST_FIGURES_BYTES: usize = 80;

// ASCII digits.
struct Ascii;

impl Hand for Ascii {
    ghost point = { λ _. 46 };

    ghost character = { λ _. figure_char };

    ghost most = { 1 };

    fn point(&self) -> char {
        '.'
    }

    fn digit(&self, digit: u8) -> char {
        (b'0' + digit) as char
    }
}

/// Writes a number in decimal figures before the text that is there.
pub fn put_number(text: &mut EndBuffer, number: u128)
    requires { 39 ≤ text.old.free }
    ensures put { Prepends text.old text.new (decimal number) }
    ensures room { text.old.free ≤ text.new.free + 39 }
{
    let mut left = number;
    while left >= 10 {
        text.put_char(Ascii.digit((left % 10) as u8));
        left /= 10;
    }
    text.put_char(Ascii.digit(left as u8));
}

// Writes a number whose last `decimals` digits are after the point.
fn put_with_decimals(text: &mut EndBuffer, decimals: usize, number: u128)
    requires decimals { decimals ≤ 38 }
    requires room { 78 ≤ text.old.free }
    ensures put { Prepends text.old text.new (figures_with decimals number) }
    ensures room { text.old.free ≤ text.new.free + 78 }
{
    put_behind_point(text, &Ascii, decimals, number);
    put_number(text, number / 10_u128.pow(decimals as u32));
}

// Writes the percent sign of a percentage.
fn put_percent_sign(text: &mut EndBuffer, form: QuantityForm)
    requires { 1 ≤ text.old.free }
    ensures put { Prepends text.old text.new (percent_sign form) }
    ensures room { text.old.free ≤ text.new.free + 1 }
{
    if form == QuantityForm::Percent {
        text.put("%");
    }
}

// Writes a quantity without its sign.
fn put_unsigned(text: &mut EndBuffer, quantity: Quantity)
    requires { 79 ≤ text.old.free }
    ensures put { Prepends text.old text.new (unsigned_figures quantity) }
    ensures room { text.old.free ≤ text.new.free + 79 }
{
    let magnitude = quantity.numerator.unsigned_abs();
    match decimals_of(quantity) {
        Some(decimals) => {
            put_percent_sign(text, quantity.form);
            put_with_decimals(text, decimals, magnitude);
        }
        None => {
            put_number(text, quantity.denominator);
            text.put("/");
            put_number(text, magnitude);
        }
    }
}

// Writes a quantity as it is.
fn put_signed(text: &mut EndBuffer, quantity: Quantity)
    requires { 80 ≤ text.old.free }
    ensures { Prepends text.old text.new (figures_of quantity) }
{
    put_unsigned(text, quantity);
    if quantity.numerator < 0 {
        text.put("-");
    }
}

/// Writes a quantity in figures at the end of a buffer, without zeros at the end of its decimals,
/// and returns its text. It allocates no memory and cannot fail.
///
/// ```text
/// let mut room = [0; MOST_FIGURES_BYTES];
/// put_figures(&mut room, quantity) // "3.5" for 350/100, "12.5%" for 125/1000, "1/3" for 1/3
/// ```
pub fn put_figures(room: &mut [u8; MOST_FIGURES_BYTES], quantity: Quantity) -> &str
    ensures text { result.now ≡ figures_text quantity }
    ensures bound { length result.now ≤ 80 }
{
    let mut text = EndBuffer::new(room);
    put_signed(&mut text, quantity.trimmed());
    text.into_text()
}

/// A quantity in figures, as `put_figures` writes it, with one allocation of exactly its size.
///
/// ```text
/// quantity_to_figures(alloc, quantity) == Ok("3.5") // for 35/10
/// ```
///
/// The only error is `AllocError`, if the memory cannot be allocated.
pub fn quantity_to_figures(alloc: Global, quantity: Quantity) -> Result<String, AllocError>
    ensures { IfOk result (IsStringOf (figures_text quantity)) }
{
    let mut room = [0; MOST_FIGURES_BYTES];
    string_of(alloc, put_figures(&mut room, quantity))
}
