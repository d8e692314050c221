// Units that multiply what is before them.
ghost use Rattle.std.specs.Prelude.{◌≡◌, ◌*◌, ◌^◌, ◌<◌, IsTrue, SomeIff, false, nat_le, option_map};
ghost use Rattle.std.specs.Option.{option_map_or};
ghost use Rattle.cn_core.specs.Characters.{rank};
ghost use Rattle.cn_core.specs.Scale.{scale, scale_fits};
ghost use Rattle.cn_core.specs.Text.{text_of};
ghost use Rattle.cn_quantity.specs.Units.{are_below, are_factors, are_rising_units, first_factor, first_rank, is_ge, times_units};

use crate::pieces::split_first;
use cn_core::{ChineseCountMethod, Unit, scale, unit_of};

/// Whether the text is units from 百 up, each greater than the one before it, or nothing.
pub fn are_rising_units(text: &str) -> bool
    ensures { result ≡ are_rising_units (text_of text.now) }
{
    let mut least = Unit::Shi;
    let mut rest = text;
    'rising: while let Some((c, after)) = split_first(rest) {
        match unit_of(c) {
            Some(unit) if unit > least => least = unit,
            _ => return false,
        }
        rest = after;
    }
    true
}

// A number times a unit's scale, if both fit.
fn times_scale(method: ChineseCountMethod, number: u128, unit: Unit) -> Option<u128>
    ensures { SomeIff result (IsTrue (scale_fits method (rank unit))
        × (number * scale method (rank unit) < 2 ^ 128)) (number * scale method (rank unit)) }
{
    number.checked_mul(scale(method, unit)?)
}

/// The number times each unit of the text, if each of their scales and the product fit.
pub fn times_units(method: ChineseCountMethod, number: u128, text: &str) -> Option<u128>
    ensures { result ≡ times_units method number (text_of text.now) }
{
    let mut product = number;
    let mut rest = text;
    'multiplying: while let Some((c, after)) = split_first(rest) {
        if let Some(unit) = unit_of(c) {
            product = times_scale(method, product, unit)?;
        }
        rest = after;
    }
    Some(product)
}

/// The unit with which the text begins.
pub fn first_unit(text: &str) -> Option<Unit>
    ensures { option_map rank result ≡ first_rank (text_of text.now) }
{
    let (c, _) = split_first(text)?;
    unit_of(c)
}

/// Whether each unit of the text is smaller than this one.
pub fn are_below(greatest: Option<Unit>, text: &str) -> bool
    ensures { result ≡ are_below (option_map rank greatest) (text_of text.now) }
{
    let Some(greatest) = greatest else {
        return true;
    };
    let mut rest = text;
    'comparing: while let Some((c, after)) = split_first(rest) {
        if let Some(unit) = unit_of(c) {
            if unit >= greatest {
                return false;
            }
        }
        rest = after;
    }
    true
}

// Whether the character is 個.
fn is_ge(c: char) -> bool
    ensures { result ≡ is_ge c }
{
    match unit_of(c) {
        Some(unit) => unit == Unit::Ge,
        None => false,
    }
}

/// The first unit of the text, after 個 if the text begins with it.
pub fn first_factor(text: &str) -> Option<Unit>
    ensures { option_map rank result ≡ first_factor (text_of text.now) }
{
    let (c, rest) = split_first(text)?;
    if is_ge(c) {
        first_unit(rest)
    } else {
        unit_of(c)
    }
}

// Whether the text begins with a unit from 萬 up.
fn begins_from_wan(text: &str) -> bool
    ensures { result ≡ option_map_or (λ rank. nat_le 4 rank) (first_rank (text_of text.now)) false }
{
    match first_unit(text) {
        Some(unit) => unit >= Unit::Wan,
        None => false,
    }
}

/// Whether the text is rising units or nothing; if the first is 萬 or greater, 個 may be before them.
pub fn are_factors(text: &str) -> bool
    ensures { result ≡ are_factors (text_of text.now) }
{
    let Some((c, rest)) = split_first(text) else {
        return true;
    };
    if is_ge(c) {
        begins_from_wan(rest) && are_rising_units(rest)
    } else {
        are_rising_units(text)
    }
}
