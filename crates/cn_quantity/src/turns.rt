// A number in which figures and units alternate, such as 1亿2000万 and 12万3千.
ghost use Rattle.std.specs.Prelude.{◌≡◌, ◌+◌, ◌*◌, ◌/◌, ◌^◌, ◌<◌, ◌≤◌, Bool, true, false, not, ◌&&◌, ◌==◌, nat_lt, [], ◌∷◌, length, drop, option_map, IfSome, MatchOption, None, Some, SomeIff};
ghost use Rattle.cn_core.specs.Text.{text_of};
ghost use Rattle.cn_quantity.specs.declared.characters.DigitKind.TheVariants.{Figure};
ghost use Rattle.cn_quantity.specs.Digits.{leading_digits};
ghost use Rattle.cn_quantity.specs.Private.{IsEnd, IsGroup};
ghost use Rattle.cn_quantity.specs.Turns.{after_group, after_units, begins_with_zero, by_turns, fills, first_group, has_two_readings, is_below, is_tenth, last_group, later_group, leading_number, number_of, unit_group, with_group, with_last, without_zero};
ghost use Rattle.cn_quantity.specs.Units.{times_units};

use crate::characters::{DigitKind, digit_by};
use crate::digits::{begins_with_nought, split_digits, with_digit};
use crate::pieces::{before_end, split_first};
use crate::units::times_units;
use cn_core::{ChineseCountMethod, Unit, power_of_ten, unit_of};

/// The groups of such a number that are read so far: their sum, the product of the units of the
/// last group, and whether that group has only one unit.
#[derive(Copy, Clone)]
pub struct Turns {
    pub sum: u128,
    pub product: u128,
    pub single: bool,
}

// A group at the start of a text: the count and the number of its figures, whether they begin with
// 0, its units, and the text after it.
#[derive(Copy, Clone)]
struct Group<'a> {
    count: usize,
    number: u128,
    nought: bool,
    units: &'a str,
    rest: &'a str,
}

// The number of the figures with which the text begins, if it fits.
fn number_of(text: &str) -> Option<u128>
    ensures { result ≡ number_of (text_of text.now) }
{
    let mut number = 0;
    let mut rest = text;
    'reading: while let Some((c, after)) = split_first(rest) {
        let Some(figure) = digit_by(DigitKind::Figure, c) else {
            return Some(number);
        };
        number = with_digit(number, figure)?;
        rest = after;
    }
    Some(number)
}

// What follows the rising units that the text begins with.
fn after_units(text: &str) -> &str
    ensures rest { text_of result.now ≡ after_units 1 (text_of text.now) }
    ensures end { IsEnd text.now result.now }
{
    let mut least = Unit::Shi;
    let mut rest = text;
    'rising: while let Some((c, after)) = split_first(rest) {
        match unit_of(c) {
            Some(unit) if unit > least => least = unit,
            _ => return rest,
        }
        rest = after;
    }
    rest
}

// The group at the start of the text, if its number fits.
fn split_group(text: &str) -> Option<Group<'_>>
    ensures group { MatchOption result (number_of (text_of text.now) ≡ None)
        (λ group. IsGroup text.now group.count group.number group.nought group.units.now
        group.rest.now) }
    ensures within { IfSome result
        (λ group. group.count + length group.rest.now ≤ length text.now) }
{
    let number = number_of(text)?;
    let (count, after) = split_digits(DigitKind::Figure, text);
    let rest = after_units(after);
    Some(Group {
        count,
        number,
        nought: begins_with_nought(text),
        units: before_end(after, rest),
        rest,
    })
}

// Whether the text is one character.
fn is_one(text: &str) -> bool
    ensures { result ≡ (length (text_of text.now) == 1) }
{
    match split_first(text) {
        Some((_, rest)) => split_first(rest).is_none(),
        None => false,
    }
}

// The groups so far and one more: this number times these units.
fn with_group(method: ChineseCountMethod, sum: u128, number: u128, units: &str) -> Option<Turns>
    ensures { result ≡ with_group method sum number (text_of units.now) }
{
    let value = times_units(method, number, units)?;
    let product = times_units(method, 1, units)?;
    let total = sum.checked_add(value)?;
    Some(Turns {
        sum: total,
        product,
        single: is_one(units),
    })
}

// The groups so far and a last number, after which nothing may follow.
fn with_last(turns: Turns, number: u128) -> Option<Turns>
    ensures { result ≡ with_last turns number }
{
    let total = turns.sum.checked_add(number)?;
    Some(Turns {
        sum: total,
        product: 0,
        single: false,
    })
}

// The first group: figures that do not begin with 0, and units.
fn first_group(method: ChineseCountMethod, text: &str) -> Option<(Turns, &str)>
    ensures turns { option_map (λ r. r.0) result ≡ first_group method (text_of text.now) }
    ensures rest { IfSome result (λ r. text_of r.1.now ≡ after_group (text_of text.now)) }
    ensures shorter { IfSome result (λ r. length r.1.now < length text.now) }
{
    let group = split_group(text)?;
    if group.count == 0 || group.nought {
        return None;
    }
    split_first(group.units)?;
    let turns = with_group(method, 0, group.number, group.units)?;
    Some((turns, group.rest))
}

// Whether the number of a group times its units is below this product.
fn is_below(method: ChineseCountMethod, number: u128, units: &str, product: u128) -> bool
    ensures { result ≡ is_below (times_units method number (text_of units.now)) product }
{
    match times_units(method, number, units) {
        Some(value) => value < product,
        None => false,
    }
}

// Whether the number of these figures equals the number of zeros of the product of the units before
// them.
fn fills(turns: Turns, count: usize) -> bool
    ensures { result ≡ fills turns count }
{
    match power_of_ten(count) {
        Some(power) => turns.product == power,
        None => false,
    }
}

// Whether the figures are one figure above 0 after a single unit, which counts tenths of that unit.
fn is_tenth(turns: Turns, nought: bool, count: usize) -> bool
    ensures { result ≡ is_tenth turns nought count }
{
    count == 1 && turns.single && !nought
}

// Whether a last group may follow 零.
fn may_follow_zero(turns: Turns, nought: bool, number: u128) -> bool
    ensures { result ≡ (not nought && nat_lt number turns.product) }
{
    !nought && number < turns.product
}

// A last group, which has no units.
fn last_group(turns: Turns, after_zero: bool, group: Group<'_>) -> Option<Turns>
    ensures { result
        ≡ last_group turns after_zero group.entry.nought group.entry.count group.entry.number }
{
    if after_zero {
        if may_follow_zero(turns, group.nought, group.number) {
            with_last(turns, group.number)
        } else {
            None
        }
    } else if fills(turns, group.count) {
        with_last(turns, group.number)
    } else if is_tenth(turns, group.nought, group.count) {
        let tenth = group.number.checked_mul(turns.product / 10)?;
        with_last(turns, tenth)
    } else {
        None
    }
}

// A later group with units.
fn unit_group(method: ChineseCountMethod, turns: Turns, group: Group<'_>) -> Option<Turns>
    ensures { result ≡ unit_group method turns group.entry.number group.entry.nought
        (text_of group.entry.units.now) }
{
    if !group.nought && is_below(method, group.number, group.units, turns.product) {
        with_group(method, turns.sum, group.number, group.units)
    } else {
        None
    }
}

// Whether units that make less than 10000 are directly after units that make 10^8 or more, as in
// 1亿2千.
fn has_two_readings(method: ChineseCountMethod, turns: Turns, after_zero: bool, units: &str) -> bool
    ensures { result ≡ has_two_readings method turns after_zero (text_of units.now) }
{
    !after_zero && turns.product >= 100_000_000 && is_below(method, 1, units, 10_000)
}

// The groups so far and a later one, after 零 or not.
fn later_group(
    method: ChineseCountMethod,
    turns: Turns,
    after_zero: bool,
    text: &str,
) -> Option<(Turns, &str)>
    ensures turns { option_map (λ r. r.0) result
        ≡ later_group method turns after_zero (text_of text.now) }
    ensures rest { IfSome result (λ r. text_of r.1.now ≡ after_group (text_of text.now)) }
    ensures shorter { IfSome result (λ r. length r.1.now < length text.now) }
{
    let group = split_group(text)?;
    if group.count == 0 {
        return None;
    }
    let next = match split_first(group.units) {
        Some(_) if has_two_readings(method, turns, after_zero, group.units) => return None,
        Some(_) => unit_group(method, turns, group)?,
        None => last_group(turns, after_zero, group)?,
    };
    Some((next, group.rest))
}

// Whether the text begins with 零, and the text after that.
fn split_zero(text: &str) -> (bool, &str)
    ensures zero { result.0 ≡ begins_with_zero (text_of text.now) }
    ensures rest { text_of result.1.now ≡ without_zero (text_of text.now) }
    ensures within { length result.1.now ≤ length text.now }
{
    if let Some((c, rest)) = split_first(text) {
        if matches!(c, '零' | '〇') {
            return (true, rest);
        }
    }
    (false, text)
}

/// The number of a text in which figures and units alternate, if it is such a text and everything
/// fits.
pub fn by_turns(method: ChineseCountMethod, text: &str) -> Option<u128>
    ensures { result ≡ by_turns method (text_of text.now) }
{
    let (first, after) = first_group(method, text)?;
    let mut turns = first;
    let mut rest = after;
    'turning: while let Some(_) = split_first(rest) {
        let (after_zero, group) = split_zero(rest);
        let (next, after) = later_group(method, turns, after_zero, group)?;
        turns = next;
        rest = after;
    }
    Some(turns.sum)
}
