// A number in figures, as 1,280.5万.
ghost use Rattle.std.specs.Prelude.{◌≡◌, true, false, not, ◌&&◌, nat_le, MatchOption, SomeIff};
ghost use Rattle.cn_core.specs.Text.{text_of};
ghost use Rattle.cn_quantity.specs.declared.characters.DigitKind.TheVariants.{Figure};
ghost use Rattle.cn_quantity.specs.Digits.{begins_with_nought, leading_digits};
ghost use Rattle.cn_quantity.specs.Figures.{after_whole, are_decimals, are_groups, decimals_in_figures, decimals_of, ends_in_figures, groups_of, is_in_figures};

use crate::characters::{DigitKind, is_point};
use crate::digits::{begins_with_nought, split_digits};
use crate::pieces::split_first;
use crate::units::are_factors;
use cn_core::is_comma;

// Whether groups may follow so many figures at the start of a text.
fn may_lead_groups(count: usize, text: &str) -> bool
    ensures { result ≡ (nat_le count 3 && not (begins_with_nought (text_of text.now))) }
{
    count <= 3 && !begins_with_nought(text)
}

// What follows the whole part that the text begins with, if its groups are written well.
fn after_whole(text: &str) -> Option<&str>
    ensures { MatchOption result (are_groups (groups_of (text_of text.now)) ≡ false)
        (λ r. (are_groups (groups_of (text_of text.now)) ≡ true)
        × (text_of r.now ≡ after_whole (text_of text.now))) }
{
    let (count, after) = split_digits(DigitKind::Figure, text);
    if count == 0 {
        return None;
    }
    let leads = may_lead_groups(count, text);
    let mut rest = after;
    'grouping: while let Some((c, group)) = split_first(rest) {
        if !is_comma(c) {
            break;
        }
        let (size, next) = split_digits(DigitKind::Figure, group);
        if !leads || size != 3 {
            return None;
        }
        rest = next;
    }
    Some(rest)
}

/// The number of digits with which the text begins, if there are any, and units or nothing are
/// after them.
pub fn count_decimals(kind: DigitKind, text: &str) -> Option<usize>
    ensures { SomeIff result (are_decimals kind (text_of text.now) ≡ true)
        (leading_digits kind (text_of text.now)) }
{
    let (count, units) = split_digits(kind, text);
    if count > 0 && are_factors(units) {
        Some(count)
    } else {
        None
    }
}

// How many decimals a text after figures has, if a number in figures ends with it.
fn end_in_figures(text: &str) -> Option<usize>
    ensures { SomeIff result (ends_in_figures (text_of text.now) ≡ true)
        (decimals_of (text_of text.now)) }
{
    let Some((c, rest)) = split_first(text) else {
        return Some(0);
    };
    if is_point(DigitKind::Figure, c) {
        count_decimals(DigitKind::Figure, rest)
    } else if are_factors(text) {
        Some(0)
    } else {
        None
    }
}

/// The number of decimals of the text, if it is a number in figures.
pub fn decimals_in_figures(text: &str) -> Option<usize>
    ensures { SomeIff result (is_in_figures (text_of text.now) ≡ true)
        (decimals_in_figures (text_of text.now)) }
{
    end_in_figures(after_whole(text)?)
}
