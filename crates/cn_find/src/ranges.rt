// Ranges whose ends share a unit or 百分之.
ghost use Rattle.std.specs.Prelude.{◌≡◌, ℕ, nat_le, length, ◌||◌, ◌&&◌, ◌++◌, false, true, codes, chars, reverse, encode_utf8_all, is_some, Some, None, option_map};
ghost use Rattle.std.specs.Char.{char_set_contains};
ghost use Rattle.cn_core.specs.declared.method.ChineseCountMethod.TheVariants.{TenThousand};
ghost use Rattle.cn_core.specs.Characters.{digit_of, rank, rank_of};
ghost use Rattle.cn_core.specs.Mark.{mark_of};
ghost use Rattle.cn_judge.specs.Answer.{answer_of};
ghost use Rattle.cn_judge.specs.Marked.{marked};
ghost use Rattle.cn_quantity.specs.Reading.{quantity_answer};
ghost use Rattle.cn_find.specs.Ranges.{amount_of, are_ends, counts_both, do_share, is_at_most, is_below_mark, is_end_of_range, is_first_end, ends_below, is_next, is_of_amount, is_one_percent, is_percent_form, is_range_link, is_second_end, precedes, shares, whole_part};
ghost use Rattle.cn_find.specs.Spans.{in_front};

use crate::belongs::{is_chinese_digit, is_unit_from};
use crate::expressions::{is_tens, split_nearest};
use cn_core::{ChineseCountMethod, Unit, digit_of, is_wide_figure, split_first_char};
use cn_judge::{ChineseToNumberError, Mark, mark_of};
use cn_quantity::{Quantity, QuantityForm, chinese_to_quantity};

// Whether a character can belong to a number, a percentage or a fraction without its sign.
#[tactic(auto, unfolding(crate::specs::Ranges::is_of_amount))]
fn is_of_amount(c: char) -> bool
    ensures { result ≡ is_of_amount c }
{
    digit_of(c).is_some()
        || is_wide_figure(c)
        || is_tens(c)
        || is_unit_from(Unit::Shi, mark_of(c))
        || matches!(c, '点' | '點' | '.' | '．' | '分' | '之' | '%' | '％')
}

// The amount at the start of a text: its longest prefix of such characters.
#[tactic(auto, using(crate::proofs::Amounts::passed_first, crate::proofs::Amounts::passed_more, crate::proofs::Amounts::passed_boundary, crate::proofs::Amounts::passed_taken))]
fn first_amount(text: &str) -> &str
    ensures { result.now ≡ encode_utf8_all (amount_of (chars text.now)) }
{
    let mut rest = text;
    'passing: while let Some((c, others)) = split_first_char(rest) {
        if !is_of_amount(c) {
            break;
        }
        rest = others;
    }
    let (amount, _) = text.split_at(text.len() - rest.len());
    amount
}

// The amount at the end of a text: its longest suffix of such characters.
#[tactic(auto, using(crate::proofs::Amounts::back_first, crate::proofs::Amounts::back_more, crate::proofs::Amounts::back_boundary, crate::proofs::Amounts::back_taken))]
fn last_amount(text: &str) -> &str
    ensures { result.now ≡ encode_utf8_all (reverse (amount_of (in_front text.now))) }
{
    let mut rest = text;
    'passing: while let Some((c, front)) = split_nearest(rest) {
        if !is_of_amount(c) {
            break;
        }
        rest = front;
    }
    let (_, amount) = text.split_at(rest.len());
    amount
}

#[tactic(auto, unfolding(crate::specs::Ranges::is_range_link))]
fn is_range_link(c: char) -> bool
    ensures { result ≡ is_range_link c }
{
    matches!(c, '到' | '至' | '~' | '～' | '－' | '–' | '—' | '〜' | '-')
}

fn is_percent(quantity: Quantity) -> bool
    ensures { result ≡ is_percent_form quantity.form }
{
    matches!(quantity.form, QuantityForm::Percent)
}

// The whole part of a quantity, without its sign.
fn whole_part(quantity: Quantity) -> u128
    ensures { result ≡ whole_part quantity }
{
    quantity
        .numerator
        .unsigned_abs()
        .checked_div(quantity.denominator)
        .unwrap_or(0)
}

fn is_below_mark(low: Mark, high: Mark) -> bool
    ensures { result ≡ is_below_mark (marked low) (marked high) }
{
    match (low, high) {
        (Mark::Unit(low), Mark::Unit(high)) => low < high,
        _ => true,
    }
}

// Whether the text does not end with a unit that is as great as this one or greater.
fn ends_below(mark: Mark, text: &str) -> bool
    ensures { (c : ℕ) → marked mark ≡ mark_of c → result ≡ ends_below c (in_front text.now) }
{
    split_nearest(text).is_none_or(|(d, _)| is_below_mark(mark_of(d), mark))
}

// The quantity of a text by the standard method, `TenThousand`.
fn by_standard(text: &str) -> Result<Quantity, ChineseToNumberError>
    ensures { answer_of (λ q. q) result ≡ quantity_answer TenThousand text.now }
{
    chinese_to_quantity(text, ChineseCountMethod::TenThousand)
}

// Whether `high` is a quantity and its whole part is at least that of `low`.
fn is_at_most(low: Quantity, high: Result<Quantity, ChineseToNumberError>) -> bool
    ensures { result ≡ is_at_most low (answer_of (λ q. q) high) }
{
    match high {
        Ok(high) => whole_part(low) <= whole_part(high),
        Err(_) => false,
    }
}

// Whether the second text ends with a unit that can count both amounts.
#[tactic(auto, using(crate::proofs::Amounts::twice_reversed))]
fn counts_both(quantity: Quantity, low: &str, high: &str) -> bool
    ensures { result ≡ counts_both quantity (in_front low.now) (in_front high.now) }
{
    let Some((c, head)) = split_nearest(high) else {
        return false;
    };
    let mark = mark_of(c);
    is_unit_from(Unit::Shi, mark)
        && ends_below(mark, low)
        && is_at_most(quantity, by_standard(head))
}

fn is_one_percent(a: Quantity, b: Quantity) -> bool
    ensures { result ≡ is_one_percent a b }
{
    is_percent(a) != is_percent(b)
}

// Whether the text has at least two characters.
fn has_two(text: &str) -> bool
    ensures { result ≡ nat_le 2 (length (chars text.now)) }
{
    split_first_char(text).is_some_and(|(_, others)| split_first_char(others).is_some())
}

fn shares(low: &str, high: &str) -> bool
    ensures { result ≡ shares low.now high.now }
{
    match (by_standard(low), by_standard(high)) {
        (Ok(a), Ok(b)) => { is_one_percent(a, b) || (has_two(high) && counts_both(a, low, high)) }
        _ => false,
    }
}

fn is_next(value: Option<u8>, next: Option<u8>) -> bool
    ensures { result ≡ is_next value next }
{
    match (value, next) {
        (Some(value), Some(next)) => u32::from(next) == u32::from(value) + 1,
        _ => false,
    }
}

// Whether the first text is one Chinese digit, and the second begins with the digit that follows
// it.
fn precedes(low: &str, high: &str) -> bool
    ensures { result ≡ precedes (chars low.now) (chars high.now) }
{
    let Some((c, rest)) = split_first_char(low) else {
        return false;
    };
    let Some((d, _)) = split_first_char(high) else {
        return false;
    };
    split_first_char(rest).is_none()
        && is_chinese_digit(c)
        && is_chinese_digit(d)
        && is_next(digit_of(c), digit_of(d))
}

fn are_ends(c: char, low: &str, high: &str) -> bool
    ensures { result ≡ are_ends c low.now high.now }
{
    (is_range_link(c) || (c == '、' && precedes(low, high))) && shares(low, high)
}

// Whether a character can separate the ends of a range. Most characters cannot, and then no amount
// is searched for beyond them.
fn may_part(c: char) -> bool
    ensures { result ≡ (is_range_link c || char_set_contains (codes "、") c) }
{
    is_range_link(c) || c == '、'
}

fn is_first_end(text: &str, after: &str) -> bool
    ensures { result ≡ is_first_end text.now (chars after.now) }
{
    split_first_char(after).is_some_and(|(c, others)| may_part(c)
        && are_ends(c, text, first_amount(others)))
}

fn is_second_end(text: &str, before: &str) -> bool
    ensures { result ≡ is_second_end text.now (in_front before.now) }
{
    split_nearest(before).is_some_and(|(c, front)| may_part(c)
        && are_ends(c, last_amount(front), text))
}

/// Whether the text between these texts is one end of a range whose ends share a unit or 百分之, as
/// 3 and 5万 are in 3~5万.
pub fn is_end_of_range(before: &str, text: &str, after: &str) -> bool
    ensures { result ≡ is_end_of_range before.now text.now after.now }
{
    is_first_end(text, after) || is_second_end(text, before)
}
