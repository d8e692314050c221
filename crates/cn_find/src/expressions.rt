// Whether a character of a text belongs to an expression.
ghost use Rattle.std.specs.Prelude.{◌≡◌, ℕ, Bool, ◌<◌, ◌||◌, ◌∷◌, [], codes, chars, length, IfSome, MatchOption, ◌&&◌, not};
ghost use Rattle.std.specs.Char.{char_set_contains};
ghost use Rattle.cn_core.specs.FigureCharacters.{is_figure, is_wide_figure};
ghost use Rattle.cn_core.specs.Mark.{mark_of};
ghost use Rattle.cn_judge.specs.Marked.{marked};
ghost use Rattle.cn_find.specs.Belongs.{first_is, is_ge};
ghost use Rattle.cn_find.specs.Expressions.{begins_bar, begins_below_zero, begins_counted, begins_decimals, begins_degrees, begins_fraction, begins_group, begins_minutes, begins_multiplier, begins_number, begins_numeral, begins_numerator, begins_signed, begins_sum, begins_time, begins_wan, begins_word, binds_minus, ends_decimals, ends_denominator, ends_group, ends_head, ends_minus, ends_numeral, ends_power, ends_spaced, ends_zero, expression_rule, follows_one, is_extra, is_han, is_item, is_kilo, is_multiplier, is_numeric, is_other_word, is_power, is_tens, is_weight, is_word_digit, joins, may_precede_minus, parts_expressions, parts_groups, precedes_minus};
ghost use Rattle.cn_find.specs.Spans.{in_front};

use crate::Wanted;
use crate::belongs::{belongs, is_chinese_digit, is_unit_from, is_wanted};
use cn_core::{
    Unit, digit_of, is_comma, is_currency, is_figure, is_figure_minus, is_share_sign,
    is_wide_figure, split_first_char,
};
use cn_judge::{Mark, mark_of, split_first_mark, split_last_char};

/// The last character of a text and the text before it; `None` if the text is empty. In the text
/// before a number the last character is the nearest to the number.
#[tactic(auto, using(crate::proofs::Nearest::reverse_last))]
pub fn split_nearest(before: &str) -> Option<(char, &str)>
    ensures parts { MatchOption result (in_front before.now ≡ [])
        (λ r. in_front before.now ≡ r.0 ∷ in_front r.1.now) }
    ensures shorter { IfSome result (λ r. length r.1.now < length before.now) }
{
    split_last_char(before)
}

/// Whether the first character of a text passes a test.
pub fn first_is<F: FnOnce(char) -> bool>(text: &str, test: F) -> bool
    requires { F.IsAlwaysCallable test }
    ensures { (is : ℕ → Bool) → ((c : ℕ) (r : Bool) → F.post test c r → r ≡ is c)
        → result ≡ first_is is (chars text.now) }
{
    match split_first_char(text) {
        Some((c, _)) => test(c),
        None => false,
    }
}

/// Whether the last character of a text passes a test.
pub fn last_is<F: FnOnce(char) -> bool>(text: &str, test: F) -> bool
    requires { F.IsAlwaysCallable test }
    ensures { (is : ℕ → Bool) → ((c : ℕ) (r : Bool) → F.post test c r → r ≡ is c)
        → result ≡ first_is is (in_front text.now) }
{
    match split_nearest(text) {
        Some((c, _)) => test(c),
        None => false,
    }
}

/// Whether a character is 廿 or 卅, which stand for 20 and 30.
#[tactic(auto, unfolding(crate::specs::Expressions::is_tens, cn_core::specs::FigureCharacters::tens_of))]
pub fn is_tens(c: char) -> bool
    ensures { result ≡ is_tens c }
{
    matches!(c, '廿' | '卅')
}

// Whether a character is 廿, 卅 or a full-width figure.
fn is_extra_numeral(c: char) -> bool
    ensures { result ≡ (is_tens c || is_wide_figure c) }
{
    is_tens(c) || is_wide_figure(c)
}

// Whether a character, given with its mark and the text after it, is a numeral character.
#[tactic(auto, unfolding(crate::specs::Expressions::is_numeric))]
fn is_numeric(wanted: Wanted, c: char, mark: Mark, after: &str) -> bool
    requires { marked mark ≡ mark_of c }
    ensures { result ≡ is_numeric wanted c (chars after.now) }
{
    belongs(wanted, c, mark, after) || is_extra_numeral(c)
}

fn begins_numeral(wanted: Wanted, after: &str) -> bool
    ensures { result ≡ begins_numeral wanted (chars after.now) }
{
    split_first_mark(after).is_some_and(|(c, mark, others)| is_numeric(wanted, c, mark, others))
}

// Whether a character is a numeral character if nothing follows it.
fn is_numeric_alone(wanted: Wanted, c: char) -> bool
    ensures { result ≡ is_numeric wanted c [] }
{
    is_numeric(wanted, c, mark_of(c), "")
}

fn ends_numeral(wanted: Wanted, before: &str) -> bool
    ensures { result ≡ ends_numeral wanted (in_front before.now) }
{
    last_is(before, |c| is_numeric_alone(wanted, c))
}

// The tests of other crates are called in closures: one that is passed by its name gets no proof.
fn begins_figure(after: &str) -> bool
    ensures { result ≡ first_is is_figure (chars after.now) }
{
    first_is(after, |c| is_figure(c))
}

fn ends_figure(before: &str) -> bool
    ensures { result ≡ first_is is_figure (in_front before.now) }
{
    last_is(before, |c| is_figure(c))
}

// Whether a full-width figure is on each side.
fn is_between_wide(before: &str, after: &str) -> bool
    ensures { result ≡ (first_is is_wide_figure (in_front before.now)
        && first_is is_wide_figure (chars after.now)) }
{
    last_is(before, |c| is_wide_figure(c)) && first_is(after, |c| is_wide_figure(c))
}

fn begins_time(after: &str) -> bool
    ensures { result ≡ begins_time (chars after.now) }
{
    first_is(after, |c| matches!(c, '分' | '刻' | '十' | '点' | '點'))
}

fn begins_minutes(after: &str) -> bool
    ensures { result ≡ begins_minutes (chars after.now) }
{
    split_first_char(after).is_some_and(|(c, others)| {
        (digit_of(c).is_some() || is_wide_figure(c)) && begins_time(others)
    })
}

// Whether a character makes a word with a 一 before it.
#[tactic(auto, unfolding(crate::specs::Expressions::follows_one))]
fn follows_one(c: char) -> bool
    ensures { result ≡ follows_one c }
{
    matches!(
        c,
        '定' | '直' | '起' | '样' | '樣' | '些' | '下' | '切' | '滴' | '线' | '線'
    )
}

// Whether a digit after 点 begins a time or a word.
#[tactic(auto, unfolding(crate::specs::Expressions::begins_word))]
fn begins_word(c: char, after: &str) -> bool
    ensures { result ≡ begins_word c (chars after.now) }
{
    if begins_time(after) {
        return true;
    }
    match c {
        '零' | '〇' => begins_minutes(after),
        '一' => first_is(after, follows_one),
        _ => false,
    }
}

fn begins_decimals(wanted: Wanted, after: &str) -> bool
    ensures { result ≡ begins_decimals wanted (chars after.now) }
{
    split_first_mark(after).is_some_and(|(c, mark, others)| {
        is_chinese_digit(c) && is_wanted(wanted, c, mark) && !begins_word(c, others)
    })
}

// Whether the text begins with three figures and no fourth.
fn begins_group(after: &str) -> bool
    ensures { result ≡ begins_group (chars after.now) }
{
    let Some((c, after)) = split_first_char(after) else {
        return false;
    };
    let Some((d, after)) = split_first_char(after) else {
        return false;
    };
    let Some((e, after)) = split_first_char(after) else {
        return false;
    };
    is_figure(c) && is_figure(d) && is_figure(e) && !begins_figure(after)
}

// Whether the text ends with a comma and three figures.
fn ends_group(before: &str) -> bool
    ensures { result ≡ ends_group (in_front before.now) }
{
    let Some((c, before)) = split_nearest(before) else {
        return false;
    };
    let Some((d, before)) = split_nearest(before) else {
        return false;
    };
    let Some((e, before)) = split_nearest(before) else {
        return false;
    };
    is_figure(c) && is_figure(d) && is_figure(e) && last_is(before, |c| is_comma(c))
}

// Whether a figure directly after this text begins a number.
#[tactic(auto, unfolding(crate::specs::Expressions::begins_number))]
fn begins_number(c: char, before: &str) -> bool
    ensures { result ≡ begins_number c (in_front before.now) }
{
    !matches!(c, '0' | '０') && !last_is(before, |d| is_figure(d) || matches!(d, ',' | '.' | '．'))
}

// Whether the text ends with at most `most` figures, the first of which begins a number.
fn ends_head(most: usize, before: &str) -> bool
    ensures { result ≡ ends_head most (in_front before.now) }
{
    if most == 0 {
        return false;
    }
    match split_nearest(before) {
        Some((c, front)) => {
            is_figure(c) && (begins_number(c, front) || ends_head(most - 1, front))
        }
        None => false,
    }
}

fn parts_groups(before: &str, after: &str) -> bool
    ensures { result ≡ parts_groups (in_front before.now) (chars after.now) }
{
    (ends_head(3, before) || ends_group(before)) && begins_group(after)
}

fn begins_multiplier(wanted: Wanted, after: &str) -> bool
    ensures { result ≡ begins_multiplier wanted (chars after.now) }
{
    split_first_mark(after).is_some_and(|(c, mark, others)| {
        (is_unit_from(Unit::Bai, mark) && belongs(wanted, c, mark, others)) || is_share_sign(c)
    })
}

fn begins_signed(wanted: Wanted, after: &str) -> bool
    ensures { result ≡ begins_signed wanted (chars after.now) }
{
    split_first_mark(after).is_some_and(|(c, mark, others)| {
        is_numeric(wanted, c, mark, others)
            || (matches!(c, '负' | '負' | '-' | '−' | '－') && begins_numeral(wanted, others))
    })
}

fn begins_numerator(wanted: Wanted, after: &str) -> bool
    ensures { result ≡ begins_numerator wanted (chars after.now) }
{
    split_first_char(after).is_some_and(|(c, others)| c == '之' && begins_signed(wanted, others))
}

fn begins_bar(wanted: Wanted, after: &str) -> bool
    ensures { result ≡ begins_bar wanted (chars after.now) }
{
    split_first_char(after).is_some_and(|(c, others)| c == '分' && begins_numerator(wanted, others))
}

fn begins_fraction(wanted: Wanted, after: &str) -> bool
    ensures { result ≡ begins_fraction wanted (chars after.now) }
{
    let mut rest = after;
    'passing: while let Some((c, mark, others)) = split_first_mark(rest) {
        if !is_numeric(wanted, c, mark, others) {
            return false;
        }
        if begins_bar(wanted, others) {
            return true;
        }
        rest = others;
    }
    false
}

fn ends_zero(wanted: Wanted, before: &str) -> bool
    ensures { result ≡ ends_zero wanted (in_front before.now) }
{
    split_nearest(before).is_some_and(|(c, front)| c == '零' && !ends_numeral(wanted, front))
}

fn begins_degrees(wanted: Wanted, after: &str) -> bool
    ensures { result ≡ begins_degrees wanted (chars after.now) }
{
    begins_numeral(wanted, after)
        || first_is(after, |c| matches!(c, '度' | '点' | '點' | '摄' | '攝' | '℃'))
}

fn begins_below_zero(wanted: Wanted, after: &str) -> bool
    ensures { result ≡ begins_below_zero wanted (chars after.now) }
{
    split_first_mark(after).is_some_and(|(c, mark, others)| {
        (is_figure(c) || (is_wanted(wanted, c, mark) && (digit_of(c).is_some() || c == '十')))
            && (c != '一' || begins_degrees(wanted, others))
    })
}

fn ends_denominator(wanted: Wanted, before: &str) -> bool
    ensures { result ≡ ends_denominator wanted (in_front before.now) }
{
    split_nearest(before).is_some_and(|(c, front)| c == '分' && ends_numeral(wanted, front))
}

fn ends_spaced(before: &str) -> bool
    ensures { result ≡ ends_spaced (in_front before.now) }
{
    split_nearest(before).is_some_and(|(c, front)| c == ' ' && ends_figure(front))
}

// Whether a character makes a word with a 负 after it.
#[tactic(auto, unfolding(crate::specs::Expressions::precedes_minus))]
fn precedes_minus(c: char) -> bool
    ensures { result ≡ precedes_minus c }
{
    matches!(
        c,
        '正' | '非' | '背' | '揹' | '肩' | '担' | '擔' | '抱' | '胜' | '勝' | '辜' | '欺' | '自' | '不'
    )
}

#[tactic(auto, unfolding(crate::specs::Expressions::binds_minus))]
fn binds_minus(c: char) -> bool
    ensures { result ≡ binds_minus c }
{
    c.is_ascii_alphabetic()
        || matches!(
            c,
            '%' | '％' | '‰' | ')' | ']' | '}' | '_' | '.' | '．' | '/' | '\\' | '-' | '−' | '－'
        )
}

fn begins_sum(after: &str) -> bool
    ensures { result ≡ begins_sum (chars after.now) }
{
    split_first_char(after).is_some_and(|(c, others)| {
        is_figure(c) || (is_currency(c) && begins_figure(others))
    })
}

fn may_precede_minus(wanted: Wanted, before: &str) -> bool
    ensures { result ≡ may_precede_minus wanted (in_front before.now) }
{
    !ends_numeral(wanted, before) && !last_is(before, binds_minus)
}

fn ends_minus(wanted: Wanted, before: &str) -> bool
    ensures { result ≡ ends_minus wanted (in_front before.now) }
{
    split_nearest(before).is_some_and(|(c, front)| {
        is_figure_minus(c) && may_precede_minus(wanted, front)
    })
}

// Whether a character belongs to an expression because of the text around it.
#[tactic(auto, unfolding(crate::specs::Expressions::joins))]
fn joins(wanted: Wanted, before: &str, c: char, after: &str) -> bool
    ensures { result ≡ joins wanted (in_front before.now) c (chars after.now) }
{
    match c {
        '点' | '點' => {
            !ends_figure(before) && ends_numeral(wanted, before) && begins_decimals(wanted, after)
        }
        '.' | '．' => ends_figure(before) && begins_figure(after),
        ',' => parts_groups(before, after),
        '，' => parts_groups(before, after) && is_between_wide(before, after),
        ' ' => ends_figure(before) && begins_multiplier(wanted, after),
        '分' => ends_numeral(wanted, before) && begins_numerator(wanted, after),
        '之' => ends_denominator(wanted, before) && begins_signed(wanted, after),
        '%' | '％' | '‰' => ends_numeral(wanted, before) || ends_spaced(before),
        '又' => ends_numeral(wanted, before) && begins_fraction(wanted, after),
        '下' => ends_zero(wanted, before) && begins_below_zero(wanted, after),
        '负' | '負' => {
            begins_numeral(wanted, after)
                && !ends_numeral(wanted, before)
                && !last_is(before, precedes_minus)
        }
        '-' | '−' | '－' => begins_sum(after) && may_precede_minus(wanted, before),
        '¥' | '￥' => begins_figure(after) && ends_minus(wanted, before),
        _ => false,
    }
}

fn begins_counted(wanted: Wanted, after: &str) -> bool
    ensures { result ≡ begins_counted wanted (chars after.now) }
{
    split_first_mark(after).is_some_and(|(c, mark, _)| {
        is_wanted(wanted, c, mark)
            && (is_unit_from(Unit::Bai, mark) || matches!(mark, Mark::Unit(Unit::Ge)))
    })
}

#[tactic(auto, unfolding(crate::specs::Expressions::is_weight))]
fn is_weight(wanted: Wanted, before: &str, c: char, after: &str) -> bool
    ensures { result ≡ is_weight wanted (in_front before.now) c (chars after.now) }
{
    matches!(c, '两' | '兩') && ends_numeral(wanted, before) && !begins_counted(wanted, after)
}

/// Whether a character is a Han character, from U+4E00 to U+9FFF.
#[tactic(auto, unfolding(crate::specs::Expressions::is_han))]
pub fn is_han(c: char) -> bool
    ensures { result ≡ is_han c }
{
    matches!(c, '\u{4e00}'..='\u{9fff}')
}

fn begins_wan(may: bool, after: &str) -> bool
    ensures { result ≡ begins_wan may (chars after.now) }
{
    split_first_char(after).is_some_and(|(c, others)| {
        matches!(c, '万' | '萬') && (may || first_is(others, is_han))
    })
}

#[tactic(auto, unfolding(crate::specs::Expressions::is_item))]
fn is_item(wanted: Wanted, before: &str, c: char, after: &str) -> bool
    ensures { result ≡ is_item wanted (in_front before.now) c (chars after.now) }
{
    matches!(c, '个' | '個') && begins_wan(!ends_numeral(wanted, before), after)
}

fn ends_power(wanted: Wanted, before: &str) -> bool
    ensures { result ≡ ends_power wanted (in_front before.now) }
{
    last_is(before, |c| {
        let mark = mark_of(c);
        is_wanted(wanted, c, mark) && is_unit_from(Unit::Shi, mark)
    })
}

fn ends_decimals(before: &str) -> bool
    ensures { result ≡ ends_decimals (in_front before.now) }
{
    let mut rest = before;
    'passing: while let Some((c, front)) = split_nearest(rest) {
        if digit_of(c).is_none() && !is_wide_figure(c) {
            return false;
        }
        if last_is(front, |d| matches!(d, '点' | '點' | '.' | '．')) {
            return true;
        }
        rest = front;
    }
    false
}

#[tactic(auto, unfolding(crate::specs::Expressions::is_kilo))]
fn is_kilo(wanted: Wanted, before: &str, c: char, after: &str) -> bool
    ensures { result ≡ is_kilo wanted (in_front before.now) c (chars after.now) }
{
    matches!(c, '千' | '仟')
        && first_is(after, |d| {
            matches!(d, '瓦' | '克' | '米' | '卡' | '赫' | '伏' | '安' | '焦' | '帕')
        })
        && (ends_power(wanted, before) || ends_decimals(before))
}

fn is_other_word(wanted: Wanted, before: &str, c: char, after: &str) -> bool
    ensures { result ≡ is_other_word wanted (in_front before.now) c (chars after.now) }
{
    is_weight(wanted, before, c, after)
        || is_item(wanted, before, c, after)
        || is_kilo(wanted, before, c, after)
}

/// Whether a character is one that expressions treat differently from numbers.
#[inline(always)]
#[tactic(auto, unfolding(crate::specs::Expressions::is_extra))]
pub fn is_extra(c: char) -> bool
    ensures { result ≡ is_extra c }
{
    is_tens(c)
        || is_wide_figure(c)
        || matches!(
            c,
            '点' | '點'
                | '.'
                | '．'
                | ','
                | '，'
                | ' '
                | '分'
                | '之'
                | '%'
                | '％'
                | '‰'
                | '又'
                | '下'
                | '负'
                | '負'
                | '-'
                | '−'
                | '－'
                | '¥'
                | '￥'
                | '两'
                | '兩'
                | '个'
                | '個'
                | '千'
                | '仟'
        )
}

// Whether a character, given with its mark, is a numeral character and does not belong to a word
// that is not a number.
#[inline(always)]
#[tactic(auto, using(crate::proofs::Extra::unmarked))]
fn is_numeral_here(wanted: Wanted, before: &str, c: char, mark: Mark, after: &str) -> bool
    requires { marked mark ≡ mark_of c }
    ensures { result ≡ (is_numeric wanted c (chars after.now)
        && not (is_other_word wanted (in_front before.now) c (chars after.now))) }
{
    match mark {
        // Most of the characters that get here are points, commas and blanks.
        Mark::Other => is_extra_numeral(c),
        _ => is_numeric(wanted, c, mark, after) && !is_other_word(wanted, before, c, after),
    }
}

/// Whether a character, given with its mark and the text around it, belongs to an expression.
#[inline(always)]
pub fn is_of_expression(wanted: Wanted, before: &str, c: char, mark: Mark, after: &str) -> bool
    requires { marked mark ≡ mark_of c }
    ensures { result ≡ (expression_rule wanted).belongs (in_front before.now) c (chars after.now) }
{
    if is_extra(c) {
        is_numeral_here(wanted, before, c, mark, after) || joins(wanted, before, c, after)
    } else {
        belongs(wanted, c, mark, after)
    }
}

fn is_word_digit(c: char) -> bool
    ensures { result ≡ is_word_digit c }
{
    is_chinese_digit(c) || is_tens(c)
}

/// Whether two neighbouring characters belong to different expressions.
#[tactic(auto, unfolding(crate::specs::Expressions::parts_expressions))]
pub fn parts_expressions(c: char, next: char) -> bool
    ensures { result ≡ parts_expressions c next }
{
    (is_figure(c) && is_word_digit(next))
        || (is_word_digit(c) && !matches!(c, '零' | '〇') && is_figure(next))
        || is_share_sign(c)
}
