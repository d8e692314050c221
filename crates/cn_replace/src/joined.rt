// Whether two neighbours of a text are parts of one date, time, length, amount or range.
ghost use Rattle.std.specs.Prelude.{◌≡◌, chars, IsCharBoundary};
ghost use Rattle.cn_find.specs.Spans.{span_of};
ghost use Rattle.cn_replace.specs.Joined.{begins_counter, begins_word, is_between, is_counter, is_hour, is_joined_at, is_joint, is_length, is_link, is_of_amount, is_of_date, is_of_word, is_one, is_operation, is_part_unit, joins, joins_one, joins_three, joins_two};

use cn_core::split_first_char;
use cn_find::{Found, is_one_character};

#[tactic(auto, unfolding(crate::specs::Joined::is_link))]
fn is_link(c: char) -> bool
    ensures { result ≡ is_link c }
{
    matches!(c, '到' | '至' | '~' | '～' | '－' | '–' | '—' | '〜' | '-')
}

#[tactic(auto, unfolding(crate::specs::Joined::is_of_date))]
fn is_of_date(c: char) -> bool
    ensures { result ≡ is_of_date c }
{
    matches!(c, '年' | '月' | '日' | '号' | '號' | '分' | '秒' | '刻')
}

#[tactic(auto, unfolding(crate::specs::Joined::is_of_amount))]
fn is_of_amount(c: char) -> bool
    ensures { result ≡ is_of_amount c }
{
    matches!(
        c,
        '元' | '圆' | '圓' | '块' | '塊' | '角' | '毛' | '度' | '米' | '斤' | '两' | '兩'
    )
}

#[tactic(auto, unfolding(crate::specs::Joined::is_hour))]
fn is_hour(c: char) -> bool
    ensures { result ≡ is_hour c }
{
    matches!(c, '点' | '點' | '时' | '時')
}

fn is_part_unit(c: char) -> bool
    ensures { result ≡ is_part_unit c }
{
    is_of_date(c) || is_hour(c) || is_of_amount(c)
}

// Whether a character is one of those that join two neighbours, or 的.
#[tactic(auto, unfolding(crate::specs::Joined::is_joint))]
fn is_joint(c: char) -> bool
    ensures { result ≡ is_joint c }
{
    is_link(c) || is_part_unit(c) || is_between(c) || matches!(c, '小' | '个' | '個' | '钟' | '鐘' | '的')
}

#[tactic(auto, unfolding(cn_find::specs::Expressions::is_han))]
fn begins_word(after: &str) -> bool
    ensures { result ≡ begins_word (chars after.now) }
{
    match split_first_char(after) {
        Some((c, _)) => matches!(c, '\u{4e00}'..='\u{9fff}') && !is_joint(c),
        None => false,
    }
}

#[tactic(auto, unfolding(crate::specs::Joined::is_one))]
fn is_one(c: char) -> bool
    ensures { result ≡ is_one c }
{
    c == '一'
}

// Whether the text is 一 and makes a word with the text after it.
fn is_of_word(text: &str, after: &str) -> bool
    ensures { result ≡ is_of_word (chars text.now) (chars after.now) }
{
    match split_first_char(text) {
        Some((c, others)) => {
            is_one(c) && split_first_char(others).is_none() && begins_word(after)
        }
        None => false,
    }
}

#[tactic(auto, unfolding(crate::specs::Joined::is_counter))]
fn is_counter(c: char) -> bool
    ensures { result ≡ is_counter c }
{
    matches!(
        c,
        '个' | '個'
            | '件'
            | '张'
            | '張'
            | '人'
            | '名'
            | '位'
            | '只'
            | '隻'
            | '条'
            | '條'
            | '斤'
            | '份'
            | '次'
            | '瓶'
            | '包'
            | '箱'
            | '盒'
            | '本'
            | '套'
            | '台'
            | '杯'
            | '碗'
    )
}

fn begins_counter(after: &str) -> bool
    ensures { result ≡ begins_counter (chars after.now) }
{
    match split_first_char(after) {
        Some((c, _)) => is_counter(c),
        None => false,
    }
}

#[tactic(auto, unfolding(crate::specs::Joined::is_between))]
fn is_between(c: char) -> bool
    ensures { result ≡ is_between c }
{
    matches!(c, '比' | '单' | '單' | '有' | '加' | '减' | '減' | '乘' | '除')
}

fn joins_one(c: char, text: &str, after: &str) -> bool
    ensures { result ≡ joins_one c (chars text.now) (chars after.now) }
{
    is_link(c)
        || is_between(c)
        || is_hour(c)
        || (is_of_date(c) && !is_of_word(text, after))
        || (is_of_amount(c)
            && !is_of_word(text, after)
            && !(is_one_character(text) && begins_counter(after)))
}

#[tactic(auto, unfolding(crate::specs::Joined::is_length))]
fn is_length(c: char, d: char) -> bool
    ensures { result ≡ is_length c d }
{
    (c == '小' && matches!(d, '时' | '時')) || (c == '分' && matches!(d, '钟' | '鐘'))
}

#[tactic(auto, unfolding(crate::specs::Joined::is_operation))]
fn is_operation(c: char, d: char) -> bool
    ensures { result ≡ is_operation c d }
{
    (matches!(c, '乘' | '除') && d == '以') || (c == '等' && matches!(d, '于' | '於'))
}

fn joins_two(c: char, d: char) -> bool
    ensures { result ≡ joins_two c d }
{
    (is_part_unit(c) && is_link(d)) || is_length(c, d) || is_operation(c, d)
}

#[tactic(auto, unfolding(crate::specs::Joined::joins_three))]
fn joins_three(c: char, d: char, e: char) -> bool
    ensures { result ≡ joins_three c d e }
{
    matches!(c, '个' | '個') && d == '小' && matches!(e, '时' | '時')
}

fn joins(between: &str, text: &str, after: &str) -> bool
    ensures { result ≡ joins (chars between.now) (chars text.now) (chars after.now) }
{
    let Some((c, others)) = split_first_char(between) else {
        return false;
    };
    let Some((d, others)) = split_first_char(others) else {
        return joins_one(c, text, after);
    };
    let Some((e, others)) = split_first_char(others) else {
        return joins_two(c, d);
    };
    split_first_char(others).is_none() && joins_three(c, d, e)
}

/// Whether the expression that ends at this byte is joined to the next one.
#[tactic(auto, unfolding(crate::specs::Joined::is_joined_at))]
pub fn is_joined_at(end: usize, next: Found<'_>) -> bool
    requires { IsCharBoundary next.before.now end }
    ensures { result ≡ is_joined_at end (span_of next.entry) }
{
    let (_, between) = next.before.split_at(end);
    joins(between, next.text, next.after)
}
