// Why an expression may mean something else than its quantity.
ghost use Rattle.std.specs.Prelude.{◌≡◌, ◌||◌, ◌&&◌, false, true, codes, chars, is_some, List, ℕ, Option, nat_le, length};
ghost use Rattle.std.specs.Char.{char_set_contains};
ghost use Rattle.cn_core.specs.Characters.{digit_of};
ghost use Rattle.cn_find.specs.Doubt.{are_chinese_digits, are_of_name, begins_article, begins_hour, begins_plenum, begins_second, begins_some_shares, begins_tens, begins_twenties, begins_without, counts, do_rise, doubt_of, ends_hour, ends_hour_and_one, ends_in_next_word, ends_part_of_day, ends_zero_minutes, has_point, has_two_tens, is_clock_with_zero, is_doubtful_list, is_end_of_article, is_hour, is_hundredth, is_of_article, is_part, is_term, is_time, is_up_to_first, may_be_list, may_follow_amount, may_follow_decimal};
ghost use Rattle.cn_find.specs.Spans.{in_front};

use crate::belongs::is_chinese_digit;
use crate::expressions::{first_is, is_han, split_nearest};
use crate::ranges::is_end_of_range;
use crate::words::{begins_with, begins_with_two, ends_with, ends_with_two, is_of_word};
use cn_core::{digit_of, split_first_char};

/// A reason why an expression may mean something else than its quantity.
#[derive(Debug, Copy, Clone, Eq, PartialEq)]
pub enum Doubt {
    /// It is part of a word or a title, or the year of an era: 十二 of 十二指肠, 十一 of 双十一, 二十二 of
    /// 《第二十二条军规》, 四十一 of 乾隆四十一年.
    Word,
    /// It is two or three Chinese digits, or more of which none is smaller than the one before it,
    /// and so may be a list: 五一, 一二三四; or it is two numbers: 十五十六.
    Digits,
    /// It is part of a term, or the number of an article: 负二 of 负二项, 十六 of 十六进制, 二百六十四 of
    /// 第二百六十四条.
    Term,
    /// It is part of a phrase with 折, 成, 半 or a share: 八五 of 八五折, 十六 of 十六分之几, 百分之一 of
    /// 百分之一秒; or its last 一 begins the next word: 两百一 of 两百一个月.
    Part,
    /// It may be a time as well as a decimal: 三点五 after 下午.
    Time,
    /// It is one end of a range whose ends share a unit or 百分之: 3 and 5万 of 3~5万.
    Range,
}

fn begins_without(first: &[char], second: &[char], text: &str) -> bool
    ensures { result ≡ begins_without first.now second.now (chars text.now) }
{
    begins_with(first, text) && !begins_with_two(first, second, text)
}

fn are_chinese_digits(text: &str) -> bool
    ensures { result ≡ are_chinese_digits (chars text.now) }
{
    let mut rest = text;
    'looking: while let Some((c, others)) = split_first_char(rest) {
        if !is_chinese_digit(c) {
            return false;
        }
        rest = others;
    }
    true
}

// Whether the text has at most `most` characters.
fn has_at_most(most: usize, text: &str) -> bool
    ensures { result ≡ nat_le (length (chars text.now)) most }
{
    match split_first_char(text) {
        Some((_, others)) => most > 0 && has_at_most(most - 1, others),
        None => true,
    }
}

// Whether the first digit of the text is at least `value`, if both are digits.
fn is_up_to_first(value: Option<u8>, text: &str) -> bool
    ensures { result ≡ is_up_to_first value (chars text.now) }
{
    let Some((c, _)) = split_first_char(text) else {
        return true;
    };
    match (value, digit_of(c)) {
        (Some(value), Some(next)) => value <= next,
        _ => true,
    }
}

fn do_rise(text: &str) -> bool
    ensures { result ≡ do_rise (chars text.now) }
{
    let mut rest = text;
    'looking: while let Some((c, others)) = split_first_char(rest) {
        if !is_up_to_first(digit_of(c), others) {
            return false;
        }
        rest = others;
    }
    true
}

// Whether the text begins with a digit and 十.
fn begins_tens(text: &str) -> bool
    ensures { result ≡ begins_tens (chars text.now) }
{
    split_first_char(text).is_some_and(|(c, others)| is_chinese_digit(c)
        && begins_with(&['十'], others))
}

// Whether the text has 十, a digit and 十 one after another.
fn has_two_tens(text: &str) -> bool
    ensures { result ≡ has_two_tens (chars text.now) }
{
    let mut rest = text;
    'looking: while let Some((c, others)) = split_first_char(rest) {
        if c == '十' && begins_tens(others) {
            return true;
        }
        rest = others;
    }
    false
}

fn may_be_list(text: &str) -> bool
    ensures { result ≡ may_be_list (chars text.now) }
{
    are_chinese_digits(text)
        && !has_at_most(1, text)
        && (has_at_most(3, text) || (do_rise(text) && !begins_with(&['零', '〇'], text)))
}

fn are_of_name(before: &str, text: &str, after: &str) -> bool
    ensures { result ≡ are_of_name (in_front before.now) (chars text.now) (chars after.now) }
{
    begins_without(&['年'], &['级', '級'], after)
        || begins_with(&['号', '號', '室', '房', '办', '辦'], after)
        || ends_with(&['楼', '樓', '栋', '棟', '座', '幢', '号', '號', '码', '碼'], before)
        || (begins_with(&['零', '〇'], text)
            && ends_with(&['点', '點', '分', '时', '時'], before)
            && begins_with(&['分', '秒'], after))
}

fn is_doubtful_list(before: &str, text: &str, after: &str) -> bool
    ensures { result ≡ is_doubtful_list (in_front before.now) (chars text.now) (chars after.now) }
{
    has_two_tens(text) || (may_be_list(text) && !are_of_name(before, text, after))
}

fn has_point(text: &str) -> bool
    ensures { result ≡ has_point (chars text.now) }
{
    let mut rest = text;
    'looking: while let Some((c, others)) = split_first_char(rest) {
        if matches!(c, '点' | '點') {
            return true;
        }
        rest = others;
    }
    false
}

fn begins_plenum(after: &str) -> bool
    ensures { result ≡ begins_plenum (chars after.now) }
{
    let Some((c, others)) = split_first_char(after) else {
        return false;
    };
    let Some((d, others)) = split_first_char(others) else {
        return false;
    };
    matches!(c, '届' | '屆') && is_chinese_digit(d) && begins_with(&['中'], others)
}

// Whether an article of a law, or a national congress or census, goes on with this text.
fn begins_article(after: &str) -> bool
    ensures { result ≡ begins_article (chars after.now) }
{
    split_first_char(after).is_some_and(|(c, others)| {
        (matches!(c, '条' | '條') && is_end_of_article(others))
            || (c == '次' && begins_with(&['全'], others))
    })
}

// Whether what is after 条 is no word that 条 counts.
fn is_end_of_article(others: &str) -> bool
    ensures { result ≡ is_end_of_article (chars others.now) }
{
    !first_is(others, |c| is_han(c))
        || begins_with(
            &['第', '之', '规', '規', '和', '及', '与', '與', '或', '至', '到'],
            others,
        )
}

// Whether the text is the number of an article after 第.
fn is_of_article(before: &str, after: &str) -> bool
    ensures { result ≡ is_of_article (in_front before.now) (chars after.now) }
{
    ends_with(&['第'], before) && begins_article(after)
}

// The first character after the expression selects the test, so that it is decoded once.
fn is_term(text: &str, after: &str) -> bool
    ensures { result ≡ is_term (chars text.now) (chars after.now) }
{
    let Some((c, others)) = split_first_char(after) else {
        return false;
    };
    match c {
        '项' | '項' | '楼' | '樓' | '层' | '層' => begins_with(&['负', '負'], text),
        '划' | '劃' | '线' | '線' => has_point(text),
        '进' | '進' => begins_with(&['制', '位'], others),
        '届' | '屆' => begins_plenum(after),
        _ => false,
    }
}

// What can be between an expression and 半, as in 两倍半 and 一米半.
const BEFORE_HALF: &[char] = &[
    '个', '個', '倍', '天', '岁', '歲', '里', '年', '月', '日', '号', '號', '點', '点', '时', '時', '分', '秒', '刻',
    '元', '圆', '圓', '块', '塊', '角', '毛', '度', '米', '斤', '两', '兩',
];

// Whether the text is a percentage before a unit: 百分之一 of 百分之一秒.
fn is_hundredth(text: &str, after: &str) -> bool
    ensures { result ≡ is_hundredth (chars text.now) (chars after.now) }
{
    begins_with(&['秒', '毫', '厘', '釐', '克'], after) && begins_with_two(&['百'], &['分'], text)
}

// Whether the text begins with 分之几.
fn begins_some_shares(after: &str) -> bool
    ensures { result ≡ begins_some_shares (chars after.now) }
{
    split_first_char(after).is_some_and(|(c, others)| {
        c == '分' && begins_with_two(&['之'], &['几', '幾'], others)
    })
}

fn is_part(text: &str, after: &str) -> bool
    ensures { result ≡ is_part (chars text.now) (chars after.now) }
{
    let Some((c, others)) = split_first_char(after) else {
        return false;
    };
    match c {
        '折' => !begins_with(&['算', '合', '旧', '舊', '叠', '疊', '磨', '返'], others),
        '成' => are_chinese_digits(text) && has_at_most(2, text),
        _ => {
            begins_with_two(BEFORE_HALF, &['半'], after)
                || is_hundredth(text, after)
                || begins_some_shares(after)
        }
    }
}

// Whether a character is a Chinese digit from 1 to 9.
fn counts(c: char) -> bool
    ensures { result ≡ counts c }
{
    is_chinese_digit(c) && !matches!(c, '零' | '〇')
}

// Whether the text is an hour from 一 to 二十四.
fn is_hour(text: &str) -> bool
    ensures { result ≡ is_hour (in_front text.now) }
{
    let Some((last, before)) = split_nearest(text) else {
        return false;
    };
    let Some((middle, front)) = split_nearest(before) else {
        return counts(last) || last == '十';
    };
    let Some((first, rest)) = split_nearest(front) else {
        return (middle == '十' && counts(last))
            || (matches!(middle, '二' | '两' | '兩') && last == '十');
    };
    split_nearest(rest).is_none()
        && first == '二'
        && middle == '十'
        && matches!(last, '一' | '二' | '三' | '四')
}

fn ends_hour(text: &str) -> bool
    ensures { result ≡ ends_hour (in_front text.now) }
{
    split_nearest(text).is_some_and(|(c, before)| matches!(c, '点' | '點') && is_hour(before))
}

// What can be directly after a whole amount that ends with an elided unit, as in 两百一的.
const AFTER_AMOUNT: &[char] = &[
    '的', '了', '吧', '吗', '嗎', '嘛', '呢', '啊', '么', '麼', '左', '以', '之', '和', '与', '與', '或', '就', '也',
    '都', '还', '還',
];

// What else can be directly after a decimal that reads as an hour and 一, as in 三点一米.
const AFTER_DECIMAL: &[char] = &[
    '米', '公', '里', '升', '倍', '元', '圆', '圓', '级', '級', '度', '克', '吨', '噸', '斤', '尺', '寸', '吋', '厘',
    '釐', '毫', '微', '海', '英', '美', '欧', '歐', '港', '平', '立', '亩', '畝', '秒', '岁', '歲', '环', '環', '千',
    '兆', '瓦', '伏', '版',
];

const UP_TO_TEN: &[char] = &['一', '二', '两', '兩', '三', '四', '五', '六', '七', '八', '九', '十'];

// Whether the text may be after a whole amount.
fn may_follow_amount(after: &str) -> bool
    ensures { result ≡ may_follow_amount (chars after.now) }
{
    !first_is(after, |c| is_han(c))
        || begins_with(AFTER_AMOUNT, after)
        || begins_with_two(&['到', '至'], UP_TO_TEN, after)
}

// Whether the text may be after a decimal.
fn may_follow_decimal(after: &str) -> bool
    ensures { result ≡ may_follow_decimal (chars after.now) }
{
    may_follow_amount(after)
        || begins_with(AFTER_DECIMAL, after)
        || begins_with_two(&['个', '個', '声', '聲'], &['百', '点', '點', '道'], after)
}

fn ends_hour_and_one(text: &str) -> bool
    ensures { result ≡ ends_hour_and_one (in_front text.now) }
{
    split_nearest(text).is_some_and(|(c, before)| c == '一' && ends_hour(before))
}

/// Whether the last character of an expression is a 一 that begins the next word, as in 两百一个月. Such an
/// expression has the doubt `Part`; the rules are those of docs/RULES.md, "Doubt".
///
/// ```text
/// ends_in_next_word("两百一", "个月")
/// !ends_in_next_word("两百一", "的")
/// ```
pub fn ends_in_next_word(text: &str, after: &str) -> bool
    ensures { result ≡ ends_in_next_word (chars text.now) (chars after.now) }
{
    (ends_with_two(&['一'], &['百', '千', '万', '萬', '亿', '億', '兆'], text) && !may_follow_amount(after))
        || (ends_hour_and_one(text) && !may_follow_decimal(after))
        || (ends_with(&['一'], text)
            && !has_at_most(1, text)
            && begins_with(&['共', '直', '定', '旦', '律'], after))
}

fn ends_zero_minutes(text: &str) -> bool
    ensures { result ≡ ends_zero_minutes (in_front text.now) }
{
    split_nearest(text).is_some_and(|(c, before)| matches!(c, '零' | '〇') && ends_hour(before))
}

// Whether an hour of two characters, of which this is the first, and 点 begin here.
fn begins_second(first: char, others: &str) -> bool
    ensures { result ≡ begins_second first (chars others.now) }
{
    split_first_char(others).is_some_and(|(second, rest)| {
        ((first == '十' && counts(second)) || (matches!(first, '二' | '两' | '兩') && second == '十'))
            && begins_with(&['点', '點'], rest)
    })
}

// Whether the rest of an hour from 二十一 to 二十四 and 点 begin the text.
fn begins_twenties(others: &str) -> bool
    ensures { result ≡ begins_twenties (chars others.now) }
{
    split_first_char(others).is_some_and(|(second, rest)| {
        second == '十' && begins_with_two(&['一', '二', '三', '四'], &['点', '點'], rest)
    })
}

// Whether an hour and 点 begin the text.
fn begins_hour(text: &str) -> bool
    ensures { result ≡ begins_hour (chars text.now) }
{
    let Some((first, others)) = split_first_char(text) else {
        return false;
    };
    if begins_with(&['点', '點'], others) {
        return counts(first) || first == '十';
    }
    begins_second(first, others) || (first == '二' && begins_twenties(others))
}

fn is_clock_with_zero(text: &str) -> bool
    ensures { result ≡ is_clock_with_zero (in_front text.now) }
{
    split_nearest(text).is_some_and(|(c, before)| counts(c) && ends_zero_minutes(before))
}

fn ends_part_of_day(before: &str) -> bool
    ensures { result ≡ ends_part_of_day (in_front before.now) }
{
    ends_with(&['午', '晨', '早', '晚', '夜'], before) || ends_with_two(&['上'], &['早', '晚'], before)
}

fn is_time(before: &str, text: &str, after: &str) -> bool
    ensures { result ≡ is_time (in_front before.now) (chars text.now) (chars after.now) }
{
    (begins_hour(text) && ends_part_of_day(before))
        || (is_clock_with_zero(text)
            && !begins_with(&['元', '米', '度', '倍', '吨', '噸', '克', '升'], after))
}

/// The reason why an expression between these texts may mean something else than its quantity;
/// `None` if nothing suggests that. The rules are those of docs/RULES.md, "Doubt".
///
/// ```text
/// doubt_of("", "五一", "假期") == Some(Doubt::Digits)
/// doubt_of("", "三点五", "米") == None
/// ```
pub fn doubt_of(before: &str, text: &str, after: &str) -> Option<Doubt>
    ensures { result ≡ doubt_of before.now text.now after.now }
{
    if is_part(text, after) || ends_in_next_word(text, after) {
        return Some(Doubt::Part);
    }
    if is_of_word(before, text, after) {
        return Some(Doubt::Word);
    }
    if is_doubtful_list(before, text, after) {
        return Some(Doubt::Digits);
    }
    if is_term(text, after) || is_of_article(before, after) {
        return Some(Doubt::Term);
    }
    if is_time(before, text, after) {
        return Some(Doubt::Time);
    }
    if is_end_of_range(before, text, after) {
        return Some(Doubt::Range);
    }
    None
}
