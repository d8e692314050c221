// Words that contain a number but do not mean it.
ghost use Rattle.std.specs.Prelude.{◌≡◌, ◌||◌, codes, chars};
ghost use Rattle.std.specs.Char.{char_set_contains};
ghost use Rattle.cn_find.specs.Belongs.{begins_with};
ghost use Rattle.cn_find.specs.Spans.{in_front};
ghost use Rattle.cn_find.specs.Private.{may_begin_word};
ghost use Rattle.cn_find.specs.Words.{begins_weekday, begins_with_two, begins_word, ends_era, ends_old_calendar, ends_week, ends_word, is_exactly, is_named_group, is_of_history, is_of_title, is_of_word, is_saying, is_saying_of_tens, is_ten_thousand, is_title, is_title_open, is_word_by_itself};

use crate::expressions::{first_is, is_han, last_is, split_nearest};
use cn_core::{is_figure, split_first_char};

/// Whether a character is one of a set.
pub fn is_one_of(set: &[char], c: char) -> bool
    ensures { result ≡ char_set_contains set.now c }
{
    match set.split_first() {
        Some((first, others)) => *first == c || is_one_of(others, c),
        None => false,
    }
}

/// Whether the text begins with a character of the set.
pub fn begins_with(set: &[char], text: &str) -> bool
    ensures { result ≡ begins_with set.now (chars text.now) }
{
    first_is(text, |c| is_one_of(set, c))
}

/// Whether the text ends with a character of the set.
pub fn ends_with(set: &[char], before: &str) -> bool
    ensures { result ≡ begins_with set.now (in_front before.now) }
{
    last_is(before, |c| is_one_of(set, c))
}

/// Whether the text begins with a character of the first set and one of the second.
pub fn begins_with_two(first: &[char], second: &[char], text: &str) -> bool
    ensures { result ≡ begins_with_two first.now second.now (chars text.now) }
{
    split_first_char(text).is_some_and(|(c, others)| {
        begins_with(second, others) && is_one_of(first, c)
    })
}

/// Whether the last character is one of the first set, and the one before it one of the second set.
pub fn ends_with_two(first: &[char], second: &[char], before: &str) -> bool
    ensures { result ≡ begins_with_two first.now second.now (in_front before.now) }
{
    split_nearest(before).is_some_and(|(c, front)| is_one_of(first, c) && ends_with(second, front))
}

/// Whether the text consists of exactly these characters.
pub fn is_exactly(these: &[char], text: &str) -> bool
    ensures { result ≡ is_exactly these.now (chars text.now) }
{
    match (these.split_first(), split_first_char(text)) {
        (None, None) => true,
        (Some((c, others)), Some((d, rest))) => *c == d && is_exactly(others, rest),
        _ => false,
    }
}

fn is_named_group(text: &str, after: &str) -> bool
    ensures { result ≡ is_named_group (chars text.now) (chars after.now) }
{
    (is_exactly(&['十', '二'], text)
        && (begins_with_two(&['指'], &['肠', '腸'], after)
            || begins_with_two(&['生'], &['肖'], after)
            || begins_with_two(&['月'], &['党', '黨'], after)))
        || (is_exactly(&['十', '八'], text)
            && (begins_with(&['般', '大'], after)
                || begins_with_two(&['罗', '羅'], &['汉', '漢'], after)
                || begins_with_two(&['层', '層'], &['地'], after)))
        || ((is_exactly(&['十', '九'], text) || is_exactly(&['二', '十'], text))
            && (begins_with(&['大'], after) || begins_with_two(&['国', '國'], &['集'], after)))
        || (is_exactly(&['十', '一'], text)
            && (begins_with(&['放', '回', '去', '再', '出'], after)
                || begins_with_two(&['假'], &['期'], after)
                || begins_with_two(&['长', '長'], &['假'], after)
                || begins_with_two(&['黄', '黃'], &['金'], after)))
}

fn is_title(text: &str, after: &str) -> bool
    ensures { result ≡ is_title (chars text.now) (chars after.now) }
{
    (is_exactly(&['三', '十', '六'], text) && begins_with(&['计', '計'], after))
        || (is_exactly(&['七', '十', '二'], text) && begins_with(&['变', '變', '行'], after))
        || (is_exactly(&['三', '百', '六', '十'], text) && begins_with(&['行'], after))
        || (is_exactly(&['二', '十', '四'], text)
            && (begins_with(&['史'], after) || begins_with_two(&['节', '節'], &['气', '氣'], after)))
        || (is_exactly(&['二', '十', '八'], text) && begins_with(&['宿'], after))
        || (is_exactly(&['十', '三'], text) && begins_with(&['陵', '妹'], after))
        || (is_exactly(&['一', '千', '零', '一'], text) && begins_with(&['夜'], after))
        || (is_exactly(&['二', '八'], text) && begins_with_two(&['年'], &['华', '華'], after))
}

// Whether the text is 十万 or 十萬.
fn is_hundred_thousand(text: &str) -> bool
    ensures { result ≡ (is_exactly (codes "十万") (chars text.now)
        || is_exactly (codes "十萬") (chars text.now)) }
{
    is_exactly(&['十', '万'], text) || is_exactly(&['十', '萬'], text)
}

fn is_word_by_itself(text: &str) -> bool
    ensures { result ≡ is_word_by_itself (chars text.now) }
{
    is_exactly(&['二', '百', '五'], text)
        || is_exactly(&['亿', '万'], text)
        || is_exactly(&['億', '萬'], text)
}

fn is_saying_of_tens(text: &str, after: &str) -> bool
    ensures { result ≡ is_saying_of_tens (chars text.now) (chars after.now) }
{
    (is_exactly(&['三', '十'], text)
        && (begins_with_two(&['而'], &['立'], after) || begins_with_two(&['年'], &['河'], after)))
        || (is_exactly(&['四', '十'], text) && begins_with_two(&['不'], &['惑'], after))
        || (is_exactly(&['五', '十'], text) && begins_with_two(&['步'], &['笑'], after))
        || (is_exactly(&['十', '五'], text) && begins_with_two(&['个', '個', '只', '隻'], &['吊'], after))
}

fn is_saying(text: &str, after: &str) -> bool
    ensures { result ≡ is_saying (chars text.now) (chars after.now) }
{
    (is_hundred_thousand(text) && begins_with_two(&['火'], &['急'], after))
        || ((is_exactly(&['十', '万', '八', '千'], text) || is_exactly(&['十', '萬', '八', '千'], text))
            && begins_with(&['里'], after))
        || (is_exactly(&['一', '千'], text) && begins_with_two(&['道'], &['一'], after))
        || is_saying_of_tens(text, after)
        || is_word_by_itself(text)
}

fn is_ten_thousand(text: &str) -> bool
    ensures { result ≡ is_ten_thousand (chars text.now) }
{
    is_exactly(&['一', '万'], text) || is_exactly(&['一', '萬'], text)
}

fn ends_word(before: &str, text: &str) -> bool
    ensures { result ≡ ends_word (in_front before.now) (chars text.now) }
{
    let Some((c, front)) = split_nearest(before) else {
        return false;
    };
    match c {
        '双' | '雙' => is_exactly(&['十', '一'], text) || is_exactly(&['十', '二'], text),
        '年' => is_exactly(&['三', '十'], text),
        '初' => is_exactly(&['一', '十', '五'], text),
        '道' => ends_with(&['千'], front) && is_ten_thousand(text),
        '月' => ends_with(&['正', '腊', '臘'], front),
        _ => false,
    }
}

// Whether a Chinese era ends the text.
fn ends_era(before: &str) -> bool
    ensures { result ≡ ends_era (in_front before.now) }
{
    let Some((c, front)) = split_nearest(before) else {
        return false;
    };
    match c {
        '熙' => ends_with(&['康'], front),
        '正' => ends_with(&['雍'], front),
        '隆' => ends_with(&['乾'], front),
        '庆' | '慶' | '靖' => ends_with(&['嘉'], front),
        '光' => ends_with(&['道'], front),
        '丰' | '豐' => ends_with(&['咸', '元'], front),
        '治' => ends_with(&['同', '顺', '順'], front),
        '绪' | '緒' => ends_with(&['光'], front),
        '统' | '統' => ends_with(&['宣', '正'], front),
        '武' => ends_with(&['洪', '建'], front),
        '乐' | '樂' => ends_with(&['永'], front),
        '历' | '曆' => ends_with(&['万', '萬', '大', '庆', '慶'], front),
        '祯' | '禎' => ends_with(&['崇'], front),
        '观' | '觀' => ends_with(&['贞', '貞'], front),
        '元' => ends_with(&['开', '開'], front),
        '宝' | '寶' => ends_with(&['天'], front),
        '国' => ends_with(&['民'], front),
        _ => false,
    }
}

// How many characters before a number are searched for the start of a title.
const TITLE: usize = 40;

// Whether a title can have the character: it is a Chinese character, a figure, a letter or one of a few
// signs.
fn is_of_title(c: char) -> bool
    ensures { result ≡ is_of_title c }
{
    is_han(c)
        || is_figure(c)
        || c.is_ascii_alphabetic()
        || is_one_of(&[' ', ',', '，', '、', '-', '.', '〇'], c)
}

/// Whether a title between 《 and 》 has begun before the end of the text, and has not ended.
pub fn is_title_open(before: &str) -> bool
    ensures { result ≡ is_title_open 40 (in_front before.now) }
{
    let mut rest = before;
    let mut left = TITLE;
    'looking: while let Some((c, front)) = split_nearest(rest) {
        if left == 0 {
            return false;
        }
        if is_one_of(&['《'], c) {
            return true;
        }
        if !is_of_title(c) {
            return false;
        }
        rest = front;
        left -= 1;
    }
    false
}

/// Whether a year after this text is one of an era, or a day after it one of the moon's calendar.
pub fn ends_old_calendar(before: &str) -> bool
    ensures { result ≡ ends_old_calendar (in_front before.now) }
{
    ends_era(before)
        || ends_with_two(
            &['历', '曆'],
            &['农', '農', '阴', '陰', '旧', '舊', '夏', '藏', '老'],
            before,
        )
}

/// Whether the text ends with 周, 星期 or 礼拜.
pub fn ends_week(before: &str) -> bool
    ensures { result ≡ ends_week (in_front before.now) }
{
    ends_with(&['周', '週'], before)
        || ends_with_two(&['期'], &['星'], before)
        || ends_with_two(&['拜'], &['礼', '禮'], before)
}

// Whether the text begins with a weekday, and goes on.
fn begins_weekday(text: &str) -> bool
    ensures { result ≡ begins_weekday (chars text.now) }
{
    split_first_char(text).is_some_and(|(c, rest)| {
        is_one_of(&['一', '二', '三', '四', '五', '六'], c) && split_first_char(rest).is_some()
    })
}

// Whether a number between these texts is the year of an era, or is in a title.
fn is_of_history(before: &str, after: &str) -> bool
    ensures { result ≡ is_of_history (in_front before.now) (chars after.now) }
{
    is_title_open(before) || (begins_with(&['年'], after) && ends_era(before))
}

fn begins_word(text: &str, after: &str) -> bool
    ensures { result ≡ begins_word (chars text.now) (chars after.now) }
{
    is_named_group(text, after) || is_title(text, after) || is_saying(text, after)
}

// Whether the text begins with two characters with which some word begins. Most numbers in a text
// do not.
fn may_begin_word(text: &str) -> bool
    ensures { result ≡ may_begin_word (chars text.now) }
{
    begins_with_two(
        &['十', '二', '三', '七', '一', '四', '五', '亿', '億'],
        &[
            '十', '百', '千', '万', '萬', '一', '二', '三', '四', '五', '六', '八', '九',
        ],
        text,
    )
}

/// Whether a number between these texts is part of a word, as 十二 of 十二指肠 and 十一 of 双十一
/// are, part of a title, or the year of an era.
#[tactic(auto, using(crate::proofs::WordStarts::begins_none))]
pub fn is_of_word(before: &str, text: &str, after: &str) -> bool
    ensures { result ≡ is_of_word (in_front before.now) (chars text.now) (chars after.now) }
{
    ends_word(before, text)
        || (begins_weekday(text) && ends_week(before))
        || is_of_history(before, after)
        || (may_begin_word(text) && begins_word(text, after))
}
