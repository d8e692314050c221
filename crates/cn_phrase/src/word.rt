// The words of phrases.
ghost use Rattle.std.specs.Prelude.{◌≡◌, chars};
ghost use Rattle.std.specs.Char.{char_set_contains};
ghost use Rattle.std.specs.Option.{option_map};
ghost use Rattle.cn_phrase.specs.Words.{after_any, after_beginning, after_early, after_half_day, after_halved, after_hour_word, after_one, after_part_of_month, after_two, after_week, after_weekday, after_with_zhong, after_word};

use cn_core::split_first_char;
use cn_find::is_one_of;

/// A word of phrases; most can be written in several ways.
#[derive(Debug, Copy, Clone, PartialEq, Eq)]
pub enum Word {
    /// 年
    Nian,
    /// 月
    Yue,
    /// 日, 号
    Ri,
    /// 点
    Dian,
    /// 点, 时
    Shi,
    /// 分
    Fen,
    /// 秒
    Miao,
    /// 半
    Half,
    /// 刻
    Ke,
    /// A colon.
    Colon,
    /// `-`
    Dash,
    /// `/`
    Slash,
    /// 比
    Bi,
    /// 米, 度, 秒, before decimals
    Mi,
    /// 到, 至, a dash
    Link,
    /// 小时, 个小时, 钟头
    Hours,
    /// 分, 分钟
    Minutes,
    /// 秒, 秒钟
    Seconds,
    /// 个半 and a word such as 小时
    HalfOf,
    /// A unit and 半, such as 年半
    HalfAfter,
    /// A part of a month, such as 底
    PartOfMonth,
    /// A word of half a day, such as 下午
    HalfDay,
    /// A weekday, such as 周五
    Weekday,
}

/// The text after its first character, if that is one of these: after 元 it is 五角 of 元五角. `None` if it
/// is not.
pub fn after_one<'a>(these: &[char], text: &'a str) -> Option<&'a str>
    ensures { option_map (λ rest. chars rest.now) result ≡ after_one these.now (chars text.now) }
{
    let (c, rest) = split_first_char(text)?;
    if is_one_of(these, c) {
        Some(rest)
    } else {
        None
    }
}

/// The text after its first two characters, if they are one of the first and one of the second:
/// after 分, 秒 and 钟 it is the rest of 分钟后. `None` if they are not.
pub fn after_two<'a>(first: &[char], second: &[char], text: &'a str) -> Option<&'a str>
    ensures { option_map (λ rest. chars rest.now) result
        ≡ after_two first.now second.now (chars text.now) }
{
    after_one(second, after_one(first, text)?)
}

/// The text after a character, if there is one of these, or the text itself.
pub fn after_any<'a>(these: &[char], text: &'a str) -> &'a str
    ensures { chars result.now ≡ after_any these.now (chars text.now) }
{
    match after_one(these, text) {
        Some(rest) => rest,
        None => text,
    }
}

fn after_hour_word(text: &str) -> Option<&str>
    ensures { option_map (λ rest. chars rest.now) result ≡ after_hour_word (chars text.now) }
{
    match after_two(&['小'], &['时', '時'], text) {
        Some(rest) => Some(rest),
        None => after_two(&['钟', '鐘'], &['头', '頭'], text),
    }
}

/// The text after a word that 半 can be before, such as 小时 in 一个半小时. `None` if the text does not
/// begin with such a word.
pub fn after_halved(text: &str) -> Option<&str>
    ensures { option_map (λ rest. chars rest.now) result ≡ after_halved (chars text.now) }
{
    if let Some(rest) = after_hour_word(text) {
        return Some(rest);
    }
    if let Some(rest) = after_one(&['月'], text) {
        return Some(rest);
    }
    if let Some(rest) = after_two(&['星'], &['期'], text) {
        return Some(rest);
    }
    if let Some(rest) = after_two(&['礼', '禮'], &['拜'], text) {
        return Some(rest);
    }
    after_two(&['世'], &['纪', '紀'], text)
}

// The text after 早 or 晚, but not before 一点: 早一点 is no time of day.
fn after_early(text: &str) -> Option<&str>
    ensures { option_map (λ rest. chars rest.now) result ≡ after_early (chars text.now) }
{
    let rest = after_one(&['早', '晚'], text)?;
    if after_two(&['一'], &['点', '點'], rest).is_some() {
        None
    } else {
        Some(rest)
    }
}

// The text after a word of half a day.
#[tactic(auto, unfolding(crate::specs::Words::after_half_day))]
fn after_half_day(text: &str) -> Option<&str>
    ensures { option_map (λ rest. chars rest.now) result ≡ after_half_day (chars text.now) }
{
    if let Some(rest) = after_two(&['凌', '清', '早'], &['晨'], text) {
        return Some(rest);
    }
    if let Some(rest) = after_two(&['上', '中', '下', '正'], &['午'], text) {
        return Some(rest);
    }
    if let Some(rest) = after_two(&['傍'], &['晚'], text) {
        return Some(rest);
    }
    if let Some(rest) = after_two(&['今', '明', '昨', '当', '當'], &['早', '晚', '晨'], text) {
        return Some(rest);
    }
    if let Some(rest) = after_two(&['深', '半', '午'], &['夜'], text) {
        return Some(rest);
    }
    if let Some(rest) = after_two(&['早', '晚'], &['上'], text) {
        return Some(rest);
    }
    if let Some(rest) = after_two(&['夜', '晚'], &['里', '裡', '间', '間'], text) {
        return Some(rest);
    }
    if let Some(rest) = after_two(&['午'], &['后', '後'], text) {
        return Some(rest);
    }
    after_early(text)
}

// The text after 初, but not before a day of the moon's calendar, such as 初三.
fn after_beginning(text: &str) -> Option<&str>
    ensures { option_map (λ rest. chars rest.now) result ≡ after_beginning (chars text.now) }
{
    let rest = after_one(&['初'], text)?;
    if after_one(&['一', '二', '三', '四', '五', '六', '七', '八', '九', '十'], rest).is_some() {
        None
    } else {
        Some(rest)
    }
}

// The text after a part of a month.
fn after_part_of_month(text: &str) -> Option<&str>
    ensures { option_map (λ rest. chars rest.now) result ≡ after_part_of_month (chars text.now) }
{
    if let Some(rest) = after_one(&['底', '份', '末'], text) {
        return Some(rest);
    }
    if let Some(rest) = after_two(&['上', '中', '下'], &['旬'], text) {
        return Some(rest);
    }
    after_beginning(text)
}

// The text after 周, 星期 or 礼拜.
fn after_week(text: &str) -> Option<&str>
    ensures { option_map (λ rest. chars rest.now) result ≡ after_week (chars text.now) }
{
    if let Some(rest) = after_one(&['周', '週'], text) {
        return Some(rest);
    }
    if let Some(rest) = after_two(&['星'], &['期'], text) {
        return Some(rest);
    }
    after_two(&['礼', '禮'], &['拜'], text)
}

// The text after a weekday.
#[tactic(auto, unfolding(crate::specs::Words::after_weekday))]
fn after_weekday(text: &str) -> Option<&str>
    ensures { option_map (λ rest. chars rest.now) result ≡ after_weekday (chars text.now) }
{
    after_one(&['一', '二', '三', '四', '五', '六'], after_week(text)?)
}

// The text after a word with 钟 or without.
fn after_with_zhong<'a>(word: char, text: &'a str) -> Option<&'a str>
    ensures { option_map (λ rest. chars rest.now) result ≡ after_with_zhong word (chars text.now) }
{
    if let Some(rest) = after_two(&[word], &['钟', '鐘'], text) {
        return Some(rest);
    }
    after_one(&[word], text)
}

impl Word {
    /// The text after this word, if it begins with it.
    pub fn after(self, text: &str) -> Option<&str>
        ensures { option_map (λ rest. chars rest.now) result ≡ after_word self (chars text.now) }
    {
        match self {
            Word::Nian => after_one(&['年'], text),
            Word::Yue => after_one(&['月'], text),
            Word::Ri => after_one(&['日', '号', '號'], text),
            Word::Dian => after_one(&['点', '點'], text),
            Word::Shi => after_one(&['点', '點', '时', '時'], text),
            Word::Fen => after_one(&['分'], text),
            Word::Miao => after_one(&['秒'], text),
            Word::Half => after_one(&['半'], text),
            Word::Ke => after_one(&['刻'], text),
            Word::Colon => after_one(&[':', '：'], text),
            Word::Dash => after_one(&['-'], text),
            Word::Slash => after_one(&['/'], text),
            Word::Bi => after_one(&['比'], text),
            Word::Mi => after_one(&['米', '度', '秒'], text),
            Word::Link => after_one(&['到', '至', '~', '～', '－', '–', '—', '〜', '-'], text),
            Word::Hours => after_hour_word(after_any(&['个', '個'], text)),
            Word::Minutes => after_with_zhong('分', text),
            Word::Seconds => after_with_zhong('秒', text),
            Word::HalfOf => after_halved(after_two(&['个', '個'], &['半'], text)?),
            Word::HalfAfter => after_two(
                &[
                    '年', '天', '周', '週', '岁', '歲', '斤', '里', '吨', '噸', '倍', '米', '度',
                ],
                &['半'],
                text,
            ),
            Word::PartOfMonth => after_part_of_month(text),
            Word::HalfDay => after_half_day(text),
            Word::Weekday => after_weekday(text),
        }
    }
}
