// Sums of money in a text, such as 三块五, 三元五角 and ￥3.50.
ghost use Rattle.std.specs.Prelude.{◌≡◌, ◌<◌, ◌^◌, [], chars, is_some, encode_utf8_all, IfSome};
ghost use Rattle.std.specs.Option.{option_map};
ghost use Rattle.cn_core.specs.declared.method.ChineseCountMethod.TheVariants.{TenThousand};
ghost use Rattle.cn_find.specs.Expressions.{is_han};
ghost use Rattle.cn_find.specs.Spans.{in_front, span_of};
ghost use Rattle.cn_quantity.specs.Reading.{quantity_answer};
ghost use Rattle.cn_replace.specs.Clings.{clings};
ghost use Rattle.cn_replace.specs.Pieces.{begins};
ghost use Rattle.cn_phrase.specs.Money.{after_digit, after_fen, after_jiao, after_kuai, after_last, after_last_jiao, after_small_jiao, after_yuan, alone, begins_count, begins_first_month, begins_next_word, begins_one, below_most, counted, digit_at, digit_of, fen_after, fen_at, fen_digit, goes_on, is_amount, is_next_word, is_no_yuan, is_one, is_particle, is_point, is_priced, is_share, is_sign, jiao_at, may_be_alone, may_end, money_of, open_digit, parts_at, signed, single_digit, tail_alone, tail_at, tail_by, tail_of, tail_of_digit, tail_of_yuan, whole_of, whole_yuan};
ghost use Rattle.cn_phrase.specs.Suffix.{EndsWith};
ghost use Rattle.cn_phrase.specs.Written.{passed_text};

use crate::phrase::{begins_with, is_name};
use crate::piece::{Numeral, without_blank};
use crate::range::{is_end, is_percent};
use crate::shape::{counting_digit, part_digit};
use crate::word::{after_any, after_one, after_two};
use cn_core::{ChineseCountMethod, is_figure, split_first_char};
use cn_find::{Found, begins_with_two, is_one_character, is_one_of};
use cn_quantity::{Quantity, QuantityForm, chinese_to_quantity};
use cn_replace::clings::clings;
use cn_replace::pieces::{CharTest, Figure, any, before_rest, begins};

/// How a sum of money is written.
#[derive(Debug, Copy, Clone, PartialEq, Eq)]
pub enum MoneyForm {
    /// A number after a sign: ￥3.50.
    Signed,
    /// A number before 元 alone: 三百元.
    Yuan,
    /// A number before 块 alone, which also counts pieces: 三百块.
    Kuai,
    /// Yuan with jiao or fen, or with 钱: 三块五, 三元五角二分, 三块钱.
    Parts,
    /// Jiao or fen without yuan: 两毛五, 五分钱.
    Small,
}

/// A digit of jiao or fen.
#[derive(Debug, Copy, Clone)]
pub struct Digit<'a> {
    pub value: u8,
    /// The text after it, or after its unit.
    pub rest: &'a str,
}

/// What is after the number of a sum of money.
#[derive(Debug, Copy, Clone)]
pub struct Tail<'a> {
    pub form: MoneyForm,
    /// 0 if it is not said.
    pub jiao: u8,
    /// 0 if it is not said.
    pub fen: u8,
    /// The text after the sum.
    pub rest: &'a str,
}

/// A sum of money.
#[derive(Debug, Copy, Clone)]
pub struct Money<'a> {
    pub form: MoneyForm,
    /// The sign before the number, with the blank after it.
    pub sign: &'a str,
    /// The number of yuan; without yuan, the first digit.
    pub number: Found<'a>,
    /// What is between the number and the end of the sum.
    pub tail: &'a str,
    /// From 0 to 9; 0 if it is not said.
    pub jiao: u8,
    /// From 0 to 9; 0 if it is not said.
    pub fen: u8,
    /// The text after the sum.
    pub rest: &'a str,
}

#[tactic(auto, unfolding(crate::specs::Money::is_priced))]
fn is_priced(c: char) -> bool
    ensures { result ≡ is_priced c }
{
    is_one_of(
        &[
            '斤', '个', '個', '公', '两', '兩', '克', '份', '张', '張', '条', '條', '件', '只', '隻', '瓶', '包',
            '箱', '盒', '本', '套', '台', '杯', '碗', '串', '双', '雙', '把', '枚', '颗', '顆', '粒', '根', '支',
            '袋', '片', '位', '人', '次', '天', '晚', '月', '年', '平', '方', '米', '尺', '度', '吨', '噸', '升',
            '桶', '筒', '盘', '盤', '捆', '束', '朵', '辆', '輛', '间', '間', '桌', '副', '对', '對', '罐', '小',
        ],
        c,
    )
}

// Whether a text begins with a character that can be after 一 in the price of one.
fn begins_priced(text: &str) -> bool
    ensures { result ≡ begins is_priced (chars text.now) }
{
    match split_first_char(text) {
        Some((c, _)) => is_priced(c),
        None => false,
    }
}

/// Whether a text begins with the price of one, such as 一斤.
pub fn begins_one(text: &str) -> bool
    ensures { result ≡ begins_one (chars text.now) }
{
    match after_one(&['一'], text) {
        Some(rest) => begins_priced(rest),
        None => false,
    }
}

// Whether a text begins with a Chinese digit and what it counts, such as 两瓶.
fn begins_count(text: &str) -> bool
    ensures { result ≡ begins_count (chars text.now) }
{
    match split_first_char(text) {
        Some((c, rest)) => counting_digit(c).is_some() && begins_priced(rest),
        None => false,
    }
}

#[tactic(auto, unfolding(crate::specs::Money::is_particle))]
fn is_particle(c: char) -> bool
    ensures { result ≡ is_particle c }
{
    is_one_of(
        &[
            '的', '了', '吧', '啊', '呢', '吗', '嗎', '嘛', '呀', '哦', '啦', '哈', '咯',
        ],
        c,
    )
}

#[tactic(auto, unfolding(crate::specs::Money::is_next_word))]
fn is_next_word(c: char) -> bool
    ensures { result ≡ is_next_word c }
{
    is_one_of(
        &[
            '就', '也', '都', '还', '還', '才', '每', '左', '以', '不', '够', '夠', '涨', '漲', '降', '到', '至',
            '和', '或', '与', '與', '及', '跟', '卖', '賣', '买', '買', '给', '給', '收', '找', '退', '付', '便',
            '太', '贵', '貴', '好', '行', '可', '拿', '起', '没', '沒', '是', '那', '这', '這', '很', '真', '算',
            '要', '然',
        ],
        c,
    )
}

// Whether a text begins with a word that may be after a sum.
fn begins_next_word(text: &str) -> bool
    ensures { result ≡ begins_next_word (chars text.now) }
{
    match split_first_char(text) {
        Some((c, _)) => is_next_word(c) || begins_with_two(&['包'], &['邮', '郵'], text),
        None => false,
    }
}

#[tactic(auto, unfolding(crate::specs::Money::is_share))]
fn is_share(c: char) -> bool
    ensures { result ≡ is_share c }
{
    is_one_of(&['%', '％', '‰'], c)
}

#[tactic(auto, unfolding(crate::specs::Money::is_point))]
fn is_point(c: char) -> bool
    ensures { result ≡ is_point c }
{
    is_one_of(&['.', '．', ','], c)
}

#[tactic(auto, unfolding(cn_find::specs::Expressions::is_han))]
fn is_han(c: char) -> bool
    ensures { result ≡ is_han c }
{
    matches!(c, '\u{4e00}'..='\u{9fff}')
}

// Whether a character after a digit goes on with it.
fn goes_on(digit: char, c: char, rest: &str) -> bool
    ensures { result ≡ goes_on digit c (chars rest.now) }
{
    Numeral.passes(c)
        || is_share(c)
        || is_name(c)
        || (is_point(c) && is_figure(digit) && begins(Figure, rest))
}

#[tactic(auto, unfolding(crate::specs::Money::is_one))]
fn is_one(c: char) -> bool
    ensures { result ≡ is_one c }
{
    is_one_of(&['一'], c)
}

// Whether a sum may end with a digit before this text.
fn may_end(digit: char, text: &str) -> bool
    ensures { result ≡ may_end digit (chars text.now) }
{
    let Some((c, rest)) = split_first_char(text) else {
        return true;
    };
    if begins_one(text) || is_particle(c) {
        return true;
    }
    if is_han(c) {
        !is_one(digit) && begins_next_word(text)
    } else {
        !goes_on(digit, c, rest)
    }
}

// A digit with which a text begins.
fn digit_at(text: &str) -> Option<Digit<'_>>
    ensures { option_map digit_of result ≡ digit_at (chars text.now) }
{
    let (c, rest) = split_first_char(text)?;
    Some(Digit {
        value: part_digit(c)?,
        rest,
    })
}

// A digit with which a sum may end.
fn open_digit(text: &str) -> Option<Digit<'_>>
    ensures { option_map digit_of result ≡ open_digit (chars text.now) }
{
    let (c, rest) = split_first_char(text)?;
    if may_end(c, rest) {
        digit_at(text)
    } else {
        None
    }
}

// The text after the last unit of a sum, and after 钱.
fn after_last<'a>(refused: &[char], text: &'a str) -> Option<&'a str>
    ensures { option_map (λ rest. chars rest.now) result ≡ after_last refused.now (chars text.now) }
{
    if begins_with(refused, text) {
        None
    } else {
        Some(after_any(&['钱', '錢'], text))
    }
}

// The text after 分 at the end of a sum.
fn after_fen(text: &str) -> Option<&str>
    ensures { option_map (λ rest. chars rest.now) result ≡ after_fen (chars text.now) }
{
    after_last(
        &['钟', '鐘', '之', '熟', '地', '天', '甜', '糖'],
        after_one(&['分'], text)?,
    )
}

// The text after 角 at the end of a sum.
fn after_last_jiao(text: &str) -> Option<&str>
    ensures { option_map (λ rest. chars rest.now) result ≡ after_last_jiao (chars text.now) }
{
    after_last(
        &[
            '形', '星', '板', '铁', '鐵', '架', '尺', '旗', '洲', '债', '債', '恋', '戀', '区', '區', '巾', '毯',
            '豆', '线', '線', '衣', '地', '裤', '褲', '钉', '釘', '函', '茴', '楼', '樓', '亭', '帽', '梅', '枫',
            '楓', '鼎', '落', '度', '戏', '戲', '色', '球', '钢', '鋼', '龙', '龍', '鲨', '鯊', '羊',
        ],
        text,
    )
}

// A digit and 分.
fn fen_digit(text: &str) -> Option<Digit<'_>>
    ensures { option_map digit_of result ≡ fen_digit (chars text.now) }
{
    let digit = digit_at(text)?;
    Some(Digit {
        value: digit.value,
        rest: after_fen(digit.rest)?,
    })
}

// After some jiao: a digit and 分, or a digit.
fn fen_after(form: MoneyForm, jiao: u8, text: &str) -> Option<Tail<'_>>
    ensures { option_map tail_of result ≡ fen_after form jiao (chars text.now) }
{
    let digit = match fen_digit(text) {
        Some(digit) => digit,
        None => open_digit(text)?,
    };
    Some(Tail {
        form,
        jiao,
        fen: digit.value,
        rest: digit.rest,
    })
}

// After some jiao: a digit and 分, a digit, or the end of the sum.
fn after_jiao(jiao: u8, text: &str) -> Option<Tail<'_>>
    ensures { option_map tail_of result ≡ after_jiao jiao (chars text.now) }
{
    if let Some(tail) = fen_after(MoneyForm::Parts, jiao, text) {
        return Some(tail);
    }
    Some(Tail {
        form: MoneyForm::Parts,
        jiao,
        fen: 0,
        rest: after_last_jiao(text)?,
    })
}

// A digit and 角, and what is after that.
fn jiao_at(text: &str) -> Option<Tail<'_>>
    ensures { option_map tail_of result ≡ jiao_at (chars text.now) }
{
    let digit = digit_at(text)?;
    after_jiao(digit.value, after_one(&['角', '毛'], digit.rest)?)
}

// A digit and 分, without 角.
fn fen_at(text: &str) -> Option<Tail<'_>>
    ensures { option_map tail_of result ≡ fen_at (chars text.now) }
{
    let digit = fen_digit(text)?;
    Some(Tail {
        form: MoneyForm::Parts,
        jiao: 0,
        fen: digit.value,
        rest: digit.rest,
    })
}

// The jiao and fen after 元.
fn after_yuan(text: &str) -> Option<Tail<'_>>
    ensures { option_map tail_of result ≡ after_yuan (chars text.now) }
{
    let digits = after_any(&['零', '〇'], text);
    match jiao_at(digits) {
        Some(tail) => Some(tail),
        None => fen_at(digits),
    }
}

// The jiao and fen after 块.
fn after_kuai(text: &str) -> Option<Tail<'_>>
    ensures { option_map tail_of result ≡ after_kuai (chars text.now) }
{
    if let Some(tail) = after_yuan(text) {
        return Some(tail);
    }
    let digit = open_digit(text)?;
    Some(Tail {
        form: MoneyForm::Parts,
        jiao: digit.value,
        fen: 0,
        rest: digit.rest,
    })
}

// The jiao and fen after a number of yuan.
fn parts_at(text: &str) -> Option<Tail<'_>>
    ensures { option_map tail_of result ≡ parts_at (chars text.now) }
{
    if let Some(rest) = after_one(&['元', '圆', '圓'], text) {
        if let Some(tail) = after_yuan(rest) {
            return Some(tail);
        }
    }
    after_kuai(after_one(&['块', '塊'], text)?)
}

// A number below 10^16.
fn below_most(n: u128) -> Option<u64>
    ensures value { result ≡ below_most n }
    ensures bound { IfSome result (λ yuan. yuan < 10 ^ 16) }
{
    if n < 10_000_000_000_000_000 {
        Some(n as u64)
    } else {
        None
    }
}

// The whole number that a quantity is, below 10^16.
fn whole_of(quantity: Quantity) -> Option<u64>
    ensures value { result ≡ whole_of quantity }
    ensures bound { IfSome result (λ yuan. yuan < 10 ^ 16) }
{
    if matches!(quantity.form, QuantityForm::Whole) && !(quantity.numerator < 0) {
        below_most(quantity.numerator.unsigned_abs())
    } else {
        None
    }
}

/// The number of yuan that a text is, if it can have jiao and fen: a whole number below 10^16.
pub fn whole_yuan(number: &str) -> Option<u64>
    ensures value { result ≡ whole_yuan number.now }
    ensures bound { IfSome result (λ yuan. yuan < 10 ^ 16) }
{
    match chinese_to_quantity(number, ChineseCountMethod::TenThousand) {
        Ok(quantity) => whole_of(quantity),
        Err(_) => None,
    }
}

// What is after a number of yuan: jiao and fen, or 元钱.
fn tail_of_yuan<'a>(number: &str, text: &'a str) -> Option<Tail<'a>>
    ensures { option_map tail_of result ≡ tail_of_yuan number.now (chars text.now) }
{
    if let Some(tail) = parts_at(text) {
        if whole_yuan(number).is_some() {
            return Some(tail);
        }
    }
    Some(Tail {
        form: MoneyForm::Parts,
        jiao: 0,
        fen: 0,
        rest: after_two(&['元', '圆', '圓', '块', '塊'], &['钱', '錢'], text)?,
    })
}

// The value of a number that is one digit.
fn single_digit(number: &str) -> Option<u8>
    ensures { result ≡ single_digit (chars number.now) }
{
    let (c, rest) = split_first_char(number)?;
    match split_first_char(rest) {
        None => part_digit(c),
        Some(_) => None,
    }
}

// What is after a number of jiao and 角.
fn after_small_jiao(jiao: u8, text: &str) -> Option<Tail<'_>>
    ensures { option_map tail_of result ≡ after_small_jiao jiao (chars text.now) }
{
    if let Some(tail) = fen_after(MoneyForm::Small, jiao, text) {
        return Some(tail);
    }
    Some(Tail {
        form: MoneyForm::Small,
        jiao,
        fen: 0,
        rest: after_one(&['钱', '錢'], text)?,
    })
}

// What is after a number of jiao or fen.
fn after_digit(n: u8, text: &str) -> Option<Tail<'_>>
    ensures { option_map tail_of result ≡ after_digit n (chars text.now) }
{
    if let Some(rest) = after_one(&['角', '毛'], text) {
        if let Some(tail) = after_small_jiao(n, rest) {
            return Some(tail);
        }
    }
    Some(Tail {
        form: MoneyForm::Small,
        jiao: 0,
        fen: n,
        rest: after_two(&['分'], &['钱', '錢'], text)?,
    })
}

// What is after a number, if that is one digit of jiao or fen.
fn tail_of_digit<'a>(number: &str, text: &'a str) -> Option<Tail<'a>>
    ensures { option_map tail_of result ≡ tail_of_digit (chars number.now) (chars text.now) }
{
    after_digit(single_digit(number)?, text)
}

#[tactic(auto, unfolding(crate::specs::Money::is_no_yuan))]
fn is_no_yuan(c: char) -> bool
    ensures { result ≡ is_no_yuan c }
{
    is_one_of(
        &[
            '半', '几', '幾', '多', '余', '餘', '来', '來', '旦', '宵', '素', '组', '組', '音', '件', '宇', '桌',
            '形', '周', '心', '柱', '锥', '錐',
        ],
        c,
    )
}

// Whether a text begins with 月, and not with what is paid by the month.
fn begins_first_month(text: &str) -> bool
    ensures { result ≡ begins_first_month (chars text.now) }
{
    match after_one(&['月'], text) {
        Some(rest) => !begins_with(
            &['租', '费', '費', '供', '薪', '卡', '票', '均', '收', '付', '缴', '繳'],
            rest,
        ),
        None => false,
    }
}

// Whether 元 can be a unit without jiao and fen before this text.
fn may_be_alone(text: &str) -> bool
    ensures { result ≡ may_be_alone (chars text.now) }
{
    let is_word = match split_first_char(text) {
        Some((c, _)) => is_no_yuan(c),
        None => false,
    };
    begins_count(text) || (!begins(Numeral, text) && !is_word && !begins_first_month(text))
}

// 元 or 块 alone before this text.
fn alone(form: MoneyForm, rest: &str) -> Option<Tail<'_>>
    ensures { option_map tail_of result ≡ alone form (chars rest.now) }
{
    if may_be_alone(rest) {
        Some(Tail {
            form,
            jiao: 0,
            fen: 0,
            rest,
        })
    } else {
        None
    }
}

// What is after a number of yuan: 元 or 块 alone.
fn tail_alone<'a>(number: &str, text: &'a str) -> Option<Tail<'a>>
    ensures { option_map tail_of result ≡ tail_alone (chars number.now) (chars text.now) }
{
    if let Some(rest) = after_one(&['元', '圆', '圓'], text) {
        if let Some(tail) = alone(MoneyForm::Yuan, rest) {
            return Some(tail);
        }
    }
    let rest = after_one(&['块', '塊'], text)?;
    if is_one_character(number) {
        None
    } else {
        alone(MoneyForm::Kuai, rest)
    }
}

// What is after a number, without a blank.
fn tail_by<'a>(number: &str, text: &'a str) -> Option<Tail<'a>>
    ensures { option_map tail_of result ≡ tail_by number.now (chars number.now) (chars text.now) }
{
    if let Some(tail) = tail_of_yuan(number, text) {
        return Some(tail);
    }
    match tail_of_digit(number, text) {
        Some(tail) => Some(tail),
        None => tail_alone(number, text),
    }
}

// What is after a number.
fn tail_at<'a>(number: &str, text: &'a str) -> Option<Tail<'a>>
    ensures { option_map tail_of result ≡ tail_at number.now (chars text.now) }
{
    tail_by(number, without_blank(any(Figure, number), text))
}

// Whether a number after this text would be a part of what is before it.
fn clings_before(before: &str) -> bool
    ensures { result ≡ clings (chars before.now) [] }
{
    clings(before, "")
}

// Whether an expression can be the number of a sum.
fn is_amount(number: Found<'_>) -> bool
    ensures { result ≡ is_amount (span_of number.entry) }
{
    is_end(number) && !is_percent(number.text) && !clings_before(number.before)
}

// The characters of a text before one of its suffixes.
fn passed<'a>(text: &'a str, rest: &str) -> &'a str
    requires { EndsWith (chars text.now) (chars rest.now) }
    ensures { result.now ≡ passed_text (chars text.now) (chars rest.now) }
{
    before_rest(text, rest)
}

/// The sum of money whose number is this expression, without a sign before it; `None` if it is the number
/// of none.
pub fn counted(number: Found<'_>) -> Option<Money<'_>>
    ensures { option_map money_of result
        ≡ counted (span_of number.entry) (chars number.entry.after.now) }
{
    let tail = tail_at(number.text, number.after)?;
    if !is_amount(number) {
        return None;
    }
    Some(Money {
        form: tail.form,
        sign: "",
        number,
        tail: passed(number.after, tail.rest),
        jiao: tail.jiao,
        fen: tail.fen,
        rest: tail.rest,
    })
}

/// Whether a character is a sign of money.
#[tactic(auto, unfolding(crate::specs::Money::is_sign))]
pub fn is_sign(c: char) -> bool
    ensures { result ≡ is_sign c }
{
    is_one_of(&['￥', '¥'], c)
}

/// The sum of money whose number is this expression, after this sign; `None` if it is the number of none.
pub fn signed<'a>(sign: &'a str, number: Found<'a>) -> Option<Money<'a>>
    ensures { option_map money_of result
        ≡ signed sign.now (span_of number.entry) (chars number.entry.after.now) }
{
    if begins(Figure, number.text) && is_amount(number) {
        Some(Money {
            form: MoneyForm::Signed,
            sign,
            number,
            tail: "",
            jiao: 0,
            fen: 0,
            rest: number.after,
        })
    } else {
        None
    }
}
