// Two short runs of figures with a sign between, which people speak by what is around them.
ghost use Rattle.std.specs.Prelude.{◌≡◌, ◌∷◌, ◌++◌, [], chars, codes, map, encode_utf8_all, OnOk};
ghost use Rattle.std.specs.Option.{option_map};
ghost use Rattle.cn_find.specs.Spans.{in_front};
ghost use Rattle.cn_speech.specs.Numbers.{figures_said, one_by_one};
ghost use Rattle.cn_speech.specs.Voice.{word};
ghost use Rattle.cn_speech.specs.Pairs.{after_first, after_pressure, are_years, begins_game, begins_ratio, begins_season, both, date_said, ends_ratio, ends_score_word, has_share, follows_book, follows_scores, follows_with, have_three, is_between_scores, is_dash, is_date, is_divisor, is_from_one, is_pressure, is_ratio, is_score, is_share, is_shared, is_short, is_sign, is_slash, kind_by_colon, kind_by_dash, kind_by_slash, kind_by_sign, kind_of, pair_at, pair_from, pair_of, pair_said, pressure_said, rest_of, runs_at, said_if, said_of, share_said, years_said};

use crate::Voice;
use crate::expressions::put_one;
use crate::numbers::{Ordinal, put_figures, put_one_by_one, small_number};
use crate::voice::put_char;
use cn_codes::beside::{touches_after, touches_before};
use cn_codes::digits::{has_at_least, has_at_most, has_count, is_at_most};
use cn_codes::words::{after_word, begins_any, ends_any, without_last};
use cn_core::split_first_char;
use cn_find::{begins_with, ends_with, is_one_of};
use cn_phrase::Word;
use cn_replace::Sink;
use cn_replace::pieces::{CharTest, Figure, ends, split_leading, split_nearest};

/// What two runs of figures with a sign between are.
#[derive(Debug, Copy, Clone, PartialEq, Eq)]
pub enum PairKind {
    /// A month and a day: 9/15上午.
    Date,
    /// Blood pressure: 120/80mmHg.
    Pressure,
    /// A share: 3/4的.
    Share,
    /// Two years: 2025-26赛季.
    Years,
    /// A score: 3:2胜.
    Score,
    /// A figure or a table of a book: 图1-2.
    OfBook,
}

/// Two runs, the sign between them, and the text after them.
#[derive(Debug, Copy, Clone)]
pub struct Pair<'a> {
    pub first: &'a str,
    pub sign: char,
    pub second: &'a str,
    pub rest: &'a str,
}

/// A pair that is spoken, and the text after it.
#[derive(Debug, Copy, Clone)]
pub struct SaidPair<'a> {
    pub kind: PairKind,
    pub first: &'a str,
    pub second: &'a str,
    pub rest: &'a str,
}

#[tactic(auto, unfolding(crate::specs::Pairs::is_slash))]
fn is_slash(c: char) -> bool
    ensures { result ≡ is_slash c }
{
    is_one_of(&['/'], c)
}

#[tactic(auto, unfolding(crate::specs::Pairs::is_dash))]
fn is_dash(c: char) -> bool
    ensures { result ≡ is_dash c }
{
    is_one_of(&['-'], c)
}

#[tactic(auto, unfolding(crate::specs::Pairs::is_sign))]
fn is_sign(c: char) -> bool
    ensures { result ≡ is_sign c }
{
    is_one_of(&['-', '/', ':', '：'], c)
}

// Whether a run has one to four figures.
fn is_short(run: &str) -> bool
    ensures { result ≡ is_short (chars run.now) }
{
    has_at_least(1, run) && has_at_most(4, run)
}

// The pair of a run, with the text after that.
fn pair_from<'a>(first: &'a str, text: &'a str) -> Option<Pair<'a>>
    ensures { option_map pair_of result ≡ pair_from (chars first.now) (chars text.now) }
{
    let (sign, others) = split_first_char(text)?;
    let (second, rest) = split_leading(Figure, others);
    if is_sign(sign) && is_short(first) && is_short(second) {
        Some(Pair {
            first,
            sign,
            second,
            rest,
        })
    } else {
        None
    }
}

// The pair with which a text begins.
fn runs_at(text: &str) -> Option<Pair<'_>>
    ensures { option_map pair_of result ≡ runs_at (chars text.now) }
{
    let (first, rest) = split_leading(Figure, text);
    pair_from(first, rest)
}

// ---- What a pair is

// Whether a text begins with a word of games: before it two numbers are a score.
fn begins_game(text: &str) -> bool
    ensures { result ≡ begins_game (chars text.now) }
{
    begins_any(
        &[
            "领先", "領先", "胜", "勝", "战胜", "戰勝", "负", "負", "击败", "擊敗", "逆转", "逆轉", "获胜", "獲勝", "淘汰",
            "落后", "落後", "落败", "落敗", "险胜", "險勝", "大胜", "大勝", "完胜", "完勝", "小胜", "小勝", "拿下", "战平",
            "戰平", "横扫", "橫掃", "力克", "不敌", "不敵", "惜败", "惜敗", "赢", "贏", "输", "輸",
        ],
        text,
    )
}

// Whether a character may be between 比分 and a score.
#[tactic(auto, unfolding(crate::specs::Pairs::is_between_scores))]
fn is_between_scores(c: char) -> bool
    ensures { result ≡ is_between_scores c }
{
    Figure.passes(c)
        || is_one_of(
            &[
                ':', '：', ';', '；', '、', '，', '和', '与', '與', ' ', '-', '为', '為', '是',
            ],
            c,
        )
}

// Whether a text ends with the word before scores.
fn ends_score_word(before: &str) -> bool
    ensures { result ≡ ends_score_word (in_front before.now) }
{
    ends_any(&["比分"], before)
}

// Whether only such characters, at most so many, are between 比分 and the end of a text.
fn follows_scores(most: u8, before: &str) -> bool
    ensures { result ≡ follows_scores most (in_front before.now) }
{
    if most == 0 {
        return false;
    }
    match split_nearest(before) {
        Some((c, front)) => {
            ends_score_word(before) || (is_between_scores(c) && follows_scores(most - 1, front))
        }
        None => false,
    }
}

// Whether both runs have at most three figures.
fn have_three(pair: Pair<'_>) -> bool
    ensures { result ≡ have_three (pair_of pair.entry) }
{
    has_at_most(3, pair.first) && has_at_most(3, pair.second)
}

#[tactic(auto, unfolding(crate::specs::Pairs::follows_with))]
fn follows_with(before: &str) -> bool
    ensures { result ≡ follows_with (in_front before.now) }
{
    ends_with(&['以'], before)
}

// Whether a text ends with a word before ratios.
fn ends_ratio(before: &str) -> bool
    ensures { result ≡ ends_ratio (in_front before.now) }
{
    ends_any(
        &["比例", "比例为", "比例為", "比例是", "比例约", "比例約", "比为", "比為"],
        before,
    )
}

// Whether a text begins with a word after ratios.
fn begins_ratio(text: &str) -> bool
    ensures { result ≡ begins_ratio (chars text.now) }
{
    begins_any(
        &["的比例", "稀释", "稀釋", "配制", "配製", "混合", "竖屏", "豎屏", "横屏", "橫屏"],
        text,
    )
}

// Whether two numbers with a colon are a score after 以, or a ratio: 比例1:10.
fn is_ratio(before: &str, pair: Pair<'_>) -> bool
    ensures { result ≡ is_ratio (in_front before.now) (pair_of pair.entry) }
{
    !is_dash(pair.sign) && (follows_with(before) || ends_ratio(before) || begins_ratio(pair.rest))
}

fn is_score(before: &str, pair: Pair<'_>) -> bool
    ensures { result ≡ is_score (in_front before.now) (pair_of pair.entry) }
{
    have_three(pair)
        && (begins_game(pair.rest) || follows_scores(20, before) || is_ratio(before, pair))
}

// Whether the number of a run is from 1 to this one.
fn is_from_one(most: u32, run: &str) -> bool
    ensures { result ≡ is_from_one most (chars run.now) }
{
    !is_at_most(0, run) && is_at_most(most, run)
}

// Whether a pair is a month and a day before a word of half a day.
fn is_date(pair: Pair<'_>) -> bool
    ensures { result ≡ is_date (pair_of pair.entry) }
{
    is_from_one(12, pair.first)
        && is_from_one(31, pair.second)
        && Word::HalfDay.after(pair.rest).is_some()
}

// The text after the first of these words with which it begins.
fn after_first<'a>(words: &[&str], text: &'a str) -> Option<&'a str>
    ensures { option_map (λ rest. chars rest.now) result
        ≡ after_first (map (λ word. chars word.now) words.now) (chars text.now) }
{
    for word in words {
        if let Some(rest) = after_word(word, text) {
            return Some(rest);
        }
    }
    None
}

// The text after the measure of blood pressure.
fn after_pressure(text: &str) -> Option<&str>
    ensures { option_map (λ rest. chars rest.now) result ≡ after_pressure (chars text.now) }
{
    after_first(&["mmHg", "毫米汞柱"], text)
}

fn is_pressure(pair: Pair<'_>) -> bool
    ensures { result ≡ is_pressure (pair_of pair.entry) }
{
    is_slash(pair.sign) && after_pressure(pair.rest).is_some()
}

// Whether a number up to 10 is greater than another one, which is not 0.
fn is_divisor(divisor: Option<u64>, number: Option<u64>) -> bool
    ensures { result ≡ is_divisor divisor number }
{
    match (divisor, number) {
        (Some(divisor), Some(number)) => divisor <= 10 && number >= 1 && number < divisor,
        _ => false,
    }
}

#[tactic(auto, unfolding(crate::specs::Pairs::is_shared))]
fn is_shared(text: &str) -> bool
    ensures { result ≡ is_shared (chars text.now) }
{
    begins_with(
        &['的', '以', '左', '多', '片', '粒', '杯', '勺', '个', '個', '袋', '包'],
        text,
    )
}

#[tactic(auto, unfolding(crate::specs::Pairs::has_share))]
fn has_share(before: &str) -> bool
    ensures { result ≡ has_share (in_front before.now) }
{
    ends_with(&['有', '中', '约', '約', '近', '超', '过', '過'], before)
        || (ends_with(&['到', '足'], before) && ends_with(&['不'], without_last(before)))
}

// Whether a pair is a share: 3/4的.
fn is_share(before: &str, pair: Pair<'_>) -> bool
    ensures { result ≡ is_share (in_front before.now) (pair_of pair.entry) }
{
    is_divisor(small_number(pair.second), small_number(pair.first))
        && !ends(Ordinal, before)
        && (is_shared(pair.rest) || has_share(before))
}

// Whether a text begins with a word of seasons and years: 2025-26赛季.
fn begins_season(text: &str) -> bool
    ensures { result ≡ begins_season (chars text.now) }
{
    begins_any(&["赛季", "賽季", "学年", "學年", "财年", "財年", "年度"], text)
}

// Whether a pair is two years.
fn are_years(pair: Pair<'_>) -> bool
    ensures { result ≡ are_years (pair_of pair.entry) }
{
    !is_at_most(1899, pair.first)
        && is_at_most(2099, pair.first)
        && (has_count(2, pair.second) || has_count(4, pair.second))
        && begins_season(pair.rest)
}

#[tactic(auto, unfolding(crate::specs::Pairs::follows_book))]
fn follows_book(before: &str) -> bool
    ensures { result ≡ follows_book (in_front before.now) }
{
    ends_with(&['图', '圖', '表'], before)
}

// What a pair with a slash is.
fn kind_by_slash(before: &str, pair: Pair<'_>) -> Option<PairKind>
    ensures { result ≡ kind_by_slash (in_front before.now) (pair_of pair.entry) }
{
    if is_date(pair) {
        Some(PairKind::Date)
    } else if is_pressure(pair) {
        Some(PairKind::Pressure)
    } else if is_share(before, pair) {
        Some(PairKind::Share)
    } else {
        None
    }
}

// What a pair with a bar is.
fn kind_by_dash(before: &str, pair: Pair<'_>) -> Option<PairKind>
    ensures { result ≡ kind_by_dash (in_front before.now) (pair_of pair.entry) }
{
    if are_years(pair) {
        Some(PairKind::Years)
    } else if is_score(before, pair) {
        Some(PairKind::Score)
    } else if follows_book(before) && have_three(pair) {
        Some(PairKind::OfBook)
    } else {
        None
    }
}

// What a pair with a colon is.
fn kind_by_colon(before: &str, pair: Pair<'_>) -> Option<PairKind>
    ensures { result ≡ kind_by_colon (in_front before.now) (pair_of pair.entry) }
{
    if is_score(before, pair) {
        Some(PairKind::Score)
    } else {
        None
    }
}

// What a pair is by its sign.
fn kind_by_sign(before: &str, pair: Pair<'_>) -> Option<PairKind>
    ensures { result ≡ kind_by_sign (in_front before.now) (pair_of pair.entry) }
{
    if is_slash(pair.sign) {
        kind_by_slash(before, pair)
    } else if is_dash(pair.sign) {
        kind_by_dash(before, pair)
    } else {
        kind_by_colon(before, pair)
    }
}

// What a pair is, if nothing beside it goes on with it.
fn kind_of(before: &str, pair: Pair<'_>) -> Option<PairKind>
    ensures { result ≡ kind_of (in_front before.now) (pair_of pair.entry) }
{
    if touches_before(before) || (touches_after(pair.rest) && !is_pressure(pair)) {
        None
    } else {
        kind_by_sign(before, pair)
    }
}

// ---- What is said

// The text after a pair, and after the measure of blood pressure.
fn rest_of<'a>(kind: PairKind, pair: Pair<'a>) -> &'a str
    ensures { chars result.now ≡ rest_of kind (pair_of pair.entry) }
{
    match kind {
        PairKind::Pressure => match after_pressure(pair.rest) {
            Some(rest) => rest,
            None => pair.rest,
        },
        _ => pair.rest,
    }
}

// A pair as it is spoken.
fn said_if<'a>(before: &str, pair: Pair<'a>) -> Option<SaidPair<'a>>
    ensures { option_map said_of result ≡ said_if (in_front before.now) (pair_of pair.entry) }
{
    let kind = kind_of(before, pair)?;
    Some(SaidPair {
        kind,
        first: pair.first,
        second: pair.second,
        rest: rest_of(kind, pair),
    })
}

/// The pair with which a text begins, after another text, if people speak it by what is around it.
pub fn pair_at<'a>(before: &str, text: &'a str) -> Option<SaidPair<'a>>
    ensures { option_map said_of result ≡ pair_at (in_front before.now) (chars text.now) }
{
    said_if(before, runs_at(text)?)
}

// Writes a word of one character and a number.
fn put_between<S: Sink>(
    sink: &mut S,
    voice: Voice,
    between: char,
    second: &str,
) -> Result<(), S::Error>
    ensures { OnOk result (S.took sink.old sink.new (encode_utf8_all
        (word voice (between ∷ []) ++ figures_said voice (chars second.now)))) }
{
    put_one(sink, voice, between)?;
    put_figures(sink, voice, second)
}

// Writes two numbers with a word between.
fn put_both<S: Sink>(
    sink: &mut S,
    voice: Voice,
    first: &str,
    between: char,
    second: &str,
) -> Result<(), S::Error>
    ensures { OnOk result (S.took sink.old sink.new (encode_utf8_all
        (both voice (chars first.now) (between ∷ []) (chars second.now)))) }
{
    put_figures(sink, voice, first)?;
    put_between(sink, voice, between, second)
}

// Writes a month and a day.
fn put_date<S: Sink>(sink: &mut S, voice: Voice, month: &str, day: &str) -> Result<(), S::Error>
    ensures { OnOk result (S.took sink.old sink.new (encode_utf8_all
        (date_said voice (chars month.now) (chars day.now)))) }
{
    put_both(sink, voice, month, '月', day)?;
    put_char(sink, '日')
}

fn put_measure<S: Sink>(sink: &mut S) -> Result<(), S::Error>
    ensures { OnOk result (S.took sink.old sink.new (encode_utf8_all (codes "毫米汞柱"))) }
{
    sink.put("毫米汞柱")
}

// Writes blood pressure.
fn put_pressure<S: Sink>(sink: &mut S, voice: Voice, high: &str, low: &str) -> Result<(), S::Error>
    ensures { OnOk result (S.took sink.old sink.new (encode_utf8_all
        (pressure_said voice (chars high.now) (chars low.now)))) }
{
    put_both(sink, voice, high, '比', low)?;
    put_measure(sink)
}

fn put_divided<S: Sink>(sink: &mut S) -> Result<(), S::Error>
    ensures { OnOk result (S.took sink.old sink.new (encode_utf8_all (codes "分之"))) }
{
    sink.put("分之")
}

// Writes a share.
fn put_share<S: Sink>(
    sink: &mut S,
    voice: Voice,
    divisor: &str,
    number: &str,
) -> Result<(), S::Error>
    ensures { OnOk result (S.took sink.old sink.new (encode_utf8_all
        (share_said voice (chars divisor.now) (chars number.now)))) }
{
    put_figures(sink, voice, divisor)?;
    put_divided(sink)?;
    put_figures(sink, voice, number)
}

// Writes 到 and a year.
fn put_to_year<S: Sink>(sink: &mut S, voice: Voice, year: &str) -> Result<(), S::Error>
    ensures { OnOk result (S.took sink.old sink.new (encode_utf8_all
        (codes "到" ++ one_by_one voice (chars year.now)))) }
{
    put_char(sink, '到')?;
    put_one_by_one(sink, voice, year)
}

// Writes two years.
fn put_years<S: Sink>(sink: &mut S, voice: Voice, first: &str, second: &str) -> Result<(), S::Error>
    ensures { OnOk result (S.took sink.old sink.new (encode_utf8_all
        (years_said voice (chars first.now) (chars second.now)))) }
{
    put_one_by_one(sink, voice, first)?;
    put_to_year(sink, voice, second)
}

/// Writes a pair as it is spoken: 三比二 for the score 3:2.
pub fn put_pair<S: Sink>(sink: &mut S, voice: Voice, said: SaidPair<'_>) -> Result<(), S::Error>
    ensures { OnOk result (S.took sink.old sink.new
        (encode_utf8_all (pair_said voice (said_of said.entry)))) }
{
    match said.kind {
        PairKind::Date => put_date(sink, voice, said.first, said.second),
        PairKind::Pressure => put_pressure(sink, voice, said.first, said.second),
        PairKind::Share => put_share(sink, voice, said.second, said.first),
        PairKind::Years => put_years(sink, voice, said.first, said.second),
        PairKind::Score => put_both(sink, voice, said.first, '比', said.second),
        PairKind::OfBook => put_both(sink, voice, said.first, '杠', said.second),
    }
}
