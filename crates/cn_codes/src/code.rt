// The code that begins at a place of a text.
ghost use Rattle.std.specs.Prelude.{◌≡◌, chars, map};
ghost use Rattle.std.specs.Option.{option_map};
ghost use Rattle.cn_find.specs.Spans.{in_front};
ghost use Rattle.cn_codes.specs.Codes.{are_bytes, are_digits, are_enough, are_pointed, are_short, begins_group, code_at, code_by, code_of, ends_numeral, ends_with_one, follows_version, groups_code, has_comma, have_shape, is_after_blank, is_card, is_code_of_figures, is_digits, is_figures, is_grouped, is_in_building, is_long, is_name, is_numbered, is_of_zero, is_part_of_date, is_pointed, is_pointed_chinese, is_pointed_figures, is_room, is_round, is_run, is_telephone, is_uncounted, is_whole, is_year, kind_of_groups, may_be_date, may_be_day, run_code};
ghost use Rattle.cn_codes.specs.Groups.{group_of};

use crate::beside::{follows_letters, touches_after, touches_before};
use crate::code_words::{
    begins_after_name, begins_century, begins_of_year, begins_room, begins_route, follows_building,
    follows_word, is_called, is_generation, is_service,
};
use crate::counted::begins_counted;
use crate::digits::{
    Chinese, Yao, begins_zero, do_rise, has_at_least, has_at_most, has_count, is_at_most,
};
use crate::groups::{
    Group, after_groups, are_fours, have_signs, is_hotline, is_landline, is_mobile,
    is_mobile_in_groups, read_groups,
};
use crate::signs::{Bar, BetweenChinese, BetweenFigures, Blank, Dash, Point};
use crate::words::{ends_any, without_first, without_last};
use cn_find::{begins_with, ends_with, is_title_open};
use cn_replace::pieces::{CharTest, Figure, Letter, any, begins, ends, split_leading};

/// How a code is spoken.
#[derive(Debug, Copy, Clone, PartialEq, Eq)]
pub enum CodeKind {
    /// Digit by digit: 13800138000, 010-62345678.
    Plain,
    /// Numbers with points between: 192.168.1.1.
    Pointed,
    /// Groups with bars between that are spoken: 4-7-2019.
    Barred,
}

/// A code with which a text begins.
#[derive(Debug, Copy, Clone)]
pub struct Code<'a> {
    /// How it is spoken.
    pub kind: CodeKind,
    /// The text after it.
    pub rest: &'a str,
}

// ---- Points

// Whether the last digit is 一.
fn ends_with_one(groups: &[Group<'_>]) -> bool
    ensures { result ≡ ends_with_one (map group_of groups.now) }
{
    let Some((group, others)) = groups.split_first() else {
        return false;
    };
    if others.is_empty() {
        ends_with(&['一'], group.digits)
    } else {
        ends_with_one(others)
    }
}

// Whether each number has at most four digits.
fn are_short(groups: &[Group<'_>]) -> bool
    ensures { result ≡ are_short (map group_of groups.now) }
{
    match groups.split_first() {
        Some((group, others)) => has_at_most(4, group.digits) && are_short(others),
        None => true,
    }
}

// Whether each number is at most 255.
fn are_bytes(groups: &[Group<'_>]) -> bool
    ensures { result ≡ are_bytes (map group_of groups.now) }
{
    match groups.split_first() {
        Some((group, others)) => is_at_most(255, group.digits) && are_bytes(others),
        None => true,
    }
}

// Whether there are three numbers of a version, or four of an address.
#[tactic(auto, using(std::proofs::lemmas::Grind::common_steps))]
fn are_enough(groups: &[Group<'_>]) -> bool
    ensures { result ≡ are_enough (map group_of groups.now) }
{
    groups.len() == 3 || (groups.len() == 4 && are_bytes(groups))
}

fn are_pointed(groups: &[Group<'_>]) -> bool
    ensures { result ≡ are_pointed (map group_of groups.now) }
{
    have_signs(Point, groups) && are_short(groups) && are_enough(groups)
}

// Whether two numbers may be a month and a day.
#[tactic(auto, unfolding(crate::specs::Codes::may_be_day))]
fn may_be_day(month: &str, day: &str) -> bool
    ensures { result ≡ may_be_day (chars month.now) (chars day.now) }
{
    is_at_most(12, month) && is_at_most(31, day)
}

// Whether groups may be a year, a month and a day: 2026.1.15.
fn may_be_date(groups: &[Group<'_>]) -> bool
    ensures { result ≡ may_be_date (map group_of groups.now) }
{
    let Some((year, others)) = groups.split_first() else {
        return false;
    };
    let Some((month, days)) = others.split_first() else {
        return false;
    };
    let Some((day, more)) = days.split_first() else {
        return false;
    };
    more.is_empty() && has_count(4, year.digits) && may_be_day(month.digits, day.digits)
}

// Whether v or V ends a text, and no letter is before it.
fn follows_version(before: &str) -> bool
    ensures { result ≡ follows_version (in_front before.now) }
{
    ends_with(&['v', 'V'], before) && !ends(Letter, without_last(before))
}

fn is_pointed_figures(before: &str, groups: &[Group<'_>], rest: &str) -> bool
    ensures { result
        ≡ is_pointed_figures (in_front before.now) (map group_of groups.now) (chars rest.now) }
{
    (!touches_before(before) || follows_version(before))
        && !touches_after(rest)
        && !may_be_date(groups)
}

/// Whether Chinese digits neither go on with a unit nor end with 一, which begins a word: 一起.
pub fn is_pointed_chinese(groups: &[Group<'_>], rest: &str) -> bool
    ensures { result ≡ is_pointed_chinese (map group_of groups.now) (chars rest.now) }
{
    !begins_with(
        &[
            '点', '點', '十', '百', '千', '万', '亿', '分', '刻', '半', '时', '時', '个', '個',
        ],
        rest,
    ) && !(ends_with_one(groups) && begins_with(&['定', '直', '起', '样', '樣', '些', '下'], rest))
}

// Whether groups are an address or a version.
fn is_pointed(before: &str, in_chinese: bool, groups: &[Group<'_>], rest: &str) -> bool
    ensures { result ≡ is_pointed (in_front before.now) in_chinese (map group_of groups.now)
        (chars rest.now) }
{
    are_pointed(groups)
        && if in_chinese {
            is_pointed_chinese(groups, rest)
        } else {
            is_pointed_figures(before, groups, rest)
        }
}

// ---- Groups

// Whether groups are a card.
fn is_card(groups: &[Group<'_>]) -> bool
    ensures { result ≡ is_card (map group_of groups.now) }
{
    have_signs(Blank, groups) && groups.len() >= 3 && are_fours(groups)
}

// Whether groups have the shape of a number of a telephone or a card.
fn have_shape(groups: &[Group<'_>]) -> bool
    ensures { result ≡ have_shape (map group_of groups.now) }
{
    (have_signs(Blank, groups) || have_signs(Dash, groups))
        && (is_mobile_in_groups(groups)
            || is_landline(groups)
            || is_hotline(groups)
            || is_card(groups))
}

fn is_grouped(before: &str, groups: &[Group<'_>], rest: &str) -> bool
    ensures { result
        ≡ is_grouped (in_front before.now) (map group_of groups.now) (chars rest.now) }
{
    groups.len() >= 2 && groups.len() < 9 && !touches_before(before) && !touches_after(rest)
}

// How groups are a code.
fn kind_of_groups(
    before: &str,
    in_chinese: bool,
    groups: &[Group<'_>],
    rest: &str,
) -> Option<CodeKind>
    ensures { result ≡ kind_of_groups (in_front before.now) in_chinese (map group_of groups.now)
        (chars rest.now) }
{
    if is_pointed(before, in_chinese, groups, rest) {
        return Some(CodeKind::Pointed);
    }
    if !is_grouped(before, groups, rest) {
        return None;
    }
    if have_shape(groups) {
        return Some(CodeKind::Plain);
    }
    if have_signs(Bar, groups) && follows_word(before) {
        Some(CodeKind::Barred)
    } else {
        None
    }
}

// ---- Runs of figures

// Whether two figures are of a date or a time: 05月.
fn is_part_of_date(run: &str, rest: &str) -> bool
    ensures { result ≡ is_part_of_date (chars run.now) (chars rest.now) }
{
    has_count(2, run)
        && begins_with(
            &['月', '日', '号', '號', '时', '時', '分', '秒', '点', '點', '元'],
            rest,
        )
}

// Whether a run is a zero and more figures.
fn is_of_zero(run: &str, rest: &str) -> bool
    ensures { result ≡ is_of_zero (chars run.now) (chars rest.now) }
{
    has_at_least(2, run) && begins_zero(run) && !is_part_of_date(run, rest)
}

// Whether a number of a room is directly after the words of a building.
fn is_in_building(before: &str, rest: &str) -> bool
    ensures { result ≡ is_in_building (in_front before.now) (chars rest.now) }
{
    follows_building(before)
        && !(begins_counted(rest) || begins_with(&['多', '余', '餘', '来', '來'], rest))
}

fn is_room(before: &str, run: &str, rest: &str) -> bool
    ensures { result ≡ is_room (in_front before.now) (chars run.now) (chars rest.now) }
{
    (has_count(3, run) || has_count(4, run)) && (begins_room(rest) || is_in_building(before, rest))
}

fn is_year(before: &str, run: &str, rest: &str) -> bool
    ensures { result ≡ is_year (in_front before.now) (chars run.now) (chars rest.now) }
{
    has_count(4, run)
        && begins_century(run)
        && (begins_of_year(rest) || ends_with(&['〔'], before) || is_title_open(before))
}

// Whether no measure word is after a number, and no sign of money before it.
fn is_uncounted(before: &str, rest: &str) -> bool
    ensures { result ≡ is_uncounted (in_front before.now) (chars rest.now) }
{
    !begins_counted(rest) && !ends_with(&['¥', '￥', '$'], before)
}

// Whether a run is the number of a telephone.
fn is_telephone(before: &str, run: &str, rest: &str) -> bool
    ensures { result ≡ is_telephone (in_front before.now) (chars run.now) (chars rest.now) }
{
    is_mobile(run) || (!begins_counted(rest) && (is_service(run) || is_called(before, run)))
}

// Whether a run is the number of a room, a route, a year or a generation.
fn is_numbered(before: &str, run: &str, rest: &str) -> bool
    ensures { result ≡ is_numbered (in_front before.now) (chars run.now) (chars rest.now) }
{
    is_room(before, run, rest)
        || (has_count(3, run) && begins_route(rest))
        || is_year(before, run, rest)
        || is_generation(before, run, rest)
}

// Whether a run is a round number: 1500000.
fn is_round(run: &str) -> bool
    ensures { result ≡ is_round (chars run.now) }
{
    ends_any(&["00000"], run)
}

// Whether a run has seven figures and is no round number, or has three after a word of codes.
fn is_long(before: &str, run: &str) -> bool
    ensures { result ≡ is_long (in_front before.now) (chars run.now) }
{
    (has_at_least(7, run) && !is_round(run)) || (has_at_least(3, run) && follows_word(before))
}

// Whether a run of figures that nothing touches is a code.
fn is_code_of_figures(before: &str, run: &str, rest: &str) -> bool
    ensures { result ≡ is_code_of_figures (in_front before.now) (chars run.now) (chars rest.now) }
{
    is_telephone(before, run, rest)
        || is_of_zero(run, rest)
        || is_numbered(before, run, rest)
        || (is_uncounted(before, rest) && is_long(before, run))
}

// Whether exactly three figures are at the start of a text.
fn begins_group(text: &str) -> bool
    ensures { result ≡ begins_group (chars text.now) }
{
    let (figures, _) = split_leading(Figure, text);
    has_count(3, figures)
}

// Whether a comma joins a run to other figures: 1,280.
fn has_comma(before: &str, run: &str, rest: &str) -> bool
    ensures { result ≡ has_comma (in_front before.now) (chars run.now) (chars rest.now) }
{
    (ends_with(&[','], before) && ends(Figure, without_last(before)) && has_count(3, run))
        || (begins_with(&[','], rest) && begins_group(without_first(rest)) && has_at_most(3, run))
}

// Whether a run is three figures after a figure and a blank: 000 of 3 000.
fn is_after_blank(before: &str, run: &str) -> bool
    ensures { result ≡ is_after_blank (in_front before.now) (chars run.now) }
{
    has_count(3, run) && ends_with(&[' '], before) && ends(Figure, without_last(before))
}

// Whether a run of figures is a code.
fn is_figures(before: &str, run: &str, rest: &str) -> bool
    ensures { result ≡ is_figures (in_front before.now) (chars run.now) (chars rest.now) }
{
    if touches_after(rest) || has_comma(before, run, rest) || is_after_blank(before, run) {
        return false;
    }
    if follows_letters(before) {
        has_at_least(3, run)
    } else {
        !touches_before(before) && is_code_of_figures(before, run, rest)
    }
}

// ---- Runs of Chinese digits

// Whether Chinese digits after letters are a code; two count nothing: G四五, but not A三五个.
fn is_name(before: &str, run: &str, rest: &str) -> bool
    ensures { result ≡ is_name (in_front before.now) (chars run.now) (chars rest.now) }
{
    follows_letters(before)
        && (has_at_least(3, run)
            || begins_after_name(rest)
            || (has_at_least(2, run) && !begins_counted(rest)))
}

// Whether three Chinese digits or more are a code.
fn are_digits(before: &str, run: &str, rest: &str) -> bool
    ensures { result ≡ are_digits (in_front before.now) (chars run.now) (chars rest.now) }
{
    any(Yao, run)
        || begins_zero(run)
        || is_mobile(run)
        || follows_word(before)
        || (has_at_most(4, run) && is_in_building(before, rest))
        || (has_at_least(7, run) && !do_rise(run))
}

// Whether Chinese digits do not go on with a unit, a point or a letter.
fn is_whole(rest: &str) -> bool
    ensures { result ≡ is_whole (chars rest.now) }
{
    !begins(Letter, rest)
        && !begins_with(
            &[
                '点', '點', '年', '月', '十', '百', '千', '万', '萬', '亿', '億', '两', '兩', '廿',
            ],
            rest,
        )
}

// Whether a run of Chinese digits is a code.
fn is_digits(before: &str, run: &str, rest: &str) -> bool
    ensures { result ≡ is_digits (in_front before.now) (chars run.now) (chars rest.now) }
{
    if !is_whole(rest) {
        return false;
    }
    if ends(Letter, before) {
        is_name(before, run, rest)
    } else {
        has_at_least(3, run) && are_digits(before, run, rest)
    }
}

// ---- Codes

fn is_run(before: &str, in_chinese: bool, run: &str, rest: &str) -> bool
    ensures { result ≡ is_run (in_front before.now) in_chinese (chars run.now) (chars rest.now) }
{
    if in_chinese {
        is_digits(before, run, rest)
    } else {
        is_figures(before, run, rest)
    }
}

// The code that a run is.
fn run_code<'a>(before: &str, in_chinese: bool, run: &str, rest: &'a str) -> Option<Code<'a>>
    ensures { option_map code_of result
        ≡ run_code (in_front before.now) in_chinese (chars run.now) (chars rest.now) }
{
    if is_run(before, in_chinese, run, rest) {
        Some(Code {
            kind: CodeKind::Plain,
            rest,
        })
    } else {
        None
    }
}

// The code that groups are.
fn groups_code<'a>(
    before: &str,
    in_chinese: bool,
    groups: &[Group<'a>],
    rest: &'a str,
) -> Option<Code<'a>>
    ensures { option_map code_of result ≡ groups_code (in_front before.now) in_chinese
        (map group_of groups.now) (chars rest.now) }
{
    let kind = kind_of_groups(before, in_chinese, groups, rest)?;
    Some(Code { kind, rest })
}

// The code of digits of one kind with which a text begins.
fn code_by<'a, D: CharTest, S: CharTest>(
    before: &str,
    in_chinese: bool,
    digit: D,
    sign: S,
    text: &'a str,
) -> Option<Code<'a>>
    ensures { option_map code_of result
        ≡ code_by (in_front before.now) in_chinese (D.test digit) (S.test sign) (chars text.now) }
{
    let nothing = Group {
        digits: "",
        sign: None,
        rest: "",
    };
    let mut list = [nothing; 9];
    let count = read_groups(digit, sign, text, &mut list);
    let groups = &list[..count];
    if let Some(code) = groups_code(before, in_chinese, groups, after_groups(groups, text)) {
        return Some(code);
    }
    let (run, rest) = split_leading(digit, text);
    run_code(before, in_chinese, run, rest)
}

/// Whether Chinese digits would be a part of a numeral at the end of a text.
pub fn ends_numeral(before: &str) -> bool
    ensures { result ≡ ends_numeral (in_front before.now) }
{
    ends_with(&['十', '百', '千', '万', '萬', '亿', '億', '点', '點', '第'], before)
}

/// The code with which a text begins, after another text; `None` if it begins with none.
///
/// ```text
/// code_at("打", "110") == Some(Code { kind: CodeKind::Plain, rest: "" })
/// code_at("满", "110") == None
/// ```
pub fn code_at<'a>(before: &str, text: &'a str) -> Option<Code<'a>>
    ensures { option_map code_of result ≡ code_at (in_front before.now) (chars text.now) }
{
    if begins(Figure, text) && !ends(Figure, before) {
        return code_by(before, false, Figure, BetweenFigures, text);
    }
    if begins(Chinese, text) && !ends(Chinese, before) && !ends_numeral(before) {
        code_by(before, true, Chinese, BetweenChinese, text)
    } else {
        None
    }
}
