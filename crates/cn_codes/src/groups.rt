// Runs of digits with a sign between, such as 010-62345678 and 192.168.1.1.
ghost use Rattle.std.specs.Prelude.{◌≡◌, ◌≤◌, true, chars, length, map, take};
ghost use Rattle.std.specs.Option.{option_map_or};
ghost use Rattle.cn_codes.specs.Groups.{after_groups, are, are_fours, begins_hotline, begins_mobile, group_at, group_of, groups_of, have_signs, is_landline, is_mobile, is_mobile_in_groups, is_hotline, lengths, sign_of};

use crate::digits::{begins_any_number, begins_zero, has_at_most, has_count};
use crate::words::without_first;
use cn_core::split_first_char;
use cn_replace::pieces::{CharTest, begins, split_leading};

/// A run of digits.
#[derive(Copy, Clone)]
pub struct Group<'a> {
    /// The digits of the run.
    pub digits: &'a str,
    /// The sign between it and the next run, which the last has not.
    pub sign: Option<char>,
    /// The text after the run.
    pub rest: &'a str,
}

// The sign with which a text begins, if a run is directly after it.
fn sign_of<D: CharTest, S: CharTest>(digit: D, sign: S, text: &str) -> Option<char>
    ensures { result ≡ sign_of (D.test digit) (S.test sign) (chars text.now) }
{
    let (c, rest) = split_first_char(text)?;
    if sign.passes(c) && begins(digit, rest) {
        Some(c)
    } else {
        None
    }
}

// The run with which a text begins.
fn group_at<'a, D: CharTest, S: CharTest>(digit: D, sign: S, text: &'a str) -> Group<'a>
    ensures { group_of result ≡ group_at (D.test digit) (S.test sign) (chars text.now) }
{
    let (digits, rest) = split_leading(digit, text);
    Group {
        digits,
        sign: sign_of(digit, sign, rest),
        rest,
    }
}

/// Reads the groups with which a text begins, and returns how many there are: at most nine, which are
/// more than any code has.
pub fn read_groups<'a, D: CharTest, S: CharTest>(
    digit: D,
    sign: S,
    text: &'a str,
    list: &mut [Group<'a>; 9],
) -> usize
    ensures count { result ≤ 9 }
    ensures size { length list.new ≡ 9 }
    ensures groups { map group_of (take result list.new)
        ≡ groups_of (D.test digit) (S.test sign) (chars text.now) }
{
    let mut rest = text;
    let mut count = 0;
    'reading: while count < 9 {
        let group = group_at(digit, sign, rest);
        list[count] = group;
        count += 1;
        if group.sign.is_none() {
            return count;
        }
        rest = without_first(group.rest);
    }
    count
}

/// The text after the groups with which it begins.
pub fn after_groups<'a>(groups: &[Group<'a>], text: &'a str) -> &'a str
    ensures { chars result.now ≡ after_groups (map group_of groups.now) (chars text.now) }
{
    match groups.split_first() {
        Some((group, others)) => after_groups(others, group.rest),
        None => text,
    }
}

// Whether there is no sign, or it passes.
fn may_pass<S: CharTest>(test: S, sign: Option<char>) -> bool
    ensures { result ≡ option_map_or (S.test test) sign true }
{
    match sign {
        Some(c) => test.passes(c),
        None => true,
    }
}

/// Whether each sign between the groups passes.
pub fn have_signs<S: CharTest>(test: S, groups: &[Group<'_>]) -> bool
    ensures { result ≡ have_signs (S.test test) (map group_of groups.now) }
{
    match groups.split_first() {
        Some((group, others)) => may_pass(test, group.sign) && have_signs(test, others),
        None => true,
    }
}

// Whether the groups have so many digits.
fn are(groups: &[Group<'_>], counts: &[u8]) -> bool
    ensures { result ≡ are (lengths (map group_of groups.now)) counts.now }
{
    match (groups.split_first(), counts.split_first()) {
        (None, None) => true,
        (Some((group, others)), Some((count, rest))) => {
            has_count(*count, group.digits) && are(others, rest)
        }
        _ => false,
    }
}

// Whether a run begins as the number of a mobile telephone does.
fn begins_mobile(run: &str) -> bool
    ensures { result ≡ begins_mobile (chars run.now) }
{
    begins_any_number(&["13", "14", "15", "16", "17", "18", "19"], run)
}

/// Whether a run is the number of a mobile telephone.
#[tactic(auto, unfolding(crate::specs::Groups::is_mobile))]
pub fn is_mobile(run: &str) -> bool
    ensures { result ≡ is_mobile (chars run.now) }
{
    has_count(11, run) && begins_mobile(run)
}

/// Whether groups of 3, 4 and 4 digits are the number of a mobile telephone.
#[tactic(auto, unfolding(crate::specs::Groups::is_mobile_in_groups))]
pub fn is_mobile_in_groups(groups: &[Group<'_>]) -> bool
    ensures { result ≡ is_mobile_in_groups (map group_of groups.now) }
{
    match groups.split_first() {
        Some((first, _)) => are(groups, &[3, 4, 4]) && begins_mobile(first.digits),
        None => false,
    }
}

/// Whether groups are the number of a landline: 010-62345678.
#[tactic(auto, unfolding(crate::specs::Groups::is_landline))]
pub fn is_landline(groups: &[Group<'_>]) -> bool
    ensures { result ≡ is_landline (map group_of groups.now) }
{
    let Some((area, others)) = groups.split_first() else {
        return false;
    };
    let Some((number, more)) = others.split_first() else {
        return false;
    };
    more.is_empty()
        && begins_zero(area.digits)
        && (has_count(3, area.digits) || has_count(4, area.digits))
        && (has_count(7, number.digits) || has_count(8, number.digits))
}

// Whether a run begins with 400 or 800.
fn begins_hotline(run: &str) -> bool
    ensures { result ≡ begins_hotline (chars run.now) }
{
    begins_any_number(&["400", "800"], run)
}

/// Whether groups are a number that begins with 400 or 800: 400-820-8820.
#[tactic(auto, unfolding(crate::specs::Groups::is_hotline))]
pub fn is_hotline(groups: &[Group<'_>]) -> bool
    ensures { result ≡ is_hotline (map group_of groups.now) }
{
    match groups.split_first() {
        Some((area, _)) => {
            begins_hotline(area.digits) && (are(groups, &[3, 3, 4]) || are(groups, &[3, 4, 3]))
        }
        None => false,
    }
}

/// Whether groups are four digits each, the last at most four.
pub fn are_fours(groups: &[Group<'_>]) -> bool
    ensures { result ≡ are_fours (map group_of groups.now) }
{
    let Some((group, others)) = groups.split_first() else {
        return false;
    };
    if others.is_empty() {
        has_at_most(4, group.digits)
    } else {
        has_count(4, group.digits) && are_fours(others)
    }
}
