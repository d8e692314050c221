// Which characters of a whole number are misread: the rules of numerals give the number a value
// that nobody means.
ghost use Rattle.std.specs.Prelude.{◌≡◌, ◌≤◌, ◌+◌, ◌&&◌, ◌||◌, not, [], ◌∷◌, length, IfSome, MatchOption, option_map, None};
ghost use Rattle.cn_core.specs.Characters.{rank};
ghost use Rattle.cn_core.specs.Mark.{mark_of};
ghost use Rattle.cn_core.specs.Text.{marks_of, text_of};
ghost use Rattle.cn_judge.specs.Marked.{marked};
ghost use Rattle.cn_judge.specs.declared.mark.Mark.TheVariants.{Other};
ghost use Rattle.std.specs.List.{list_any};
ghost use Rattle.cn_quantity.specs.Misread.{bare_ten, counts_after_smaller, first_misread, has_two_readings, is_liang, is_misread_mark, is_small_unit, is_unit_from, leaves_out_zero, multiplies_zero, repeats_ten, unit_before_ten, weighs};
ghost use Rattle.cn_quantity.specs.Private.{SplitsAtMisread, marks_before};
ghost use Rattle.cn_quantity.specs.Reason.{misread_rule, misread_rule_between};

use crate::pieces::{before_end, split_first};
use cn_core::Unit;
use cn_judge::{Mark, mark_of};

// The marks of the three characters before a place, the nearest first; `Other` if there is no
// character.
#[derive(Copy, Clone)]
struct Before {
    first: Mark,
    second: Mark,
    third: Mark,
}

impl Before {
    // Before the first character.
    fn nothing() -> Before
        ensures { result ≡ record { first = Other; second = Other; third = Other } }
    {
        Before {
            first: Mark::Other,
            second: Mark::Other,
            third: Mark::Other,
        }
    }

    // After one more character.
    fn then(self, mark: Mark) -> Before
        ensures { result ≡ record { first = mark; second = self.first; third = self.second } }
    {
        Before {
            first: mark,
            second: self.first,
            third: self.second,
        }
    }
}

// The unit before 十, if 十 would be a bare ten here: 百, or a unit from 千 up with 零 after it.
fn unit_before_ten(before: Before) -> Option<Unit>
    ensures { option_map rank result ≡ unit_before_ten (marks_before before) }
{
    match (before.first, before.second) {
        (Mark::Unit(Unit::Bai), _) => Some(Unit::Bai),
        (Mark::Digit(0), Mark::Unit(unit)) if unit >= Unit::Qian => Some(unit),
        _ => None,
    }
}

// The unit before the mark, if the mark is a bare ten.
fn bare_ten(before: Before, mark: Mark) -> Option<Unit>
    ensures { option_map rank result ≡ bare_ten (marks_before before) (marked mark) }
{
    match mark {
        Mark::Unit(Unit::Shi) => unit_before_ten(before),
        _ => None,
    }
}

// Whether the mark is 十 or 百 directly after 十.
fn repeats_ten(before: Before, mark: Mark) -> bool
    ensures { result ≡ repeats_ten (marks_before before) (marked mark) }
{
    match (before.first, mark) {
        (Mark::Unit(Unit::Shi), Mark::Unit(unit)) => matches!(unit, Unit::Shi | Unit::Bai),
        _ => false,
    }
}

// Whether the mark is a unit directly after 零.
fn multiplies_zero(before: Before, mark: Mark) -> bool
    ensures { result ≡ multiplies_zero (marks_before before) (marked mark) }
{
    match (before.first, mark) {
        (Mark::Digit(value), Mark::Unit(_)) => value == 0,
        _ => false,
    }
}

// Whether 两 is a weight here, by the marks directly before and after it.
fn weighs(before: Before, after: Mark) -> bool
    ensures { result ≡ weighs (marks_before before) (marked after ∷ []) }
{
    let stands_after = match before.first {
        Mark::Digit(_) => true,
        Mark::Unit(unit) => unit > Unit::Ge,
        Mark::Other => false,
    };
    let is_counted = match after {
        Mark::Unit(unit) => unit == Unit::Ge || unit >= Unit::Bai,
        _ => false,
    };
    stands_after && !is_counted
}

// Whether a digit from 1 to 9 is directly before, and before that a unit from 百 up that is smaller
// than this one.
fn counts_after_smaller(unit: Unit, first: Mark, second: Mark) -> bool
    ensures { result ≡ counts_after_smaller (rank unit) (marked first ∷ marked second ∷ []) }
{
    match (first, second) {
        (Mark::Digit(value), Mark::Unit(smaller)) => {
            value > 0 && smaller >= Unit::Bai && smaller < unit
        }
        _ => false,
    }
}

// Whether the mark is a unit from 萬 up that may multiply that digit alone, or everything before it.
fn has_two_readings(before: Before, mark: Mark) -> bool
    ensures { result ≡ has_two_readings (marks_before before) (marked mark) }
{
    let Mark::Unit(unit) = mark else {
        return false;
    };
    if unit < Unit::Wan {
        return false;
    }
    match before.first {
        Mark::Unit(Unit::Ge) => counts_after_smaller(unit, before.second, before.third),
        first => counts_after_smaller(unit, first, before.second),
    }
}

// Whether no unit from 萬 up follows, and 十, 百 or 千 follows or was found before.
fn ends_below_wan(seen: bool, text: &str) -> bool
    ensures { result ≡ (not (list_any (is_unit_from 4) (marks_of (text_of text.now)))
        && (seen || list_any is_small_unit (marks_of (text_of text.now)))) }
{
    let mut found = seen;
    let mut rest = text;
    'looking: while let Some((c, after)) = split_first(rest) {
        match mark_of(c) {
            Mark::Unit(unit) if unit >= Unit::Wan => return false,
            Mark::Unit(unit) if unit > Unit::Ge => found = true,
            _ => {}
        }
        rest = after;
    }
    found
}

// Whether 零 is left out before the mark, which is a digit or 十 directly after a unit from 億 up.
fn leaves_out_zero(before: Before, mark: Mark, after: &str) -> bool
    ensures { result ≡ leaves_out_zero (marks_before before) (marked mark) (marks_of (text_of after.now)) }
{
    let Mark::Unit(unit) = before.first else {
        return false;
    };
    if unit < Unit::Yi {
        return false;
    }
    match mark {
        Mark::Digit(value) => value > 0 && ends_below_wan(false, after),
        Mark::Unit(Unit::Shi) => ends_below_wan(true, after),
        _ => false,
    }
}

// Whether the character is 两 or 兩.
fn is_liang(c: char) -> bool
    ensures { result ≡ is_liang c }
{
    matches!(c, '两' | '兩')
}

// Whether the character is 两 as a weight.
fn is_weight(before: Before, c: char, after: &str) -> bool
    ensures { result ≡ (is_liang c
        && weighs (marks_before before) (marks_of (text_of after.now))) }
{
    if !is_liang(c) {
        return false;
    }
    match split_first(after) {
        Some((next, _)) => weighs(before, mark_of(next)),
        None => weighs(before, Mark::Other),
    }
}

// Whether the character is misread.
fn is_misread_at(before: Before, c: char, after: &str) -> bool
    ensures { result ≡ (is_misread_mark (marks_before before) (mark_of c) (marks_of (text_of after.now))
        || (is_liang c && weighs (marks_before before) (marks_of (text_of after.now)))) }
{
    let mark = mark_of(c);
    bare_ten(before, mark).is_some()
        || repeats_ten(before, mark)
        || multiplies_zero(before, mark)
        || has_two_readings(before, mark)
        || leaves_out_zero(before, mark, after)
        || is_weight(before, c, after)
}

/// By which rule of misread numerals a character is misread; `docs/RULES.md` numbers them.
#[derive(Debug, Copy, Clone, Eq, PartialEq)]
pub enum MisreadFault {
    /// Rule 1: 十 after 百, or after 零 after 千 or a greater unit, as in `三千零十万`.
    BareTen,
    /// Rule 2: 十 or 百 after 十, as in `十十`.
    RepeatedTen,
    /// Rule 3: a unit after 零, as in `一亿零万`.
    AfterZero,
    /// Rule 4: 两 as a weight, as in `二两`.
    Weight,
    /// Rule 5: a unit that counts one digit or all before it, as in `一百五万`.
    TwoReadings,
    /// Rule 6: a digit or 十 after 億 or a greater unit, where 零 seems to be left out, as in
    /// `一亿二千`.
    LeftOutZero,
}

// The first rule by which a misread character is one.
fn rule_of(before: Before, c: char, after: &str) -> MisreadFault
    ensures { result ≡ misread_rule (marks_before before) c (text_of after.now) }
{
    let mark = mark_of(c);
    if bare_ten(before, mark).is_some() {
        MisreadFault::BareTen
    } else if repeats_ten(before, mark) {
        MisreadFault::RepeatedTen
    } else if multiplies_zero(before, mark) {
        MisreadFault::AfterZero
    } else if is_weight(before, c, after) {
        MisreadFault::Weight
    } else if has_two_readings(before, mark) {
        MisreadFault::TwoReadings
    } else {
        MisreadFault::LeftOutZero
    }
}

/// A text in two parts, split at its first misread character.
#[derive(Copy, Clone)]
pub struct Misread<'a> {
    /// The text before that character.
    pub before: &'a str,
    /// The text from that character on.
    pub from: &'a str,
    /// The unit before the character, if it is a bare ten.
    pub unit: Option<Unit>,
    /// By which rule it is misread.
    pub rule: MisreadFault,
}

/// The text in two parts at its first misread character, if it has one.
pub fn first_misread(text: &str) -> Option<Misread<'_>>
    ensures parts { MatchOption result (first_misread (text_of text.now) ≡ None)
        (λ r. SplitsAtMisread text.now r.before.now r.from.now (option_map rank r.unit)) }
    ensures sizes { IfSome result
        (λ r. length r.before.now + length r.from.now ≡ length text.now) }
    ensures rule { IfSome result (λ r. r.rule
        ≡ misread_rule_between (text_of r.before.now) (text_of r.from.now)) }
{
    let mut before = Before::nothing();
    let mut rest = text;
    'looking: while let Some((c, after)) = split_first(rest) {
        if is_misread_at(before, c, after) {
            return Some(Misread {
                before: before_end(text, rest),
                from: rest,
                unit: bare_ten(before, mark_of(c)),
                rule: rule_of(before, c, after),
            });
        }
        before = before.then(mark_of(c));
        rest = after;
    }
    None
}
