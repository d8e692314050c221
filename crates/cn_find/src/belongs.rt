// Whether a character of a text belongs to a number.
ghost use Rattle.std.specs.Prelude.{◌≡◌, ◌&&◌, ℕ, nat_le, true, chars};
ghost use Rattle.cn_core.specs.Characters.{rank};
ghost use Rattle.cn_core.specs.Mark.{mark_of};
ghost use Rattle.cn_judge.specs.Marked.{marked, unit_mark};
ghost use Rattle.cn_find.specs.Belongs.{begins_measure, belongs, counts_next, is_chinese_digit, is_mega, is_parted, is_unit_from, is_upper, is_wanted, is_wanted_mark};

use crate::Wanted;
use cn_core::{Unit, digit_of, split_first_char};
use cn_judge::{Mark, split_first_mark};

// Whether a character is a form that only the upper case has.
#[inline(always)]
#[tactic(auto, unfolding(crate::specs::Belongs::is_upper))]
fn is_upper(c: char) -> bool
    ensures { result ≡ is_upper c }
{
    matches!(
        c,
        '壹' | '貳'
            | '贰'
            | '貮'
            | '參'
            | '叁'
            | '叄'
            | '参'
            | '肆'
            | '伍'
            | '陸'
            | '陆'
            | '柒'
            | '捌'
            | '玖'
            | '拾'
            | '佰'
            | '仟'
    )
}

// Whether `unit` is at most `greatest`, by their ranks.
fn is_up_to(greatest: Unit, unit: Unit) -> bool
    ensures { result ≡ nat_le (rank unit) (rank greatest) }
{
    greatest >= unit
}

fn is_wanted_mark(greatest: Unit, mark: Mark) -> bool
    ensures { result ≡ is_wanted_mark (rank greatest) (marked mark) }
{
    match mark {
        Mark::Digit(_) => true,
        Mark::Unit(unit) => is_up_to(greatest, unit),
        Mark::Other => false,
    }
}

/// Whether a mark is a unit from `least` up.
pub fn is_unit_from(least: Unit, mark: Mark) -> bool
    ensures { result ≡ is_unit_from (rank least) (marked mark) }
{
    match mark {
        Mark::Unit(unit) => is_up_to(unit, least),
        _ => false,
    }
}

/// Whether a character, given with its mark, is wanted: it is a digit or a unit up to the greatest
/// one, and not a form of the upper case alone unless `wanted.upper` is set.
pub fn is_wanted(wanted: Wanted, c: char, mark: Mark) -> bool
    requires { marked mark ≡ mark_of c }
    ensures { result ≡ is_wanted wanted c }
{
    is_wanted_mark(wanted.greatest, mark) && (wanted.upper || !is_upper(c))
}

// Whether the text begins with a word before which 兆 means mega. Most of these words are
// recognized by their first character, the others by their first two.
// `is_of_measure` of specs/Parting has each character of these words.
// Same answer ('\0' → '\t'): no word has a tab or a NUL.
#[inline(never)]
#[tactic(auto, unfolding(crate::specs::Belongs::begins_measure))]
fn begins_measure(text: &str) -> bool
    ensures { result ≡ begins_measure (chars text.now) }
{
    let Some((first, after)) = split_first_char(text) else {
        return false;
    };
    // If no second character follows, NUL, which no word contains.
    let next = split_first_char(after).map_or('\0', |(next, _)| next);
    match first {
        '瓦' | '赫' | '帕' | '焦' | '伏' | '乏' => true,
        '字' => matches!(next, '节' | '節'),
        '比' => next == '特',
        '电' | '電' => next == '子',
        '宽' | '寬' => matches!(next, '带' | '帶' | '頻'),
        '带' | '帶' | '頻' => matches!(next, '宽' | '寬'),
        '位' => !matches!(next, '数' | '數'),
        '欧' | '歐' => next != '元',
        _ => false,
    }
}

// Whether a character is a 兆 that means mega.
#[inline(always)]
fn is_mega(c: char, mark: Mark, after: &str) -> bool
    requires { marked mark ≡ mark_of c }
    ensures { result ≡ is_mega c (chars after.now) }
{
    matches!(mark, Mark::Unit(Unit::Zhao)) && begins_measure(after)
}

// Whether the text begins with a unit that a 個 before it counts.
#[inline(never)]
fn counts_next(wanted: Wanted, text: &str) -> bool
    ensures { result ≡ counts_next wanted (chars text.now) }
{
    split_first_mark(text).is_some_and(|(c, mark, after)| {
        is_unit_from(Unit::Wan, mark) && is_wanted(wanted, c, mark) && !is_mega(c, mark, after)
    })
}

// Whether a wanted unit belongs to a number, given the text after it.
#[inline(always)]
#[tactic(auto, unfolding(crate::specs::Belongs::belongs))]
fn unit_belongs(wanted: Wanted, unit: Unit, after: &str) -> bool
    ensures { (c : ℕ) → unit_mark unit ≡ mark_of c → is_wanted wanted c ≡ true
        → result ≡ belongs wanted c (chars after.now) }
{
    match unit {
        Unit::Ge => counts_next(wanted, after),
        Unit::Zhao => !begins_measure(after),
        _ => true,
    }
}

/// Whether a character, given with its mark and the text after it, belongs to a number.
#[inline(always)]
#[tactic(auto, unfolding(crate::specs::Belongs::belongs))]
pub fn belongs(wanted: Wanted, c: char, mark: Mark, after: &str) -> bool
    requires { marked mark ≡ mark_of c }
    ensures { result ≡ belongs wanted c (chars after.now) }
{
    // Most characters of a text are neither a digit nor a unit, so they are handled first.
    match mark {
        Mark::Other => false,
        _ if !is_wanted(wanted, c, mark) => false,
        Mark::Digit(_) => true,
        Mark::Unit(unit) => unit_belongs(wanted, unit, after),
    }
}

/// Whether a character is a digit but not an ASCII digit.
pub fn is_chinese_digit(c: char) -> bool
    ensures { result ≡ is_chinese_digit c }
{
    digit_of(c).is_some() && !c.is_ascii_digit()
}

/// Whether one of two characters is an ASCII digit, and the other a digit that is not ASCII.
#[inline(always)]
pub fn is_parted(c: char, next: char) -> bool
    ensures { result ≡ is_parted c next }
{
    (c.is_ascii_digit() && is_chinese_digit(next)) || (next.is_ascii_digit() && is_chinese_digit(c))
}
