// What the text around a number, and the number's own characters, say about it. Code that finds
// numbers by other means can use these flags too.
ghost use Rattle.std.specs.Prelude.{◌≡◌, ◌≢◌, ℕ, ◌<◌, ◌&&◌, ◌||◌, not, true, false, List, ◌∷◌, [], length, reverse, codes, chars, is_some, Some, MatchOption, IfSome, IfNone, IsTrue};
ghost use Rattle.std.specs.Char.{char_set_contains};
ghost use Rattle.cn_core.specs.Characters.{digit_of, rank_of};
ghost use Rattle.cn_core.specs.FigureCharacters.{is_figure};
ghost use Rattle.cn_core.specs.Mark.{mark_of};
ghost use Rattle.cn_judge.specs.Marked.{marked};
ghost use Rattle.cn_find.specs.Belongs.{begins_with};
ghost use Rattle.cn_find.specs.Number.{is_plain};
ghost use Rattle.cn_find.specs.Private.{does_cling, does_link, estimates_last, estimates_next, is_quite};
ghost use Rattle.cn_find.specs.Flags.{are_near, begins_estimate, begins_linked, begins_with_unit, clings, goes_on, is_about, is_any_digit, is_estimate, is_link, is_one_character, is_one_estimate, pairs, stands_alone};

use crate::belongs::is_chinese_digit;
use crate::expressions::first_is;
use cn_core::{digit_of, is_figure, is_wide_figure, split_first_char};
use cn_judge::{Mark, mark_of, split_end_mark, split_first_known, split_first_mark};

#[inline(always)]
fn is_digit(mark: Mark) -> bool
    ensures { (c : ℕ) → marked mark ≡ mark_of c → result ≡ is_some (digit_of c) }
{
    matches!(mark, Mark::Digit(_))
}

#[inline(always)]
fn is_unit(mark: Mark) -> bool
    ensures { (c : ℕ) → marked mark ≡ mark_of c → result ≡ is_some (rank_of c) }
{
    matches!(mark, Mark::Unit(_))
}

// What a character that is not a digit means for a number that it touches.
#[derive(Copy, Clone)]
enum Neighbour {
    // Nothing, as most characters.
    Unrelated,
    // The number continues with it.
    Clings,
    // It links the number to the character on its other side.
    Links,
    // A number directly after it is approximate.
    EstimatesNext,
    // A number directly before it is approximate.
    EstimatesLast,
    // A number directly after or before it is approximate.
    Estimates,
    // A number directly before it is approximate if another character follows it: 好几, 出头.
    Quite,
}

// One `match` decides all of this, rather than one for each question. ASCII characters are handled
// first, so that most Chinese characters are soon found to be unrelated.
#[inline(always)]
#[tactic(auto, unfolding(crate::specs::Flags::clings, crate::specs::Flags::is_link))]
fn neighbour_of(c: char) -> Neighbour
    ensures clings { clings c ≡ (does_cling result || is_some (digit_of c)) }
    ensures links { is_link c ≡ does_link result }
    ensures next { begins_with (codes "几幾数數") (c ∷ []) ≡ estimates_next result }
    ensures last { begins_with (codes "几幾多余餘来來") (c ∷ []) ≡ estimates_last result }
    ensures quite { char_set_contains (codes "好出") c ≡ is_quite result }
{
    if c.is_ascii() {
        return match c {
            '.' | ',' | '-' => Neighbour::Links,
            '_' => Neighbour::Clings,
            _ if c.is_ascii_alphanumeric() => Neighbour::Clings,
            _ => Neighbour::Unrelated,
        };
    }
    match c {
        '０'..='９' | '廿' | '卅' | '卌' | '幺' => Neighbour::Clings,
        '点' | '點' => Neighbour::Links,
        '数' | '數' => Neighbour::EstimatesNext,
        '多' | '余' | '餘' | '来' | '來' => Neighbour::EstimatesLast,
        '几' | '幾' => Neighbour::Estimates,
        '好' | '出' => Neighbour::Quite,
        _ => Neighbour::Unrelated,
    }
}

// Whether a character, given with its mark, is a digit. A number that touches a digit continues
// with it.
#[inline(always)]
#[tactic(auto, using(crate::proofs::Marks::digit_clings, crate::proofs::Marks::digit_no_next, crate::proofs::Marks::digit_no_last, crate::proofs::Marks::digit_no_quite))]
fn is_digit_beside(c: char, mark: Mark) -> bool
    requires { marked mark ≡ mark_of c }
    ensures digit { result ≡ is_some (digit_of c) }
    ensures clings { IsTrue result → clings c ≡ true }
    ensures next { IsTrue result → begins_with (codes "几幾数數") (c ∷ []) ≡ false }
    ensures last { IsTrue result → begins_with (codes "几幾多余餘来來") (c ∷ []) ≡ false }
    ensures quite { IsTrue result → char_set_contains (codes "好出") c ≡ false }
{
    is_digit(mark)
}

// Whether a link can lead to a character, given with its mark.
#[inline(always)]
#[tactic(auto, unfolding(crate::specs::Flags::clings))]
fn is_linked(c: char, mark: Mark) -> bool
    requires { marked mark ≡ mark_of c }
    ensures { result ≡ begins_linked (c ∷ []) }
{
    match mark {
        Mark::Other => matches!(neighbour_of(c), Neighbour::Clings),
        _ => true,
    }
}

// What the text on one side of a number says about it.
#[derive(Copy, Clone)]
struct Side {
    // Whether the number continues in the text.
    goes_on: bool,
    // Whether the text makes the number approximate.
    estimates: bool,
}

// The side of a number that has no text.
const NOTHING: Side = Side {
    goes_on: false,
    estimates: false,
};

// Whether a link directly after this text leads into it.
#[inline(always)]
#[tactic(auto, using(crate::proofs::Nearest::reverse_last))]
fn ends_linked(before: &str) -> bool
    ensures { result ≡ begins_linked (reverse (chars before.now)) }
{
    split_end_mark(before).is_some_and(|(far, mark, _)| is_linked(far, mark))
}

// Whether a link directly before this text leads into it.
#[inline(always)]
#[tactic(auto, unfolding(crate::specs::Flags::clings))]
fn begins_linked(after: &str) -> bool
    ensures { result ≡ begins_linked (chars after.now) }
{
    split_first_mark(after).is_some_and(|(far, mark, _)| is_linked(far, mark))
}

// What the text before a number says about it. A 几 or 数 at its end makes a number approximate
// that begins with a unit.
#[inline(always)]
#[tactic(auto, using(crate::proofs::Nearest::reverse_last))]
fn look_before(before: &str) -> Side
    ensures goes_on { result.goes_on ≡ goes_on (reverse (chars before.now)) }
    ensures estimates { result.estimates
        ≡ begins_with (codes "几幾数數") (reverse (chars before.now)) }
{
    let Some((near, mark, others)) = split_end_mark(before) else {
        return NOTHING;
    };
    if is_digit_beside(near, mark) {
        return Side {
            goes_on: true,
            estimates: false,
        };
    }
    let (goes_on, estimates) = match neighbour_of(near) {
        Neighbour::Unrelated | Neighbour::EstimatesLast | Neighbour::Quite => (false, false),
        Neighbour::Clings => (true, false),
        Neighbour::Links => (ends_linked(others), false),
        Neighbour::EstimatesNext | Neighbour::Estimates => (false, true),
    };
    Side { goes_on, estimates }
}

// Whether a character after a number and the text after it make the number approximate: 好几, 出头.
fn estimate_together(near: char, others: &str) -> bool
    ensures { result ≡ ((char_set_contains (codes "好") near && begins_with (codes "几幾") (chars others.now))
        || (char_set_contains (codes "出") near && begins_with (codes "头頭") (chars others.now))) }
{
    match near {
        '好' => first_is(others, |c| matches!(c, '几' | '幾')),
        '出' => first_is(others, |c| matches!(c, '头' | '頭')),
        _ => false,
    }
}

// What the text after a number says about it. A 几, 多 or another such character at its start makes
// the number approximate.
#[inline(always)]
fn look_after(after: &str) -> Side
    ensures goes_on { result.goes_on ≡ goes_on (chars after.now) }
    ensures estimates { result.estimates ≡ begins_estimate (chars after.now) }
{
    let Some((near, mark, others)) = split_first_mark(after) else {
        return NOTHING;
    };
    if is_digit_beside(near, mark) {
        return Side {
            goes_on: true,
            estimates: false,
        };
    }
    let (goes_on, estimates) = match neighbour_of(near) {
        Neighbour::Unrelated | Neighbour::EstimatesNext => (false, false),
        Neighbour::Clings => (true, false),
        Neighbour::Links => (begins_linked(others), false),
        Neighbour::Quite => (false, estimate_together(near, others)),
        Neighbour::EstimatesLast | Neighbour::Estimates => (false, true),
    };
    Side { goes_on, estimates }
}

/// Whether a number between these texts stands alone. It does unless an ASCII letter, a digit of
/// any kind, `_`, 廿, 卅, 卌 or 幺 touches it, or a `.`, `,`, `-`, 点 or 點 links it to one of
/// these or to a unit.
///
/// ```text
/// stands_alone("第", "章") == true
/// stands_alone("共3.", "万元") == false
/// stands_alone("廿", "日") == false
/// ```
pub fn stands_alone(before: &str, after: &str) -> bool
    ensures { result ≡ stands_alone (chars before.now) (chars after.now) }
{
    !look_before(before).goes_on && !look_after(after).goes_on
}

// Whether the text begins with a unit.
fn begins_with_unit(text: &str) -> bool
    ensures { result ≡ begins_with_unit (chars text.now) }
{
    split_first_mark(text).is_some_and(|(_, mark, _)| is_unit(mark))
}

/// Whether every character of the text is a digit, as in 二零二五. Full-width digits do not count
/// as digits here.
pub fn is_plain(text: &str) -> bool
    ensures { result ≡ is_plain (chars text.now) }
{
    let mut rest = text;
    'looking: while let Some((_, mark, others)) = split_first_mark(rest) {
        if !is_digit(mark) {
            return false;
        }
        rest = others;
    }
    true
}

// Whether a character, given with its mark, is a digit of any kind, full-width digits included.
#[inline(always)]
fn is_any_digit(c: char, mark: Mark) -> bool
    requires { marked mark ≡ mark_of c }
    ensures { result ≡ is_any_digit c }
{
    is_digit(mark) || is_wide_figure(c)
}

// Two neighbouring digits, and the text from the second of them on.
#[derive(Copy, Clone)]
struct DigitPair<'a> {
    first: char,
    second: char,
    rest: &'a str,
}

// The first two neighbouring digits of the text before its first 点.
#[inline(always)]
fn first_pair(text: &str) -> Option<DigitPair<'_>>
    ensures { MatchOption result (pairs (chars text.now) ≡ [])
        (λ pair. pairs (chars text.now)
        ≡ record { first = pair.first; second = pair.second } ∷ pairs (chars pair.rest.now)) }
{
    let mut rest = text;
    'looking: while let Some((first, mark, others)) = split_first_mark(rest) {
        if matches!(first, '点' | '點') {
            return None;
        }
        rest = others;
        if is_any_digit(first, mark) {
            if let Some((second, next, _)) = split_first_mark(others) {
                if is_any_digit(second, next) {
                    return Some(DigitPair {
                        first,
                        second,
                        rest: others,
                    });
                }
            }
        }
    }
    None
}

fn are_near(value: Option<u8>, next: Option<u8>) -> bool
    ensures { result ≡ are_near value next }
{
    match (value, next) {
        (Some(value), Some(next)) => {
            value >= 1 && (u32::from(next) == u32::from(value) + 1 || (value == 3 && next == 5))
        }
        _ => false,
    }
}

// Whether these two digits mean an approximate number, as 五六 does.
#[inline(always)]
fn is_estimate(pair: DigitPair<'_>) -> bool
    ensures { result
        ≡ is_estimate (record { first = pair.entry.first; second = pair.entry.second }) }
{
    is_chinese_digit(pair.first)
        && is_chinese_digit(pair.second)
        && are_near(digit_of(pair.first), digit_of(pair.second))
}

// Whether the text has exactly one pair of neighbouring digits before its first 点, and the pair
// means an approximate number.
fn has_one_estimate(text: &str) -> bool
    ensures { result ≡ is_one_estimate (pairs (chars text.now)) }
{
    first_pair(text).is_some_and(|pair| is_estimate(pair) && first_pair(pair.rest).is_none())
}

// Whether a number is approximate because of the texts around it or by itself.
#[inline(always)]
fn estimates(front: Side, text: &str, back: Side) -> bool
    ensures { result ≡ ((front.estimates && begins_with_unit (chars text.now)) || back.estimates
        || is_one_estimate (pairs (chars text.now))) }
{
    (front.estimates && begins_with_unit(text)) || back.estimates || has_one_estimate(text)
}

/// Whether a number between these texts is approximate. It is if 几 or 数 is directly before it and
/// it begins with a unit, as in 几十; if 几, 多, 余, 来, 好几 or 出头 is directly after it, as in 十几;
/// or if it has exactly one pair of neighbouring digits before its first 点, and these are Chinese
/// digits that follow one another or are 三五, as in 五六, 兩三百 and 十七八.
///
/// ```text
/// is_about("", "三百", "多人") == true
/// is_about("", "七八十", "岁") == true
/// is_about("人数", "三百", "人") == false
/// ```
pub fn is_about(before: &str, text: &str, after: &str) -> bool
    ensures { result ≡ is_about (chars before.now) (chars text.now) (chars after.now) }
{
    estimates(look_before(before), text, look_after(after))
}

// The mark of the only character of a text if the table of marks has the character, which is then a
// Chinese one.
// Same answer (3 → 2): no character of the table has two bytes, so all are decoded, which is
// slower.
#[inline(always)]
fn only_known(text: &str) -> Option<Mark>
    ensures { IfSome result (λ mark. (c : ℕ) × (chars text.now ≡ c ∷ []) × (marked mark ≡ mark_of c)
        × (is_figure c ≡ false)) }
{
    if text.len() != 3 {
        return None;
    }
    let (mark, _) = split_first_known(text)?;
    match mark {
        Mark::Other => None,
        _ => Some(mark),
    }
}

// The mark of the only character of a text, and whether it is neither an ASCII nor a full-width
// digit. The text is decoded. This is a function of its own because it is seldom called.
#[inline(never)]
fn only_mark_slowly(text: &str) -> Option<(Mark, bool)>
    ensures { MatchOption result ((c : ℕ) → chars text.now ≢ c ∷ [])
        (λ r. (c : ℕ) × (chars text.now ≡ c ∷ []) × (marked r.0 ≡ mark_of c)
        × (r.1 ≡ not (is_figure c))) }
{
    let (c, mark, others) = split_first_mark(text)?;
    match split_first_char(others) {
        Some(_) => None,
        None => Some((mark, !is_figure(c))),
    }
}

// Returns what `only_mark_slowly` returns, and decides most texts without decoding them.
// Same answer (if let Some(mark) = only_known(text) → nothing): the character is decoded, more
// slowly.
// Same answer (> → >= #2, 1 → 0 #2): a single byte has already been answered.
// Same answer (1 → 2 #2): two ASCII bytes are decoded, more slowly.
#[inline(always)]
fn only_mark(text: &str) -> Option<(Mark, bool)>
    ensures { MatchOption result ((c : ℕ) → chars text.now ≢ c ∷ [])
        (λ r. (c : ℕ) × (chars text.now ≡ c ∷ []) × (marked r.0 ≡ mark_of c)
        × (r.1 ≡ not (is_figure c))) }
{
    if let Some(mark) = only_known(text) {
        return Some((mark, true));
    }
    let bytes = text.as_bytes();
    if bytes.len() == 1 {
        let c = bytes[0] as char;
        return Some((mark_of(c), !is_figure(c)));
    }
    // A character has at most four bytes,
    if bytes.len() > 4 {
        return None;
    }
    // and an ASCII character has only one.
    if bytes.len() > 1 && bytes[0].is_ascii() {
        return None;
    }
    only_mark_slowly(text)
}

/// Whether a number is one Chinese character, such as the 一 of 一般, the 十 of 十分 and the 零 of
/// 零下. An ASCII or full-width digit is not a Chinese character.
///
/// ```text
/// is_one_character("一") == true
/// is_one_character("1") == false
/// is_one_character("十一") == false
/// ```
pub fn is_one_character(text: &str) -> bool
    ensures { result ≡ is_one_character (chars text.now) }
{
    only_mark(text).is_some_and(|(_, is_no_figure)| is_no_figure)
}

/// All flags of a number.
#[derive(Debug, Copy, Clone)]
pub struct Flags {
    /// Whether it consists of plain digits.
    pub is_plain: bool,
    /// Whether it stands alone: the text around it does not continue it.
    pub stands_alone: bool,
    /// Whether it is approximate.
    pub is_about: bool,
    /// Whether it is one Chinese character.
    pub is_one_character: bool,
}

/// All flags of a number between these texts. The function looks at each neighbour once, and at a
/// number of one character once.
///
/// ```text
/// flags_of("几", "十", "人").is_about == true
/// ```
#[inline(always)]
pub fn flags_of(before: &str, text: &str, after: &str) -> Flags
    ensures plain { result.is_plain ≡ is_plain (chars text.now) }
    ensures alone { result.stands_alone ≡ stands_alone (chars before.now) (chars after.now) }
    ensures about { result.is_about
        ≡ is_about (chars before.now) (chars text.now) (chars after.now) }
    ensures one { result.is_one_character ≡ is_one_character (chars text.now) }
{
    let front = look_before(before);
    let back = look_after(after);
    let stands_alone = !front.goes_on && !back.goes_on;
    match only_mark(text) {
        Some((mark, is_no_figure)) => Flags {
            is_plain: is_digit(mark),
            stands_alone,
            is_about: (front.estimates && is_unit(mark)) || back.estimates,
            is_one_character: is_no_figure,
        },
        None => Flags {
            is_plain: is_plain(text),
            stands_alone,
            is_about: estimates(front, text, back),
            is_one_character: false,
        },
    }
}
