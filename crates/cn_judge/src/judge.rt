// Reads a numeral: its sign, its first character, the walk over the text after that, and a last
// digit that is a tail.
ghost use Rattle.std.specs.Prelude.{◌≡◌, ℕ, ◌+◌, ◌*◌, ◌/◌, ◌^◌, ◌<◌, ◌≤◌, List, ◌∷◌, true, false, length, chars, IfNone, IfSome, IsTrue, MatchOption, SomeIff};
ghost use Rattle.cn_core.specs.Characters.{rank};
ghost use Rattle.cn_core.specs.Mark.{Mark as NumeralMark, digit, mark_of};
ghost use Rattle.cn_core.specs.Scale.{scale, scale_fits};
ghost use Rattle.cn_core.specs.Text.{text_of, marks_of};
ghost use Rattle.cn_core.specs.Numeral.{each_may_precede, is_numeral, with_first_digit, starts_with_digit};
ghost use Rattle.cn_core.specs.Place.{is_tail};
ghost use Rattle.cn_core.specs.Reading.{Reads, leading_sign, sign_len};
ghost use Rattle.cn_judge.specs.Answer.{answer_of};
ghost use Rattle.cn_judge.specs.Judged.{after_first, JudgesAt};
ghost use Rattle.cn_judge.specs.Marked.{marked, unit_mark};
ghost use Rattle.cn_judge.specs.Piece.{EndsWith, StandsAt};
ghost use Rattle.cn_judge.specs.Signed.{signed_answer};
ghost use Rattle.cn_judge.specs.Private.Walk.{digit_next, walked_answer, HasNoTail, HasTail};

use crate::ChineseToNumberError;
use crate::mark::{Mark, mark_of};
use crate::open_units::OpenUnits;
use crate::space::skip_spaces;
use crate::text::{count_chars, first_behind, split_first, split_last_mark};
use crate::walk::{is_at_digit, separates_digits, walk};
use cn_core::{ChineseCountMethod, Sign, Unit, Whole, scale, sign_of};

/// A text without its sign.
#[derive(Copy, Clone)]
pub struct AfterSign<'a> {
    pub sign: Option<Sign>,
    /// The number of characters before `rest`: the sign, if there is one, and white space before
    /// it.
    pub skipped: usize,
    pub rest: &'a str,
}

// Inlined: as a call, it makes each read of a signed type take more instructions.
/// Splits off one sign at the start of a text that is read for a signed type, and white space
/// before it.
#[inline(always)]
pub fn split_sign(signed: bool, text: &str) -> AfterSign<'_>
    ensures sign { result.sign ≡ leading_sign signed (text_of text.now) }
    ensures rest { StandsAt text.now (chars result.rest.now) result.skipped (sign_len result.sign) }
    ensures within { result.skipped + length result.rest.now ≤ length text.now }
{
    if !signed {
        return AfterSign {
            sign: None,
            skipped: 0,
            rest: text,
        };
    }
    let behind = skip_spaces(text);
    if let Some(first) = first_behind(behind) {
        if let Some(sign) = sign_of(first.character) {
            return AfterSign {
                sign: Some(sign),
                skipped: first.skipped + 1,
                rest: first.rest,
            };
        }
    }
    AfterSign {
        sign: None,
        skipped: behind.skipped,
        rest: behind.rest,
    }
}

/// Rule 1: the digit at the start of a text, where 十 is ten. The digit must also keep rule 3.
/// `None` if the first mark breaks either rule.
pub fn first_digit(first: Mark, at_digit: bool) -> Option<u8>
    ensures some { (marks : List NumeralMark) → each_may_precede marks ≡ true
        → at_digit ≡ starts_with_digit marks
        → IfSome result (λ value. (is_numeral (marked first ∷ marks) ≡ true)
        × (with_first_digit (marked first ∷ marks) ≡ digit value ∷ marks)) }
    ensures none { (c : ℕ) (marks : List NumeralMark) → marked first ≡ mark_of c
        → each_may_precede marks ≡ true → at_digit ≡ starts_with_digit marks
        → IfNone result (is_numeral (mark_of c ∷ marks) ≡ false) }
{
    match first {
        Mark::Digit(value) => {
            if !separates_digits(value, at_digit) {
                return None;
            }
            Some(value)
        }
        Mark::Unit(Unit::Shi) => Some(10),
        _ => None,
    }
}

// The answer to a first character and the text after it, if the text has no tail. It is marked
// cold, so that where a quick reader is tried first, the compiler gives that reader the registers.
#[cold]
fn judge_walked(
    method: ChineseCountMethod,
    char_index: usize,
    first: char,
    rest: &str,
) -> Result<u128, ChineseToNumberError>
    requires { char_index + 1 + length rest.now < 2 ^ 64 }
    ensures { answer_of (λ n. n) result
        ≡ after_first char_index rest.now
        (walked_answer method (mark_of first) (marks_of (text_of rest.now))) }
{
    let mut units = OpenUnits::new();
    let state = walk(method, char_index + 1, rest, &mut units)?;
    let Some(digit) = first_digit(mark_of(first), is_at_digit(state.next)) else {
        return Err(ChineseToNumberError::ChineseNumberIncorrect { char_index });
    };
    units
        .finish(state.sum, digit)
        .ok_or(ChineseToNumberError::Overflow)
}

// A last character that is a tail: it follows a unit from 百 up and is not a unit above 個.
#[derive(Copy, Clone)]
struct Tail<'a> {
    // The text before it.
    body: &'a str,
    // The unit at the end of the body.
    unit: Unit,
    last: Mark,
}

// The unit at the end of a body, if the mark after it is a tail.
fn unit_before(second: Mark, last: Mark) -> Option<Unit>
    ensures { MatchOption result (is_tail (marked second) (marked last) ≡ false)
        (λ unit. (marked second ≡ unit_mark unit)
        × (is_tail (marked second) (marked last) ≡ true)) }
{
    match (second, last) {
        (Mark::Unit(_), Mark::Unit(above)) if above > Unit::Ge => None,
        (Mark::Unit(unit), _) if unit >= Unit::Bai => Some(unit),
        _ => None,
    }
}

// The last character, if it is a tail. Inlined: as a call, it makes a refusal take 22 more
// instructions.
#[inline(always)]
fn split_tail(text: &str) -> Option<Tail<'_>>
    ensures tail { MatchOption result (HasNoTail (marks_of (text_of text.now)))
        (λ t. HasTail (marks_of (text_of text.now)) (marks_of (text_of t.body.now))
        (rank t.unit) (marked t.last)) }
    ensures end { IfSome result
        (λ t. (c : ℕ) × EndsWith text.now c t.body.now × (marked t.last ≡ mark_of c)) }
    ensures shorter { IfSome result (λ t. length t.body.now < length text.now) }
{
    let (last, body) = split_last_mark(text)?;
    let (second, _) = split_last_mark(body)?;
    let unit = unit_before(second, last)?;
    Some(Tail { body, unit, last })
}

// Adds a digit times a tenth of a unit to a number; `None` if the sum does not fit.
fn add_tail(method: ChineseCountMethod, number: u128, unit: Unit, digit: u8) -> Option<u128>
    requires digit { digit < 10 }
    requires hundred { 1 < rank unit }
    requires fits { IsTrue (scale_fits method (rank unit)) }
    ensures { SomeIff result (number + digit * scale method (rank unit) / 10 < 2 ^ 128)
        (number + digit * scale method (rank unit) / 10) }
{
    let Some(size) = scale(method, unit) else {
        unreachable!()
    };
    number.checked_add(digit as u128 * (size / 10))
}

// Inlined: as a call, it makes a refusal take 20 more instructions.
/// The answer to a text without sign; `skipped` is the number of characters before it in the
/// caller's string.
#[inline(always)]
pub fn judge_text(
    method: ChineseCountMethod,
    skipped: usize,
    text: &str,
) -> Result<u128, ChineseToNumberError>
    requires { skipped + length text.now < 2 ^ 64 }
    ensures { JudgesAt method skipped text.now (answer_of (λ n. n) result) }
{
    if text.is_empty() {
        return Err(ChineseToNumberError::ChineseNumberEmpty);
    }
    let Some(first) = split_first(text) else {
        return Err(ChineseToNumberError::ChineseNumberEmpty);
    };
    let char_index = skipped + first.skipped;
    let Some(tail) = split_tail(first.rest) else {
        return judge_walked(method, char_index, first.character, first.rest);
    };
    let number = judge_walked(method, char_index, first.character, tail.body)?;
    let Mark::Digit(digit) = tail.last else {
        let char_index = char_index + 1 + count_chars(tail.body);
        return Err(ChineseToNumberError::ChineseNumberIncorrect { char_index });
    };
    add_tail(method, number, tail.unit, digit).ok_or(ChineseToNumberError::Overflow)
}

/// The answer for a type, from the sign and the answer to the text after it.
pub fn signed_answer<T: Whole>(
    sign: Option<Sign>,
    judged: Result<u128, ChineseToNumberError>,
) -> Result<T, ChineseToNumberError>
    ensures { answer_of T.number result ≡ signed_answer T.kind sign (answer_of (λ n. n) judged) }
{
    let negative = matches!(sign, Some(Sign::Minus));
    let too_far = if negative {
        ChineseToNumberError::Underflow
    } else {
        ChineseToNumberError::Overflow
    };
    match judged {
        Ok(magnitude) => T::from_magnitude(negative, magnitude).ok_or(too_far),
        Err(ChineseToNumberError::Overflow) => Err(too_far),
        Err(error) => Err(error),
    }
}

/// Reads a numeral after at most one sign.
pub fn read_number<T: Whole>(
    method: ChineseCountMethod,
    text: &str,
) -> Result<T, ChineseToNumberError>
    ensures { Reads T.kind method text.now (answer_of T.number result) }
{
    let after = split_sign(T::SIGNED, text);
    signed_answer(after.sign, judge_text(method, after.skipped, after.rest))
}
