// The walk of a unit reader: from right to left, character by character, to the first fault.
ghost use Rattle.std.specs.Prelude.{◌≡◌, ◌==◌, ◌||◌, not, false, ℕ, ◌+◌, ◌<◌, ◌↔◌, ◌^◌, List, [], ◌∷◌, None, Some, Err, IsTrue, MatchResult, option_map, length};
ghost use Rattle.cn_core.specs.Characters.{rank};
ghost use Rattle.cn_core.specs.Mark.{digit, mark_of};
ghost use Rattle.cn_core.specs.Refusal.{Refusal};
ghost use Rattle.cn_core.specs.Text.{marks_of, text_of};
ghost use Rattle.cn_judge.specs.Answer.{refusal_of};
ghost use Rattle.cn_judge.specs.Marked.{marked, unit_mark};
ghost use Rattle.cn_judge.specs.Piece.{answer_at};
ghost use Rattle.cn_judge.specs.Private.Stack.{StackEntry};
ghost use Rattle.cn_judge.specs.Private.Walk.{faults, digit_next, unit_next, multiplies_by, opens_of, fault_of, fault_refusal};
ghost use Rattle.cn_judge.specs.Private.Walked.{IsWalked};

use crate::ChineseToNumberError;
use crate::mark::Mark;
use crate::open_units::OpenUnits;
use crate::text::{count_chars, split_last_mark};
use cn_core::{ChineseCountMethod, Unit, exponent};

/// The state of a walk between two characters.
#[derive(Copy, Clone)]
pub struct WalkState {
    /// The sum of the digits since the last unit.
    pub sum: u128,
    /// The mark that was read last; `None` at the end of the text.
    pub next: Option<Mark>,
}

// Why a walk stops at a character.
#[derive(Copy, Clone)]
pub enum Fault {
    Incorrect,
    TooLarge,
}

// The unit that was read last, if the last mark was a unit.
fn unit_after(next: Option<Mark>) -> Option<Unit>
    ensures { option_map rank result ≡ unit_next next }
{
    match next {
        Some(Mark::Unit(unit)) => Some(unit),
        _ => None,
    }
}

/// Whether the mark that was read last is a digit.
pub fn is_at_digit(next: Option<Mark>) -> bool
    ensures { result ≡ digit_next next }
{
    matches!(next, Some(Mark::Digit(_)))
}

/// Rule 3: a digit from 1 to 9 is not directly before a digit.
pub fn separates_digits(value: u8, at_digit: bool) -> bool
    ensures { result ≡ (value == 0 || not at_digit) }
{
    value == 0 || !at_digit
}

// Rule 4: a unit directly before a unit is smaller than it, except 十 directly before 個.
pub(crate) fn multiplies_upwards(unit: Unit, after: Option<Unit>) -> bool
    ensures { result ≡ multiplies_by (rank unit) (option_map rank after) }
{
    match after {
        Some(next) => unit < next || (unit == Unit::Shi && next == Unit::Ge),
        None => true,
    }
}

// Rule 5: 個 is directly before a unit; by rule 4 that unit is greater.
pub(crate) fn counts_a_unit(unit: Unit, after: Option<Unit>) -> bool
    ensures { result ≡ false ↔ ((rank unit ≡ 0) × (option_map rank after ≡ None)) }
{
    unit != Unit::Ge || after.is_some()
}

// Reads one more unit, to the left of marks that hold no fault, and opens it over the sum below it.
//
// The order of the tests is that of `is_early`. A group that is too large is reported before rules
// 5 and 6 are tested, since only the closed sum shows which unit is on top. It is reported after
// rule 4, since a unit directly before a unit that it may not precede closes no group. And it is
// reported before the scale, since a unit that breaks a rule is refused whatever its scale. So 極
// before 極 is refused by rule 4.
fn step_unit(
    method: ChineseCountMethod,
    units: &mut OpenUnits,
    state: WalkState,
    unit: Unit,
) -> Result<(), Fault>
    requires { (walked : List ℕ) × IsWalked method walked state.sum units.old state.next }
    ensures { (walked : List ℕ) → IsWalked method walked state.sum units.old state.next
        → MatchResult result
        (λ _. (fault_of method (unit_mark unit) (marks_of walked) ≡ None)
        × (units.new ≡ opens_of method (unit_mark unit ∷ marks_of walked)))
        (λ fault. fault_of method (unit_mark unit) (marks_of walked) ≡ Some (fault_refusal fault)) }
{
    let after = unit_after(state.next);
    if !multiplies_upwards(unit, after) {
        return Err(Fault::Incorrect); // rule 4
    }
    let Some(below) = units.close_below(unit, state.sum) else {
        return Err(Fault::TooLarge); // its group is too large
    };
    if !counts_a_unit(unit, after) {
        return Err(Fault::Incorrect); // rule 5
    }
    if !units.groups_strictly(unit) {
        return Err(Fault::Incorrect); // rule 6
    }
    let exponent = exponent(method, unit);
    if exponent > 38 {
        return Err(Fault::TooLarge); // its scale does not fit
    }
    units.open(unit, exponent as u8, below);
    Ok(())
}

// Reads one more digit, to the left of marks that hold no fault, and returns the sum with it.
fn step_digit(state: WalkState, value: u8) -> Result<u128, Fault>
    requires { value < 10 }
    ensures { (method : ChineseCountMethod) (walked : List ℕ) (units : List StackEntry)
        → IsWalked method walked state.sum units state.next
        → MatchResult result
        (λ sum. (fault_of method (digit value) (marks_of walked) ≡ None)
        × (sum ≡ state.sum + value))
        (λ fault. fault_of method (digit value) (marks_of walked) ≡ Some (fault_refusal fault)) }
{
    if !separates_digits(value, is_at_digit(state.next)) {
        return Err(Fault::Incorrect); // rule 3
    }
    if value == 0 {
        return Ok(state.sum);
    }
    Ok(value as u128)
}

// Reads one more character, given its mark, to the left of marks that hold no fault.
fn step(
    method: ChineseCountMethod,
    units: &mut OpenUnits,
    state: WalkState,
    mark: Mark,
) -> Result<WalkState, Fault>
    requires { (c : ℕ) × (walked : List ℕ) × (marked mark ≡ mark_of c)
        × IsWalked method walked state.sum units.old state.next }
    ensures { (c : ℕ) (walked : List ℕ) → marked mark ≡ mark_of c
        → IsWalked method walked state.sum units.old state.next
        → MatchResult result
        (λ after. IsWalked method (c ∷ walked) after.sum units.new after.next)
        (λ fault. fault_of method (mark_of c) (marks_of walked) ≡ Some (fault_refusal fault)) }
{
    match mark {
        Mark::Digit(value) => {
            let sum = step_digit(state, value)?;
            Ok(WalkState {
                sum,
                next: Some(mark),
            })
        }
        Mark::Unit(unit) => {
            step_unit(method, units, state, unit)?;
            Ok(WalkState {
                sum: 0,
                next: Some(mark),
            })
        }
        Mark::Other => Err(Fault::Incorrect), // rule 2
    }
}

/// Walks a text to its first fault; `skipped` is the number of characters before it in the caller's
/// string.
pub fn walk(
    method: ChineseCountMethod,
    skipped: usize,
    text: &str,
    units: &mut OpenUnits,
) -> Result<WalkState, ChineseToNumberError>
    requires room { skipped + length text.now < 2 ^ 64 }
    requires none_open { units.old ≡ [] }
    ensures { MatchResult result
        (λ state. IsWalked method (text_of text.now) state.sum units.new state.next)
        (λ error. (fault : Refusal) × (faults method (marks_of (text_of text.now)) ≡ Some fault)
        × (Err (refusal_of error) ≡ answer_at {T = ℕ} skipped text.now (Err fault))) }
{
    let mut state = WalkState { sum: 0, next: None };
    let mut ahead = text;
    'walking: while let Some((mark, before)) = split_last_mark(ahead) {
        match step(method, units, state, mark) {
            Ok(after) => state = after,
            Err(Fault::TooLarge) => return Err(ChineseToNumberError::Overflow),
            Err(Fault::Incorrect) => {
                let char_index = skipped + count_chars(before);
                return Err(ChineseToNumberError::ChineseNumberIncorrect { char_index });
            }
        }
        ahead = before;
    }
    Ok(state)
}
