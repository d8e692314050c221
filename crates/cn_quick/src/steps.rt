// One step of a quick walk: it reads one more character.
ghost use Rattle.std.specs.Prelude.{◌≡◌, ◌≤◌, ◌<◌, ◌∷◌, ◌&&◌, ◌||◌, ◌==◌, List, nat_le, nat_lt, length, IfSome, IsTrue};
ghost use Rattle.cn_core.specs.Characters.{rank};
ghost use Rattle.cn_core.specs.Mark.{Mark as NumeralMark, digit};
ghost use Rattle.cn_judge.specs.Marked.{marked, unit_mark};
ghost use Rattle.cn_quick.specs.Private.Regular.{OpenEntry, LeavesNoTail, MayOpen, StandsRegular, closing_rank};

use crate::open_exponents::OpenExponents;
use crate::state::{QuickState, add_digit, add_section};
use cn_core::{ChineseCountMethod, Unit, exponent};
use cn_judge::{Mark, separates_digits};

// Reads one more digit.
fn step_digit(state: QuickState, value: u8) -> Option<QuickState>
    requires { (method : ChineseCountMethod) × (marks : List NumeralMark) × (units : List OpenEntry)
        × StandsRegular method marks units state }
    ensures { (method : ChineseCountMethod) (marks : List NumeralMark) (units : List OpenEntry)
        → StandsRegular method marks units state
        → IfSome result (StandsRegular method (digit value ∷ marks) units) }
{
    if !separates_digits(value, state.at_digit) {
        return None;
    }
    Some(QuickState {
        total: state.total,
        sum: add_digit(state, value)?,
        last: state.last,
        at_digit: true,
    })
}

// Whether a unit of a section is greater than the section's last unit and, unless it is the
// section's first, is directly before a digit.
fn extends_section(state: QuickState, unit: Unit) -> bool
    ensures { result ≡ (nat_lt (rank state.last) (rank unit)
        && (state.at_digit || rank state.last == 0)) }
{
    unit > state.last && (state.at_digit || state.last == Unit::Ge)
}

// Reads one more unit of a section.
fn step_section_unit(state: QuickState, unit: Unit) -> Option<QuickState>
    ensures { (method : ChineseCountMethod) (marks : List NumeralMark) (units : List OpenEntry)
        → StandsRegular method marks units state
        → rank unit < closing_rank method
        → LeavesNoTail (unit_mark unit) marks
        → IfSome result (StandsRegular method (unit_mark unit ∷ marks) units) }
{
    if !extends_section(state, unit) {
        return None;
    }
    Some(QuickState {
        total: state.total,
        sum: state.sum,
        last: unit,
        at_digit: false,
    })
}

// Whether a unit may close a section here. It also closes each open unit that is smaller.
fn makes_way(units: &mut OpenExponents, state: QuickState, unit: Unit) -> bool
    ensures { (method : ChineseCountMethod) (marks : List NumeralMark)
        → StandsRegular method marks units.old state → closing_rank method ≤ rank unit
        → IsTrue result → MayOpen method marks units.new (rank unit) }
{
    if state.at_digit {
        units.close_below(unit);
        units.is_below_top(unit)
    } else {
        state.last == Unit::Ge && units.is_below_top(unit)
    }
}

// Reads one more unit, which closes the section.
fn close_section(
    method: ChineseCountMethod,
    units: &mut OpenExponents,
    state: QuickState,
    unit: Unit,
) -> Option<QuickState>
    requires { (marks : List NumeralMark) × StandsRegular method marks units.old state
        × (closing_rank method ≤ rank unit) }
    ensures { (marks : List NumeralMark) → StandsRegular method marks units.old state
        → LeavesNoTail (unit_mark unit) marks
        → IfSome result (StandsRegular method (unit_mark unit ∷ marks) units.new) }
{
    let total = add_section(units, state.total, state.sum)?;
    if !makes_way(units, state, unit) {
        return None;
    }
    let all = units.exponent().checked_add(exponent(method, unit))?;
    if all > 38 {
        return None;
    }
    units.open(unit, all as u8);
    Some(QuickState {
        total,
        sum: 0,
        last: Unit::Ge,
        at_digit: false,
    })
}

// Whether a digit that is the text's last character would be a tail after this unit.
fn leaves_tail(unit: Unit, state: QuickState, is_second: bool) -> bool
    ensures { result ≡ (nat_le 2 (rank unit) && state.at_digit && is_second) }
{
    unit >= Unit::Bai && state.at_digit && is_second
}

// Whether a unit closes a section. Each unit from 萬 up does, except that under `Low`, where each
// unit is ten times the one before, none does.
fn closes_section(method: ChineseCountMethod, unit: Unit) -> bool
    ensures { result ≡ nat_le (closing_rank method) (rank unit) }
{
    match method {
        ChineseCountMethod::Low => false,
        _ => unit >= Unit::Wan,
    }
}

// Reads one more unit.
fn step_unit(
    method: ChineseCountMethod,
    units: &mut OpenExponents,
    state: QuickState,
    unit: Unit,
    is_second: bool,
) -> Option<QuickState>
    requires { (marks : List NumeralMark) × StandsRegular method marks units.old state }
    ensures { (marks : List NumeralMark) → StandsRegular method marks units.old state
        → is_second ≡ (length marks == 1)
        → IfSome result (StandsRegular method (unit_mark unit ∷ marks) units.new) }
{
    if leaves_tail(unit, state, is_second) {
        return None;
    }
    if closes_section(method, unit) {
        close_section(method, units, state, unit)
    } else {
        step_section_unit(state, unit)
    }
}

/// Reads one more character, given its mark.
pub(crate) fn step(
    method: ChineseCountMethod,
    units: &mut OpenExponents,
    state: QuickState,
    mark: Mark,
    is_second: bool,
) -> Option<QuickState>
    requires { (marks : List NumeralMark) × StandsRegular method marks units.old state }
    ensures { (marks : List NumeralMark) → StandsRegular method marks units.old state
        → is_second ≡ (length marks == 1)
        → IfSome result (StandsRegular method (marked mark ∷ marks) units.new) }
{
    match mark {
        Mark::Digit(value) => step_digit(state, value),
        Mark::Unit(unit) => step_unit(method, units, state, unit, is_second),
        Mark::Other => None,
    }
}
