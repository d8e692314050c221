// The state of a quick walk, and how one more digit or section changes its sums.
ghost use Rattle.std.specs.Prelude.{◌≡◌, ◌≤◌, ◌+◌, ◌*◌, ◌^◌, ◌<◌, IfSome};
ghost use Rattle.cn_core.specs.Characters.{rank};
ghost use Rattle.cn_quick.specs.Private.Regular.{top_exponent};

use crate::open_exponents::OpenExponents;
use cn_core::{Unit, power_of_ten};

/// The state of a quick walk between two characters.
#[derive(Copy, Clone)]
pub(crate) struct QuickState {
    /// The value of the digits to the right of the last unit that closed a section.
    pub(crate) total: u128,
    /// The sum of the section since then, not yet multiplied by the open units.
    pub(crate) sum: u64,
    /// The last unit since then, or 個 if there is none.
    pub(crate) last: Unit,
    /// Whether the character that was read last is a digit.
    pub(crate) at_digit: bool,
}

// The numbers that units of a section stand for, by rank: under `Low` each unit is a unit of a
// section. With `power_of_ten`, each digit takes one more instruction.
static SECTION_SCALES: [u64; 16] = [
    1,
    10,
    100,
    1_000,
    10_000,
    100_000,
    1_000_000,
    10_000_000,
    100_000_000,
    1_000_000_000,
    10_000_000_000,
    100_000_000_000,
    1_000_000_000_000,
    10_000_000_000_000,
    100_000_000_000_000,
    1_000_000_000_000_000,
];

// The number that a unit of a section stands for.
#[inline(always)]
fn section_scale(unit: Unit) -> u64
    ensures value { result ≡ 10 ^ rank unit }
    ensures most { result ≤ 10 ^ 15 }
{
    SECTION_SCALES[unit as usize]
}

/// The section's sum with one more digit; `None` if it does not fit.
pub(crate) fn add_digit(state: QuickState, value: u8) -> Option<u64>
    ensures { IfSome result (λ sum. sum ≡ state.sum + value * 10 ^ rank state.last) }
{
    let more = value as u64 * section_scale(state.last);
    state.sum.checked_add(more)
}

// Same answer (<= → <, 19 → 18): a sum of 64 bits times 10^19 fits either multiplication.
/// The total with the section added, multiplied by the open units; `None` if it does not fit.
pub(crate) fn add_section(units: &OpenExponents, total: u128, sum: u64) -> Option<u128>
    ensures { IfSome result (λ n. (n ≡ total + sum * 10 ^ top_exponent units.now)
        × (n < 2 ^ 128)) }
{
    let exponent = units.exponent();
    let size = power_of_ten(exponent)?;
    if exponent <= 19 {
        total.checked_add(sum as u128 * size)
    } else {
        total.checked_add((sum as u128).checked_mul(size)?)
    }
}
