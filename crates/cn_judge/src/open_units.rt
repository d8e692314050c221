// The units that a walk from the right has read and that a unit further left can still multiply.
ghost use Rattle.std.specs.Prelude.{◌≡◌, ◌+◌, ◌*◌, ◌^◌, ◌<◌, ◌≤◌, ◌↔◌, [], ◌∷◌, length, Some, false, IsTrue, IfSome, IfNone, SomeIff, option_map};
ghost use Rattle.cn_core.specs.Characters.{rank};
ghost use Rattle.cn_judge.specs.Private.Stack.{ClosesTop, all_positive, closed_sum, still_open, top_of, total_sum};

use cn_core::{Unit, power_of_ten};
use std::marker::Model;

// A unit, the exponent of its scale, and the sum below it when it was opened. All entries are
// cleared first: with the scale in place of the exponent, a refusal takes 26 more instructions.
#[derive(Copy, Clone)]
struct OpenUnit {
    unit: Unit,
    exponent: u8,
    below: u128,
}

/// The units that are still open, as a stack with the last one on top. The ranks fall from the
/// bottom to the top, so there are never more than 16 units, one of each rank.
#[derive(Drop)]
pub struct OpenUnits {
    entries: [OpenUnit; 16],
    len: usize,
}

impl Model for OpenUnits {
    ghost use Rattle.std.specs.Prelude.{ℕ, List, ◌≤◌, IsTrue};

    ghost Value = { List (ℕ × ℕ × ℕ) };

    ghost use Rattle.cn_judge.specs.Private.Stack.{stack_of, all_scales_fit};

    ghost view = { λ s. stack_of s.entries s.len };

    ghost invariant = { λ s. (s.len ≤ 16) × IsTrue (all_scales_fit s.entries) };
}

// Same answer (if let (Ok(factor), Ok(size)) = (u64::try_fro.. → nothing): the product in 128 bits
// is the same, but slower.
/// `factor * size + more`, if the product and the sum fit. If both factors are below 2^64, the
/// product fits and is computed faster.
pub fn multiply_add(factor: u128, size: u128, more: u128) -> Option<u128>
    ensures { SomeIff result (factor * size + more < 2 ^ 128) (factor * size + more) }
{
    if let (Ok(factor), Ok(size)) = (u64::try_from(factor), u64::try_from(size)) {
        return (factor as u128 * size as u128).checked_add(more);
    }
    factor.checked_mul(size)?.checked_add(more)
}

impl OpenUnits {
    /// A stack without open units.
    pub fn new() -> Self
        ensures { result ≡ [] }
    {
        OpenUnits {
            entries: [OpenUnit {
                unit: Unit::Ge,
                exponent: 0,
                below: 0,
            }; 16],
            len: 0,
        }
    }

    /// Opens a unit, whose scale has this exponent, over the sum so far.
    pub fn open(&mut self, unit: Unit, exponent: u8, below: u128)
        requires room { length self.old < 16 }
        requires fits { exponent ≤ 38 }
        ensures { self.new ≡ (rank unit, 10 ^ exponent, below) ∷ self.old }
    {
        self.entries[self.len] = OpenUnit {
            unit,
            exponent,
            below,
        };
        self.len += 1;
    }

    // The unit on top.
    fn top(&self) -> Option<Unit>
        ensures { option_map rank result ≡ top_of self.now }
    {
        if self.len == 0 {
            None
        } else {
            Some(self.entries[self.len - 1].unit)
        }
    }

    /// Rule 6, after all smaller units are closed: the first unit that is not smaller, which is
    /// then on top, is greater.
    pub fn groups_strictly(&self, unit: Unit) -> bool
        ensures { result ≡ false ↔ (top_of self.now ≡ Some (rank unit)) }
    {
        match self.top() {
            Some(top) => top != unit,
            None => true,
        }
    }

    // Closes the unit on top; `None` if the sum does not fit.
    // Same answer (sum, size, top.below → size, sum, top.below): a product is the same in either
    // order.
    fn close_top(&mut self, sum: u128) -> Option<u128>
        requires { 0 < length self.old }
        ensures { ClosesTop sum self.old self.new result }
    {
        let top = self.entries[self.len - 1];
        self.len -= 1;
        let Some(size) = power_of_ten(top.exponent as usize) else {
            unreachable!()
        };
        multiply_add(sum, size, top.below)
    }

    /// The sum after each open unit that is smaller than this one is closed; `None` if it does not
    /// fit.
    pub fn close_below(&mut self, unit: Unit, sum: u128) -> Option<u128>
        requires { IsTrue (all_positive self.old) }
        ensures sum { SomeIff result (closed_sum (rank unit) sum self.old < 2 ^ 128)
            (closed_sum (rank unit) sum self.old) }
        ensures left { IfSome result (λ _. self.new ≡ still_open (rank unit) self.old) }
    {
        let mut closed = sum;
        'closing: while let Some(top) = self.top() {
            if top >= unit {
                break;
            }
            closed = self.close_top(closed)?;
        }
        Some(closed)
    }

    // The sum after all units are closed; `None` if it does not fit.
    fn close_all(&mut self, sum: u128) -> Option<u128>
        requires { IsTrue (all_positive self.old) }
        ensures { SomeIff result (total_sum sum self.old < 2 ^ 128) (total_sum sum self.old) }
    {
        let mut closed = sum;
        'closing: while self.len > 0 {
            closed = self.close_top(closed)?;
        }
        Some(closed)
    }

    /// The sum after a first digit is added and all units are closed; `None` if it does not fit.
    pub fn finish(&mut self, sum: u128, digit: u8) -> Option<u128>
        requires { IsTrue (all_positive self.old) }
        ensures { SomeIff result (total_sum (sum + digit) self.old < 2 ^ 128)
            (total_sum (sum + digit) self.old) }
    {
        self.close_all(sum.checked_add(digit as u128)?)
    }
}
