// The units from 萬 up that a walk from the right has read and that a unit further left can still
// multiply.
ghost use Rattle.std.specs.Prelude.{◌≡◌, ◌≤◌, ℕ, ◌<◌, [], ◌∷◌, drop, List, length, option_map};
ghost use Rattle.cn_core.specs.Characters.{rank};
ghost use Rattle.cn_quick.specs.Private.Regular.{has_smaller_top, is_below_top, not_smaller, rank_on_top, top_exponent};

use cn_core::Unit;
use std::marker::Model;

// A unit, and the exponent of the product of its scale and those of the units below it.
#[derive(Copy, Clone)]
struct OpenExponent {
    unit: Unit,
    exponent: u8,
}

/// The units from 萬 up that are still open because a unit further left can multiply them, as a
/// stack with the one opened last on top. The ranks fall from the bottom to the top, so there are
/// never more than 16 units, one of each rank.
#[derive(Drop)]
pub(crate) struct OpenExponents {
    entries: [OpenExponent; 16],
    len: usize,
}

impl Model for OpenExponents {
    ghost use Rattle.std.specs.Prelude.{ℕ, List, ◌≤◌};

    ghost Value = { List (ℕ × ℕ) };

    ghost use Rattle.cn_quick.specs.Private.Regular.{entries_of};

    ghost view = { λ s. entries_of s.entries s.len };

    ghost invariant = { λ s. s.len ≤ 16 };
}

impl OpenExponents {
    /// A stack without open units.
    pub(crate) fn new() -> Self
        ensures { result ≡ [] }
    {
        OpenExponents {
            entries: [OpenExponent {
                unit: Unit::Ge,
                exponent: 0,
            }; 16],
            len: 0,
        }
    }

    /// Opens a unit; the product of its scale and those of the units below it has this exponent.
    pub(crate) fn open(&mut self, unit: Unit, exponent: u8)
        requires { length self.old < 16 }
        ensures { self.new ≡ (rank unit, exponent) ∷ self.old }
    {
        self.entries[self.len] = OpenExponent { unit, exponent };
        self.len += 1;
    }

    /// The exponent of the product of the scales of all open units.
    pub(crate) fn exponent(&self) -> usize
        ensures { result ≡ top_exponent self.now }
    {
        if self.len == 0 {
            0
        } else {
            self.entries[self.len - 1].exponent as usize
        }
    }

    // The unit on top.
    fn top(&self) -> Option<Unit>
        ensures { option_map rank result ≡ rank_on_top self.now }
    {
        if self.len == 0 {
            None
        } else {
            Some(self.entries[self.len - 1].unit)
        }
    }

    /// Whether the unit is smaller than the one on top, or none is open.
    pub(crate) fn is_below_top(&self, unit: Unit) -> bool
        ensures { result ≡ is_below_top (rank unit) self.now }
    {
        match self.top() {
            Some(top) => unit < top,
            None => true,
        }
    }

    // Whether the unit on top is smaller than this one.
    fn has_smaller_top(&self, unit: Unit) -> bool
        ensures { result ≡ has_smaller_top (rank unit) self.now }
    {
        match self.top() {
            Some(top) => top < unit,
            None => false,
        }
    }

    // Closes the unit on top.
    fn close_top(&mut self)
        requires { 0 < length self.old }
        ensures { self.new ≡ drop 1 self.old }
    {
        self.len -= 1;
    }

    /// Closes each open unit that is smaller than this one.
    pub(crate) fn close_below(&mut self, unit: Unit)
        ensures { self.new ≡ not_smaller (rank unit) self.old }
    {
        'closing: while self.has_smaller_top(unit) {
            self.close_top();
        }
    }
}
