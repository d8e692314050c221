// The value of a text, summed from left to right.
ghost use Rattle.std.specs.Prelude.{◌≡◌, ◌+◌, ◌<◌};
ghost use Rattle.cn_amount.specs.Places.{amount_limit};
ghost use Rattle.cn_amount.specs.Working.Steps.{of_closed, with_section, with_fen, add, summed};

use crate::capital::Capital;

/// The value of the characters so far.
#[derive(Clone, Copy)]
pub struct Sum {
    /// What is closed: yuan before 元, and fen after it. It is also fen in a text that has 角 or 分
    /// and no 元.
    pub closed: u64,
    /// The digits of the open section whose units are read.
    pub section: u64,
    /// A digit whose unit is not yet read.
    pub digit: u64,
}

impl Sum {
    /// The sum of no characters.
    pub const NONE: Sum = Sum {
        closed: 0,
        section: 0,
        digit: 0,
    };

    // The sum with more in the open section, and no digit whose unit is not yet read.
    fn with_section(self, more: u64) -> Sum
        requires { self.section + more < amount_limit }
        ensures { result ≡ with_section self more }
    {
        Sum {
            section: self.section + more,
            digit: 0,
            ..self
        }
    }

    // The sum with this closed, and no open section.
    fn of_closed(closed: u64) -> Sum
        ensures { result ≡ of_closed closed }
    {
        Sum {
            closed,
            section: 0,
            digit: 0,
        }
    }

    // The sum with more fen, and no digit whose unit is not yet read.
    fn with_fen(self, more: u64) -> Sum
        requires { self.closed + more < amount_limit }
        ensures { result ≡ with_fen self more }
    {
        Sum {
            closed: self.closed + more,
            digit: 0,
            ..self
        }
    }

    /// The sum with one more character.
    pub fn add(self, capital: Capital) -> Sum
        requires { summed (add self capital) < amount_limit }
        ensures { result ≡ add self capital }
    {
        match capital {
            Capital::Digit(digit) => Sum {
                digit: digit as u64,
                ..self
            },
            Capital::Shi => self.with_section(10 * self.digit),
            Capital::Bai => self.with_section(100 * self.digit),
            Capital::Qian => self.with_section(1000 * self.digit),
            Capital::Wan => Sum::of_closed(self.closed + 10_000 * (self.section + self.digit)),
            Capital::Yi => Sum::of_closed(100_000_000 * (self.closed + self.section + self.digit)),
            Capital::Yuan => Sum::of_closed(100 * (self.closed + self.section + self.digit)),
            Capital::Jiao => self.with_fen(10 * self.digit),
            Capital::Fen => self.with_fen(self.digit),
            _ => self,
        }
    }
}
