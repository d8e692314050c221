// The state of reading an amount, and the sum of what is read.
ghost use Rattle.std.specs.Prelude.{◌≡◌};
ghost use Rattle.cn_amount.specs.Reading.{IsAmount};
ghost use Rattle.cn_amount.specs.Working.Steps.{bare_progress, amount_machine};

use crate::capital::capital_of;
use crate::state::State;
use crate::sum::Sum;
use cn_grammar::Grammar;

/// The state of reading an amount, and the sum so far.
#[derive(Clone, Copy)]
pub struct Progress {
    state: State,
    sum: Sum,
}

impl Progress {
    /// The state of reading an amount without 人民币, before any character is read.
    pub fn bare() -> Progress
        ensures { result ≡ bare_progress }
    {
        Progress {
            state: State::AfterCurrency,
            sum: Sum::NONE,
        }
    }
}

/// The grammar of amounts in capitals.
pub type AmountGrammar = Progress;

impl Grammar for Progress {
    type Value = u64;

    ghost is_form = { IsAmount };

    ghost machine = { amount_machine };

    #[inline(always)]
    fn begin() -> Progress {
        Progress {
            state: State::Beginning,
            sum: Sum::NONE,
        }
    }

    #[inline(always)]
    fn step(self, character: char) -> Option<Progress> {
        let capital = capital_of(character)?;
        let state = self.state.step(capital)?;
        Some(Progress {
            state,
            sum: self.sum.add(capital),
        })
    }

    #[inline(always)]
    fn end(self) -> Option<u64> {
        if self.state.is_end() {
            Some(self.sum.closed)
        } else {
            None
        }
    }

    #[tactic(auto, using(crate::proofs::ReadText::amount_reads))]
    fn states_read_the_forms() {}
}
