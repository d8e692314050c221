// The state of reading figures, and the amount so far.
ghost use Rattle.cn_figures.specs.Figures.{WriteAmount};
ghost use Rattle.cn_figures.specs.Working.Steps.{figures_machine};

use crate::part::part_of;
use crate::state::State;
use cn_grammar::Grammar;

/// The state of reading figures, and the amount so far in fen; `None` from the limit on.
#[derive(Clone, Copy)]
pub struct Progress {
    state: State,
    fen: Option<u64>,
}

/// The grammar of amounts in figures.
pub type FiguresGrammar = Progress;

impl Grammar for Progress {
    type Value = Option<u64>;

    ghost is_form = { WriteAmount };

    ghost machine = { figures_machine };

    fn begin() -> Progress {
        Progress {
            state: State::Beginning,
            fen: Some(0),
        }
    }

    fn step(self, character: char) -> Option<Progress> {
        let part = part_of(character)?;
        let state = self.state.step(part)?;
        Some(Progress {
            state,
            fen: self.state.fen_with(self.fen, part),
        })
    }

    fn end(self) -> Option<Option<u64>> {
        if self.state.is_end() {
            Some(self.fen)
        } else {
            None
        }
    }

    #[tactic(auto, using(crate::proofs::FiguresRead::figures_read))]
    fn states_read_the_forms() {}
}
