// The state of reading figures with or without a minus before them.
ghost use Rattle.std.specs.Prelude.{◌≡◌, ◌<◌};
ghost use Rattle.cn_amount.specs.Places.{amount_limit};
ghost use Rattle.cn_core.specs.Whole.{signed_number};
ghost use Rattle.cn_figures.specs.Figures.{WriteSignedAmount};
ghost use Rattle.cn_figures.specs.Working.Signs.{signed_machine};

use crate::progress::Progress;
use cn_core::is_figure_minus;
use cn_grammar::{Front, Grammar};

// The amount with this magnitude, below zero or not.
fn signed_fen(is_below: bool, magnitude: u64) -> i64
    requires { magnitude < amount_limit }
    ensures { result ≡ signed_number is_below magnitude }
{
    let fen = magnitude as i64;
    if is_below { -fen } else { fen }
}

/// What is before the figures, and the state of reading them.
#[derive(Clone, Copy)]
pub struct SignedProgress {
    front: Front,
    progress: Progress,
}

/// The grammar of amounts in figures with or without a minus before them.
pub type SignedFiguresGrammar = SignedProgress;

impl Grammar for SignedProgress {
    type Value = Option<i64>;

    ghost is_form = { WriteSignedAmount };

    ghost machine = { signed_machine };

    fn begin() -> SignedProgress {
        SignedProgress {
            front: Front::Open,
            progress: Progress::begin(),
        }
    }

    fn step(self, character: char) -> Option<SignedProgress> {
        let is_minus = is_figure_minus(character);
        let front = self.front.next(is_minus);
        if !self.front.keeps(is_minus) {
            return Some(SignedProgress { front, ..self });
        }
        let progress = self.progress.step(character)?;
        Some(SignedProgress { front, progress })
    }

    fn end(self) -> Option<Option<i64>> {
        match self.progress.end()? {
            Some(magnitude) => Some(Some(signed_fen(self.front.is_below(), magnitude))),
            None => Some(None),
        }
    }

    #[tactic(auto, using(crate::proofs::SignedReads::signed_read))]
    fn states_read_the_forms() {}
}
