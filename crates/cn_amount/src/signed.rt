// The state of reading an amount that may be below zero.
ghost use Rattle.std.specs.Prelude.{◌≡◌, ◌<◌};
ghost use Rattle.std.specs.Char.{char_set_contains};
ghost use Rattle.cn_core.specs.Whole.{signed_number};
ghost use Rattle.cn_amount.specs.Places.{amount_limit};
ghost use Rattle.cn_amount.specs.Signed.{IsSignedAmount, minus_signs};
ghost use Rattle.cn_amount.specs.Working.Signs.{signed_machine};

use crate::progress::Progress;
use cn_grammar::{Front, Grammar};

// Whether a character is a minus sign.
fn is_minus(character: char) -> bool
    ensures { result ≡ char_set_contains minus_signs character }
{
    matches!(character, '負' | '负')
}

/// The amount with this magnitude, below zero or not.
pub fn signed_fen(is_below: bool, magnitude: u64) -> i64
    requires { magnitude < amount_limit }
    ensures { result ≡ signed_number is_below magnitude }
{
    let fen = magnitude as i64;
    if is_below { -fen } else { fen }
}

/// What is before the amount, and the state of reading the amount.
#[derive(Clone, Copy)]
pub struct SignedProgress {
    front: Front,
    progress: Progress,
}

/// The grammar of amounts in capitals that may be below zero.
pub type SignedAmountGrammar = SignedProgress;

impl Grammar for SignedProgress {
    type Value = i64;

    ghost is_form = { IsSignedAmount };

    ghost machine = { signed_machine };

    fn begin() -> SignedProgress {
        SignedProgress {
            front: Front::Open,
            progress: Progress::begin(),
        }
    }

    fn step(self, character: char) -> Option<SignedProgress> {
        let is_minus = is_minus(character);
        let front = self.front.next(is_minus);
        if !self.front.keeps(is_minus) {
            return Some(SignedProgress { front, ..self });
        }
        let progress = self.progress.step(character)?;
        Some(SignedProgress { front, progress })
    }

    fn end(self) -> Option<i64> {
        let magnitude = self.progress.end()?;
        Some(signed_fen(self.front.is_below(), magnitude))
    }

    #[tactic(auto, using(crate::proofs::SignedReads::signed_reads))]
    fn states_read_the_forms() {}
}
