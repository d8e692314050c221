ghost use Rattle.std.specs.Prelude.{◌≡◌, Option};
ghost use Rattle.cn_figures.specs.Figures.{ReadsFigures, ReadsSignedFigures, answer_of};

use crate::error::FiguresError;
use crate::progress::Progress;
use crate::signed::SignedProgress;
use cn_grammar::{Refusal, read_form};

// The same answer, with the error type of figures.
fn told<A>(answer: Result<Option<A>, Refusal>) -> Result<A, FiguresError>
    ensures { answer_of result ≡ answer }
{
    match answer {
        Ok(Some(fen)) => Ok(fen),
        Ok(None) => Err(FiguresError::TooLarge),
        Err(Refusal::Unfinished) => Err(FiguresError::Unfinished),
        Err(Refusal::Incorrect { char_index }) => Err(FiguresError::Incorrect { char_index }),
    }
}

/// The amount that figures write, in fen. They are ¥ or nothing; then digits of the yuan, with a
/// comma before each three of them counted from the last, or with no comma; then nothing, or a
/// point and digits, of which those after the second are 0. Full-width characters are read as their
/// plain forms. The error is `Unfinished` if a digit is missing at the end, `Incorrect` at the
/// first character with which no figures begin, and `TooLarge` from 10^18 fen on.
///
/// ```text
/// yuan_to_fen("1409.5") == Ok(140_950)
/// yuan_to_fen("¥1,409.5000") == Ok(140_950)
/// yuan_to_fen("15.005") == Err(FiguresError::Incorrect { char_index: 5 })
/// yuan_to_fen("15.") == Err(FiguresError::Unfinished)
/// yuan_to_fen("10000000000000000") == Err(FiguresError::TooLarge)
/// ```
pub fn yuan_to_fen(figures: &str) -> Result<u64, FiguresError>
    ensures { ReadsFigures figures.now result }
{
    told(read_form::<Progress>(figures))
}

/// The amount that figures write, in fen, like `yuan_to_fen`; one `-`, `−` or `－` at the start
/// makes it negative. The errors are the same, and the place of a character is counted from the
/// start of the whole text.
///
/// ```text
/// signed_yuan_to_fen("-¥15") == Ok(-1_500)
/// signed_yuan_to_fen("－15") == Ok(-1_500)
/// signed_yuan_to_fen("15") == Ok(1_500)
/// signed_yuan_to_fen("¥-15") == Err(FiguresError::Incorrect { char_index: 1 })
/// ```
pub fn signed_yuan_to_fen(figures: &str) -> Result<i64, FiguresError>
    ensures { ReadsSignedFigures figures.now result }
{
    told(read_form::<SignedProgress>(figures))
}
