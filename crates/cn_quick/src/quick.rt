// Reads a regular numeral in one pass, and leaves any other text to the judgement from its
// beginning.
ghost use Rattle.std.specs.Prelude.{◌+◌, ◌^◌, ◌<◌, ◌∷◌, List, Ok, length, IfSome};
ghost use Rattle.cn_core.specs.Judge.{Judges};
ghost use Rattle.cn_core.specs.Mark.{Mark as NumeralMark};
ghost use Rattle.cn_core.specs.Reading.{Reads};
ghost use Rattle.cn_core.specs.Text.{text_of, marks_of};
ghost use Rattle.cn_judge.specs.Answer.{answer_of};
ghost use Rattle.cn_judge.specs.Judged.{JudgesAt};
ghost use Rattle.cn_judge.specs.Marked.{marked};
ghost use Rattle.cn_quick.specs.Private.Regular.{StandsRegular};

use crate::open_exponents::OpenExponents;
use crate::state::{QuickState, add_digit, add_section};
use crate::steps::step;
use cn_core::{ChineseCountMethod, Unit, Whole};
use cn_judge::{
    ChineseToNumberError, Mark, first_digit, judge_text, signed_answer, split_first_known,
    split_last_known, split_sign,
};

// The number of a numeral, from its first mark and the state after the walk over the others.
fn finish(units: &OpenExponents, state: QuickState, first: Mark) -> Option<u128>
    requires { (method : ChineseCountMethod) × (marks : List NumeralMark)
        × StandsRegular method marks units.now state }
    ensures { (method : ChineseCountMethod) (marks : List NumeralMark)
        → StandsRegular method marks units.now state
        → IfSome result (λ n. Judges method (marked first ∷ marks) (Ok n)) }
{
    let digit = first_digit(first, state.at_digit)?;
    add_section(units, state.total, add_digit(state, digit)?)
}

// Same answer (> → >=, 3 → 2 #3): what is not read in one pass is judged from its start, more
// slowly.
/// The number of a regular numeral. Its characters are digits and units above 個 of three bytes
/// each, it has no tail, the units of a section increase from right to left with a digit directly
/// after each, and all sums fit 128 bits. `None` says nothing about the text.
pub fn read_quickly(method: ChineseCountMethod, text: &str) -> Option<u128>
    ensures { IfSome result (λ n. Judges method (marks_of (text_of text.now)) (Ok n)) }
{
    let mut units = OpenExponents::new();
    let mut state = QuickState {
        total: 0,
        sum: 0,
        last: Unit::Ge,
        at_digit: false,
    };
    // With `checked_sub`, each numeral takes 2 more instructions.
    if text.len() < 3 {
        return None;
    }
    let second = text.len() - 3;
    let mut ahead = text;
    'walking: while ahead.len() > 3 {
        let (mark, before) = split_last_known(ahead)?;
        let is_second = ahead.len() == second;
        state = step(method, &mut units, state, mark, is_second)?;
        ahead = before;
    }
    let (first, _) = split_first_known(ahead)?;
    finish(&units, state, first)
}

/// The answer to a text without sign: a regular numeral is read in one pass, and any other text is
/// judged from its beginning. `skipped` is the number of characters before it in the caller's
/// string.
pub fn judge_quickly(
    method: ChineseCountMethod,
    skipped: usize,
    text: &str,
) -> Result<u128, ChineseToNumberError>
    requires { skipped + length text.now < 2 ^ 64 }
    ensures { JudgesAt method skipped text.now (answer_of (λ n. n) result) }
{
    match read_quickly(method, text) {
        Some(number) => Ok(number),
        None => judge_text(method, skipped, text),
    }
}

/// Reads a numeral after at most one sign.
pub fn read_number<T: Whole>(
    method: ChineseCountMethod,
    text: &str,
) -> Result<T, ChineseToNumberError>
    ensures { Reads T.kind method text.now (answer_of T.number result) }
{
    let after = split_sign(T::SIGNED, text);
    signed_answer(after.sign, judge_quickly(method, after.skipped, after.rest))
}
