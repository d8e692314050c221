// Reads a text in one pass from left to right.
ghost use Rattle.std.specs.Prelude.{chars};
ghost use Rattle.cn_grammar.specs.Answers.{Answers};

use crate::{Grammar, Refusal};
use cn_core::split_first_char;

/// The value of a text. It is `Ok` exactly if the text is a form. No memory is allocated.
///
/// It is `Unfinished` exactly if the text is not a form but something after it can make it one.
/// Otherwise it is `Incorrect` at the first character with which no form begins.
pub fn read_form<G: Grammar>(text: &str) -> Result<G::Value, Refusal>
    ensures { Answers G.is_form (chars text.now) result }
{
    G::states_read_the_forms();
    let mut state = G::begin();
    let mut char_index = 0;
    let mut rest = text;
    'reading: while let Some((character, after)) = split_first_char(rest) {
        match state.step(character) {
            Some(next) => state = next,
            None => return Err(Refusal::Incorrect { char_index }),
        }
        char_index += 1;
        rest = after;
    }
    match state.end() {
        Some(value) => Ok(value),
        None => Err(Refusal::Unfinished),
    }
}
