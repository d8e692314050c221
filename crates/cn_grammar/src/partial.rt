// Reads a part of a text.
ghost use Rattle.std.specs.Prelude.{◌+◌, ◌≤◌, chars, length};
ghost use Rattle.cn_grammar.specs.Machine.{Reached};
ghost use Rattle.cn_grammar.specs.Working.ReadOn.{IsReadOn};

use crate::Grammar;
use cn_core::split_first_char;

/// What has been read of a text.
#[derive(Drop)]
pub struct Partial<'a, G: Grammar> {
    /// The state after it.
    pub state: G,
    /// How many characters it has.
    pub count: usize,
    /// The text after it.
    pub rest: &'a str,
}

/// Reads on from a state, up to the first character with which no form continues, but no more
/// characters than `most`.
#[inline(never)]
pub fn read_on<'a, G: Grammar>(state: G, text: &'a str, most: usize) -> Partial<'a, G>
    requires { Reached G.machine state }
    ensures read { IsReadOn G.machine state (chars text.now) most
        result.state result.count (chars result.rest.now) }
    ensures short { result.count + length result.rest.now ≤ length text.now }
{
    let mut state = state;
    let mut count = 0;
    let mut rest = text;
    'reading: while count < most {
        let Some((character, after)) = split_first_char(rest) else {
            break;
        };
        let Some(next) = state.step(character) else {
            break;
        };
        state = next;
        count += 1;
        rest = after;
    }
    Partial { state, count, rest }
}
