// What may come next in a text.
ghost use Rattle.std.specs.Prelude.{◌≡◌, chars, filter, is_some};
ghost use Rattle.cn_grammar.specs.Expected.{IsExpected, list_of};
ghost use Rattle.cn_grammar.specs.Machine.{Reached};

use crate::partial::read_on;
use crate::{CharacterList, Listed};

/// What may come next in a text, after the longest start of it that begins a form.
///
/// ```text
/// let expected = figures_expected("15.005");
/// expected.char_index == 5                    // 15.00 begins figures, and 15.005 does not
/// expected.may_end == true                    // 15.00 is whole
/// expected.characters.as_slice() == ['0', '０']
/// expected.white_space == false
/// ```
#[derive(Clone, Copy)]
pub struct Expected {
    /// How many characters that start has. It is the whole text if the text begins a form.
    pub char_index: usize,
    /// Whether a form may end there.
    pub may_end: bool,
    /// The characters with which a form can go on there, except white space.
    pub characters: CharacterList,
    /// Whether a form can go on there with white space.
    pub white_space: bool,
}

/// The characters that may come next at a state.
#[inline(never)]
pub fn next_characters<G: Listed>(state: G) -> CharacterList
    requires { Reached G.machine state }
    ensures { list_of result ≡ filter (λ c. is_some (G.machine.step state c)) G.characters }
{
    G::characters_are_listed();
    let mut next = CharacterList::new();
    for character in G::characters() {
        if state.step(*character).is_some() {
            next.push(*character);
        }
    }
    next
}

/// What may come next in a text by a grammar, as `Expected` says. The characters are in the order of
/// those of the grammar. No memory is allocated.
pub fn expected_next<G: Listed>(text: &str) -> Expected
    ensures { IsExpected G.is_form (chars text.now) result }
{
    G::states_read_the_forms();
    G::characters_are_listed();
    let read = read_on(G::begin(), text, usize::MAX);
    Expected {
        char_index: read.count,
        may_end: read.state.end().is_some(),
        characters: next_characters(read.state),
        white_space: G::takes_white_space(),
    }
}
