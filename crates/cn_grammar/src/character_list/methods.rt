// Appending to a list of characters, and reading it.
ghost use Rattle.std.specs.Prelude.{◌≡◌, ◌+◌, ◌<◌, [], ◌∷◌, ◌++◌};
ghost use Rattle.cn_grammar.specs.Expected.{list_of};

use super::{CharacterList, MOST_CHARACTERS};

impl CharacterList {
    /// The empty list.
    pub fn new() -> CharacterList
        ensures { list_of result ≡ [] }
    {
        CharacterList {
            buffer: ['\0'; MOST_CHARACTERS],
            len: 0,
        }
    }

    /// Appends a character. The list must have fewer than 48.
    pub fn push(&mut self, character: char)
        requires { self.old.len < 48 }
        ensures list { list_of self.new ≡ list_of self.old ++ character ∷ [] }
        ensures len { self.new.len ≡ self.old.len + 1 }
    {
        self.buffer[self.len] = character;
        self.len += 1;
    }

    /// The characters, in order.
    pub fn as_slice(&self) -> &[char]
        ensures { result.now ≡ list_of self.now }
    {
        &self.buffer[..self.len]
    }
}
