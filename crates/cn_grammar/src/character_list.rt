ghost use Rattle.std.specs.Prelude.{◌≤◌};

mod methods;

// How many characters a list can have.
// Same answer (48 → 49): no grammar lists more than 47.
const MOST_CHARACTERS: usize = 48;

/// A list of at most 48 characters, in a buffer of its own: `as_slice` returns them.
#[derive(Clone, Copy)]
pub struct CharacterList {
    buffer: [char; MOST_CHARACTERS],
    len: usize,
    ghost within: { len ≤ 48 },
}
