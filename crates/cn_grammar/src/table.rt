// The lookup of a character in a table.
ghost use Rattle.std.specs.Prelude.{◌≡◌, ◌==◌, None, if◌then◌else◌};

/// What an entry of a table says about a character: nothing if the entry is of another character.
#[inline(always)]
pub fn known_in<C: Copy>(entry: (char, Option<C>), character: char) -> Option<C>
    ensures { result ≡ (if entry.0 == character then entry.1 else None) }
{
    let (own, capital) = entry;
    if own == character { capital } else { None }
}
