// Splits off the first character of a text.
ghost use Rattle.std.specs.Prelude.{◌≡◌, ◌<◌, [], ◌∷◌, length, chars, IfSome, MatchOption};

/// The first character of a text and the text after it; `None` if the text is empty.
#[inline(always)]
pub fn split_first_char(text: &str) -> Option<(char, &str)>
    ensures parts { MatchOption result (chars text.now ≡ [])
        (λ r. chars text.now ≡ r.0 ∷ chars r.1.now) }
    ensures shorter { IfSome result (λ r. length r.1.now < length text.now) }
{
    let mut chars = text.chars();
    match chars.next() {
        Some(c) => Some((c, chars.as_str())),
        None => None,
    }
}
