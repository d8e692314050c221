// Parts of a text: its first and last character that are not white space, and the text before a
// suffix.
ghost use Rattle.std.specs.Prelude.{◌≡◌, ℕ, ◌+◌, ◌++◌, ◌<◌, ◌≤◌, [], ◌∷◌, length, chars, IfSome, MatchOption};
ghost use Rattle.cn_core.specs.Text.{text_of};
ghost use Rattle.cn_judge.specs.Piece.{StandsAt};
ghost use Rattle.cn_quantity.specs.Private.{BeginsWith, FinishesWith, IsEnd};

use cn_judge::count_chars;

/// The first character that is not white space, and the text after it.
pub fn split_first(text: &str) -> Option<(char, &str)>
    ensures parts { MatchOption result (text_of text.now ≡ [])
        (λ r. BeginsWith text.now r.0 r.1.now) }
    ensures shorter { IfSome result (λ r. length r.1.now < length text.now) }
{
    let first = cn_judge::split_first(text)?;
    Some((first.character, first.rest))
}

/// The last character that is not white space, and the text before it.
pub fn split_last(text: &str) -> Option<(char, &str)>
    ensures parts { MatchOption result (text_of text.now ≡ [])
        (λ r. FinishesWith text.now r.0 r.1.now) }
    ensures shorter { IfSome result (λ r. length r.1.now < length text.now) }
{
    let (c, before) = cn_judge::split_last(text)?;
    Some((c, before))
}

/// The text before one of its suffixes.
pub fn before_end<'a>(text: &'a str, end: &str) -> &'a str
    requires { IsEnd text.now end.now }
    ensures parts { chars text.now ≡ chars result.now ++ chars end.now }
    ensures sizes { length result.now + length end.now ≡ length text.now }
{
    let (before, _) = text.split_at(text.len() - end.len());
    before
}

/// The number of characters of the text before one of its suffixes.
pub fn count_before(text: &str, end: &str) -> usize
    requires { IsEnd text.now end.now }
    ensures stands { (place : ℕ) → place + length (text_of end.now) ≡ length (text_of text.now)
        → StandsAt text.now (chars end.now) result place }
    ensures within { result + length end.now ≤ length text.now }
{
    count_chars(before_end(text, end))
}
