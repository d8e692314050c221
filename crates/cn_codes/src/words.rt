// Words at the start and at the end of a text.
ghost use Rattle.std.specs.Prelude.{◌≡◌, chars, drop, map};
ghost use Rattle.std.specs.Option.{option_map};
ghost use Rattle.cn_find.specs.Spans.{in_front};
ghost use Rattle.cn_codes.specs.Words.{after_word, begins_any, begins_word, ends_any, without_any};

use cn_core::split_first_char;
use cn_replace::pieces::split_nearest;

/// The text after a word with which a text begins; `None` if it begins otherwise.
pub fn after_word<'a>(word: &str, text: &'a str) -> Option<&'a str>
    ensures { option_map (λ rest. chars rest.now) result
        ≡ after_word (chars word.now) (chars text.now) }
{
    let mut letters = word;
    let mut rest = text;
    'comparing: while let Some((c, others)) = split_first_char(letters) {
        let (d, after) = split_first_char(rest)?;
        if c != d {
            return None;
        }
        letters = others;
        rest = after;
    }
    Some(rest)
}

/// The text before a word at its end; `None` if it ends otherwise.
pub fn before_word<'a>(word: &str, before: &'a str) -> Option<&'a str>
    ensures { option_map (λ front. in_front front.now) result
        ≡ after_word (in_front word.now) (in_front before.now) }
{
    let mut letters = word;
    let mut front = before;
    'comparing: while let Some((c, others)) = split_nearest(letters) {
        let (d, ahead) = split_nearest(front)?;
        if c != d {
            return None;
        }
        letters = others;
        front = ahead;
    }
    Some(front)
}

/// Whether a text begins with a word.
pub fn begins_word(word: &str, text: &str) -> bool
    ensures { result ≡ begins_word (chars word.now) (chars text.now) }
{
    after_word(word, text).is_some()
}

/// Whether a text ends with a word.
pub fn ends_word(word: &str, before: &str) -> bool
    ensures { result ≡ begins_word (in_front word.now) (in_front before.now) }
{
    before_word(word, before).is_some()
}

/// Whether a text begins with one of these words.
pub fn begins_any(words: &[&str], text: &str) -> bool
    ensures { result ≡ begins_any (map (λ word. chars word.now) words.now) (chars text.now) }
{
    words.iter().any(|word| begins_word(word, text))
}

/// Whether a text ends with one of these words.
pub fn ends_any(words: &[&str], before: &str) -> bool
    ensures { result ≡ ends_any (map (λ word. chars word.now) words.now) (in_front before.now) }
{
    words.iter().any(|word| ends_word(word, before))
}

/// The text before the first of these words that is at its end, or all of it.
pub fn without_any<'a>(words: &[&str], before: &'a str) -> &'a str
    ensures { in_front result.now
        ≡ without_any (map (λ word. chars word.now) words.now) (in_front before.now) }
{
    for word in words {
        if let Some(front) = before_word(word, before) {
            return front;
        }
    }
    before
}

/// A text without its first character.
pub fn without_first(text: &str) -> &str
    ensures { chars result.now ≡ drop 1 (chars text.now) }
{
    match split_first_char(text) {
        Some((_, rest)) => rest,
        None => text,
    }
}

/// A text without its last character.
pub fn without_last(before: &str) -> &str
    ensures { in_front result.now ≡ drop 1 (in_front before.now) }
{
    match split_nearest(before) {
        Some((_, front)) => front,
        None => before,
    }
}
