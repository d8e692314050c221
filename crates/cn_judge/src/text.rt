// Splits a text into characters from either end, with or without white space, and finds their
// marks. Characters of three bytes take a fast path.
ghost use Rattle.std.specs.Prelude.{◌≡◌, ℕ, ◌+◌, ◌<◌, ◌≤◌, List, [], ◌∷◌, ◌++◌, length, chars, false, IfSome, IfNone, MatchOption};
ghost use Rattle.std.specs.Char.{is_whitespace};
ghost use Rattle.std.specs.Str.{continuation_len};
ghost use Rattle.cn_core.specs.Mark.{digit, mark_of};
ghost use Rattle.cn_core.specs.Text.{text_of};
ghost use Rattle.cn_judge.specs.ByteIndex.{byte_index};
ghost use Rattle.cn_judge.specs.Marked.{marked};
ghost use Rattle.cn_judge.specs.Piece.{StandsAt, EndsWith};
ghost use Rattle.cn_judge.specs.Private.FirstKey.{EndsWithKey, StartsWithKey};
ghost use Rattle.cn_judge.specs.Private.Spaces.{BeginsDark};

use crate::first_bytes::pass_chunks;
use crate::mark::{Mark, known_mark, mark_of, mark_of_key};
use crate::space::{Behind, before_spaces, skip_spaces};
use crate::word::{eight_ascii_at, three_threes_at};
use cn_core::split_first_char;

// The key of the first character, if that has three bytes, as most characters of searched texts
// have. `None` says nothing about the text.
#[inline(always)]
fn first_key(text: &str) -> Option<u32>
    ensures { IfSome result (StartsWithKey text.now) }
{
    let bytes = text.as_bytes();
    if bytes.len() < 3 {
        return None;
    }
    let (first, second, third) = (bytes[0] as u32, bytes[1] as u32, bytes[2] as u32);
    let key = first + second * 256 + third * 65_536;
    if key % 256 / 16 == 14 {
        Some(key)
    } else {
        None
    }
}

// Same answer (65_536 → 65535, 65_536 → 65537): the third byte remains the quotient for all values
// of the other two.
/// The first character, if that has three bytes, its mark, and the text after it. Looking it up by
/// its bytes takes 16 fewer instructions for each character. `None` says nothing about the text.
#[inline(always)]
pub fn split_first_three(text: &str) -> Option<(char, Mark, &str)>
    ensures parts { IfSome result (λ r. (chars text.now ≡ r.0 ∷ chars r.2.now)
        × (marked r.1 ≡ mark_of r.0)) }
    ensures shorter { IfSome result (λ r. length r.2.now < length text.now) }
{
    let key = first_key(text)?;
    let code = key % 256 * 4096 + key / 256 % 256 * 64 + key / 65_536 - 925_824;
    let c = unsafe { char::from_u32_unchecked(code) };
    let (_, after) = text.split_at(3);
    Some((c, mark_of_key(key), after))
}

// Same answer (if let Some((c, mark, after)) = split_first_t.. → nothing): the decoder of std gives
// the same first character, more slowly.
/// The first character, its mark, and the text after it; `None` if the text is empty.
#[inline(always)]
pub fn split_first_mark(text: &str) -> Option<(char, Mark, &str)>
    ensures parts { MatchOption result (chars text.now ≡ [])
        (λ r. (chars text.now ≡ r.0 ∷ chars r.2.now) × (marked r.1 ≡ mark_of r.0)) }
    ensures shorter { IfSome result (λ r. length r.2.now < length text.now) }
{
    if let Some((c, mark, after)) = split_first_three(text) {
        return Some((c, mark, after));
    }
    let (c, after) = split_first_char(text)?;
    Some((c, mark_of(c), after))
}

/// The first character of a text that is not white space.
#[derive(Copy, Clone)]
pub struct First<'a> {
    pub character: char,
    /// The number of characters before it.
    pub skipped: usize,
    /// The text after it.
    pub rest: &'a str,
}

// The first character after white space, which is not white space itself.
#[inline(always)]
pub(crate) fn first_behind(behind: Behind<'_>) -> Option<First<'_>>
    requires { BeginsDark behind.rest.now }
    ensures parts { (text : List ℕ) → StandsAt text (chars behind.entry.rest.now) behind.entry.skipped 0
        → MatchOption result (text_of text ≡ [])
        (λ first. StandsAt text (first.character ∷ chars first.rest.now) first.skipped 0) }
    ensures dark { IfSome result (λ first. is_whitespace first.character ≡ false) }
    ensures within { IfSome result (λ first. first.skipped + length first.rest.now
        < behind.entry.skipped + length behind.entry.rest.now) }
{
    let (character, _, rest) = split_first_mark(behind.rest)?;
    Some(First {
        character,
        skipped: behind.skipped,
        rest,
    })
}

/// The first character that is not white space; `None` if there is none.
#[inline(always)]
pub fn split_first(text: &str) -> Option<First<'_>>
    ensures parts { MatchOption result (text_of text.now ≡ [])
        (λ first. StandsAt text.now (first.character ∷ chars first.rest.now) first.skipped 0) }
    ensures dark { IfSome result (λ first. is_whitespace first.character ≡ false) }
    ensures within { IfSome result
        (λ first. first.skipped + length first.rest.now < length text.now) }
{
    first_behind(skip_spaces(text))
}

/// The last character and the text before it; `None` if the text is empty.
pub fn split_last_char(text: &str) -> Option<(char, &str)>
    ensures parts { MatchOption result (chars text.now ≡ [])
        (λ r. chars text.now ≡ chars r.1.now ++ r.0 ∷ []) }
    ensures shorter { IfSome result (λ r. length r.1.now < length text.now) }
{
    let mut chars = text.chars();
    match chars.next_back() {
        Some(c) => Some((c, chars.as_str())),
        None => None,
    }
}

// The key of the last character, if that has three bytes, as most characters beside a number have.
// `None` says nothing about the text.
#[inline(always)]
fn last_key(text: &str) -> Option<u32>
    ensures { IfSome result (EndsWithKey text.now) }
{
    let bytes = text.as_bytes();
    if bytes.len() < 3 {
        return None;
    }
    let start = bytes.len() - 3;
    let (first, second) = (bytes[start] as u32, bytes[start + 1] as u32);
    let key = first + second * 256 + bytes[start + 2] as u32 * 65_536;
    if key % 256 / 16 == 14 {
        Some(key)
    } else {
        None
    }
}

// The last character, if that has three bytes, its mark, and the text before it. `None` says
// nothing about the text.
// Same answer (65_536 → 65535, 65_536 → 65537): the third byte remains the quotient for all values
// of the other two.
#[inline(always)]
fn split_last_three(text: &str) -> Option<(char, Mark, &str)>
    ensures parts { IfSome result (λ r. (chars text.now ≡ chars r.2.now ++ r.0 ∷ [])
        × (marked r.1 ≡ mark_of r.0)) }
    ensures shorter { IfSome result (λ r. length r.2.now < length text.now) }
{
    let key = last_key(text)?;
    let code = key % 256 * 4096 + key / 256 % 256 * 64 + key / 65_536 - 925_824;
    let c = unsafe { char::from_u32_unchecked(code) };
    let (before, _) = text.split_at(text.len() - 3);
    Some((c, mark_of_key(key), before))
}

// Same answer (if let Some((c, mark, before)) = split_last_t.. → nothing): the decoder of std gives
// the same last character, more slowly.
/// The last character, its mark, and the text before it; `None` if the text is empty.
#[inline(always)]
pub fn split_end_mark(text: &str) -> Option<(char, Mark, &str)>
    ensures parts { MatchOption result (chars text.now ≡ [])
        (λ r. (chars text.now ≡ chars r.2.now ++ r.0 ∷ []) × (marked r.1 ≡ mark_of r.0)) }
    ensures shorter { IfSome result (λ r. length r.2.now < length text.now) }
{
    if let Some((c, mark, before)) = split_last_three(text) {
        return Some((c, mark, before));
    }
    let (c, before) = split_last_char(text)?;
    Some((c, mark_of(c), before))
}

/// The last character that is not white space, and the text before it; `None` if there is none.
pub fn split_last(text: &str) -> Option<(char, &str)>
    ensures parts { IfSome result (λ r. EndsWith text.now r.0 r.1.now) }
    ensures none { IfNone result (text_of text.now ≡ []) }
    ensures shorter { IfSome result (λ r. length r.1.now < length text.now) }
{
    split_last_char(before_spaces(text))
}

// The number of bytes of a character, by the first four bits of its first byte.
static CHAR_LENS: [usize; 16] = [1, 1, 1, 1, 1, 1, 1, 1, 2, 2, 2, 2, 2, 2, 3, 4];

// The number of bytes of a character, by its first byte. A `match` in place of the table takes 7
// more instructions for each character.
#[inline(always)]
fn char_len(first: u8) -> usize
    ensures { result ≡ continuation_len first + 1 }
{
    CHAR_LENS[(first / 16) as usize]
}

/// The number of characters in a text. It passes 32 bytes at a time while that many are left, then
/// three characters of three bytes or eight of ASCII while such follow, and then the others one by
/// one, each by its first byte.
pub fn count_chars(text: &str) -> usize
    ensures count { result ≡ length (chars text.now) }
    ensures within { result ≤ length text.now }
{
    let bytes = text.as_bytes();
    let mut passed = 0;
    let mut count = 0;
    if bytes.len() >= 32 {
        let (place, left) = pass_chunks(bytes, bytes.len());
        passed = place;
        count = bytes.len() - left;
    }
    'words: loop {
        if three_threes_at(bytes, passed) {
            passed += 9;
            count += 3;
        } else if eight_ascii_at(bytes, passed) {
            passed += 8;
            count += 8;
        } else {
            break;
        }
    }
    'counting: while passed < bytes.len() {
        passed += char_len(bytes[passed]);
        count += 1;
    }
    count
}

/// The number of bytes of a text before the character with this char_index; the length of the text
/// if it has no such character.
pub fn byte_index(text: &str, char_index: usize) -> usize
    ensures { result ≡ byte_index text.now char_index }
{
    let bytes = text.as_bytes();
    let mut passed = 0;
    let mut left = char_index;
    if left >= 16 {
        let (place, more) = pass_chunks(bytes, left);
        passed = place;
        left = more;
    }
    'words: loop {
        if left >= 3 && three_threes_at(bytes, passed) {
            passed += 9;
            left -= 3;
        } else if left >= 8 && eight_ascii_at(bytes, passed) {
            passed += 8;
            left -= 8;
        } else {
            break;
        }
    }
    'passing: while left > 0 {
        if passed >= bytes.len() {
            return passed;
        }
        passed += char_len(bytes[passed]);
        left -= 1;
    }
    passed
}

/// The mark of the last character, if the table of marks has it, and the text before it. The
/// character and the byte before it are loaded at once, so a text of one character is left to
/// `split_first_known`. `None` says nothing about the text.
#[inline(always)]
pub fn split_last_known(text: &str) -> Option<(Mark, &str)>
    ensures parts { IfSome result (λ r. (c : ℕ) × (chars text.now ≡ chars r.1.now ++ c ∷ [])
        × (marked r.0 ≡ mark_of c) × (is_whitespace c ≡ false)) }
    ensures shorter { IfSome result (λ r. length r.1.now + 3 ≡ length text.now) }
{
    let bytes = text.as_bytes();
    let four = bytes.last_chunk::<4>()?;
    let mark = known_mark(u32::from_le_bytes(*four) / 256)?;
    let (before, _) = text.split_at(bytes.len() - 3);
    Some((mark, before))
}

/// The mark of the first character, if the table of marks has it, and the text after it. `None`
/// says nothing about the text.
#[inline(always)]
pub fn split_first_known(text: &str) -> Option<(Mark, &str)>
    ensures parts { IfSome result (λ r. (c : ℕ) × (chars text.now ≡ c ∷ chars r.1.now)
        × (marked r.0 ≡ mark_of c) × (is_whitespace c ≡ false)) }
    ensures shorter { IfSome result (λ r. length r.1.now + 3 ≡ length text.now) }
{
    let bytes = text.as_bytes();
    if bytes.len() < 3 {
        return None;
    }
    let key = bytes[0] as u32 + bytes[1] as u32 * 256 + bytes[2] as u32 * 65_536;
    let mark = known_mark(key)?;
    let (_, after) = text.split_at(3);
    Some((mark, after))
}

// The mark of the only character, if the table of marks has it, and the empty text before it. A
// walk ends with such a text. Without this function, `split_last_slowly` reads it, and 一百五 takes
// 650 instructions in place of 510. `None` says nothing about the text.
#[inline(always)]
fn split_only_known(text: &str) -> Option<(Mark, &str)>
    ensures parts { IfSome result (λ r. (c : ℕ) × (chars text.now ≡ chars r.1.now ++ c ∷ [])
        × (marked r.0 ≡ mark_of c) × (is_whitespace c ≡ false)) }
    ensures shorter { IfSome result (λ r. length r.1.now + 3 ≡ length text.now) }
{
    if text.len() > 3 {
        return None;
    }
    let (mark, after) = split_first_known(text)?;
    Some((mark, after))
}

// Same answer (if let Some((mark, before)) = split_last_know.. → nothing, if let Some((mark,
// before)) = split_only_know.. → nothing): the decoder of std gives the same last character, more
// slowly.
/// The mark of the last character that is not white space, and the text before it; `None` if there
/// is none.
#[inline(always)]
pub fn split_last_mark(text: &str) -> Option<(Mark, &str)>
    ensures parts { IfSome result (λ r. (c : ℕ) × EndsWith text.now c r.1.now
        × (marked r.0 ≡ mark_of c)) }
    ensures none { IfNone result (text_of text.now ≡ []) }
    ensures shorter { IfSome result (λ r. length r.1.now < length text.now) }
{
    if let Some((mark, before)) = split_last_known(text) {
        return Some((mark, before));
    }
    if let Some((mark, before)) = split_only_known(text) {
        return Some((mark, before));
    }
    split_last_slowly(text)
}

// The mark of the last character that is not white space, and the text before it, for any
// character, in the table of marks or not.
fn split_last_slowly(text: &str) -> Option<(Mark, &str)>
    ensures parts { IfSome result (λ r. (c : ℕ) × EndsWith text.now c r.1.now
        × (marked r.0 ≡ mark_of c)) }
    ensures none { IfNone result (text_of text.now ≡ []) }
    ensures shorter { IfSome result (λ r. length r.1.now < length text.now) }
{
    let (_, mark, before) = split_end_mark(before_spaces(text))?;
    Some((mark, before))
}

/// The value of the first character, if that is a digit of three bytes, and the text after it.
/// `None` says nothing about the text.
#[inline(always)]
pub fn split_first_digit(text: &str) -> Option<(u8, &str)>
    ensures parts { IfSome result (λ r. (c : ℕ) × (chars text.now ≡ c ∷ chars r.1.now)
        × (digit r.0 ≡ mark_of c)) }
    ensures shorter { IfSome result (λ r. length r.1.now < length text.now) }
{
    match split_first_known(text) {
        Some((Mark::Digit(value), after)) => Some((value, after)),
        _ => None,
    }
}
