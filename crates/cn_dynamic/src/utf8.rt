// Tests whether bytes are text in UTF-8.
ghost use Rattle.std.specs.Prelude.{◌≡◌, ◌↔◌, ◌/◌, ◌%◌, ◌<◌, ◌≤◌, true, false, take, get_or, length, IsTrue, IsUtf8, MatchOption};
ghost use Rattle.std.specs.Int.{IsInRange};
ghost use Rattle.std.specs.Str.{is_utf8};
ghost use Rattle.cn_dynamic.specs.Private.CharacterBytes.{IsTwo, IsThree, IsFour};

use cn_judge::eight_ascii_at;
use std::str;

// Whether the first three bytes of a word are a character from U+2000 to U+9FFF, as most characters
// of numerals are. The subtraction turns the tests of the three bytes into one.
// Same answer (% → /, / → * #3, / → * #5): then no text is common, and `is_three` decides, more
// slowly.
// Same answer (/ → *, 8 → 7): fewer texts are common, and `is_three` decides on the others, more
// slowly.
#[inline(always)]
fn is_common(word: u32) -> bool
    ensures first { IsTrue result → IsInRange 0xE2 0xE9 (word % 256) }
    ensures second { IsTrue result → IsInRange 0x80 0xBF (word / 256 % 256) }
    ensures third { IsTrue result → IsInRange 0x80 0xBF (word / 65536 % 256) }
{
    let above = word.wrapping_sub(0xE2);
    (above % 256 / 8 == 0) & (above / 256 % 256 / 64 == 2) & (above / 65_536 % 256 / 64 == 2)
}

// Whether these bytes are one such character.
#[inline(always)]
fn is_common_alone(bytes: &[u8]) -> bool
    ensures long { IsTrue result → length bytes.now ≡ 3 }
    ensures some { IsTrue result → IsUtf8 (take 3 bytes.now) }
{
    match bytes {
        [first, second, third] => {
            is_common(*first as u32 + *second as u32 * 256 + *third as u32 * 65_536)
        }
        _ => false,
    }
}

/// Whether these bytes are only characters from U+2000 to U+9FFF, as those of most numerals are,
/// and so are UTF-8. The three bytes of each character except the last are loaded together with the
/// byte after them. `false` says nothing about the bytes.
#[inline(always)]
pub fn are_common(bytes: &[u8]) -> bool
    ensures { IsTrue result → IsUtf8 bytes.now }
{
    let mut rest = bytes;
    'characters: while let Some(four) = rest.first_chunk::<4>() {
        if !is_common(u32::from_le_bytes(*four)) {
            return false;
        }
        rest = &rest[3..];
    }
    rest.is_empty() || is_common_alone(rest)
}

// Whether the four bytes of a word are all ASCII.
// Same answer (0x80_0000 → 0x7fffff, 0x8000_0000 → 0x7fffffff): fewer words are taken as ASCII at
// once, and `ascii_len` decides on the others, more slowly.
#[inline(always)]
fn four_are_ascii(word: u32) -> bool
    ensures first { IsTrue result → word % 256 < 128 }
    ensures second { IsTrue result → word / 256 % 256 < 128 }
    ensures third { IsTrue result → word / 65536 % 256 < 128 }
    ensures fourth { IsTrue result → word / 16777216 < 128 }
{
    (word / 0x80 % 2 == 0)
        & (word / 0x8000 % 2 == 0)
        & (word / 0x80_0000 % 2 == 0)
        & (word / 0x8000_0000 == 0)
}

// The number of ASCII bytes that a word begins with.
// Same answer (0x80_0000 → 0x7fffff): fewer bytes are decided at once, which is slower.
// Same answer (3 → 2): the third byte is decided next, which is slower.
#[inline(always)]
fn ascii_len(word: u32) -> usize
    ensures most { result ≤ 4 }
    ensures first { 0 < result → word % 256 < 128 }
    ensures second { 1 < result → word / 256 % 256 < 128 }
    ensures third { 2 < result → word / 65536 % 256 < 128 }
    ensures fourth { 3 < result → word / 16777216 < 128 }
    ensures none { result ≡ 0 → 128 ≤ word % 256 }
{
    if four_are_ascii(word) {
        4
    } else if word / 0x80 % 2 != 0 {
        0
    } else if word / 0x8000 % 2 != 0 {
        1
    } else if word / 0x80_0000 % 2 != 0 {
        2
    } else {
        3
    }
}

// The first four bytes as one number, with the first byte lowest, and 0 for each byte after the
// last.
#[inline(always)]
fn first_word(bytes: &[u8]) -> u32
    ensures first { result % 256 ≡ get_or bytes.now 0 0 }
    ensures second { result / 256 % 256 ≡ get_or bytes.now 1 0 }
    ensures third { result / 65536 % 256 ≡ get_or bytes.now 2 0 }
    ensures fourth { result / 16777216 ≡ get_or bytes.now 3 0 }
{
    if let Some(four) = bytes.first_chunk::<4>() {
        return u32::from_le_bytes(*four);
    }
    match bytes {
        [first] => *first as u32,
        [first, second] => *first as u32 + *second as u32 * 256,
        [first, second, third] => { *first as u32 + *second as u32 * 256 + *third as u32 * 65_536 }
        _ => 0,
    }
}

// Whether a word begins with a character of two bytes. Conditions that `&` joins are compiled to
// one test, here and below.
#[inline(always)]
fn is_two(word: u32) -> bool
    ensures { IsTrue result ↔ IsTwo (word % 256) (word / 256 % 256) }
{
    (word % 256 / 32 == 6) & (word / 256 % 256 / 64 == 2) && word % 256 >= 0xC2
}

// Whether a word begins with a character of three bytes.
#[inline(always)]
fn is_three(word: u32) -> bool
    ensures { IsTrue result ↔ IsThree (word % 256) (word / 256 % 256) (word / 65536 % 256) }
{
    let first = word % 256;
    let is_second_high = word / 0x2000 % 2 == 1; // a continuation from 0xA0 on
    (first / 16 == 14) & (word / 256 % 256 / 64 == 2) & (word / 65_536 % 256 / 64 == 2)
        && (first != 0xE0 || is_second_high)
        && (first != 0xED || !is_second_high)
}

// Whether a word is a character of four bytes.
// Same answer (16_777_216 → 16777215, 16_777_216 → 16777217): the remainder of the third byte is
// too small to change the quotient.
#[inline(always)]
fn is_four(word: u32) -> bool
    ensures { IsTrue result
        ↔ IsFour (word % 256) (word / 256 % 256) (word / 65536 % 256) (word / 16777216) }
{
    let leading = word % 256 * 64 + word / 256 % 256;
    (word / 256 % 256 / 64 == 2) & (word / 65_536 % 256 / 64 == 2) & (word / 16_777_216 / 64 == 2)
        && 0xF0 * 64 + 0x90 <= leading
        && leading <= 0xF4 * 64 + 0x8F
}

// The number of ASCII bytes that are passed at the start: the first eight at once, and then sixteen
// at a time. It is 0 if the bytes begin with fewer than eight.
// Same answer (8 → 7): the eighth byte is examined again.
// Same answer (>= → >, 16 → 17): the last sixteen bytes are passed as eight and eight.
// Same answer (16 → 15): of fifteen bytes the last eight are not all present.
// Same answer (16 → 15 #2): the sixteenth byte is examined again.
#[inline(always)]
fn ascii_eights_len(bytes: &[u8]) -> usize
    ensures within { result ≤ length bytes.now }
    ensures some { IsUtf8 (take result bytes.now) }
{
    if !eight_ascii_at(bytes, 0) {
        return 0;
    }
    let mut len = 8;
    'sixteens: while bytes.len() - len >= 16
        && (eight_ascii_at(bytes, len) & eight_ascii_at(bytes, len + 8))
    {
        len += 16;
    }
    len
}

// The number of bytes of some characters that these bytes begin with, or 0 if they do not begin
// with a character.
// Same answer (== → !=): eight ASCII bytes are not looked for or not found, and four are passed.
// Same answer (4 → 3): eight ASCII bytes are not found, and four are passed.
// Same answer (4 → 5): eight ASCII bytes are not looked for, and four are passed.
// Same answer (if eights > 0 → nothing): four ASCII bytes are passed instead of eight.
// Same answer (0 → 1): the count is 0, 8 or 16.
#[inline(always)]
fn front_len(bytes: &[u8]) -> usize
    requires { 0 < length bytes.now }
    ensures within { result ≤ length bytes.now }
    ensures some { IsUtf8 (take result bytes.now) }
    ensures none { result ≡ 0 → is_utf8 bytes.now ≡ false }
{
    let word = first_word(bytes);
    if is_common(word) {
        return 3;
    }
    let ascii = ascii_len(word);
    if ascii == 4 {
        let eights = ascii_eights_len(bytes);
        if eights > 0 {
            return eights;
        }
    }
    // After the last byte, the word has zeros, which look like ASCII.
    if ascii > 0 {
        ascii.min(bytes.len())
    } else if word % 256 < 0xE0 {
        if is_two(word) { 2 } else { 0 }
    } else if is_three(word) {
        3
    } else if is_four(word) {
        4
    } else {
        0
    }
}

// With std's `from_utf8`, which is a call, a long Chinese text takes more than twice as many
// instructions, an ASCII text less than half, and a Cyrillic or French text a sixth less.
/// Whether these bytes are UTF-8, whatever characters they are.
#[inline(always)]
pub fn are_utf8_at_all(bytes: &[u8]) -> bool
    ensures { result ≡ is_utf8 bytes.now }
{
    let mut rest = bytes;
    'characters: while !rest.is_empty() {
        let len = front_len(rest);
        if len == 0 {
            return false;
        }
        rest = &rest[len..];
    }
    true
}

// Not inlined, so that the calls that rarely need it stay short.
#[inline(never)]
fn are_utf8_alone(bytes: &[u8]) -> bool
    ensures { result ≡ is_utf8 bytes.now }
{
    are_utf8_at_all(bytes)
}

#[inline(always)]
fn are_utf8(bytes: &[u8]) -> bool
    ensures { result ≡ is_utf8 bytes.now }
{
    are_common(bytes) || are_utf8_alone(bytes)
}

/// The text of these bytes, if they are UTF-8.
#[inline(always)]
pub fn utf8_text(bytes: &[u8]) -> Option<&str>
    ensures { MatchOption result (is_utf8 bytes.now ≡ false)
        (λ text. (is_utf8 bytes.now ≡ true) × (text.now ≡ bytes.now)) }
{
    if are_utf8(bytes) {
        Some(unsafe { str::from_utf8_unchecked(bytes) })
    } else {
        None
    }
}
