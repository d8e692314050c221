// Skips white space at either end of a text. It compares bytes: decoding a character of two or
// three bytes first takes some 20 more instructions.
ghost use Rattle.std.specs.Prelude.{◌≡◌, ◌+◌, ◌≤◌, get_or, length, chars};
ghost use Rattle.cn_judge.specs.Piece.{StandsAt};
ghost use Rattle.cn_judge.specs.Private.Spaces.{BeginsDark, EndsBlank, EndsDark, is_three_byte_space, is_two_byte_space, first_space_len, is_ascii_space, last_space_len};

// The text after white space.
#[derive(Copy, Clone)]
pub(crate) struct Behind<'a> {
    // The number of characters before it.
    pub skipped: usize,
    pub rest: &'a str,
}

// Whether this byte is ASCII white space, which includes the vertical tab.
#[inline(always)]
fn is_ascii_space(byte: u8) -> bool
    ensures { result ≡ is_ascii_space byte }
{
    matches!(byte, 0x09..=0x0D | 0x20)
}

// Whether these three bytes are U+1680, one from U+2000 to U+200A, U+2028, U+2029, U+202F, U+205F
// or U+3000.
#[inline(always)]
fn is_three_byte_space(first: u8, second: u8, third: u8) -> bool
    ensures { result ≡ is_three_byte_space first second third }
{
    if first == 0xE2 && second == 0x80 {
        return matches!(third, 0x80..=0x8A) || matches!(third, 0xA8 | 0xA9 | 0xAF);
    }
    matches!(
        (first, second, third),
        (0xE1, 0x9A, 0x80) | (0xE2, 0x81, 0x9F) | (0xE3, 0x80, 0x80)
    )
}

// Whether the first two bytes are a white space character: U+0085 or U+00A0.
#[inline(always)]
fn begins_two_byte_space(bytes: &[u8]) -> bool
    ensures { result ≡ is_two_byte_space (get_or bytes.now 0 0) (get_or bytes.now 1 0) }
{
    matches!(bytes, [0xC2, 0x85 | 0xA0, ..])
}

// Whether the first three bytes are a white space character.
#[inline(always)]
fn begins_three_byte_space(bytes: &[u8]) -> bool
    ensures { result
        ≡ is_three_byte_space (get_or bytes.now 0 0) (get_or bytes.now 1 0) (get_or bytes.now 2 0) }
{
    match bytes {
        [first, second, third, ..] => is_three_byte_space(*first, *second, *third),
        _ => false,
    }
}

// The number of bytes of the first character if it is white space, else 0. For most other
// characters the first byte decides.
// Same answer (0xE1 → 0xe0, 0xE3 → 0xe4): no white space begins with that byte.
#[inline(always)]
fn first_space_len(bytes: &[u8]) -> usize
    ensures { result ≡ first_space_len bytes.now }
{
    if bytes.is_empty() {
        return 0;
    }
    match bytes[0] {
        first if is_ascii_space(first) => 1,
        0xE1..=0xE3 if begins_three_byte_space(bytes) => 3,
        0xC2 if begins_two_byte_space(bytes) => 2,
        _ => 0,
    }
}

// The number of bytes of the last character if it is white space, else 0.
// Same answer (0x00 → 0x1, ..= → .., 0x7F → 0x7e): no other text that ends with that byte ends with
// white space; the answer is only slower.
#[inline(always)]
fn last_space_len(bytes: &[u8]) -> usize
    ensures { result ≡ last_space_len bytes.now }
{
    match bytes {
        [.., last] if is_ascii_space(*last) => 1,
        [.., 0x00..=0x7F] => 0,
        [.., 0xC2, 0x85 | 0xA0] => 2,
        [.., first, second, third] if is_three_byte_space(*first, *second, *third) => 3,
        _ => 0,
    }
}

// Skips the white space at the start of a text.
#[inline(always)]
pub(crate) fn skip_spaces(text: &str) -> Behind<'_>
    ensures at { StandsAt text.now (chars result.rest.now) result.skipped 0 }
    ensures dark { BeginsDark result.rest.now }
    ensures within { result.skipped + length result.rest.now ≤ length text.now }
{
    let mut behind = Behind {
        skipped: 0,
        rest: text,
    };
    'skipping: loop {
        let len = first_space_len(behind.rest.as_bytes());
        if len == 0 {
            return behind;
        }
        let (_, rest) = behind.rest.split_at(len);
        behind = Behind {
            skipped: behind.skipped + 1,
            rest,
        };
    }
}

// Returns the text without the white space at its end.
#[inline(always)]
pub(crate) fn before_spaces(text: &str) -> &str
    ensures blank { EndsBlank text.now result.now }
    ensures dark { EndsDark result.now }
    ensures within { length result.now ≤ length text.now }
{
    let mut ahead = text;
    'skipping: loop {
        let len = last_space_len(ahead.as_bytes());
        if len == 0 {
            return ahead;
        }
        let (before, _) = ahead.split_at(ahead.len() - len);
        ahead = before;
    }
}
