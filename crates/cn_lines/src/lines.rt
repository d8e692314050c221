// Finds the end of a line, and the first position of a byte.
ghost use Rattle.std.specs.Prelude.{◌≡◌, ◌==◌, ◌<◌, ◌≤◌, ◌++◌, ◌∷◌, false, length, position, take, slice_index, IfSome, MatchOption, IsFalse};
ghost use Rattle.std.specs.List.{position_or_len};
ghost use Rattle.cn_lines.specs.Lines.{HasNoFeed};

use std::simd::prelude::*;

// The number of bytes that are compared in one step when the position is likely to be far.
const STRIDE: usize = 64;

/// The position of the first byte of this value.
pub(crate) fn first_position(byte: u8, bytes: &[u8]) -> Option<usize>
    ensures { result ≡ position (λ b. b == byte) bytes.now }
{
    bytes.iter().position(|b| *b == byte)
}

// The position of the first byte of this value, or the length.
fn near_position(byte: u8, bytes: &[u8]) -> usize
    ensures position { result ≡ position_or_len (λ b. b == byte) bytes.now }
    ensures bound { result ≤ length bytes.now }
{
    first_position(byte, bytes).unwrap_or(bytes.len())
}

// The position in a stride, or the length of the stride. Its bytes are compared in parallel.
#[inline(always)]
fn position_in_stride(byte: u8, stride: &[u8; STRIDE]) -> usize
    ensures { result ≡ position_or_len (λ b. b == byte) stride.now }
{
    let found = u8x64::from_array(*stride)
        .simd_eq(u8x64::splat(byte))
        .to_bitmask();
    if found == 0 {
        return STRIDE;
    }
    found.trailing_zeros() as usize
}

/// The position of the first byte of this value, or the length; for positions that are likely to be
/// far.
pub(crate) fn far_position(byte: u8, bytes: &[u8]) -> usize
    ensures position { result ≡ position_or_len (λ b. b == byte) bytes.now }
    ensures bound { result ≤ length bytes.now }
{
    let mut start = 0;
    'strides: while let Some(stride) = bytes[start..].first_chunk::<STRIDE>() {
        let position = position_in_stride(byte, stride);
        if position < STRIDE {
            return start + position;
        }
        start += STRIDE;
    }
    start + near_position(byte, &bytes[start..])
}

// The position of the first line feed, or the length.
fn line_len(bytes: &[u8]) -> usize
    ensures bound { result ≤ length bytes.now }
    ensures line { HasNoFeed (take result bytes.now) }
    ensures feed { result < length bytes.now → slice_index bytes.now result ≡ 10 }
{
    far_position(b'\n', bytes)
}

/// The first line and the bytes after its line feed; `None` if there is no line feed.
pub fn split_line(bytes: &[u8]) -> Option<(&[u8], &[u8])>
    ensures parts { MatchOption result (HasNoFeed bytes.now)
        (λ r. bytes.now ≡ r.0.now ++ 10 ∷ r.1.now) }
    ensures first { IfSome result (λ r. HasNoFeed r.0.now) }
    ensures shorter { IfSome result (λ r. length r.1.now < length bytes.now) }
{
    let end = line_len(bytes);
    if end == bytes.len() {
        return None;
    }
    Some((&bytes[..end], &bytes[end + 1..]))
}
