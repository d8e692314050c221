// Counts the first bytes of characters.
ghost use Rattle.std.specs.Prelude.{◌≡◌, ◌<◌, get_or, length};
ghost use Rattle.cn_judge.specs.Private.Firsts.{PassesFirsts, first_count, firsts};

// Returns 0 for a byte that continues a character, and 1 for any other.
#[inline(always)]
fn first_count(byte: u8) -> u8
    ensures { result ≡ first_count byte }
{
    (byte / 64 != 2) as u8
}

// The number of characters that begin in 32 bytes. The sum has eight bits, so that the compiled
// code counts all bytes at once, in 24 instructions.
#[inline(always)]
fn firsts_of(bytes: &[u8; 32]) -> usize
    ensures { result ≡ firsts bytes.now 32 }
{
    let mut count = 0;
    'bytes: for index in 0..32 {
        count += first_count(bytes[index]);
    }
    count as usize
}

// Passes at most this many characters, 32 bytes at a time. Returns the index at which the next one
// begins or the bytes end, and how many characters are still to be passed. It is not inlined, so
// that its callers stay short.
// Same answer (> → >=): the last chunk is then passed byte by byte.
#[inline(never)]
pub(crate) fn pass_chunks(bytes: &[u8], many: usize) -> (usize, usize)
    ensures passed { PassesFirsts bytes.now many result.0 result.1 }
    ensures begins { result.0 < length bytes.now → first_count (get_or bytes.now result.0 0) ≡ 1 }
{
    let mut passed = 0;
    let mut left = many;
    'chunks: while let Some(chunk) = bytes[passed..].first_chunk::<32>() {
        let firsts = firsts_of(chunk);
        if firsts > left {
            break;
        }
        left -= firsts;
        passed += 32;
    }
    'last: while passed < bytes.len() && first_count(bytes[passed]) == 0 {
        passed += 1;
    }
    (passed, left)
}
