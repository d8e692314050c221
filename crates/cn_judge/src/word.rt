// Tests on eight bytes of a text at once.
ghost use Rattle.std.specs.Prelude.{ℕ, ◌+◌, ◌/◌, ◌%◌, ◌<◌, ◌≤◌, get_or, length, IsTrue};
ghost use Rattle.cn_judge.specs.Private.FirstKey.{BeginsThreeThrees};

// Whether three characters of three bytes each begin here, as is common in numerals, judged by the
// first byte of each. So a character is passed in 4 instructions, and otherwise in 7. `false` says
// nothing about the bytes.
// Same answer (% → /, % → / #2, / → * #3, / → * #4, / → * #5): then no word begins three such
// characters, and each is passed by itself, more slowly.
// Same answer (281_474_976_710_656 → 281474976710655): it differs only if the fourth byte is 0xFF,
// which is refused.
// Same answer (281_474_976_710_656 → 281474976710657): it differs only if the fourth byte is 0,
// which is refused.
#[inline(always)]
pub(crate) fn three_threes_at(bytes: &[u8], index: usize) -> bool
    requires { index ≤ length bytes.now }
    ensures { IsTrue result → BeginsThreeThrees bytes.now index }
{
    let Some(eight) = bytes[index..].first_chunk::<8>() else {
        return false;
    };
    let word = u64::from_le_bytes(*eight);
    let first = word % 256;
    let fourth = word / 16_777_216 % 256;
    let seventh = word / 281_474_976_710_656 % 256;
    (first / 16 == 14) & (fourth / 16 == 14) & (seventh / 16 == 14)
}

// Whether the eight bytes of a word are all ASCII.
// Same answer (0x80_0000_0000 → 0x7fffffffff, 0x8000_0000_0000 → 0x7fffffffffff,
// 0x8000_0000_0000_0000 → 0x7fffffffffffffff, 0x80_0000_0000_0000 → 0x7fffffffffffff): fewer words
// are taken as ASCII at once, and the others are decided more slowly.
#[inline(always)]
fn eight_are_ascii(word: u64) -> bool
    ensures first { IsTrue result → word % 256 < 128 }
    ensures second { IsTrue result → word / 256 % 256 < 128 }
    ensures third { IsTrue result → word / 65536 % 256 < 128 }
    ensures fourth { IsTrue result → word / 16777216 % 256 < 128 }
    ensures fifth { IsTrue result → word / 4294967296 % 256 < 128 }
    ensures sixth { IsTrue result → word / 1099511627776 % 256 < 128 }
    ensures seventh { IsTrue result → word / 281474976710656 % 256 < 128 }
    ensures eighth { IsTrue result → word / 72057594037927936 < 128 }
{
    (word / 0x80 % 2 == 0)
        & (word / 0x8000 % 2 == 0)
        & (word / 0x80_0000 % 2 == 0)
        & (word / 0x8000_0000 % 2 == 0)
        & (word / 0x80_0000_0000 % 2 == 0)
        & (word / 0x8000_0000_0000 % 2 == 0)
        & (word / 0x80_0000_0000_0000 % 2 == 0)
        & (word / 0x8000_0000_0000_0000 == 0)
}

/// Whether eight ASCII bytes begin at this index. `false` says nothing about the bytes.
#[inline(always)]
pub fn eight_ascii_at(bytes: &[u8], index: usize) -> bool
    requires { index ≤ length bytes.now }
    ensures within { IsTrue result → index + 8 ≤ length bytes.now }
    ensures ascii { IsTrue result → (k : ℕ) → k < 8 → get_or bytes.now (index + k) 0 < 128 }
{
    match bytes[index..].first_chunk::<8>() {
        Some(eight) => eight_are_ascii(u64::from_le_bytes(*eight)),
        None => false,
    }
}
