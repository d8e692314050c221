// A magnitude as sections of four decimal digits.
ghost use Rattle.std.specs.Prelude.{◌≡◌, ◌*◌, ◌/◌, ◌%◌, ◌^◌, ◌+◌, ◌<◌, ◌≤◌, max, ℕ, length, slice_index};
ghost use Rattle.cn_spell.specs.Working.Sections.{sections_within, above_limit, HoldsSections};
ghost use Rattle.cn_spell.specs.Working.Units.{powers_within};

use cn_core::ChineseCountMethod;

// A number of 128 bits has at most nine sections below its highest.
pub const MOST: usize = 9;

// A section has four digits. A part has four sections, and fits 64 bits.
pub const SECTION: u64 = 10_000;

// 5^16.
const FIVES: u64 = 152_587_890_625;

/// A magnitude, as its lowest sections of four digits and the rest above them.
#[derive(Clone, Copy)]
pub struct Sections<'a> {
    pub number: u128,
    pub sections: &'a [u16; MOST],
    pub count: usize,
    pub above: u64,
    ghost holds: { HoldsSections number sections.now count above },
}

impl<'a> Sections<'a> {
    /// Splits a number that the method writes into sections, which it stores in an array.
    #[inline(always)]
    pub fn of(sections: &'a mut [u16; MOST], method: ChineseCountMethod, number: u128) -> Self
        requires { number < 10 ^ powers_within method }
        ensures number { result.number ≡ number }
        ensures count { result.count ≤ sections_within method }
        ensures above { result.above < above_limit method }
    {
        let (count, above) = take_sections(sections, method, number);
        Sections {
            number,
            sections,
            count,
            above,
        }
    }
}

// Splits off all sections except the highest, or none under `Low`. Returns the number of these
// sections, and the rest above them.
// Same answer (> → >=): the four lowest sections of 2^64 - 1 are taken at once or one by one.
#[inline(always)]
fn take_sections(
    sections: &mut [u16; MOST],
    method: ChineseCountMethod,
    magnitude: u128,
) -> (usize, u64)
    requires { magnitude < 10 ^ powers_within method }
    ensures holds { HoldsSections magnitude sections.new result.0 result.1 }
    ensures count { result.0 ≤ sections_within method }
    ensures above { result.1 < above_limit method }
{
    if let ChineseCountMethod::Low = method {
        return (0, magnitude as u64);
    }
    let mut count = 0;
    let mut left = magnitude;
    while left > u64::MAX as u128 {
        let (next, part) = split_part(left);
        put_part(sections, count, part);
        count += 4;
        left = next;
    }
    let mut above = left as u64;
    while above >= SECTION {
        sections[count] = (above % SECTION) as u16;
        count += 1;
        above /= SECTION;
    }
    (count, above)
}

// Splits a number into the rest above its lowest four sections, and those four. 10^16 is 2^16 times
// 5^16, so this takes three divisions of 64 bits by 5^16, of 26 bits at a time, in place of one of
// 128 bits.
#[inline(always)]
fn split_part(number: u128) -> (u128, u64)
    ensures above { result.0 ≡ number / 10 ^ 16 }
    ensures part { result.1 ≡ number % 10 ^ 16 }
{
    let high = (number / (1 << 68)) as u64;
    let middle = (number / (1 << 42) % (1 << 26)) as u64;
    let low = (number / (1 << 16) % (1 << 26)) as u64;
    let middle = high % FIVES * (1 << 26) + middle;
    let low = middle % FIVES * (1 << 26) + low;
    let lower = middle / FIVES * (1 << 26) + low / FIVES;
    let above = (high / FIVES) as u128 * (1 << 52) + lower as u128;
    (above, low % FIVES * (1 << 16) + (number % (1 << 16)) as u64)
}

// Stores the four sections of a part in the array, from the index on.
#[inline(always)]
fn put_part(sections: &mut [u16], index: usize, part: u64)
    requires part { part < 10 ^ 16 }
    requires room { index + 4 ≤ length sections.old }
    ensures length { length sections.new ≡ length sections.old }
    ensures lower { (k : ℕ) → k < index → slice_index sections.new k ≡ slice_index sections.old k }
    ensures first { slice_index sections.new index ≡ part % 10 ^ 4 }
    ensures second { slice_index sections.new (index + 1) ≡ part / 10 ^ 4 % 10 ^ 4 }
    ensures third { slice_index sections.new (index + 2) ≡ part / 10 ^ 8 % 10 ^ 4 }
    ensures fourth { slice_index sections.new (index + 3) ≡ part / 10 ^ 12 }
{
    let low = part % (SECTION * SECTION);
    let high = part / (SECTION * SECTION);
    sections[index] = (low % SECTION) as u16;
    sections[index + 1] = (low / SECTION) as u16;
    sections[index + 2] = (high % SECTION) as u16;
    sections[index + 3] = (high / SECTION) as u16;
}

/// The number of digits of a section; 0 has one digit.
#[inline(always)]
pub fn digits_of(section: u16) -> usize
    requires { section < 10 ^ 4 }
    ensures some { 0 < result }
    ensures most { result ≤ 4 }
    ensures below { section < 10 ^ result }
    ensures reach { 10 ^ result ≤ 10 * max section 1 }
{
    1 + (section >= 10) as usize + (section >= 100) as usize + (section >= 1000) as usize
}
