// Writes the spelling of a magnitude, from its lowest digit up.
//
// For example, 100_100_000 under `TenThousand` has the sections 0000, 0010 and, above them, 1. This
// is written, from the last character to the first:
//
//     0000   nothing
//     0010   萬, its unit, then 十 and 一
//     1      零, since no digit is written at 10^7, then 億, its unit, and 一
//
// So the text is 一億零一十萬.
ghost use Rattle.std.specs.Prelude.{◌≡◌, ◌+◌, ◌*◌, ◌%◌, ◌^◌, ◌<◌, ◌≤◌, List, [], ◌++◌, length};
ghost use Rattle.cn_core.specs.declared.method.ChineseCountMethod.TheVariants.{Low};
ghost use Rattle.cn_core.specs.Mark.{Mark};
ghost use Rattle.cn_core.specs.Spelling.{spelling};
ghost use Rattle.cn_spell.specs.Working.Sections.{sections_within, above_limit, digit_marks, section_marks, top_marks};
ghost use Rattle.cn_spell.specs.Working.Units.{units_behind};

use crate::pen::Pen;
use crate::sections::{Sections, digits_of};
use crate::units::{unit_at, widths};
use cn_core::ChineseCountMethod;

// Writes a digit and the unit of its power if the digit is not 0, and 零 if a gap must be shown.
#[inline(always)]
fn put_digit<P: Pen>(pen: &mut P, power: usize, digit: u8, is_gap: bool)
    requires power { power < 16 }
    requires digit { digit < 10 }
    requires room { 3 * length (digit_marks power digit is_gap) + 3 ≤ P.left pen.old }
    ensures setting { P.setting pen.new ≡ P.setting pen.old }
    ensures room { P.left pen.new + 3 * length (digit_marks power digit is_gap)
        ≡ P.left pen.old }
    ensures marks { (marks : List Mark) → P.has_put pen.old marks
        → P.has_put pen.new (digit_marks power digit is_gap ++ marks) }
{
    let unit = unit_at(ChineseCountMethod::Low, power);
    pen.put_unit_if((digit > 0) & (power > 0), unit);
    pen.put_digit_if((digit > 0) | is_gap, digit);
}

// Writes a section that has digits above it.
// Same answer (>= → >, 100 → 101 #3): 100 has no ones.
// Same answer (100 → 99 #3): 99 has tens, which are written in either case.
// Same answer (>= → > #2, 1000 → 1001): 1000 has no tens.
// Same answer (1000 → 999): 999 has hundreds, which are written in either case.
#[inline(always)]
fn put_section<P: Pen>(pen: &mut P, section: u16)
    requires section { section < 10 ^ 4 }
    requires room { 3 * length (section_marks section) + 3 ≤ P.left pen.old }
    ensures setting { P.setting pen.new ≡ P.setting pen.old }
    ensures room { P.left pen.new + 3 * length (section_marks section) ≡ P.left pen.old }
    ensures marks { (marks : List Mark) → P.has_put pen.old marks
        → P.has_put pen.new (section_marks section ++ marks) }
{
    let low = section % 100;
    let high = section / 100;
    let ones = (low % 10) as u8;
    let tens = (low / 10) as u8;
    let hundreds = (high % 10) as u8;
    let thousands = (high / 10) as u8;
    put_digit(pen, 0, ones, false);
    put_digit(pen, 1, tens, (ones > 0) & (section >= 100));
    put_digit(pen, 2, hundreds, (tens > 0) & (section >= 1000));
    put_digit(pen, 3, thousands, false);
}

// Writes the highest digit and its unit, without 一 before 十.
#[inline(always)]
fn put_top<P: Pen>(pen: &mut P, power: usize, digit: u8)
    requires power { power < 16 }
    requires digit { digit < 10 }
    requires room { 3 * length (top_marks power digit) ≤ P.left pen.old }
    ensures setting { P.setting pen.new ≡ P.setting pen.old }
    ensures room { P.left pen.new + 3 * length (top_marks power digit) ≡ P.left pen.old }
    ensures marks { (marks : List Mark) → P.has_put pen.old marks
        → P.has_put pen.new (top_marks power digit ++ marks) }
{
    if power > 0 {
        let unit = unit_at(ChineseCountMethod::Low, power);
        pen.put_unit_if(true, unit);
    }
    if digit != 1 || power != 1 {
        pen.put_digit_if(true, digit);
    }
}

// Writes the spelling of a number that has no digits above it.
#[inline(always)]
fn put_above<P: Pen>(pen: &mut P, number: u64)
    requires number { number < 10 ^ 16 }
    requires room { 3 * length (spelling Low number) ≤ P.left pen.old }
    ensures setting { P.setting pen.new ≡ P.setting pen.old }
    ensures room { P.left pen.new + 3 * length (spelling Low number) ≡ P.left pen.old }
    ensures marks { (marks : List Mark) → P.has_put pen.old marks
        → P.has_put pen.new (spelling Low number ++ marks) }
{
    let mut left = number;
    let mut power = 0;
    let mut below = 0;
    while left >= 10 {
        let digit = (left % 10) as u8;
        put_digit(pen, power, digit, below > 0);
        below = digit;
        left /= 10;
        power += 1;
    }
    put_top(pen, power, left as u8);
}

// Writes the units after a section that begins at the power. The marks that are written have digits
// only at the powers below `filled`, and 零 follows the units if the next lower power is empty. If
// the section below has a digit, only the section's own unit is written.
// Same answer (4 → 3): where the lower section has one digit, the loop writes the same, more
// slowly.
#[inline(always)]
fn put_units<P: Pen>(pen: &mut P, method: ChineseCountMethod, power: usize, filled: usize)
    requires section { power % 4 ≡ 0 }
    requires power { power ≤ 4 * sections_within method }
    requires filled { filled ≤ power }
    requires room { 3 * length (units_behind method power filled) ≤ P.left pen.old }
    ensures setting { P.setting pen.new ≡ P.setting pen.old }
    ensures room { P.left pen.new + 3 * length (units_behind method power filled) ≡ P.left pen.old }
    ensures marks { (marks : List Mark) → P.has_put pen.old marks
        → P.has_put pen.new (units_behind method power filled ++ marks) }
{
    if power == 0 {
        return;
    }
    if filled + 4 > power {
        pen.put_digit_if(filled < power, 0);
        pen.put_unit_if(true, unit_at(method, power));
        return;
    }
    let mut above = filled.max(1);
    for width in widths(method) {
        let start = power - power % *width;
        if start >= above {
            if above == filled && filled < start {
                pen.put_digit_if(true, 0);
            }
            pen.put_unit_if(true, unit_at(method, start));
            above = start + 1;
        }
    }
}

/// Writes the spelling of a magnitude, from its lowest section up.
#[inline(always)]
pub fn put_spelling<P: Pen>(pen: &mut P, method: ChineseCountMethod, sections: &Sections)
    requires number { sections.now.number < 10 ^ 39 }
    requires count { sections.now.count ≤ sections_within method }
    requires above { sections.now.above < above_limit method }
    requires room { 3 * length (spelling method sections.now.number) ≤ P.left pen.old }
    requires empty { P.has_put pen.old [] }
    ensures setting { P.setting pen.new ≡ P.setting pen.old }
    ensures room { P.left pen.new + 3 * length (spelling method sections.now.number)
        ≡ P.left pen.old }
    ensures marks { P.has_put pen.new (spelling method sections.now.number) }
{
    let mut filled = 0;
    for index in 0..sections.count {
        let section = sections.sections[index];
        if section > 0 {
            put_units(pen, method, 4 * index, filled);
            put_section(pen, section);
            filled = 4 * index + digits_of(section);
        }
    }
    put_units(pen, method, 4 * sections.count, filled);
    put_above(pen, sections.above);
}
