// Printing as plain decimal digits.
ghost use Rattle.std.specs.Prelude.{◌≡◌, ◌+◌, ◌*◌, ◌^◌, ◌<◌, ◌≤◌, List, ◌++◌, length, IfOk};
ghost use Rattle.cn_core.specs.Mark.{Mark};
ghost use Rattle.cn_core.specs.Naive.{decimal_digits};
ghost use Rattle.cn_core.specs.Printing.{signed_text, naive_text};
ghost use Rattle.cn_spell.specs.Working.Room.{Shows};
ghost use Rattle.cn_spell.specs.Working.Sections.{lowest_marks};
ghost use Rattle.cn_spell.specs.Writes.{Puts, Writes, most_plain_bytes};

use crate::characters::Characters;
use crate::pen::{Front, OneSpare, Pen, Room};
use crate::sections::{MOST, Sections, digits_of};
use crate::text::{NewString, ROOM_BYTES, Target, Text};
use cn_core::{ChineseCase, ChineseCountMethod, ChineseVariant, Whole};
use std::alloc::{AllocError, Global};
use std::str;

// A sign, and the sections of a magnitude.
#[derive(Drop)]
struct Plain<'a> {
    characters: Characters,
    negative: bool,
    sections: Sections<'a>,
    ghost small: { sections.number < 10 ^ 39 },
    ghost above: { sections.above < 10 ^ 4 },
}

impl<'a> Plain<'a> {
    // Splits the magnitude into sections, which it stores in an array.
    // Same answer (ChineseCountMethod::TenThousand → ChineseCountMethod::Middle): all methods other
    // than `Low` take the same sections.
    #[inline(always)]
    fn of(
        taken: &'a mut [u16; MOST],
        characters: Characters,
        negative: bool,
        magnitude: u128,
    ) -> Self
        ensures says { ⟦<Plain<'a> as Text>⟧.says result
            ≡ signed_text characters.variant characters.case negative (decimal_digits magnitude) }
        ensures most { 3 * length (⟦<Plain<'a> as Text>⟧.says result) ≤ most_plain_bytes }
    {
        Plain {
            characters,
            negative,
            sections: Sections::of(taken, ChineseCountMethod::TenThousand, magnitude),
        }
    }
}

// Writes the lowest `count` digits of a number.
#[inline(always)]
fn put_digits<P: Pen>(pen: &mut P, number: u16, count: usize)
    requires room { 3 * count ≤ P.left pen.old }
    ensures setting { P.setting pen.new ≡ P.setting pen.old }
    ensures room { P.left pen.new + 3 * count ≡ P.left pen.old }
    ensures marks { (marks : List Mark) → P.has_put pen.old marks
        → P.has_put pen.new (lowest_marks count number ++ marks) }
{
    let mut left = number;
    for _ in 0..count {
        pen.put_digit_if(true, (left % 10) as u8);
        left /= 10;
    }
}

// Writes the four digits of a section.
#[inline(always)]
fn put_section<P: Pen>(pen: &mut P, section: u16)
    requires section { section < 10 ^ 4 }
    requires room { 12 ≤ P.left pen.old }
    ensures setting { P.setting pen.new ≡ P.setting pen.old }
    ensures room { P.left pen.new + 12 ≡ P.left pen.old }
    ensures marks { (marks : List Mark) → P.has_put pen.old marks
        → P.has_put pen.new (lowest_marks 4 section ++ marks) }
{
    let low = section % 100;
    let high = section / 100;
    pen.put_digit_if(true, (low % 10) as u8);
    pen.put_digit_if(true, (low / 10) as u8);
    pen.put_digit_if(true, (high % 10) as u8);
    pen.put_digit_if(true, (high / 10) as u8);
}

impl Text for Plain<'_> {
    ghost says = { λ plain.
        signed_text plain.characters.variant plain.characters.case plain.negative
        (decimal_digits plain.sections.number) };

    ghost most = { λ plain. most_plain_bytes };

    #[inline(always)]
    fn count(&self) -> usize {
        let above = digits_of(self.sections.above as u16);
        4 * self.sections.count + above + self.negative as usize
    }

    #[inline(always)]
    fn fill<F: Front>(&self, bytes: &mut [u8]) -> usize {
        let sections = self.sections;
        let above = sections.above as u16;
        let size = digits_of(above);
        let mut room = Room::<F>::new(bytes, &self.characters);
        for index in 0..sections.count {
            put_section(&mut room, sections.sections[index]);
        }
        put_digits(&mut room, above, size);
        room.put_sign(self.negative);
        room.free
    }
}

/// The text of a number as decimal digits, with one allocation.
pub fn print_naive<T: Whole>(
    alloc: Global,
    variant: ChineseVariant,
    case: ChineseCase,
    value: T,
) -> Result<String, AllocError>
    ensures { IfOk result (Writes (naive_text variant case (T.number value)) most_plain_bytes) }
{
    let mut taken = [0; MOST];
    let text = Plain::of(
        &mut taken,
        Characters::new(variant, case),
        value.is_negative(),
        value.magnitude(),
    );
    NewString { alloc }.take(&text)
}

// Writes the text of a sign and a magnitude at the end of a buffer, and returns where it begins.
// All types share this one function.
#[inline(always)]
fn put_plain(
    room: &mut [u8; ROOM_BYTES],
    characters: Characters,
    negative: bool,
    magnitude: u128,
) -> usize
    ensures { Shows result room.new
        (signed_text characters.variant characters.case negative (decimal_digits magnitude)) }
{
    let mut taken = [0; MOST];
    let text = Plain::of(&mut taken, characters, negative, magnitude);
    text.fill::<OneSpare>(room)
}

/// Writes a number as plain decimal digits at the end of a buffer, and returns its text.
///
/// ```text
/// let mut room = [0; ROOM_BYTES];
/// put_chinese_naive(&mut room, ChineseVariant::Simple, ChineseCase::Lower, 2025)   // 二零二五
/// ```
///
/// It allocates no memory and cannot fail.
#[inline(always)]
pub fn put_chinese_naive<'a, T: Whole>(
    room: &'a mut [u8; ROOM_BYTES],
    variant: ChineseVariant,
    case: ChineseCase,
    value: T,
) -> &'a str
    ensures { Puts (naive_text variant case (T.number value)) result.now }
{
    let characters = Characters::new(variant, case);
    let start = put_plain(room, characters, value.is_negative(), value.magnitude());
    unsafe { str::from_utf8_unchecked(&room[start..]) }
}
