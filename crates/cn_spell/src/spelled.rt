// The text of a number with units.
ghost use Rattle.std.specs.Prelude.{◌≡◌, ◌*◌, ◌^◌, ◌≤◌, ◌<◌, length, pos, IsTrue};
ghost use Rattle.cn_core.specs.declared.method.ChineseCountMethod.{ChineseCountMethod};
ghost use Rattle.cn_core.specs.declared.method.ChineseCountMethod.TheVariants as method;
ghost use Rattle.cn_core.specs.Spelling.{spelling};
ghost use Rattle.cn_core.specs.Printing.{signed_text, is_printable};
ghost use Rattle.cn_spell.specs.Prints.{most_bytes};
ghost use Rattle.cn_spell.specs.Working.Sections.{sections_within, above_limit};

use crate::characters::Characters;
use crate::pen::{Count, Front, Room};
use crate::sections::{MOST, Sections};
use crate::spell::put_spelling;
use crate::text::Text;
use cn_core::ChineseCountMethod;
use std::marker::PhantomData;

/// A method that is known at compile time, so that a printer is compiled for each method.
pub trait KnownMethod {
    ghost stands_for: { ChineseCountMethod };

    fn method() -> ChineseCountMethod
        ensures { result ≡ stands_for };
}

pub struct ByLow;

impl KnownMethod for ByLow {
    ghost stands_for = { method.Low };

    #[inline(always)]
    fn method() -> ChineseCountMethod {
        ChineseCountMethod::Low
    }
}

pub struct ByTenThousand;

impl KnownMethod for ByTenThousand {
    ghost stands_for = { method.TenThousand };

    #[inline(always)]
    fn method() -> ChineseCountMethod {
        ChineseCountMethod::TenThousand
    }
}

pub struct ByMiddle;

impl KnownMethod for ByMiddle {
    ghost stands_for = { method.Middle };

    #[inline(always)]
    fn method() -> ChineseCountMethod {
        ChineseCountMethod::Middle
    }
}

pub struct ByHigh;

impl KnownMethod for ByHigh {
    ghost stands_for = { method.High };

    #[inline(always)]
    fn method() -> ChineseCountMethod {
        ChineseCountMethod::High
    }
}

/// A sign, and a magnitude that the method writes.
#[derive(Drop)]
pub struct Spelled<'a, M: KnownMethod> {
    characters: Characters,
    negative: bool,
    sections: Sections<'a>,
    method: PhantomData<M>,
    ghost small: { sections.number < 2 ^ 128 },
    ghost printable: { IsTrue (is_printable M.stands_for (pos sections.number)) },
    ghost count: { sections.count ≤ sections_within M.stands_for },
    ghost above: { sections.above < above_limit M.stands_for },
}

impl<'a, M: KnownMethod> Spelled<'a, M> {
    /// Splits the magnitude into sections, which it stores in an array.
    #[inline(always)]
    pub fn of(
        taken: &'a mut [u16; MOST],
        characters: Characters,
        negative: bool,
        magnitude: u128,
    ) -> Self
        requires { IsTrue (is_printable M.stands_for (pos magnitude)) }
        ensures says { ⟦<Spelled<'a, M> as Text>⟧.says result
            ≡ signed_text characters.variant characters.case negative
            (spelling M.stands_for magnitude) }
        ensures most { ⟦<Spelled<'a, M> as Text>⟧.most result ≡ most_bytes M.stands_for }
        ensures fits { 3 * length (⟦<Spelled<'a, M> as Text>⟧.says result)
            ≤ most_bytes M.stands_for }
    {
        Spelled {
            characters,
            negative,
            sections: Sections::of(taken, M::method(), magnitude),
            method: PhantomData,
        }
    }
}

impl<M: KnownMethod> Text for Spelled<'_, M> {
    ghost says = { λ spelled.
        signed_text spelled.characters.variant spelled.characters.case spelled.negative
        (spelling M.stands_for spelled.sections.number) };

    ghost most = { λ spelled. most_bytes M.stands_for };

    #[inline(always)]
    fn count(&self) -> usize {
        let sections = self.sections;
        let mut counted = Count { characters: 0 };
        put_spelling(&mut counted, M::method(), &sections);
        counted.characters + self.negative as usize
    }

    #[inline(always)]
    fn fill<F: Front>(&self, bytes: &mut [u8]) -> usize {
        let sections = self.sections;
        let mut room = Room::<F>::new(bytes, &self.characters);
        put_spelling(&mut room, M::method(), &sections);
        room.put_sign(self.negative);
        room.free
    }
}
