// The characters of one script and case, as words: the byte 0 and the three bytes of a character.
ghost use Rattle.std.specs.Prelude.{◌≡◌, ◌<◌, map};
ghost use Rattle.cn_core.specs.Characters.{rank, digit_char, unit_char, minus_char, printed_digits, printed_units, printed_word};

use cn_core::{ChineseCase, ChineseVariant, PrintedCharacters, Unit, printed_characters};

/// The characters of a script and case.
#[derive(Clone, Copy)]
pub struct Characters {
    pub variant: ChineseVariant,
    pub case: ChineseCase,
    table: &'static PrintedCharacters,
    ghost digits: { table.now.digit_words ≡ map printed_word (printed_digits variant case) },
    ghost units: { table.now.unit_words ≡ map printed_word (printed_units variant case) },
    ghost minus: { table.now.minus_word ≡ printed_word (minus_char variant) },
}

impl Characters {
    /// Looks up the table of a script and case, once for a text.
    pub fn new(variant: ChineseVariant, case: ChineseCase) -> Self
        ensures variant { result.variant ≡ variant }
        ensures case { result.case ≡ case }
    {
        Characters {
            variant,
            case,
            table: printed_characters(variant, case),
        }
    }

    /// The word of a digit from 0 to 9.
    #[inline(always)]
    #[tactic(auto, using(crate::proofs::ThreeBytes::digit_words))]
    pub fn digit(self, digit: u8) -> &'static [u8; 4]
        requires { digit < 10 }
        ensures { result.now ≡ printed_word (digit_char self.variant self.case digit) }
    {
        &self.table.digit_words[digit as usize]
    }

    /// The word of a unit.
    #[inline(always)]
    #[tactic(auto, using(crate::proofs::ThreeBytes::unit_words))]
    pub fn unit(self, unit: Unit) -> &'static [u8; 4]
        ensures { result.now ≡ printed_word (unit_char self.variant self.case (rank unit)) }
    {
        &self.table.unit_words[unit as usize]
    }

    /// The word of the minus sign.
    #[inline(always)]
    pub fn minus(self) -> &'static [u8; 4]
        ensures { result.now ≡ printed_word (minus_char self.variant) }
    {
        &self.table.minus_word
    }
}
