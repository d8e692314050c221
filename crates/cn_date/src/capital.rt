// The characters of a date.
ghost use Rattle.std.specs.Prelude.{◌≡◌, ◌*◌, ◌/◌, ◌%◌, slice_index_or};
ghost use Rattle.cn_date.specs.Working.Putting.{IsWritten};
ghost use Rattle.cn_date.specs.Writes.{capital_char};
ghost use Rattle.cn_date.specs.Reading.{capital_of};

use cn_core::{ChineseCase, ChineseVariant, Unit, digit_char, unit_char};
use cn_grammar::{Written, known_in};

/// What a character of a date is.
#[derive(Clone, Copy)]
pub enum Capital {
    /// 零 to 玖, a digit.
    Digit(u8),
    /// 拾, 10.
    Shi,
    /// 年
    Nian,
    /// 月
    Yue,
    /// 日
    Ri,
}

impl Written<ChineseVariant> for Capital {
    ghost can_write = { IsWritten };

    ghost character = { capital_char };

    fn character(self, variant: ChineseVariant) -> char {
        match self {
            Capital::Digit(digit) => digit_char(variant, ChineseCase::Upper, digit),
            Capital::Shi => unit_char(variant, ChineseCase::Upper, Unit::Shi),
            Capital::Nian => '年',
            Capital::Yue => '月',
            Capital::Ri => '日',
        }
    }
}

// The characters that are read, each at its slot. 無, which is not read, fills the empty slots.
// `python3 checks/tables.py crates` prints this table from `capital_rows` of specs/Reading.
static CAPITALS: [(char, Option<Capital>); 32] = [
    ('無', None),
    ('肆', Some(Capital::Digit(4))),
    ('無', None),
    ('貳', Some(Capital::Digit(2))),
    ('零', Some(Capital::Digit(0))),
    ('陸', Some(Capital::Digit(6))),
    ('無', None),
    ('拾', Some(Capital::Shi)),
    ('伍', Some(Capital::Digit(5))),
    ('無', None),
    ('無', None),
    ('日', Some(Capital::Ri)),
    ('無', None),
    ('陆', Some(Capital::Digit(6))),
    ('無', None),
    ('無', None),
    ('叁', Some(Capital::Digit(3))),
    ('壹', Some(Capital::Digit(1))),
    ('月', Some(Capital::Yue)),
    ('無', None),
    ('年', Some(Capital::Nian)),
    ('無', None),
    ('玖', Some(Capital::Digit(9))),
    ('捌', Some(Capital::Digit(8))),
    ('參', Some(Capital::Digit(3))),
    ('柒', Some(Capital::Digit(7))),
    ('無', None),
    ('無', None),
    ('無', None),
    ('叄', Some(Capital::Digit(3))),
    ('無', None),
    ('贰', Some(Capital::Digit(2))),
];

// The entry at the slot of a character. No two of the characters that are read have the same slot.
#[inline(always)]
fn entry(character: char) -> (char, Option<Capital>)
    ensures { result ≡ slice_index_or CAPITALS (character * 69 / 16 % 32) result }
{
    CAPITALS[(character as u32 * 69 / 16 % 32) as usize]
}

/// What a character of either script is read as, looked up without a search; `None` if it is not
/// read.
#[inline(always)]
pub fn capital_of(character: char) -> Option<Capital>
    ensures { result ≡ capital_of character }
{
    known_in(entry(character), character)
}
