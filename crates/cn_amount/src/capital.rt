// The characters of an amount.
ghost use Rattle.std.specs.Prelude.{◌≡◌, ◌*◌, ◌/◌, ◌%◌, slice_index_or};
ghost use Rattle.cn_amount.specs.Working.Putting.{IsWritten};
ghost use Rattle.cn_amount.specs.Writes.{char_by, yuan_char, closing_char, currency_char, number_char};
ghost use Rattle.cn_amount.specs.Reading.{capital_of};

use crate::form::Hand;
use cn_core::{ChineseCase, ChineseVariant, Unit, digit_char, minus_char, unit_char};
use cn_grammar::{Written, known_in};

/// What a character of an amount is.
#[derive(Clone, Copy)]
pub enum Capital {
    /// 零, for a digit that is 0.
    Ling,
    /// 壹 to 玖, a digit from 1 to 9.
    Digit(u8),
    /// 拾, 10.
    Shi,
    /// 佰, 100.
    Bai,
    /// 仟, 1000.
    Qian,
    /// 万, 10^4.
    Wan,
    /// 亿, 10^8.
    Yi,
    /// 元 or 圆.
    Yuan,
    /// 角, a tenth of a yuan.
    Jiao,
    /// 分, a hundredth of a yuan.
    Fen,
    /// 整 or 正, which closes an amount.
    Zheng,
    /// 人, the first character of the currency, 人民币.
    Ren,
    /// 民
    Min,
    /// 币
    Bi,
    /// 負, which is only before an amount below zero.
    Fu,
    /// （, which is only before 负数.
    Open,
    /// 數, which is only after 負.
    Shu,
    /// ）, which is only after 负数.
    Close,
}

// 元, or 圆 if the form has it.
fn yuan_char(hand: Hand) -> char
    ensures { result ≡ yuan_char hand.variant hand.form.round_yuan }
{
    match (hand.form.round_yuan, hand.variant) {
        (false, _) => '元',
        (true, ChineseVariant::Simple) => '圆',
        (true, ChineseVariant::Traditional) => '圓',
    }
}

// 整, or 正 if the form has it.
fn closing_char(upright: bool) -> char
    ensures { result ≡ closing_char upright }
{
    if upright { '正' } else { '整' }
}

// 币, or 幣 in the traditional script.
fn currency_char(variant: ChineseVariant) -> char
    ensures { result ≡ currency_char variant }
{
    match variant {
        ChineseVariant::Simple => '币',
        ChineseVariant::Traditional => '幣',
    }
}

// 数, or 數 in the traditional script.
fn number_char(variant: ChineseVariant) -> char
    ensures { result ≡ number_char variant }
{
    match variant {
        ChineseVariant::Simple => '数',
        ChineseVariant::Traditional => '數',
    }
}

impl Written<Hand> for Capital {
    ghost can_write = { IsWritten };

    ghost character = { char_by };

    fn character(self, hand: Hand) -> char {
        let variant = hand.variant;
        match self {
            Capital::Ling => digit_char(variant, ChineseCase::Upper, 0),
            Capital::Digit(digit) => digit_char(variant, ChineseCase::Upper, digit),
            Capital::Shi => unit_char(variant, ChineseCase::Upper, Unit::Shi),
            Capital::Bai => unit_char(variant, ChineseCase::Upper, Unit::Bai),
            Capital::Qian => unit_char(variant, ChineseCase::Upper, Unit::Qian),
            Capital::Wan => unit_char(variant, ChineseCase::Upper, Unit::Wan),
            Capital::Yi => unit_char(variant, ChineseCase::Upper, Unit::Yi),
            Capital::Yuan => yuan_char(hand),
            Capital::Jiao => '角',
            Capital::Fen => '分',
            Capital::Zheng => closing_char(hand.form.upright_closing),
            Capital::Ren => '人',
            Capital::Min => '民',
            Capital::Bi => currency_char(variant),
            Capital::Fu => minus_char(variant),
            Capital::Open => '（',
            Capital::Shu => number_char(variant),
            Capital::Close => '）',
        }
    }
}

// The characters that are read, each at its slot. 無, which is not read, fills the empty slots.
// `python3 checks/tables.py crates` prints this table from `capital_rows` of specs/Reading.
static CAPITALS: [(char, Option<Capital>); 64] = [
    ('玖', Some(Capital::Digit(9))),
    ('無', None),
    ('無', None),
    ('無', None),
    ('無', None),
    ('萬', Some(Capital::Wan)),
    ('肆', Some(Capital::Digit(4))),
    ('無', None),
    ('無', None),
    ('無', None),
    ('無', None),
    ('無', None),
    ('無', None),
    ('仟', Some(Capital::Qian)),
    ('民', Some(Capital::Min)),
    ('億', Some(Capital::Yi)),
    ('無', None),
    ('陆', Some(Capital::Digit(6))),
    ('角', Some(Capital::Jiao)),
    ('無', None),
    ('無', None),
    ('元', Some(Capital::Yuan)),
    ('佰', Some(Capital::Bai)),
    ('無', None),
    ('人', Some(Capital::Ren)),
    ('無', None),
    ('無', None),
    ('無', None),
    ('無', None),
    ('無', None),
    ('伍', Some(Capital::Digit(5))),
    ('無', None),
    ('無', None),
    ('無', None),
    ('壹', Some(Capital::Digit(1))),
    ('無', None),
    ('万', Some(Capital::Wan)),
    ('貳', Some(Capital::Digit(2))),
    ('無', None),
    ('圓', Some(Capital::Yuan)),
    ('亿', Some(Capital::Yi)),
    ('無', None),
    ('正', Some(Capital::Zheng)),
    ('捌', Some(Capital::Digit(8))),
    ('無', None),
    ('柒', Some(Capital::Digit(7))),
    ('陸', Some(Capital::Digit(6))),
    ('贰', Some(Capital::Digit(2))),
    ('叁', Some(Capital::Digit(3))),
    ('無', None),
    ('幣', Some(Capital::Bi)),
    ('無', None),
    ('無', None),
    ('拾', Some(Capital::Shi)),
    ('參', Some(Capital::Digit(3))),
    ('整', Some(Capital::Zheng)),
    ('無', None),
    ('叄', Some(Capital::Digit(3))),
    ('無', None),
    ('零', Some(Capital::Ling)),
    ('分', Some(Capital::Fen)),
    ('币', Some(Capital::Bi)),
    ('圆', Some(Capital::Yuan)),
    ('無', None),
];

// The entry at the slot of a character. No two of the characters that are read have the same slot.
#[inline(always)]
fn entry(character: char) -> (char, Option<Capital>)
    ensures { result ≡ slice_index_or CAPITALS (character * 3227 / 1024 % 64) result }
{
    CAPITALS[(character as u32 * 3227 / 1024 % 64) as usize]
}

/// What a character of either script is read as, looked up without a search; `None` if it is not
/// read.
#[inline(always)]
pub fn capital_of(character: char) -> Option<Capital>
    ensures { result ≡ capital_of character }
{
    known_in(entry(character), character)
}
