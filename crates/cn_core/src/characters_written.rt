// The characters that write digits, units and signs. Each must be one that is read, and take three
// bytes.
ghost use Rattle.std.specs.Prelude.{◌≡◌, ◌≤◌, ◌<◌, map};
ghost use Rattle.cn_core.specs.Characters.{rank, digit_char, unit_char, minus_char, printed_digits, printed_units, printed_word};

use crate::{ChineseCase, ChineseVariant, Unit};

// The words come first because the printers use them: with the words after the characters, printing
// a `u8` as plain digits took 6 more instructions.
/// The characters that a script and case print with. A word is the byte 0 and the three bytes of a
/// character, so that all of them can be written at once.
pub struct PrintedCharacters {
    /// The word of each digit from 0 to 9.
    pub digit_words: [[u8; 4]; 10],
    /// The word of each unit from 個 to 極.
    pub unit_words: [[u8; 4]; 16],
    /// The word of the minus sign.
    pub minus_word: [u8; 4],
    /// The digits.
    pub digits: [char; 10],
    /// The units.
    pub units: [char; 16],
    /// The minus sign.
    pub minus: char,
}

// The word of a character whose UTF-8 is three bytes long.
macro_rules! word {
    ($character:literal) => {
        [
            0,
            (0xe0 | $character as u32 >> 12) as u8,
            (0x80 | $character as u32 >> 6 & 0x3f) as u8,
            (0x80 | $character as u32 & 0x3f) as u8,
        ]
    };
}

// The digits, units and minus sign of a script and case, and their words.
macro_rules! printed {
    ($($digit:literal)*; $($unit:literal)*; $minus:literal) => {
        PrintedCharacters {
            digit_words: [$(word!($digit)),*],
            unit_words: [$(word!($unit)),*],
            minus_word: word!($minus),
            digits: [$($digit),*],
            units: [$($unit),*],
            minus: $minus,
        }
    };
}

static TRADITIONAL_LOWER: PrintedCharacters = printed! {
    '零' '一' '二' '三' '四' '五' '六' '七' '八' '九';
    '個' '十' '百' '千' '萬' '億' '兆' '京' '垓' '秭' '穰' '溝' '澗' '正' '載' '極';
    '負'
};

static TRADITIONAL_UPPER: PrintedCharacters = printed! {
    '零' '壹' '貳' '參' '肆' '伍' '陸' '柒' '捌' '玖';
    '個' '拾' '佰' '仟' '萬' '億' '兆' '京' '垓' '秭' '穰' '溝' '澗' '正' '載' '極';
    '負'
};

static SIMPLE_LOWER: PrintedCharacters = printed! {
    '零' '一' '二' '三' '四' '五' '六' '七' '八' '九';
    '个' '十' '百' '千' '万' '亿' '兆' '京' '垓' '秭' '穰' '沟' '涧' '正' '载' '极';
    '负'
};

static SIMPLE_UPPER: PrintedCharacters = printed! {
    '零' '壹' '贰' '叁' '肆' '伍' '陆' '柒' '捌' '玖';
    '个' '拾' '佰' '仟' '万' '亿' '兆' '京' '垓' '秭' '穰' '沟' '涧' '正' '载' '极';
    '负'
};

/// The characters of a script and case, found by one look-up.
#[tactic(auto, unfolding(crate::specs::Characters::minus_char))]
pub fn printed_characters(variant: ChineseVariant, case: ChineseCase) -> &'static PrintedCharacters
    ensures digits { result.now.digits ≡ printed_digits variant case }
    ensures units { result.now.units ≡ printed_units variant case }
    ensures minus { result.now.minus ≡ minus_char variant }
    ensures words { (result.now.digit_words ≡ map printed_word (printed_digits variant case))
        × (result.now.unit_words ≡ map printed_word (printed_units variant case))
        × (result.now.minus_word ≡ printed_word (minus_char variant)) }
{
    match variant {
        ChineseVariant::Traditional => match case {
            ChineseCase::Lower => &TRADITIONAL_LOWER,
            ChineseCase::Upper => &TRADITIONAL_UPPER,
        },
        ChineseVariant::Simple => match case {
            ChineseCase::Lower => &SIMPLE_LOWER,
            ChineseCase::Upper => &SIMPLE_UPPER,
        },
    }
}

// Returns a printed character, and lets the compiler assume that its UTF-8 is three bytes long.
// Same answer (|| → &&): each printed character has three bytes; the test only informs the
// compiler.
#[inline(always)]
fn of_three_bytes(character: char) -> char
    requires { (2048 ≤ character) × (character < 55296) }
    ensures { result ≡ character }
{
    if character < '\u{800}' || character > '\u{d7ff}' {
        unreachable!()
    }
    character
}

/// The character that writes a digit, which must be from 0 to 9.
///
/// ```text
/// digit_char(ChineseVariant::Simple, ChineseCase::Upper, 2) == '贰'
/// ```
#[inline(always)]
#[tactic(auto, using(crate::proofs::Characters::digit_three), unfolding(crate::specs::Characters::digit_char))]
pub fn digit_char(variant: ChineseVariant, case: ChineseCase, digit: u8) -> char
    requires { digit < 10 }
    ensures { result ≡ digit_char variant case digit }
{
    of_three_bytes(printed_characters(variant, case).digits[digit as usize])
}

/// The character that writes a unit: 個 or 个 for `Unit::Ge`, which no printer writes.
///
/// ```text
/// unit_char(ChineseVariant::Simple, ChineseCase::Upper, Unit::Shi) == '拾'
/// ```
#[inline(always)]
#[tactic(auto, using(crate::proofs::Characters::tag_rank, crate::proofs::Characters::unit_three), unfolding(crate::specs::Characters::unit_char))]
pub fn unit_char(variant: ChineseVariant, case: ChineseCase, unit: Unit) -> char
    ensures { result ≡ unit_char variant case (rank unit) }
{
    of_three_bytes(printed_characters(variant, case).units[unit as usize])
}

// Same answer (ChineseCase::Lower → ChineseCase::Upper): both cases have the same minus sign.
/// The character that writes the minus sign.
///
/// ```text
/// minus_char(ChineseVariant::Traditional) == '負'
/// minus_char(ChineseVariant::Simple) == '负'
/// ```
pub fn minus_char(variant: ChineseVariant) -> char
    ensures { result ≡ minus_char variant }
{
    printed_characters(variant, ChineseCase::Lower).minus
}
