// The ways in which a number is read or written, and numbers of any type.
ghost use Rattle.std.specs.Prelude.{◌≡◌, ◌↔◌, ◌≤◌, ◌<ℤ◌, pos, length, IsTrue, IfOk, MatchResult};
ghost use Rattle.chinese_number.specs.Answer.{answer_of};
ghost use Rattle.chinese_number.specs.Whole.{holds};
ghost use Rattle.cn_dynamic.specs.Ways.{Explains, IsText, ReadsBy, stands_for, way_named, written_by};

use chinese_number::{
    ChineseCase, ChineseCountMethod, ChineseToNumber, ChineseToNumberError, ChineseVariant,
    NumberToChineseError, ROOM_BYTES, Whole, put_chinese, put_chinese_naive,
};

/// The way in which a number is written: as plain digits, or with the units of a method.
#[derive(Clone, Copy)]
pub enum Way {
    Digits,
    Units(ChineseCountMethod),
}

/// The way with this name; the programs use these names.
pub fn way_named(name: &[u8]) -> Option<Way>
    ensures { result ≡ way_named name.now }
{
    if name == b"naive".as_slice() {
        Some(Way::Digits)
    } else if name == b"low".as_slice() {
        Some(Way::Units(ChineseCountMethod::Low))
    } else if name == b"ten_thousand".as_slice() {
        Some(Way::Units(ChineseCountMethod::TenThousand))
    } else if name == b"middle".as_slice() {
        Some(Way::Units(ChineseCountMethod::Middle))
    } else if name == b"high".as_slice() {
        Some(Way::Units(ChineseCountMethod::High))
    } else {
        None
    }
}

/// Reads a text in the given way as a number of a type.
pub fn read_by<T: Whole>(way: Way, text: &str) -> Result<T, ChineseToNumberError>
    ensures { ReadsBy T.kind way text.now (answer_of T.number result) }
{
    match way {
        Way::Digits => text.to_number_naive(),
        Way::Units(method) => text.to_number(method),
    }
}

/// Writes a number in the given way at the end of a buffer, and returns its text. It allocates no
/// memory, so the error is never `OutOfMemory`.
#[inline(always)]
pub fn put_by<'a, T: Whole>(
    room: &'a mut [u8; ROOM_BYTES],
    way: Way,
    script: ChineseVariant,
    case: ChineseCase,
    value: T,
) -> Result<&'a str, NumberToChineseError>
    ensures text { MatchResult result
        (λ text. IsText text.now (written_by way script case (T.number value)))
        (λ error. Explains error (written_by way script case (T.number value))) }
    ensures bound { IfOk result (λ text. length text.now ≤ 234) }
{
    match way {
        Way::Digits => Ok(put_chinese_naive(room, script, case, value)),
        Way::Units(method) => put_chinese(room, script, case, method, value),
    }
}

/// A number as its sign and its magnitude; 0 may have a minus sign.
#[derive(Clone, Copy)]
pub struct SignedMagnitude {
    pub negative: bool,
    pub magnitude: u128,
}

impl SignedMagnitude {
    /// The sign and magnitude of a number of any type.
    pub fn of<T: Whole>(value: T) -> Self
        ensures number { stands_for result ≡ T.number value }
        ensures held { IsTrue (holds T.kind (stands_for result)) }
    {
        SignedMagnitude {
            negative: value.is_negative(),
            magnitude: value.magnitude(),
        }
    }

    /// Whether the number is below zero.
    pub fn is_negative(self) -> bool
        ensures { IsTrue result ↔ (stands_for self <ℤ pos 0) }
    {
        self.negative && self.magnitude > 0
    }
}
