// The integer types and their ranges.
ghost use Rattle.std.specs.Prelude.{◌≡◌, pos, neg_ℤ, IsTrue};
ghost use Rattle.chinese_number.specs.Whole.{holds};
ghost use Rattle.cn_dynamic.specs.IntegerTypes.{the_kind};
ghost use Rattle.cn_dynamic.specs.Ways.{stands_for};

use crate::SignedMagnitude;

/// An integer type; `usize` is `u64` and `isize` is `i64`.
#[derive(Clone, Copy)]
pub enum IntegerType {
    U8,
    U16,
    U32,
    U64,
    U128,
    I8,
    I16,
    I32,
    I64,
    I128,
}

// The greatest magnitudes that the types hold above zero and below zero, in the order of the types.
// With a `match`, reading a number takes 4 more instructions.
static MOST: [(u128, u128); 10] = [
    (u8::MAX as u128, 0),
    (u16::MAX as u128, 0),
    (u32::MAX as u128, 0),
    (u64::MAX as u128, 0),
    (u128::MAX, 0),
    (i8::MAX as u128, i8::MAX as u128 + 1),
    (i16::MAX as u128, i16::MAX as u128 + 1),
    (i32::MAX as u128, i32::MAX as u128 + 1),
    (i64::MAX as u128, i64::MAX as u128 + 1),
    (i128::MAX as u128, i128::MAX as u128 + 1),
];

impl IntegerType {
    /// Whether the type is signed.
    pub fn is_signed(self) -> bool
        ensures { result ≡ (the_kind self).signed }
    {
        match self {
            IntegerType::U8
            | IntegerType::U16
            | IntegerType::U32
            | IntegerType::U64
            | IntegerType::U128 => false,
            IntegerType::I8
            | IntegerType::I16
            | IntegerType::I32
            | IntegerType::I64
            | IntegerType::I128 => true,
        }
    }

    // The greatest magnitudes that the type holds above zero and below zero.
    fn most(self) -> (u128, u128)
        ensures above { (the_kind self).greatest ≡ pos result.0 }
        ensures below { (the_kind self).least ≡ neg_ℤ (pos result.1) }
    {
        MOST[self as usize]
    }

    /// The greatest number that the type holds.
    pub fn greatest(self) -> u128
        ensures { (the_kind self).greatest ≡ pos result }
    {
        self.most().0
    }

    /// Whether the type holds a number.
    pub fn holds(self, number: SignedMagnitude) -> bool
        ensures number { result ≡ holds (the_kind self) (stands_for number) }
        ensures zero { IsTrue (holds (the_kind self) (pos 0)) }
    {
        let (above, below) = self.most();
        let most = if number.negative { below } else { above };
        number.magnitude <= most
    }
}
