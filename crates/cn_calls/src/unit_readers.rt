// Made by checks/calls.py.
// The unit readers of the twelve types. Each calls the generic reader. Those of 8 and 16 bits read
// with `Low`.
ghost use Rattle.std.specs.Prelude.{pos};
ghost use Rattle.cn_core.specs.declared.method.ChineseCountMethod.TheVariants.{Low, TenThousand, Middle, High};
ghost use Rattle.cn_core.specs.Reading.{Reads};
ghost use Rattle.cn_core.specs.Whole.{signed_kind, unsigned_kind};
ghost use Rattle.cn_judge.specs.Answer.{answer_of};

use crate::read_number;
use cn_core::ChineseCountMethod;
use cn_judge::ChineseToNumberError;

/// Reads a numeral with `Low` as a `u8`: `一百二` is 120.
///
/// [`ChineseToNumberError`] says when each error comes.
pub fn from_chinese_to_u8(text: &str) -> Result<u8, ChineseToNumberError>
    ensures { Reads (unsigned_kind 8) Low text.now (answer_of pos result) }
{
    read_number::<u8>(ChineseCountMethod::Low, text)
}

/// Reads a numeral with `Low` as a `u16`: `一百二` is 120.
///
/// [`ChineseToNumberError`] says when each error comes.
pub fn from_chinese_to_u16(text: &str) -> Result<u16, ChineseToNumberError>
    ensures { Reads (unsigned_kind 16) Low text.now (answer_of pos result) }
{
    read_number::<u16>(ChineseCountMethod::Low, text)
}

/// Reads a numeral with `Low` as a `u32`: `一億二` is 120_000.
///
/// [`ChineseToNumberError`] says when each error comes.
pub fn from_chinese_to_u32_low(text: &str) -> Result<u32, ChineseToNumberError>
    ensures { Reads (unsigned_kind 32) Low text.now (answer_of pos result) }
{
    read_number::<u32>(ChineseCountMethod::Low, text)
}

/// Reads a numeral with `TenThousand` as a `u32`: `一億二` is 120_000_000.
///
/// [`ChineseToNumberError`] says when each error comes.
pub fn from_chinese_to_u32_ten_thousand(text: &str) -> Result<u32, ChineseToNumberError>
    ensures { Reads (unsigned_kind 32) TenThousand text.now (answer_of pos result) }
{
    read_number::<u32>(ChineseCountMethod::TenThousand, text)
}

/// Reads a numeral with `Middle` as a `u32`: `一億二` is 120_000_000.
///
/// [`ChineseToNumberError`] says when each error comes.
pub fn from_chinese_to_u32_middle(text: &str) -> Result<u32, ChineseToNumberError>
    ensures { Reads (unsigned_kind 32) Middle text.now (answer_of pos result) }
{
    read_number::<u32>(ChineseCountMethod::Middle, text)
}

/// Reads a numeral with `High` as a `u32`: `一億二` is 120_000_000.
///
/// [`ChineseToNumberError`] says when each error comes.
pub fn from_chinese_to_u32_high(text: &str) -> Result<u32, ChineseToNumberError>
    ensures { Reads (unsigned_kind 32) High text.now (answer_of pos result) }
{
    read_number::<u32>(ChineseCountMethod::High, text)
}

/// Reads a numeral with `Low` as a `u64`: `一億二` is 120_000.
///
/// [`ChineseToNumberError`] says when each error comes.
pub fn from_chinese_to_u64_low(text: &str) -> Result<u64, ChineseToNumberError>
    ensures { Reads (unsigned_kind 64) Low text.now (answer_of pos result) }
{
    read_number::<u64>(ChineseCountMethod::Low, text)
}

/// Reads a numeral with `TenThousand` as a `u64`: `一億二` is 120_000_000.
///
/// [`ChineseToNumberError`] says when each error comes.
pub fn from_chinese_to_u64_ten_thousand(text: &str) -> Result<u64, ChineseToNumberError>
    ensures { Reads (unsigned_kind 64) TenThousand text.now (answer_of pos result) }
{
    read_number::<u64>(ChineseCountMethod::TenThousand, text)
}

/// Reads a numeral with `Middle` as a `u64`: `一億二` is 120_000_000.
///
/// [`ChineseToNumberError`] says when each error comes.
pub fn from_chinese_to_u64_middle(text: &str) -> Result<u64, ChineseToNumberError>
    ensures { Reads (unsigned_kind 64) Middle text.now (answer_of pos result) }
{
    read_number::<u64>(ChineseCountMethod::Middle, text)
}

/// Reads a numeral with `High` as a `u64`: `一億二` is 120_000_000.
///
/// [`ChineseToNumberError`] says when each error comes.
pub fn from_chinese_to_u64_high(text: &str) -> Result<u64, ChineseToNumberError>
    ensures { Reads (unsigned_kind 64) High text.now (answer_of pos result) }
{
    read_number::<u64>(ChineseCountMethod::High, text)
}

/// Reads a numeral with `Low` as a `u128`: `一億二` is 120_000.
///
/// [`ChineseToNumberError`] says when each error comes.
pub fn from_chinese_to_u128_low(text: &str) -> Result<u128, ChineseToNumberError>
    ensures { Reads (unsigned_kind 128) Low text.now (answer_of pos result) }
{
    read_number::<u128>(ChineseCountMethod::Low, text)
}

/// Reads a numeral with `TenThousand` as a `u128`: `一億二` is 120_000_000.
///
/// [`ChineseToNumberError`] says when each error comes.
pub fn from_chinese_to_u128_ten_thousand(text: &str) -> Result<u128, ChineseToNumberError>
    ensures { Reads (unsigned_kind 128) TenThousand text.now (answer_of pos result) }
{
    read_number::<u128>(ChineseCountMethod::TenThousand, text)
}

/// Reads a numeral with `Middle` as a `u128`: `一億二` is 120_000_000.
///
/// [`ChineseToNumberError`] says when each error comes.
pub fn from_chinese_to_u128_middle(text: &str) -> Result<u128, ChineseToNumberError>
    ensures { Reads (unsigned_kind 128) Middle text.now (answer_of pos result) }
{
    read_number::<u128>(ChineseCountMethod::Middle, text)
}

/// Reads a numeral with `High` as a `u128`: `一億二` is 120_000_000.
///
/// [`ChineseToNumberError`] says when each error comes.
pub fn from_chinese_to_u128_high(text: &str) -> Result<u128, ChineseToNumberError>
    ensures { Reads (unsigned_kind 128) High text.now (answer_of pos result) }
{
    read_number::<u128>(ChineseCountMethod::High, text)
}

/// Reads a numeral with `Low` as a `usize`: `一億二` is 120_000.
///
/// [`ChineseToNumberError`] says when each error comes.
pub fn from_chinese_to_usize_low(text: &str) -> Result<usize, ChineseToNumberError>
    ensures { Reads (unsigned_kind 64) Low text.now (answer_of pos result) }
{
    read_number::<usize>(ChineseCountMethod::Low, text)
}

/// Reads a numeral with `TenThousand` as a `usize`: `一億二` is 120_000_000.
///
/// [`ChineseToNumberError`] says when each error comes.
pub fn from_chinese_to_usize_ten_thousand(text: &str) -> Result<usize, ChineseToNumberError>
    ensures { Reads (unsigned_kind 64) TenThousand text.now (answer_of pos result) }
{
    read_number::<usize>(ChineseCountMethod::TenThousand, text)
}

/// Reads a numeral with `Middle` as a `usize`: `一億二` is 120_000_000.
///
/// [`ChineseToNumberError`] says when each error comes.
pub fn from_chinese_to_usize_middle(text: &str) -> Result<usize, ChineseToNumberError>
    ensures { Reads (unsigned_kind 64) Middle text.now (answer_of pos result) }
{
    read_number::<usize>(ChineseCountMethod::Middle, text)
}

/// Reads a numeral with `High` as a `usize`: `一億二` is 120_000_000.
///
/// [`ChineseToNumberError`] says when each error comes.
pub fn from_chinese_to_usize_high(text: &str) -> Result<usize, ChineseToNumberError>
    ensures { Reads (unsigned_kind 64) High text.now (answer_of pos result) }
{
    read_number::<usize>(ChineseCountMethod::High, text)
}

/// Reads a numeral with `Low` as an `i8`: `負一百二` is -120.
///
/// [`ChineseToNumberError`] says when each error comes.
pub fn from_chinese_to_i8(text: &str) -> Result<i8, ChineseToNumberError>
    ensures { Reads (signed_kind 8) Low text.now (answer_of (λ z. z) result) }
{
    read_number::<i8>(ChineseCountMethod::Low, text)
}

/// Reads a numeral with `Low` as an `i16`: `負一百二` is -120.
///
/// [`ChineseToNumberError`] says when each error comes.
pub fn from_chinese_to_i16(text: &str) -> Result<i16, ChineseToNumberError>
    ensures { Reads (signed_kind 16) Low text.now (answer_of (λ z. z) result) }
{
    read_number::<i16>(ChineseCountMethod::Low, text)
}

/// Reads a numeral with `Low` as an `i32`: `負一億二` is -120_000.
///
/// [`ChineseToNumberError`] says when each error comes.
pub fn from_chinese_to_i32_low(text: &str) -> Result<i32, ChineseToNumberError>
    ensures { Reads (signed_kind 32) Low text.now (answer_of (λ z. z) result) }
{
    read_number::<i32>(ChineseCountMethod::Low, text)
}

/// Reads a numeral with `TenThousand` as an `i32`: `負一億二` is -120_000_000.
///
/// [`ChineseToNumberError`] says when each error comes.
pub fn from_chinese_to_i32_ten_thousand(text: &str) -> Result<i32, ChineseToNumberError>
    ensures { Reads (signed_kind 32) TenThousand text.now (answer_of (λ z. z) result) }
{
    read_number::<i32>(ChineseCountMethod::TenThousand, text)
}

/// Reads a numeral with `Middle` as an `i32`: `負一億二` is -120_000_000.
///
/// [`ChineseToNumberError`] says when each error comes.
pub fn from_chinese_to_i32_middle(text: &str) -> Result<i32, ChineseToNumberError>
    ensures { Reads (signed_kind 32) Middle text.now (answer_of (λ z. z) result) }
{
    read_number::<i32>(ChineseCountMethod::Middle, text)
}

/// Reads a numeral with `High` as an `i32`: `負一億二` is -120_000_000.
///
/// [`ChineseToNumberError`] says when each error comes.
pub fn from_chinese_to_i32_high(text: &str) -> Result<i32, ChineseToNumberError>
    ensures { Reads (signed_kind 32) High text.now (answer_of (λ z. z) result) }
{
    read_number::<i32>(ChineseCountMethod::High, text)
}

/// Reads a numeral with `Low` as an `i64`: `負一億二` is -120_000.
///
/// [`ChineseToNumberError`] says when each error comes.
pub fn from_chinese_to_i64_low(text: &str) -> Result<i64, ChineseToNumberError>
    ensures { Reads (signed_kind 64) Low text.now (answer_of (λ z. z) result) }
{
    read_number::<i64>(ChineseCountMethod::Low, text)
}

/// Reads a numeral with `TenThousand` as an `i64`: `負一億二` is -120_000_000.
///
/// [`ChineseToNumberError`] says when each error comes.
pub fn from_chinese_to_i64_ten_thousand(text: &str) -> Result<i64, ChineseToNumberError>
    ensures { Reads (signed_kind 64) TenThousand text.now (answer_of (λ z. z) result) }
{
    read_number::<i64>(ChineseCountMethod::TenThousand, text)
}

/// Reads a numeral with `Middle` as an `i64`: `負一億二` is -120_000_000.
///
/// [`ChineseToNumberError`] says when each error comes.
pub fn from_chinese_to_i64_middle(text: &str) -> Result<i64, ChineseToNumberError>
    ensures { Reads (signed_kind 64) Middle text.now (answer_of (λ z. z) result) }
{
    read_number::<i64>(ChineseCountMethod::Middle, text)
}

/// Reads a numeral with `High` as an `i64`: `負一億二` is -120_000_000.
///
/// [`ChineseToNumberError`] says when each error comes.
pub fn from_chinese_to_i64_high(text: &str) -> Result<i64, ChineseToNumberError>
    ensures { Reads (signed_kind 64) High text.now (answer_of (λ z. z) result) }
{
    read_number::<i64>(ChineseCountMethod::High, text)
}

/// Reads a numeral with `Low` as an `i128`: `負一億二` is -120_000.
///
/// [`ChineseToNumberError`] says when each error comes.
pub fn from_chinese_to_i128_low(text: &str) -> Result<i128, ChineseToNumberError>
    ensures { Reads (signed_kind 128) Low text.now (answer_of (λ z. z) result) }
{
    read_number::<i128>(ChineseCountMethod::Low, text)
}

/// Reads a numeral with `TenThousand` as an `i128`: `負一億二` is -120_000_000.
///
/// [`ChineseToNumberError`] says when each error comes.
pub fn from_chinese_to_i128_ten_thousand(text: &str) -> Result<i128, ChineseToNumberError>
    ensures { Reads (signed_kind 128) TenThousand text.now (answer_of (λ z. z) result) }
{
    read_number::<i128>(ChineseCountMethod::TenThousand, text)
}

/// Reads a numeral with `Middle` as an `i128`: `負一億二` is -120_000_000.
///
/// [`ChineseToNumberError`] says when each error comes.
pub fn from_chinese_to_i128_middle(text: &str) -> Result<i128, ChineseToNumberError>
    ensures { Reads (signed_kind 128) Middle text.now (answer_of (λ z. z) result) }
{
    read_number::<i128>(ChineseCountMethod::Middle, text)
}

/// Reads a numeral with `High` as an `i128`: `負一億二` is -120_000_000.
///
/// [`ChineseToNumberError`] says when each error comes.
pub fn from_chinese_to_i128_high(text: &str) -> Result<i128, ChineseToNumberError>
    ensures { Reads (signed_kind 128) High text.now (answer_of (λ z. z) result) }
{
    read_number::<i128>(ChineseCountMethod::High, text)
}

/// Reads a numeral with `Low` as an `isize`: `負一億二` is -120_000.
///
/// [`ChineseToNumberError`] says when each error comes.
pub fn from_chinese_to_isize_low(text: &str) -> Result<isize, ChineseToNumberError>
    ensures { Reads (signed_kind 64) Low text.now (answer_of (λ z. z) result) }
{
    read_number::<isize>(ChineseCountMethod::Low, text)
}

/// Reads a numeral with `TenThousand` as an `isize`: `負一億二` is -120_000_000.
///
/// [`ChineseToNumberError`] says when each error comes.
pub fn from_chinese_to_isize_ten_thousand(text: &str) -> Result<isize, ChineseToNumberError>
    ensures { Reads (signed_kind 64) TenThousand text.now (answer_of (λ z. z) result) }
{
    read_number::<isize>(ChineseCountMethod::TenThousand, text)
}

/// Reads a numeral with `Middle` as an `isize`: `負一億二` is -120_000_000.
///
/// [`ChineseToNumberError`] says when each error comes.
pub fn from_chinese_to_isize_middle(text: &str) -> Result<isize, ChineseToNumberError>
    ensures { Reads (signed_kind 64) Middle text.now (answer_of (λ z. z) result) }
{
    read_number::<isize>(ChineseCountMethod::Middle, text)
}

/// Reads a numeral with `High` as an `isize`: `負一億二` is -120_000_000.
///
/// [`ChineseToNumberError`] says when each error comes.
pub fn from_chinese_to_isize_high(text: &str) -> Result<isize, ChineseToNumberError>
    ensures { Reads (signed_kind 64) High text.now (answer_of (λ z. z) result) }
{
    read_number::<isize>(ChineseCountMethod::High, text)
}
