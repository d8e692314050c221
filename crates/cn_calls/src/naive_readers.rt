// Made by checks/calls.py.
// The naive readers of the twelve types. Each calls the generic reader.
ghost use Rattle.std.specs.Prelude.{◌≡◌, pos};
ghost use Rattle.cn_core.specs.Reading.{naive_reading};
ghost use Rattle.cn_core.specs.Whole.{signed_kind, unsigned_kind};
ghost use Rattle.cn_judge.specs.Answer.{answer_of};

use cn_judge::{ChineseToNumberError, read_naive};

/// Reads plain digits as a `u8`: `零一二` is 12.
///
/// [`ChineseToNumberError`] says when each error comes.
pub fn from_chinese_to_u8_naive(text: &str) -> Result<u8, ChineseToNumberError>
    ensures { answer_of pos result ≡ naive_reading (unsigned_kind 8) text.now }
{
    read_naive::<u8>(text)
}

/// Reads plain digits as a `u16`: `零一二` is 12.
///
/// [`ChineseToNumberError`] says when each error comes.
pub fn from_chinese_to_u16_naive(text: &str) -> Result<u16, ChineseToNumberError>
    ensures { answer_of pos result ≡ naive_reading (unsigned_kind 16) text.now }
{
    read_naive::<u16>(text)
}

/// Reads plain digits as a `u32`: `零一二` is 12.
///
/// [`ChineseToNumberError`] says when each error comes.
pub fn from_chinese_to_u32_naive(text: &str) -> Result<u32, ChineseToNumberError>
    ensures { answer_of pos result ≡ naive_reading (unsigned_kind 32) text.now }
{
    read_naive::<u32>(text)
}

/// Reads plain digits as a `u64`: `零一二` is 12.
///
/// [`ChineseToNumberError`] says when each error comes.
pub fn from_chinese_to_u64_naive(text: &str) -> Result<u64, ChineseToNumberError>
    ensures { answer_of pos result ≡ naive_reading (unsigned_kind 64) text.now }
{
    read_naive::<u64>(text)
}

/// Reads plain digits as a `u128`: `零一二` is 12.
///
/// [`ChineseToNumberError`] says when each error comes.
pub fn from_chinese_to_u128_naive(text: &str) -> Result<u128, ChineseToNumberError>
    ensures { answer_of pos result ≡ naive_reading (unsigned_kind 128) text.now }
{
    read_naive::<u128>(text)
}

/// Reads plain digits as a `usize`: `零一二` is 12.
///
/// [`ChineseToNumberError`] says when each error comes.
pub fn from_chinese_to_usize_naive(text: &str) -> Result<usize, ChineseToNumberError>
    ensures { answer_of pos result ≡ naive_reading (unsigned_kind 64) text.now }
{
    read_naive::<usize>(text)
}

/// Reads plain digits after at most one sign as an `i8`: `負一二` is -12.
///
/// [`ChineseToNumberError`] says when each error comes.
pub fn from_chinese_to_i8_naive(text: &str) -> Result<i8, ChineseToNumberError>
    ensures { answer_of (λ z. z) result ≡ naive_reading (signed_kind 8) text.now }
{
    read_naive::<i8>(text)
}

/// Reads plain digits after at most one sign as an `i16`: `負一二` is -12.
///
/// [`ChineseToNumberError`] says when each error comes.
pub fn from_chinese_to_i16_naive(text: &str) -> Result<i16, ChineseToNumberError>
    ensures { answer_of (λ z. z) result ≡ naive_reading (signed_kind 16) text.now }
{
    read_naive::<i16>(text)
}

/// Reads plain digits after at most one sign as an `i32`: `負一二` is -12.
///
/// [`ChineseToNumberError`] says when each error comes.
pub fn from_chinese_to_i32_naive(text: &str) -> Result<i32, ChineseToNumberError>
    ensures { answer_of (λ z. z) result ≡ naive_reading (signed_kind 32) text.now }
{
    read_naive::<i32>(text)
}

/// Reads plain digits after at most one sign as an `i64`: `負一二` is -12.
///
/// [`ChineseToNumberError`] says when each error comes.
pub fn from_chinese_to_i64_naive(text: &str) -> Result<i64, ChineseToNumberError>
    ensures { answer_of (λ z. z) result ≡ naive_reading (signed_kind 64) text.now }
{
    read_naive::<i64>(text)
}

/// Reads plain digits after at most one sign as an `i128`: `負一二` is -12.
///
/// [`ChineseToNumberError`] says when each error comes.
pub fn from_chinese_to_i128_naive(text: &str) -> Result<i128, ChineseToNumberError>
    ensures { answer_of (λ z. z) result ≡ naive_reading (signed_kind 128) text.now }
{
    read_naive::<i128>(text)
}

/// Reads plain digits after at most one sign as an `isize`: `負一二` is -12.
///
/// [`ChineseToNumberError`] says when each error comes.
pub fn from_chinese_to_isize_naive(text: &str) -> Result<isize, ChineseToNumberError>
    ensures { answer_of (λ z. z) result ≡ naive_reading (signed_kind 64) text.now }
{
    read_naive::<isize>(text)
}
