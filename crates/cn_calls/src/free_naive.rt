// Made by checks/calls.py.
// The printer functions of plain digits, one for each integer type.
ghost use Rattle.std.specs.Prelude.{IfOk, pos};
ghost use Rattle.cn_core.specs.Printing.{naive_text};
ghost use Rattle.cn_spell.specs.Writes.{Writes, most_plain_bytes};

use cn_core::{ChineseCase, ChineseVariant};
use cn_spell::print_naive;
use std::alloc::{AllocError, Global};

/// Writes a `u8` digit by digit: 120 is `一二零`
/// in traditional script and lower case.
///
/// The only error is `AllocError`, if the memory cannot be allocated.
pub fn from_u8_to_chinese_naive(
    alloc: Global,
    variant: ChineseVariant,
    case: ChineseCase,
    value: u8,
) -> Result<String, AllocError>
    ensures { IfOk result (Writes (naive_text variant case (pos value)) most_plain_bytes) }
{
    print_naive::<u8>(alloc, variant, case, value)
}

/// Writes a `u16` digit by digit: 120 is `一二零`
/// in traditional script and lower case.
///
/// The only error is `AllocError`, if the memory cannot be allocated.
pub fn from_u16_to_chinese_naive(
    alloc: Global,
    variant: ChineseVariant,
    case: ChineseCase,
    value: u16,
) -> Result<String, AllocError>
    ensures { IfOk result (Writes (naive_text variant case (pos value)) most_plain_bytes) }
{
    print_naive::<u16>(alloc, variant, case, value)
}

/// Writes a `u32` digit by digit: 120 is `一二零`
/// in traditional script and lower case.
///
/// The only error is `AllocError`, if the memory cannot be allocated.
pub fn from_u32_to_chinese_naive(
    alloc: Global,
    variant: ChineseVariant,
    case: ChineseCase,
    value: u32,
) -> Result<String, AllocError>
    ensures { IfOk result (Writes (naive_text variant case (pos value)) most_plain_bytes) }
{
    print_naive::<u32>(alloc, variant, case, value)
}

/// Writes a `u64` digit by digit: 120 is `一二零`
/// in traditional script and lower case.
///
/// The only error is `AllocError`, if the memory cannot be allocated.
pub fn from_u64_to_chinese_naive(
    alloc: Global,
    variant: ChineseVariant,
    case: ChineseCase,
    value: u64,
) -> Result<String, AllocError>
    ensures { IfOk result (Writes (naive_text variant case (pos value)) most_plain_bytes) }
{
    print_naive::<u64>(alloc, variant, case, value)
}

/// Writes a `u128` digit by digit: 120 is `一二零`
/// in traditional script and lower case.
///
/// The only error is `AllocError`, if the memory cannot be allocated.
pub fn from_u128_to_chinese_naive(
    alloc: Global,
    variant: ChineseVariant,
    case: ChineseCase,
    value: u128,
) -> Result<String, AllocError>
    ensures { IfOk result (Writes (naive_text variant case (pos value)) most_plain_bytes) }
{
    print_naive::<u128>(alloc, variant, case, value)
}

/// Writes a `usize` digit by digit: 120 is `一二零`
/// in traditional script and lower case.
///
/// The only error is `AllocError`, if the memory cannot be allocated.
pub fn from_usize_to_chinese_naive(
    alloc: Global,
    variant: ChineseVariant,
    case: ChineseCase,
    value: usize,
) -> Result<String, AllocError>
    ensures { IfOk result (Writes (naive_text variant case (pos value)) most_plain_bytes) }
{
    print_naive::<usize>(alloc, variant, case, value)
}

/// Writes an `i8` digit by digit: -120 is `負一二零`
/// in traditional script and lower case.
///
/// The only error is `AllocError`, if the memory cannot be allocated.
pub fn from_i8_to_chinese_naive(
    alloc: Global,
    variant: ChineseVariant,
    case: ChineseCase,
    value: i8,
) -> Result<String, AllocError>
    ensures { IfOk result (Writes (naive_text variant case value) most_plain_bytes) }
{
    print_naive::<i8>(alloc, variant, case, value)
}

/// Writes an `i16` digit by digit: -120 is `負一二零`
/// in traditional script and lower case.
///
/// The only error is `AllocError`, if the memory cannot be allocated.
pub fn from_i16_to_chinese_naive(
    alloc: Global,
    variant: ChineseVariant,
    case: ChineseCase,
    value: i16,
) -> Result<String, AllocError>
    ensures { IfOk result (Writes (naive_text variant case value) most_plain_bytes) }
{
    print_naive::<i16>(alloc, variant, case, value)
}

/// Writes an `i32` digit by digit: -120 is `負一二零`
/// in traditional script and lower case.
///
/// The only error is `AllocError`, if the memory cannot be allocated.
pub fn from_i32_to_chinese_naive(
    alloc: Global,
    variant: ChineseVariant,
    case: ChineseCase,
    value: i32,
) -> Result<String, AllocError>
    ensures { IfOk result (Writes (naive_text variant case value) most_plain_bytes) }
{
    print_naive::<i32>(alloc, variant, case, value)
}

/// Writes an `i64` digit by digit: -120 is `負一二零`
/// in traditional script and lower case.
///
/// The only error is `AllocError`, if the memory cannot be allocated.
pub fn from_i64_to_chinese_naive(
    alloc: Global,
    variant: ChineseVariant,
    case: ChineseCase,
    value: i64,
) -> Result<String, AllocError>
    ensures { IfOk result (Writes (naive_text variant case value) most_plain_bytes) }
{
    print_naive::<i64>(alloc, variant, case, value)
}

/// Writes an `i128` digit by digit: -120 is `負一二零`
/// in traditional script and lower case.
///
/// The only error is `AllocError`, if the memory cannot be allocated.
pub fn from_i128_to_chinese_naive(
    alloc: Global,
    variant: ChineseVariant,
    case: ChineseCase,
    value: i128,
) -> Result<String, AllocError>
    ensures { IfOk result (Writes (naive_text variant case value) most_plain_bytes) }
{
    print_naive::<i128>(alloc, variant, case, value)
}

/// Writes an `isize` digit by digit: -120 is `負一二零`
/// in traditional script and lower case.
///
/// The only error is `AllocError`, if the memory cannot be allocated.
pub fn from_isize_to_chinese_naive(
    alloc: Global,
    variant: ChineseVariant,
    case: ChineseCase,
    value: isize,
) -> Result<String, AllocError>
    ensures { IfOk result (Writes (naive_text variant case value) most_plain_bytes) }
{
    print_naive::<isize>(alloc, variant, case, value)
}
