// Made by checks/calls.py.
// The printer functions with `Low`, one for each integer type.
//
// The methods write the same text for numbers below 10^5, and the types of 8 and 16 bits hold only
// such numbers. So a body that prints with another method is not wrong for these types. They print
// with `Low`, as their contracts say.
ghost use Rattle.std.specs.Prelude.{IfOk, pos};
ghost use Rattle.cn_core.specs.declared.method.ChineseCountMethod.TheVariants.{Low};
ghost use Rattle.cn_core.specs.Printing.{spelled_text};
ghost use Rattle.cn_spell.specs.Prints.{Prints, most_bytes};
ghost use Rattle.cn_spell.specs.Writes.{Writes};

use cn_core::{ChineseCase, ChineseCountMethod, ChineseVariant};
use cn_spell::{NumberToChineseError, print_by_units, print_or_refuse};
use std::alloc::{AllocError, Global};

/// Writes a `u8` with `Low`: 12 is `十二`
/// in traditional script and lower case.
///
/// The only error is `AllocError`, if the memory cannot be allocated.
pub fn from_u8_to_chinese(
    alloc: Global,
    variant: ChineseVariant,
    case: ChineseCase,
    value: u8,
) -> Result<String, AllocError>
    ensures { IfOk result (Writes (spelled_text variant case Low (pos value))
        (most_bytes Low)) }
{
    print_by_units::<u8>(alloc, variant, case, ChineseCountMethod::Low, value)
}

/// Writes a `u16` with `Low`: 12 is `十二`
/// in traditional script and lower case.
///
/// The only error is `AllocError`, if the memory cannot be allocated.
pub fn from_u16_to_chinese(
    alloc: Global,
    variant: ChineseVariant,
    case: ChineseCase,
    value: u16,
) -> Result<String, AllocError>
    ensures { IfOk result (Writes (spelled_text variant case Low (pos value))
        (most_bytes Low)) }
{
    print_by_units::<u16>(alloc, variant, case, ChineseCountMethod::Low, value)
}

/// Writes a `u32` with `Low`: 100_000 is `一億`
/// in traditional script and lower case.
///
/// The only error is `AllocError`, if the memory cannot be allocated.
pub fn from_u32_to_chinese_low(
    alloc: Global,
    variant: ChineseVariant,
    case: ChineseCase,
    value: u32,
) -> Result<String, AllocError>
    ensures { IfOk result (Writes (spelled_text variant case Low (pos value))
        (most_bytes Low)) }
{
    print_by_units::<u32>(alloc, variant, case, ChineseCountMethod::Low, value)
}

/// Writes a `u64` with `Low`: 100_000 is `一億`
/// in traditional script and lower case.
///
/// Returns `Overflow` for a number of 10^16 or more, before memory is allocated, and `OutOfMemory`
/// if the memory cannot be allocated.
pub fn from_u64_to_chinese_low(
    alloc: Global,
    variant: ChineseVariant,
    case: ChineseCase,
    value: u64,
) -> Result<String, NumberToChineseError>
    ensures { Prints variant case Low (pos value) result }
{
    print_or_refuse::<u64>(alloc, variant, case, ChineseCountMethod::Low, value)
}

/// Writes a `u128` with `Low`: 100_000 is `一億`
/// in traditional script and lower case.
///
/// Returns `Overflow` for a number of 10^16 or more, before memory is allocated, and `OutOfMemory`
/// if the memory cannot be allocated.
pub fn from_u128_to_chinese_low(
    alloc: Global,
    variant: ChineseVariant,
    case: ChineseCase,
    value: u128,
) -> Result<String, NumberToChineseError>
    ensures { Prints variant case Low (pos value) result }
{
    print_or_refuse::<u128>(alloc, variant, case, ChineseCountMethod::Low, value)
}

/// Writes a `usize` with `Low`: 100_000 is `一億`
/// in traditional script and lower case.
///
/// Returns `Overflow` for a number of 10^16 or more, before memory is allocated, and `OutOfMemory`
/// if the memory cannot be allocated.
pub fn from_usize_to_chinese_low(
    alloc: Global,
    variant: ChineseVariant,
    case: ChineseCase,
    value: usize,
) -> Result<String, NumberToChineseError>
    ensures { Prints variant case Low (pos value) result }
{
    print_or_refuse::<usize>(alloc, variant, case, ChineseCountMethod::Low, value)
}

/// Writes an `i8` with `Low`: -12 is `負十二`
/// in traditional script and lower case.
///
/// The only error is `AllocError`, if the memory cannot be allocated.
pub fn from_i8_to_chinese(
    alloc: Global,
    variant: ChineseVariant,
    case: ChineseCase,
    value: i8,
) -> Result<String, AllocError>
    ensures { IfOk result (Writes (spelled_text variant case Low value)
        (most_bytes Low)) }
{
    print_by_units::<i8>(alloc, variant, case, ChineseCountMethod::Low, value)
}

/// Writes an `i16` with `Low`: -12 is `負十二`
/// in traditional script and lower case.
///
/// The only error is `AllocError`, if the memory cannot be allocated.
pub fn from_i16_to_chinese(
    alloc: Global,
    variant: ChineseVariant,
    case: ChineseCase,
    value: i16,
) -> Result<String, AllocError>
    ensures { IfOk result (Writes (spelled_text variant case Low value)
        (most_bytes Low)) }
{
    print_by_units::<i16>(alloc, variant, case, ChineseCountMethod::Low, value)
}

/// Writes an `i32` with `Low`: -100_000 is `負一億`
/// in traditional script and lower case.
///
/// The only error is `AllocError`, if the memory cannot be allocated.
pub fn from_i32_to_chinese_low(
    alloc: Global,
    variant: ChineseVariant,
    case: ChineseCase,
    value: i32,
) -> Result<String, AllocError>
    ensures { IfOk result (Writes (spelled_text variant case Low value)
        (most_bytes Low)) }
{
    print_by_units::<i32>(alloc, variant, case, ChineseCountMethod::Low, value)
}

/// Writes an `i64` with `Low`: -100_000 is `負一億`
/// in traditional script and lower case.
///
/// Returns `Overflow` for a number of 10^16 or more and `Underflow` for one of -10^16 or less,
/// before memory is allocated, and `OutOfMemory` if the memory cannot be allocated.
pub fn from_i64_to_chinese_low(
    alloc: Global,
    variant: ChineseVariant,
    case: ChineseCase,
    value: i64,
) -> Result<String, NumberToChineseError>
    ensures { Prints variant case Low value result }
{
    print_or_refuse::<i64>(alloc, variant, case, ChineseCountMethod::Low, value)
}

/// Writes an `i128` with `Low`: -100_000 is `負一億`
/// in traditional script and lower case.
///
/// Returns `Overflow` for a number of 10^16 or more and `Underflow` for one of -10^16 or less,
/// before memory is allocated, and `OutOfMemory` if the memory cannot be allocated.
pub fn from_i128_to_chinese_low(
    alloc: Global,
    variant: ChineseVariant,
    case: ChineseCase,
    value: i128,
) -> Result<String, NumberToChineseError>
    ensures { Prints variant case Low value result }
{
    print_or_refuse::<i128>(alloc, variant, case, ChineseCountMethod::Low, value)
}

/// Writes an `isize` with `Low`: -100_000 is `負一億`
/// in traditional script and lower case.
///
/// Returns `Overflow` for a number of 10^16 or more and `Underflow` for one of -10^16 or less,
/// before memory is allocated, and `OutOfMemory` if the memory cannot be allocated.
pub fn from_isize_to_chinese_low(
    alloc: Global,
    variant: ChineseVariant,
    case: ChineseCase,
    value: isize,
) -> Result<String, NumberToChineseError>
    ensures { Prints variant case Low value result }
{
    print_or_refuse::<isize>(alloc, variant, case, ChineseCountMethod::Low, value)
}
