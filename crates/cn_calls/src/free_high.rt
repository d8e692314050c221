// Made by checks/calls.py.
// The printer functions with `High`, one for each integer type of 32 bits or more.
ghost use Rattle.std.specs.Prelude.{IfOk, pos};
ghost use Rattle.cn_core.specs.declared.method.ChineseCountMethod.TheVariants.{High};
ghost use Rattle.cn_core.specs.Printing.{spelled_text};
ghost use Rattle.cn_spell.specs.Prints.{most_bytes};
ghost use Rattle.cn_spell.specs.Writes.{Writes};

use cn_core::{ChineseCase, ChineseCountMethod, ChineseVariant};
use cn_spell::print_by_units;
use std::alloc::{AllocError, Global};

/// Writes a `u32` with `High`: 100_000 is `十萬`
/// in traditional script and lower case.
///
/// The only error is `AllocError`, if the memory cannot be allocated.
pub fn from_u32_to_chinese_high(
    alloc: Global,
    variant: ChineseVariant,
    case: ChineseCase,
    value: u32,
) -> Result<String, AllocError>
    ensures { IfOk result (Writes (spelled_text variant case High (pos value))
        (most_bytes High)) }
{
    print_by_units::<u32>(alloc, variant, case, ChineseCountMethod::High, value)
}

/// Writes a `u64` with `High`: 10_000_000_000_000_000 is `一兆`
/// in traditional script and lower case.
///
/// The only error is `AllocError`, if the memory cannot be allocated.
pub fn from_u64_to_chinese_high(
    alloc: Global,
    variant: ChineseVariant,
    case: ChineseCase,
    value: u64,
) -> Result<String, AllocError>
    ensures { IfOk result (Writes (spelled_text variant case High (pos value))
        (most_bytes High)) }
{
    print_by_units::<u64>(alloc, variant, case, ChineseCountMethod::High, value)
}

/// Writes a `u128` with `High`: 10_000_000_000_000_000 is `一兆`
/// in traditional script and lower case.
///
/// The only error is `AllocError`, if the memory cannot be allocated.
pub fn from_u128_to_chinese_high(
    alloc: Global,
    variant: ChineseVariant,
    case: ChineseCase,
    value: u128,
) -> Result<String, AllocError>
    ensures { IfOk result (Writes (spelled_text variant case High (pos value))
        (most_bytes High)) }
{
    print_by_units::<u128>(alloc, variant, case, ChineseCountMethod::High, value)
}

/// Writes a `usize` with `High`: 10_000_000_000_000_000 is `一兆`
/// in traditional script and lower case.
///
/// The only error is `AllocError`, if the memory cannot be allocated.
pub fn from_usize_to_chinese_high(
    alloc: Global,
    variant: ChineseVariant,
    case: ChineseCase,
    value: usize,
) -> Result<String, AllocError>
    ensures { IfOk result (Writes (spelled_text variant case High (pos value))
        (most_bytes High)) }
{
    print_by_units::<usize>(alloc, variant, case, ChineseCountMethod::High, value)
}

/// Writes an `i32` with `High`: -100_000 is `負十萬`
/// in traditional script and lower case.
///
/// The only error is `AllocError`, if the memory cannot be allocated.
pub fn from_i32_to_chinese_high(
    alloc: Global,
    variant: ChineseVariant,
    case: ChineseCase,
    value: i32,
) -> Result<String, AllocError>
    ensures { IfOk result (Writes (spelled_text variant case High value)
        (most_bytes High)) }
{
    print_by_units::<i32>(alloc, variant, case, ChineseCountMethod::High, value)
}

/// Writes an `i64` with `High`: -10_000_000_000_000_000 is `負一兆`
/// in traditional script and lower case.
///
/// The only error is `AllocError`, if the memory cannot be allocated.
pub fn from_i64_to_chinese_high(
    alloc: Global,
    variant: ChineseVariant,
    case: ChineseCase,
    value: i64,
) -> Result<String, AllocError>
    ensures { IfOk result (Writes (spelled_text variant case High value)
        (most_bytes High)) }
{
    print_by_units::<i64>(alloc, variant, case, ChineseCountMethod::High, value)
}

/// Writes an `i128` with `High`: -10_000_000_000_000_000 is `負一兆`
/// in traditional script and lower case.
///
/// The only error is `AllocError`, if the memory cannot be allocated.
pub fn from_i128_to_chinese_high(
    alloc: Global,
    variant: ChineseVariant,
    case: ChineseCase,
    value: i128,
) -> Result<String, AllocError>
    ensures { IfOk result (Writes (spelled_text variant case High value)
        (most_bytes High)) }
{
    print_by_units::<i128>(alloc, variant, case, ChineseCountMethod::High, value)
}

/// Writes an `isize` with `High`: -10_000_000_000_000_000 is `負一兆`
/// in traditional script and lower case.
///
/// The only error is `AllocError`, if the memory cannot be allocated.
pub fn from_isize_to_chinese_high(
    alloc: Global,
    variant: ChineseVariant,
    case: ChineseCase,
    value: isize,
) -> Result<String, AllocError>
    ensures { IfOk result (Writes (spelled_text variant case High value)
        (most_bytes High)) }
{
    print_by_units::<isize>(alloc, variant, case, ChineseCountMethod::High, value)
}
