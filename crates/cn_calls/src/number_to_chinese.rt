ghost use Rattle.std.specs.Prelude.{IfOk};
ghost use Rattle.cn_core.specs.Printing.{naive_text};
ghost use Rattle.cn_spell.specs.Prints.{Prints};
ghost use Rattle.cn_spell.specs.Writes.{Writes, most_plain_bytes};

use cn_core::{ChineseCase, ChineseCountMethod, ChineseVariant, Whole};
use cn_spell::{NumberToChineseError, print_naive, print_or_refuse};
use std::alloc::{AllocError, Global};

/// Numbers that can be written in Chinese: those of the twelve integer types.
///
/// `alloc` is the allocator of the text. `main` gets it from `rt.alloc()` and passes it on to the
/// functions that it calls.
pub trait NumberToChinese: Whole {
    /// Writes the number with the units of a method, after a minus sign if it is below zero.
    ///
    /// ```text
    /// 123i8.to_chinese(alloc, ChineseVariant::Simple, ChineseCase::Upper, ChineseCountMethod::Low)
    /// // 壹佰贰拾叁
    /// ```
    ///
    /// With `Low`, returns `Overflow` for a number of 10^16 or more and `Underflow` for one of
    /// -10^16 or less, before memory is allocated. Returns `OutOfMemory` if the memory cannot be
    /// allocated.
    fn to_chinese(
        self,
        alloc: Global,
        variant: ChineseVariant,
        case: ChineseCase,
        method: ChineseCountMethod,
    ) -> Result<String, NumberToChineseError>
        ensures { Prints variant case method (Self.number self) result };

    /// Writes the number as plain decimal digits, after a minus sign if it is below zero.
    ///
    /// ```text
    /// (-5i8).to_chinese_naive(alloc, ChineseVariant::Simple, ChineseCase::Upper)   // 负伍
    /// ```
    ///
    /// The only error is `AllocError`, if the memory cannot be allocated.
    fn to_chinese_naive(
        self,
        alloc: Global,
        variant: ChineseVariant,
        case: ChineseCase,
    ) -> Result<String, AllocError>
        ensures { IfOk result (Writes (naive_text variant case (Self.number self)) most_plain_bytes) };
}

impl<T: Whole> NumberToChinese for T {
    fn to_chinese(
        self,
        alloc: Global,
        variant: ChineseVariant,
        case: ChineseCase,
        method: ChineseCountMethod,
    ) -> Result<String, NumberToChineseError> {
        print_or_refuse(alloc, variant, case, method, self)
    }

    fn to_chinese_naive(
        self,
        alloc: Global,
        variant: ChineseVariant,
        case: ChineseCase,
    ) -> Result<String, AllocError> {
        print_naive(alloc, variant, case, self)
    }
}
