ghost use Rattle.std.specs.Prelude.{◌≡◌, Some};
ghost use Rattle.cn_quantity_text.specs.declared.error.QuantityToChineseError.TheVariants.{OutOfMemory};

use std::alloc::AllocError;
use std::error::Error;
use std::fmt;

/// Why a quantity is not written.
#[derive(Debug, Copy, Clone, Eq, PartialEq)]
pub enum QuantityToChineseError {
    /// A number in it is 10^16 or more, and the method is `Low`, whose greatest unit, 極, is 10^15.
    /// The quantity is not below zero.
    Overflow,
    /// The same, for a quantity below zero.
    Underflow,
    /// The denominator is 0.
    ZeroDenominator,
    /// The memory for the text could not be allocated.
    OutOfMemory,
}

impl fmt::Display for QuantityToChineseError {
    ghost use Rattle.cn_quantity_text.specs.ErrorText.{writing_error_text};

    ghost output = { λ error. Some (writing_error_text error) };

    fn fmt<W: fmt::Write>(&self, f: &mut fmt::Formatter<W>) -> fmt::Result {
        f.write_str(match self {
            QuantityToChineseError::Overflow => "number is too large",
            QuantityToChineseError::Underflow => "number is too small",
            QuantityToChineseError::ZeroDenominator => "the denominator is 0",
            QuantityToChineseError::OutOfMemory => "out of memory",
        })
    }
}

impl Error for QuantityToChineseError {}

impl From<AllocError> for QuantityToChineseError {
    ghost from_gives = { λ _ error. error ≡ OutOfMemory };

    fn from(_error: AllocError) -> Self {
        Self::OutOfMemory
    }
}
