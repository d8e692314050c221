ghost use Rattle.std.specs.Prelude.{◌≡◌, Some};
ghost use Rattle.cn_spell.specs.declared.error.NumberToChineseError.TheVariants.{OutOfMemory};

use std::alloc::AllocError;
use std::error::Error;
use std::fmt;

/// Why a number is not written.
#[derive(Debug, Copy, Clone, Eq, PartialEq)]
pub enum NumberToChineseError {
    /// The number is 10^16 or more, and the method is `Low`, whose greatest unit, 極, is 10^15.
    Overflow,
    /// The number is -10^16 or less, and the method is `Low`.
    Underflow,
    /// The memory for the text could not be allocated.
    OutOfMemory,
}

impl fmt::Display for NumberToChineseError {
    ghost use Rattle.cn_spell.specs.ErrorText.{printing_error_text};

    ghost output = { λ error. Some (printing_error_text error) };

    fn fmt<W: fmt::Write>(&self, f: &mut fmt::Formatter<W>) -> fmt::Result {
        f.write_str(match self {
            NumberToChineseError::Overflow => "number is too large",
            NumberToChineseError::Underflow => "number is too small",
            NumberToChineseError::OutOfMemory => "out of memory",
        })
    }
}

impl Error for NumberToChineseError {}

impl From<AllocError> for NumberToChineseError {
    ghost from_gives = { λ _ error. error ≡ OutOfMemory };

    fn from(_error: AllocError) -> Self {
        Self::OutOfMemory
    }
}
