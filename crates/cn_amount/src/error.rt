ghost use Rattle.std.specs.Prelude.{◌≡◌, Some};
ghost use Rattle.cn_amount.specs.declared.error.AmountToChineseError.TheVariants.{OutOfMemory};

use std::alloc::AllocError;
use std::error::Error;
use std::fmt;

/// Why an amount was not written.
#[derive(Debug, Copy, Clone, Eq, PartialEq)]
pub enum AmountToChineseError {
    /// The amount is 10^18 fen or more.
    Overflow,
    /// There was no memory for the text.
    OutOfMemory,
}

impl fmt::Display for AmountToChineseError {
    ghost use Rattle.cn_amount.specs.ErrorText.{writing_error_text};

    ghost output = { λ error. Some (writing_error_text error) };

    fn fmt<W: fmt::Write>(&self, f: &mut fmt::Formatter<W>) -> fmt::Result {
        f.write_str(match self {
            AmountToChineseError::Overflow => "number is too large",
            AmountToChineseError::OutOfMemory => "out of memory",
        })
    }
}

impl Error for AmountToChineseError {}

impl From<AllocError> for AmountToChineseError {
    ghost from_gives = { λ _ error. error ≡ OutOfMemory };

    fn from(_error: AllocError) -> Self {
        Self::OutOfMemory
    }
}

/// Why a text was not read as an amount.
#[derive(Debug, Copy, Clone, Eq, PartialEq)]
pub enum ChineseToAmountError {
    /// The text ends too soon: it is not an amount, but it begins one. `壹佰元` needs 整 or 伍角
    /// after it. The empty text is unfinished too.
    Unfinished,
    /// No amount begins with the text up to and including this character. `char_index` is how many
    /// characters of the string come before it: 3 for `壹佰贰元整`.
    Incorrect { char_index: usize },
}

impl fmt::Display for ChineseToAmountError {
    ghost use Rattle.cn_amount.specs.ErrorText.{reading_error_text};

    ghost output = { λ error. Some (reading_error_text error) };

    fn fmt<W: fmt::Write>(&self, f: &mut fmt::Formatter<W>) -> fmt::Result {
        match self {
            ChineseToAmountError::Unfinished => f.write_str("the amount is not finished"),
            ChineseToAmountError::Incorrect { char_index } => {
                write!(f, "the amount is incorrect (position: {char_index})")
            }
        }
    }
}

impl Error for ChineseToAmountError {}
