ghost use Rattle.std.specs.Prelude.{◌≡◌, Some};
ghost use Rattle.cn_date.specs.declared.error.DateToChineseError.TheVariants.{OutOfMemory};

use std::alloc::AllocError;
use std::error::Error;
use std::fmt;

/// Why a date was not written.
#[derive(Debug, Copy, Clone, Eq, PartialEq)]
pub enum DateToChineseError {
    /// The date does not exist.
    NotADate,
    /// There was no memory for the text.
    OutOfMemory,
}

impl fmt::Display for DateToChineseError {
    ghost use Rattle.cn_date.specs.ErrorText.{writing_error_text};

    ghost output = { λ error. Some (writing_error_text error) };

    fn fmt<W: fmt::Write>(&self, f: &mut fmt::Formatter<W>) -> fmt::Result {
        f.write_str(match self {
            DateToChineseError::NotADate => "there is no such date",
            DateToChineseError::OutOfMemory => "out of memory",
        })
    }
}

impl Error for DateToChineseError {}

impl From<AllocError> for DateToChineseError {
    ghost from_gives = { λ _ error. error ≡ OutOfMemory };

    fn from(_error: AllocError) -> Self {
        Self::OutOfMemory
    }
}

/// Why a text was not read as a date.
#[derive(Debug, Copy, Clone, Eq, PartialEq)]
pub enum ChineseToDateError {
    /// The text ends too soon: it is not a date, but it begins one. The empty text is unfinished
    /// too.
    Unfinished,
    /// No date begins with the text up to and including this character. `char_index` is how many
    /// characters of the string come before it: 10 for `贰零贰伍年零贰月贰拾玖日`.
    Incorrect { char_index: usize },
}

impl fmt::Display for ChineseToDateError {
    ghost use Rattle.cn_date.specs.ErrorText.{reading_error_text};

    ghost output = { λ error. Some (reading_error_text error) };

    fn fmt<W: fmt::Write>(&self, f: &mut fmt::Formatter<W>) -> fmt::Result {
        match self {
            ChineseToDateError::Unfinished => f.write_str("the date is not finished"),
            ChineseToDateError::Incorrect { char_index } => {
                write!(f, "the date is incorrect (position: {char_index})")
            }
        }
    }
}

impl Error for ChineseToDateError {}
