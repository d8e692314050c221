ghost use Rattle.std.specs.Prelude.{Some};

use std::error::Error;
use std::fmt;

/// Why figures were refused.
#[derive(Debug, Copy, Clone, Eq, PartialEq)]
pub enum FiguresError {
    /// The text ends too soon: a digit must follow.
    Unfinished,
    /// No figures begin with the text up to and including this character. `char_index` is how many
    /// characters come before it.
    Incorrect { char_index: usize },
    /// The amount is 10^18 fen or more.
    TooLarge,
}

impl fmt::Display for FiguresError {
    ghost use Rattle.cn_figures.specs.ErrorText.{refusal_text};

    ghost output = { λ error. Some (refusal_text error) };

    fn fmt<W: fmt::Write>(&self, f: &mut fmt::Formatter<W>) -> fmt::Result {
        match self {
            FiguresError::Unfinished => f.write_str("the amount is not finished"),
            FiguresError::Incorrect { char_index } => {
                write!(f, "the amount is incorrect (position: {char_index})")
            }
            FiguresError::TooLarge => f.write_str("number is too large"),
        }
    }
}

impl Error for FiguresError {}
