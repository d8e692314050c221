// Why a text is not a number of a type.
use std::fmt;

/// Why a text is not a number of a type.
///
/// The text without its sign is judged first: it is empty, a number, incorrect, or past 128 bits.
/// Only then is a number compared with the range of the type.
#[derive(Debug, Copy, Clone, Eq, PartialEq)]
pub enum ChineseToNumberError {
    /// The text is empty after white space and, for signed types, one sign are removed: `負` as an
    /// `i8`.
    ChineseNumberEmpty,
    /// The text is not a numeral or, for a naive reader, not all digits. For an unsigned type a
    /// sign is at fault too: `正一` as a `u8`.
    ///
    /// `char_index` is the number of characters of the caller's string, white space included,
    /// before the one at fault. For a unit reader that is, as a rule, the rightmost character that
    /// no text before it can put right: 1 for `二十十`, 2 for `一百個`. `docs/RULES.md` has the whole
    /// rule. For a naive reader it is the first character that is not a digit.
    ChineseNumberIncorrect { char_index: usize },
    /// The number is greater than the greatest of the type: `二百五十六` as a `u8`.
    ///
    /// A unit reader also returns this if a numeral contains a unit whose scale is past 128 bits,
    /// such as `零極` with `TenThousand`, and if it finds such a unit, or a group of that size, from
    /// the right before it finds a fault, as in `極極`. A naive reader also returns this if the
    /// digits pass 128 bits, whatever follows them.
    Overflow,
    /// The number is less than the least of the type, or the text after a minus would be an
    /// overflow.
    Underflow,
}

// C++, Go and bindings/c/answers.c compose these texts from parts: a search for a whole text misses
// them.
impl fmt::Display for ChineseToNumberError {
    ghost use Rattle.std.specs.Prelude.{Some};
    ghost use Rattle.cn_judge.specs.ErrorText.{reading_error_text};

    ghost output = { λ error. Some (reading_error_text error) };

    fn fmt<W: fmt::Write>(&self, f: &mut fmt::Formatter<W>) -> fmt::Result {
        match self {
            ChineseToNumberError::ChineseNumberEmpty => {
                f.write_str("a chinese number cannot be empty")
            }
            ChineseToNumberError::ChineseNumberIncorrect { char_index } => {
                write!(
                    f,
                    "the chinese number is incorrect (position: {char_index})"
                )
            }
            ChineseToNumberError::Overflow => f.write_str("number is too large"),
            ChineseToNumberError::Underflow => f.write_str("number is too small"),
        }
    }
}

impl std::error::Error for ChineseToNumberError {}
