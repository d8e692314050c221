ghost use Rattle.std.specs.Prelude.{◌≡◌, ℕ, List};
ghost use Rattle.cn_core.specs.Reading.{naive_reading, Reads};
ghost use Rattle.cn_judge.specs.Answer.{answer_of};

use crate::read_number;
use cn_core::{ChineseCountMethod, Whole};
use cn_judge::{ChineseToNumberError, read_naive};

/// A text that can be read as a number of the integer type `T`, which follows from the expected
/// result.
///
/// It is implemented for `&str`. For a `String`, call `text.as_str().to_number(..)`.
pub trait ChineseToNumber<T: Whole> {
    // The bytes of the text.
    ghost bytes: { Self → List ℕ };

    /// Reads a numeral with a counting method, for a signed type after at most one sign.
    ///
    /// ```text
    /// "一百二".to_number(ChineseCountMethod::TenThousand) == Ok(120i8)
    /// ```
    ///
    /// A text of white space alone, with one sign for signed types, is empty; a number above the
    /// type's greatest is an overflow, one below its least is an underflow, and a text that is not
    /// a numeral is incorrect. [`ChineseToNumberError`] says when each error is returned, and which
    /// one is reported first.
    fn to_number(&self, method: ChineseCountMethod) -> Result<T, ChineseToNumberError>
        ensures { Reads T.kind method (bytes self.now) (answer_of T.number result) };

    /// Reads plain digits, for a signed type after at most one sign.
    ///
    /// ```text
    /// "一二三".to_number_naive() == Ok(123i8)
    /// ```
    ///
    /// A text of white space alone, with one sign for signed types, is empty; the first other
    /// character that is not a digit is incorrect; a number above the type's greatest is an
    /// overflow, and one below its least is an underflow. If the digits pass 128 bits, the text
    /// after them is not read.
    fn to_number_naive(&self) -> Result<T, ChineseToNumberError>
        ensures { answer_of T.number result ≡ naive_reading T.kind (bytes self.now) };
}

impl<T: Whole> ChineseToNumber<T> for &str {
    ghost bytes = { λ text. text.now };

    fn to_number(&self, method: ChineseCountMethod) -> Result<T, ChineseToNumberError> {
        read_number(method, self)
    }

    fn to_number_naive(&self) -> Result<T, ChineseToNumberError> {
        read_naive(self)
    }
}
