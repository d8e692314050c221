// What may come next in figures.
ghost use Rattle.std.specs.Prelude.{chars};
ghost use Rattle.cn_grammar.specs.Expected.{IsExpected};
ghost use Rattle.cn_figures.specs.Figures.{WriteAmount, WriteSignedAmount};

use crate::progress::Progress;
use crate::signed::SignedProgress;
use cn_grammar::{Expected, expected_next};

/// What may come next in the figures of an amount, after the longest start of a text that begins
/// figures: for an input form that lists the keys, or for a message beside a refused text. No
/// memory is allocated.
///
/// ```text
/// let expected = figures_expected("15.005");
/// expected.char_index == 5                    // the second 5 is refused
/// expected.may_end == true
/// expected.characters.as_slice() == ['0', '０']
/// ```
///
/// If `yuan_to_fen` returns `Incorrect`, `char_index` is the same; otherwise it is the number of
/// characters of the text. `may_end` is true exactly if the characters before it are figures, even
/// of an amount that is too large. The list has exactly the characters with which figures can go on
/// there. `white_space` is false.
pub fn figures_expected(figures: &str) -> Expected
    ensures { IsExpected WriteAmount (chars figures.now) result }
{
    expected_next::<Progress>(figures)
}

/// What may come next in the figures of an amount with or without a minus before them, as
/// `figures_expected` says it for other figures. No memory is allocated.
///
/// ```text
/// let expected = signed_figures_expected("-");
/// expected.char_index == 1                    // the characters are digits, ¥ and ￥
/// ```
pub fn signed_figures_expected(figures: &str) -> Expected
    ensures { IsExpected WriteSignedAmount (chars figures.now) result }
{
    expected_next::<SignedProgress>(figures)
}
