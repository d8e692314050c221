// What may come next in a text.
ghost use Rattle.std.specs.Prelude.{chars};
ghost use Rattle.cn_grammar.specs.Expected.{IsExpected};
ghost use Rattle.cn_date.specs.Reading.{IsDateText};

use crate::state::State;
use cn_grammar::{Expected, expected_next};

/// What may come next in a date in capitals, after the longest start of a text that begins a date:
/// for an input form that lists the keys, or for a message beside a refused text. No memory is
/// allocated.
///
/// ```text
/// let expected = date_expected("贰零贰肆年零贰月叁拾日");
/// expected.char_index == 8                    // 叁 is refused
/// expected.may_end == false
/// expected.characters.as_slice() == ['零', '壹', '贰', '貳']
/// ```
///
/// If `chinese_to_date` returns `Incorrect`, `char_index` is the same; otherwise it is the number of
/// characters of the text. `may_end` is true exactly if the characters before it are a date. The
/// list has exactly the characters with which a date can go on there. `white_space` is false.
pub fn date_expected(text: &str) -> Expected
    ensures { IsExpected IsDateText (chars text.now) result }
{
    expected_next::<State>(text)
}
