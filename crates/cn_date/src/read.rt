// Reads dates by their states.
ghost use Rattle.cn_date.specs.Answer.{answer_of};
ghost use Rattle.cn_date.specs.Reading.{ReadsDate};

use crate::state::State;
use crate::{BillDate, ChineseToDateError};
use cn_grammar::{Refusal, read_form};

/// The date of a text in capitals. It is `Ok` exactly if the text is a form of a date that exists.
/// No memory is allocated.
///
/// ```text
/// chinese_to_date("贰零贰陆年零壹月壹拾伍日") == Ok(BillDate { year: 2026, month: 1, day: 15 })
/// chinese_to_date("贰零贰陆年零壹月") == Err(ChineseToDateError::Unfinished)
/// chinese_to_date("贰零贰伍年零贰月贰拾玖日") == Err(ChineseToDateError::Incorrect { char_index: 10 })
/// ```
///
/// It is `Unfinished` exactly if the text is not a date but something after it can make it one.
/// Otherwise it is `Incorrect` at the first character with which no date begins. White space is
/// incorrect at its place, since nothing may be added there.
pub fn chinese_to_date(text: &str) -> Result<BillDate, ChineseToDateError>
    ensures { ReadsDate text.now (answer_of result) }
{
    match read_form::<State>(text) {
        Ok(date) => Ok(date),
        Err(Refusal::Unfinished) => Err(ChineseToDateError::Unfinished),
        Err(Refusal::Incorrect { char_index }) => Err(ChineseToDateError::Incorrect { char_index }),
    }
}
