// One change of a refused text.
ghost use Rattle.std.specs.Prelude.{chars, IfSome};
ghost use Rattle.cn_grammar.specs.Repairs.{IsRepair};
ghost use Rattle.cn_date.specs.Reading.{IsDateText};

use crate::state::State;
use cn_grammar::{Hint, find_repair};

/// One change of a text that is not a date in capitals, after which it goes on past its fault. No
/// memory is allocated.
///
/// ```text
/// date_repair("贰零贰陆年壹月壹拾伍日") == Some(Hint { char_index: 5, repair: Repair::Insert('零') })
/// date_repair("贰零贰陆年零壹月零柒号") == Some(Hint { char_index: 10, repair: Repair::Replace('日') })
/// date_repair("贰零贰陆年零壹月零柒日") == None
/// ```
///
/// After the change the text begins a date past the character at which `chinese_to_date` refuses
/// it; a text that is `Unfinished` becomes a date. There may be another fault further on. It is
/// `None` for a date, and if no change that is tried does this. Only a reader can confirm that the
/// change is what the writer meant: `find_repair` of `cn_grammar` says which changes are tried,
/// and in which order.
pub fn date_repair(text: &str) -> Option<Hint>
    ensures { IfSome result (IsRepair IsDateText (chars text.now)) }
{
    find_repair::<State>(text)
}
