// One change of refused figures.
ghost use Rattle.std.specs.Prelude.{chars, IfSome};
ghost use Rattle.cn_grammar.specs.Repairs.{IsRepair};
ghost use Rattle.cn_figures.specs.Figures.{WriteAmount, WriteSignedAmount};

use crate::progress::Progress;
use crate::signed::SignedProgress;
use cn_grammar::{Hint, find_repair};

/// One change of a text that is not the figures of an amount, after which it goes on past its
/// fault. No memory is allocated.
///
/// ```text
/// figures_repair("1O5.00") == Some(Hint { char_index: 1, repair: Repair::Replace('0') })
/// figures_repair("¥760.00元") == Some(Hint { char_index: 7, repair: Repair::Delete })
/// figures_repair("26.375") == None
/// ```
///
/// After the change the text begins figures past the character at which `yuan_to_fen` refuses it;
/// a text that is `Unfinished` becomes figures. There may be another fault further on. It is `None`
/// for figures, even of an amount that is too large, and if no change that is tried does this. Only
/// a reader can confirm that the change is what the writer meant: `find_repair` of `cn_grammar`
/// says which changes are tried, and in which order.
pub fn figures_repair(figures: &str) -> Option<Hint>
    ensures { IfSome result (IsRepair WriteAmount (chars figures.now)) }
{
    find_repair::<Progress>(figures)
}

/// One change of a text that is not the figures of an amount with or without a minus before them,
/// as `figures_repair` finds it for other figures. No memory is allocated.
///
/// ```text
/// signed_figures_repair("负15.00") == Some(Hint { char_index: 0, repair: Repair::Replace('-') })
/// ```
pub fn signed_figures_repair(figures: &str) -> Option<Hint>
    ensures { IfSome result (IsRepair WriteSignedAmount (chars figures.now)) }
{
    find_repair::<SignedProgress>(figures)
}
