// One change of a refused text.
ghost use Rattle.std.specs.Prelude.{chars, IfSome};
ghost use Rattle.cn_amount.specs.Reading.{IsAmount};
ghost use Rattle.cn_amount.specs.Signed.{IsSignedAmount};
ghost use Rattle.cn_amount.specs.Typed.{IsTypedAmount, IsTypedSignedAmount};
ghost use Rattle.cn_grammar.specs.Repairs.{IsRepair};

use crate::progress::Progress;
use crate::signed::SignedProgress;
use crate::typed::{TypedProgress, TypedSignedProgress};
use cn_grammar::{Hint, find_repair};

/// One change of a text that is not an amount in capitals, after which it goes on past its fault.
/// No memory is allocated.
///
/// ```text
/// amount_repair("壹佰贰元整") == Some(Hint { char_index: 2, repair: Repair::Insert('零') })
/// amount_repair("伍佰块整") == Some(Hint { char_index: 2, repair: Repair::Replace('元') })
/// amount_repair("捌佰零伍拾元整") == Some(Hint { char_index: 2, repair: Repair::Delete })
/// amount_repair("叁佰贰拾元") == Some(Hint { char_index: 5, repair: Repair::Insert('整') })
/// amount_repair("壹佰元整") == None
/// ```
///
/// After the change the text begins an amount past the character at which `chinese_to_amount`
/// refuses it; a text that is `Unfinished` becomes an amount. There may be another fault further
/// on. It is `None` for an amount, and if no change that is tried does this. Only a reader can
/// confirm that the change is what the writer meant: `find_repair` of `cn_grammar` says which
/// changes are tried, and in which order.
pub fn amount_repair(text: &str) -> Option<Hint>
    ensures { IfSome result (IsRepair IsAmount (chars text.now)) }
{
    find_repair::<Progress>(text)
}

/// One change of a text that is not an amount in capitals which may be below zero, as
/// `amount_repair` finds it for other amounts. No memory is allocated.
///
/// ```text
/// signed_amount_repair("-壹仟元整") == Some(Hint { char_index: 0, repair: Repair::Replace('负') })
/// ```
pub fn signed_amount_repair(text: &str) -> Option<Hint>
    ensures { IfSome result (IsRepair IsSignedAmount (chars text.now)) }
{
    find_repair::<SignedProgress>(text)
}

/// One change of a text that is not an amount in capitals as people type it, as `amount_repair`
/// finds it for other amounts. No memory is allocated.
///
/// ```text
/// typed_amount_repair("壹佰 贰元整") == Some(Hint { char_index: 3, repair: Repair::Insert('零') })
/// ```
pub fn typed_amount_repair(text: &str) -> Option<Hint>
    ensures { IfSome result (IsRepair IsTypedAmount (chars text.now)) }
{
    find_repair::<TypedProgress>(text)
}

/// One change of a text that is not an amount in capitals as people type it or copy it from a red
/// invoice, as `amount_repair` finds it for other amounts. No memory is allocated.
///
/// ```text
/// typed_signed_amount_repair("（负）壹佰元整") == Some(Hint { char_index: 2, repair: Repair::Insert('数') })
/// ```
pub fn typed_signed_amount_repair(text: &str) -> Option<Hint>
    ensures { IfSome result (IsRepair IsTypedSignedAmount (chars text.now)) }
{
    find_repair::<TypedSignedProgress>(text)
}
