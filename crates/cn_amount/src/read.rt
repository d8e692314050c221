// Reads amounts by their states.
ghost use Rattle.std.specs.Prelude.{◌≡◌};
ghost use Rattle.cn_amount.specs.Answer.{answer_of};
ghost use Rattle.cn_amount.specs.Reading.{ReadsAmount};
ghost use Rattle.cn_amount.specs.Signed.{ReadsSignedAmount};
ghost use Rattle.cn_amount.specs.Typed.{ReadsTypedAmount};

use crate::ChineseToAmountError;
use crate::progress::Progress;
use crate::signed::SignedProgress;
use crate::typed::TypedProgress;
use cn_grammar::{Refusal, read_form};

/// The same answer, with the error type of amounts.
pub fn told<A>(answer: Result<A, Refusal>) -> Result<A, ChineseToAmountError>
    ensures { answer_of result ≡ answer }
{
    match answer {
        Ok(fen) => Ok(fen),
        Err(Refusal::Unfinished) => Err(ChineseToAmountError::Unfinished),
        Err(Refusal::Incorrect { char_index }) => {
            Err(ChineseToAmountError::Incorrect { char_index })
        }
    }
}

/// The amount, in fen, of a text in capitals. It is `Ok` exactly if the text is a form of an
/// amount. No memory is allocated.
///
/// ```text
/// chinese_to_amount("壹仟肆佰零玖元伍角整") == Ok(140_950)
/// chinese_to_amount("人民币壹拾伍圆正") == Ok(1_500)
/// chinese_to_amount("壹佰元") == Err(ChineseToAmountError::Unfinished)
/// chinese_to_amount("拾伍元整") == Err(ChineseToAmountError::Incorrect { char_index: 0 })
/// ```
///
/// It is `Unfinished` exactly if the text is not an amount but something after it can make it one.
/// Otherwise it is `Incorrect` at the first character with which no amount begins. White space is
/// incorrect at its place, since nothing may be added there.
pub fn chinese_to_amount(text: &str) -> Result<u64, ChineseToAmountError>
    ensures { ReadsAmount text.now (answer_of result) }
{
    // This is decided here, so that no registers are saved for the reader.
    if text.is_empty() {
        return Err(ChineseToAmountError::Unfinished);
    }
    told(read_form::<Progress>(text))
}

/// The amount, in fen, of a text in capitals. After 负 (負), as on red invoices, the amount is below
/// zero. No memory is allocated.
///
/// ```text
/// chinese_to_signed_amount("负壹拾伍元整") == Ok(-1_500)
/// chinese_to_signed_amount("壹拾伍元整") == Ok(1_500)
/// chinese_to_signed_amount("负零元整") == Ok(0)
/// chinese_to_signed_amount("负负壹元整") == Err(ChineseToAmountError::Incorrect { char_index: 1 })
/// ```
///
/// The answers are like those of `chinese_to_amount` for these texts: the sign alone is unfinished,
/// and the place of a character is counted from the start of the whole text. No rule of the banks
/// has the sign.
pub fn chinese_to_signed_amount(text: &str) -> Result<i64, ChineseToAmountError>
    ensures { ReadsSignedAmount text.now (answer_of result) }
{
    told(read_form::<SignedProgress>(text))
}

/// The amount, in fen, of a text in capitals as people type or copy it. White space is left out
/// wherever it is. Before the amount there may be ⊗ or ⓧ, and then 人民币 (人民幣), directly after which
/// （大写） (（大寫）) and then a colon may come; brackets and colons have either width. The rest is read
/// as by `chinese_to_amount`. No memory is allocated.
///
/// ```text
/// chinese_to_amount_as_typed("人民币（大写）：壹拾伍元整") == Ok(1_500)
/// chinese_to_amount_as_typed("⊗壹拾 伍圆整") == Ok(1_500)
/// chinese_to_amount_as_typed("人民币 壹佰元") == Err(ChineseToAmountError::Unfinished)
/// chinese_to_amount_as_typed("⊗ 拾伍元整") == Err(ChineseToAmountError::Incorrect { char_index: 2 })
/// ```
///
/// It is `Unfinished` exactly if the text is not an amount but something after it can make it one.
/// Otherwise it is `Incorrect` at the first character of the typed text with which no amount
/// begins.
pub fn chinese_to_amount_as_typed(text: &str) -> Result<u64, ChineseToAmountError>
    ensures { ReadsTypedAmount text.now (answer_of result) }
{
    told(read_form::<TypedProgress>(text))
}
