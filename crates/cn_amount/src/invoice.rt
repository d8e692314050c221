// Amounts as they are printed on red invoices.
ghost use Rattle.std.specs.Prelude.{◌≡◌, ◌<◌, ◌≤◌, nat_abs, length, encode_utf8_all};
ghost use Rattle.cn_amount.specs.Answer.{answer_of};
ghost use Rattle.cn_amount.specs.Invoice.{WritesInvoiceAmount, invoice_amount_text};
ghost use Rattle.cn_amount.specs.Places.{amount_limit};
ghost use Rattle.cn_amount.specs.Typed.{ReadsTypedSignedAmount};
ghost use Rattle.cn_amount.specs.Working.Putting.{PutsMore};
ghost use Rattle.cn_amount.specs.Working.Signing.{sign_form, sign_before};

use crate::capital::Capital;
use crate::form::{AmountForm, Hand};
use crate::places::Places;
use crate::put::put_amount;
use crate::read::told;
use crate::typed::TypedSignedProgress;
use crate::write::AMOUNT_LIMIT;
use crate::{AmountToChineseError, ChineseToAmountError};
use cn_core::{Buffer, ChineseVariant, string_of};
use cn_grammar::{put_capital, read_form};
use std::alloc::Global;

/// The most bytes of an amount with its sign: three for each of 43 characters.
pub const MOST_INVOICE_BYTES: usize = 129;

/// The amount, in fen, of a text in capitals as people type it, or copy it from a red invoice.
/// White space is left out wherever it is. No memory is allocated.
///
/// Before the amount there may be, each at most once: a circle, ⊗ or ⓧ; a sign, which is 负 (負) or
/// （负数） (（負數）); and 人民币 (人民幣), directly after which （大写） (（大寫）) and then a colon may come.
/// Brackets and colons have either width. The order is free, except that no circle comes after
/// 人民币. After a sign the amount is below zero. The rest is read as by `chinese_to_amount`, but has
/// no 人民币 of its own.
///
/// ```text
/// chinese_to_signed_amount_as_typed("⊗（负数）壹拾伍圆整") == Ok(-1_500)
/// chinese_to_signed_amount_as_typed("人民币（大写）：负壹拾伍元整") == Ok(-1_500)
/// chinese_to_signed_amount_as_typed("ⓧ 壹拾 伍元整") == Ok(1_500)
/// chinese_to_signed_amount_as_typed("负零元整") == Ok(0)
/// chinese_to_signed_amount_as_typed("（负数") == Err(ChineseToAmountError::Unfinished)
/// chinese_to_signed_amount_as_typed("负 负壹元整")
///     == Err(ChineseToAmountError::Incorrect { char_index: 2 })
/// ```
///
/// It is `Unfinished` exactly if the text is not an amount but something after it can make it one.
/// Otherwise it is `Incorrect` at the first character of the typed text with which no amount
/// begins. No regulation has these rules.
pub fn chinese_to_signed_amount_as_typed(text: &str) -> Result<i64, ChineseToAmountError>
    ensures { ReadsTypedSignedAmount text.now (answer_of result) }
{
    told(read_form::<TypedSignedProgress>(text))
}

// Writes 负, or in brackets （负数）.
fn put_sign(text: &mut Buffer, hand: Hand, bracketed: bool)
    ensures { PutsMore hand text.old text.new (sign_form bracketed) }
{
    if bracketed {
        put_capital(text, hand, Capital::Open);
        put_capital(text, hand, Capital::Fu);
        put_capital(text, hand, Capital::Shu);
        put_capital(text, hand, Capital::Close);
    } else {
        put_capital(text, hand, Capital::Fu);
    }
}

// Writes the sign before an amount below zero.
fn put_sign_before(text: &mut Buffer, hand: Hand, bracketed: bool, fen: i64)
    ensures { PutsMore hand text.old text.new (sign_before bracketed fen) }
{
    if fen < 0 {
        put_sign(text, hand, bracketed);
    }
}

/// Writes an amount that may be below zero, with a magnitude below the limit, after the sign of the
/// form, at the start of a buffer, and returns its text.
pub fn invoice_amount_text(
    room: &mut [u8; MOST_INVOICE_BYTES],
    variant: ChineseVariant,
    form: AmountForm,
    fen: i64,
) -> &str
    requires { nat_abs fen < amount_limit }
    ensures bytes { result.now ≡ encode_utf8_all (invoice_amount_text variant form fen) }
    ensures most { length result.now ≤ 129 }
{
    let hand = Hand { variant, form };
    let mut text = Buffer::new(room);
    put_sign_before(&mut text, hand, form.bracketed_sign, fen);
    put_amount(&mut text, hand, Places::of(fen.unsigned_abs()));
    text.into_text()
}

/// The amount in capitals, given in fen, as `signed_amount_to_chinese` writes it, but with the sign
/// of the form: 负 (負), or （负数） (（負數）) as on red invoices, if it is below zero. The sign is at
/// the start, before 人民币.
///
/// ```text
/// let form = AmountForm { bracketed_sign: true, ..AmountForm::PLAIN };
/// let with_name = AmountForm { currency: true, ..form };
/// let simple = ChineseVariant::Simple;
/// signed_amount_to_chinese_as(alloc, simple, form, -1_500) == Ok("（负数）壹拾伍元整")
/// signed_amount_to_chinese_as(alloc, simple, with_name, -1_500) == Ok("（负数）人民币壹拾伍元整")
/// signed_amount_to_chinese_as(alloc, simple, with_name, 1_500) == Ok("人民币壹拾伍元整")
/// ```
///
/// The result is `Overflow` if the magnitude is 10^18 fen or more. It is `OutOfMemory` if there is
/// no memory for the text, which is requested once, in its size.
pub fn signed_amount_to_chinese_as(
    alloc: Global,
    variant: ChineseVariant,
    form: AmountForm,
    fen: i64,
) -> Result<String, AmountToChineseError>
    ensures { WritesInvoiceAmount variant form fen result }
{
    if fen.unsigned_abs() >= AMOUNT_LIMIT {
        return Err(AmountToChineseError::Overflow);
    }
    let mut room = [0; MOST_INVOICE_BYTES];
    Ok(string_of(alloc, invoice_amount_text(&mut room, variant, form, fen))?)
}
