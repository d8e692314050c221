// Writes amounts.
ghost use Rattle.std.specs.Prelude.{◌≡◌, ◌<◌, ◌≤◌, nat_abs, length, encode_utf8_all};
ghost use Rattle.cn_amount.specs.Places.{amount_limit};
ghost use Rattle.cn_amount.specs.Signed.{WritesSignedAmount, signed_amount_text};
ghost use Rattle.cn_amount.specs.Writes.{WritesAmountAs, WritesAmount, amount_text};

use crate::AmountToChineseError;
use crate::form::{AmountForm, Hand};
use crate::places::Places;
use crate::put::{put_amount, put_sign};
use cn_core::{Buffer, ChineseVariant, string_of};
use std::alloc::Global;

/// The first amount that is not written: 10^16 yuan, in fen.
pub const AMOUNT_LIMIT: u64 = 1_000_000_000_000_000_000;

/// The most bytes of an amount: three for each of 39 characters.
pub const MOST_AMOUNT_BYTES: usize = 117;

/// The most bytes of an amount after 负.
pub const MOST_SIGNED_BYTES: usize = MOST_AMOUNT_BYTES + 3;

/// Writes an amount below the limit at the start of a buffer, and returns its text.
pub fn amount_text(
    room: &mut [u8; MOST_AMOUNT_BYTES],
    variant: ChineseVariant,
    form: AmountForm,
    fen: u64,
) -> &str
    requires { fen < amount_limit }
    ensures bytes { result.now ≡ encode_utf8_all (amount_text variant form fen) }
    ensures most { length result.now ≤ 117 }
{
    let mut text = Buffer::new(room);
    put_amount(&mut text, Hand { variant, form }, Places::of(fen));
    text.into_text()
}

/// The amount in capitals, as on a cheque. The amount is given in fen, a hundredth of a yuan.
///
/// ```text
/// amount_to_chinese(alloc, ChineseVariant::Simple, 140_950) == Ok("壹仟肆佰零玖元伍角整")
/// ```
///
/// From 10^18 fen on the result is `Overflow`, and no memory is requested: 万 and 亿 are not enough
/// there, and 兆 is read by some as 10^6 and by others as 10^12 or 10^16. It is `OutOfMemory` if
/// there is no memory for the text, which is requested once, in its size.
pub fn amount_to_chinese(
    alloc: Global,
    variant: ChineseVariant,
    fen: u64,
) -> Result<String, AmountToChineseError>
    ensures { WritesAmount variant fen result }
{
    amount_to_chinese_as(alloc, variant, AmountForm::PLAIN, fen)
}

/// The amount in capitals, as `amount_to_chinese` writes it, but in a given form. The errors are
/// the same.
///
/// ```text
/// let form = AmountForm { currency: true, ..AmountForm::PLAIN };
/// amount_to_chinese_as(alloc, ChineseVariant::Simple, form, 1_500) == Ok("人民币壹拾伍元整")
/// ```
pub fn amount_to_chinese_as(
    alloc: Global,
    variant: ChineseVariant,
    form: AmountForm,
    fen: u64,
) -> Result<String, AmountToChineseError>
    ensures { WritesAmountAs variant form fen result }
{
    if fen >= AMOUNT_LIMIT {
        return Err(AmountToChineseError::Overflow);
    }
    let mut room = [0; MOST_AMOUNT_BYTES];
    Ok(string_of(alloc, amount_text(&mut room, variant, form, fen))?)
}

/// Writes an amount that may be below zero, with a magnitude below the limit, at the start of a
/// buffer, and returns its text.
pub fn signed_amount_text(
    room: &mut [u8; MOST_SIGNED_BYTES],
    variant: ChineseVariant,
    form: AmountForm,
    fen: i64,
) -> &str
    requires { nat_abs fen < amount_limit }
    ensures bytes { result.now ≡ encode_utf8_all (signed_amount_text variant form fen) }
    ensures most { length result.now ≤ 120 }
{
    let hand = Hand { variant, form };
    let mut text = Buffer::new(room);
    put_sign(&mut text, hand, fen);
    put_amount(&mut text, hand, Places::of(fen.unsigned_abs()));
    text.into_text()
}

/// The amount in capitals, as `amount_to_chinese_as` writes it, but after 负 (負) if it is below
/// zero, as on red invoices. No rule of the banks has the sign, and no cheque takes it. The form
/// decides nothing about the sign: `signed_amount_to_chinese_as` writes the sign of the form.
///
/// ```text
/// let plain = AmountForm::PLAIN;
/// signed_amount_to_chinese(alloc, ChineseVariant::Simple, plain, -1_500) == Ok("负壹拾伍元整")
/// signed_amount_to_chinese(alloc, ChineseVariant::Simple, plain, 1_500) == Ok("壹拾伍元整")
/// ```
///
/// The result is `Overflow` if the magnitude is 10^18 fen or more, and otherwise as above.
pub fn signed_amount_to_chinese(
    alloc: Global,
    variant: ChineseVariant,
    form: AmountForm,
    fen: i64,
) -> Result<String, AmountToChineseError>
    ensures { WritesSignedAmount variant form fen result }
{
    if fen.unsigned_abs() >= AMOUNT_LIMIT {
        return Err(AmountToChineseError::Overflow);
    }
    let mut room = [0; MOST_SIGNED_BYTES];
    Ok(string_of(alloc, signed_amount_text(&mut room, variant, form, fen))?)
}
