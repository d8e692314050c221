// Amounts of money as they are typed.
ghost use Rattle.cn_c.specs.SignedAmounts.{IsTypedRead, IsTypedSignedRead};

use crate::amount::{Amount, NOTHING, tell_amount};
use crate::signed_amount::{NO_SIGNED, SignedAmount, tell_signed};
use crate::status::NOT_UTF8;
use chinese_number::{chinese_to_amount_as_typed, chinese_to_signed_amount_as_typed};
use cn_dynamic::utf8_text;

/// Reads a text in capitals as people type it: like `chinese_amount_read`, but white space, ⊗ at
/// the start and a colon after 人民币 are left out. The place of a character at fault is its place
/// in the text that was passed. The statuses are those of `chinese_amount_read`.
///
/// Writes all of `*amount` at each status, and nothing else.
#[unsafe(no_mangle)]
pub extern "C" fn chinese_typed_amount_read(text: &[u8], amount: &mut Amount) -> u32
    ensures { IsTypedRead text.now result amount.new }
{
    *amount = NOTHING;
    match utf8_text(text) {
        Some(text) => tell_amount(text, chinese_to_amount_as_typed(text), amount),
        None => NOT_UTF8,
    }
}

/// Reads a text in capitals as people type it or copy it from a red invoice, with a sign or without
/// one: like `chinese_typed_amount_read`, but 负, （负数） and their variants are read too, before or
/// after 人民币, and 人民币（大写） is read. The statuses are those of `chinese_amount_read`.
///
/// Writes all of `*amount` at each status, and nothing else.
#[unsafe(no_mangle)]
pub extern "C" fn chinese_typed_signed_amount_read(text: &[u8], amount: &mut SignedAmount) -> u32
    ensures { IsTypedSignedRead text.now result amount.new }
{
    *amount = NO_SIGNED;
    match utf8_text(text) {
        Some(text) => tell_signed(text, chinese_to_signed_amount_as_typed(text), amount),
        None => NOT_UTF8,
    }
}
