//! What holds of amounts as they are typed or copied, with a sign or without one.
ghost use Rattle.std.specs.Prelude.{ℕ, ◌<◌, ℤ, pos, nat_abs, List, Ok, encode_utf8_all};
ghost use Rattle.cn_core.specs.declared.script.ChineseVariant.{ChineseVariant};
ghost use Rattle.cn_amount.specs.declared.form.AmountForm.{AmountForm};
ghost use Rattle.cn_amount.specs.Invoice.{invoice_amount_text};
ghost use Rattle.cn_amount.specs.Places.{amount_limit};
ghost use Rattle.cn_amount.specs.Signed.{IsSignedAmount, signed_amount_text};
ghost use Rattle.cn_amount.specs.Typed.{IsTypedAmount, IsTypedSignedAmount, ReadsTypedSignedAmount};

/// What is written for an amount with 负, in each form, is read as that amount, by the definition of
/// reading.
pub fn written_amounts_are_amounts()
    ensures { (variant : ChineseVariant) → (form : AmountForm) → (fen : ℤ)
        → nat_abs fen < amount_limit
        → ReadsTypedSignedAmount (encode_utf8_all (signed_amount_text variant form fen)) (Ok fen) }
{}

/// What is written for an amount with the sign of the form, 负 or （负数）, is read as that amount too.
pub fn amounts_with_each_sign_are_amounts()
    ensures { (variant : ChineseVariant) → (form : AmountForm) → (fen : ℤ)
        → nat_abs fen < amount_limit
        → ReadsTypedSignedAmount (encode_utf8_all (invoice_amount_text variant form fen)) (Ok fen) }
{}

/// What is read as typed without a sign is the same amount.
pub fn typed_amounts_stay_amounts()
    ensures { (text : List ℕ) → (fen : ℕ)
        → IsTypedAmount text fen → IsTypedSignedAmount text (pos fen) }
{}

/// What is read strictly with a sign is the same amount as it is typed.
pub fn signed_amounts_stay_amounts()
    ensures { (text : List ℕ) → (fen : ℤ) → IsSignedAmount text fen → IsTypedSignedAmount text fen }
{}

/// The magnitude of an amount is below the limit, so a text is never too large or too small.
pub fn amounts_are_below_the_limit()
    ensures { (text : List ℕ) → (fen : ℤ)
        → IsTypedSignedAmount text fen → nat_abs fen < amount_limit }
{}
