//! What holds of amounts that may be below zero.
ghost use Rattle.std.specs.Prelude.{ℕ, ◌<◌, ◌≤◌, ℤ, pos, nat_abs, List, length, Ok, encode_utf8_all};
ghost use Rattle.cn_core.specs.declared.script.ChineseVariant.{ChineseVariant};
ghost use Rattle.cn_amount.specs.declared.form.AmountForm.{AmountForm};
ghost use Rattle.cn_amount.specs.Places.{amount_limit};
ghost use Rattle.cn_amount.specs.Reading.{IsAmount};
ghost use Rattle.cn_amount.specs.Signed.{IsSignedAmount, ReadsSignedAmount, signed_amount_text};

/// What is written for an amount, in each form, is read as that amount, by the definition of
/// reading.
pub fn written_amounts_are_amounts()
    ensures { (variant : ChineseVariant) → (form : AmountForm) → (fen : ℤ)
        → nat_abs fen < amount_limit
        → ReadsSignedAmount (encode_utf8_all (signed_amount_text variant form fen)) (Ok fen) }
{}

/// An amount without a sign is the same with signs allowed.
pub fn amounts_stay_amounts()
    ensures { (text : List ℕ) → (fen : ℕ) → IsAmount text fen → IsSignedAmount text (pos fen) }
{}

/// The magnitude of an amount is below the limit, so a text is never too large or too small.
pub fn amounts_are_below_the_limit()
    ensures { (text : List ℕ) → (fen : ℤ) → IsSignedAmount text fen → nat_abs fen < amount_limit }
{}

/// A form has at most 40 characters, so a reader of a longer text stops at its 41st character at
/// the latest.
pub fn forms_are_short()
    ensures { (text : List ℕ) → (fen : ℤ) → IsSignedAmount text fen → length text ≤ 40 }
{}
