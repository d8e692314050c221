//! What holds of amounts as they are typed.
ghost use Rattle.std.specs.Prelude.{ℕ, ◌<◌, List, Ok, encode_utf8_all};
ghost use Rattle.cn_core.specs.declared.script.ChineseVariant.{ChineseVariant};
ghost use Rattle.cn_amount.specs.declared.form.AmountForm.{AmountForm};
ghost use Rattle.cn_amount.specs.Places.{amount_limit};
ghost use Rattle.cn_amount.specs.Reading.{IsAmount};
ghost use Rattle.cn_amount.specs.Typed.{IsTypedAmount, ReadsTypedAmount};
ghost use Rattle.cn_amount.specs.Writes.{amount_text};

/// What is written for an amount, in each form, is read as that amount, by the definition of
/// reading.
pub fn written_amounts_are_amounts()
    ensures { (variant : ChineseVariant) → (form : AmountForm) → (amount : ℕ)
        → amount < amount_limit
        → ReadsTypedAmount (encode_utf8_all (amount_text variant form amount)) (Ok amount) }
{}

/// What is read strictly is the same amount as it is typed.
pub fn amounts_stay_amounts()
    ensures { (text : List ℕ) → (fen : ℕ) → IsAmount text fen → IsTypedAmount text fen }
{}

/// An amount is below the limit, so a text is never too large.
pub fn amounts_are_below_the_limit()
    ensures { (text : List ℕ) → (fen : ℕ) → IsTypedAmount text fen → fen < amount_limit }
{}
