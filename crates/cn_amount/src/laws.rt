//! What users can count on, each as the contract of a function that does nothing.
ghost use Rattle.std.specs.Prelude.{ℕ, ◌<◌, ◌≤◌, List, length, Ok, encode_utf8_all};
ghost use Rattle.cn_core.specs.declared.script.ChineseVariant.{ChineseVariant};
ghost use Rattle.cn_amount.specs.declared.form.AmountForm.{AmountForm};
ghost use Rattle.cn_amount.specs.Places.{amount_limit};
ghost use Rattle.cn_amount.specs.Reading.{IsAmount, ReadsAmount};
ghost use Rattle.cn_amount.specs.Writes.{amount_text};

pub mod signed;
pub mod typed;
pub mod typed_signed;

/// What is written for an amount, in each form, is read as that amount, by the definition of
/// reading.
pub fn written_amounts_are_amounts()
    ensures { (variant : ChineseVariant) → (form : AmountForm) → (amount : ℕ)
        → amount < amount_limit
        → ReadsAmount (encode_utf8_all (amount_text variant form amount)) (Ok amount) }
{}

/// An amount is below the limit, so a text is never too large.
pub fn amounts_are_below_the_limit()
    ensures { (text : List ℕ) → (fen : ℕ) → IsAmount text fen → fen < amount_limit }
{}

/// A form has at most 39 characters, so a reader of a longer text stops at its 40th character at
/// the latest.
pub fn forms_are_short()
    ensures { (text : List ℕ) → (fen : ℕ) → IsAmount text fen → length text ≤ 39 }
{}
