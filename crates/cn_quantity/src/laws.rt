//! What users can rely on, as contracts of functions that do nothing.
ghost use Rattle.std.specs.Prelude.{◌≡◌, ◌↔◌, ◌⊎◌, ◌<◌, ◌%◌, ◌*ℤ◌, ℕ, List, length, nat_abs, pos, Err, IsSome, None, Ok, Some};
ghost use Rattle.cn_core.specs.declared.method.ChineseCountMethod.{ChineseCountMethod};
ghost use Rattle.cn_core.specs.CharIndex.{char_index_of};
ghost use Rattle.cn_core.specs.Refusal.{incorrect_at};
ghost use Rattle.cn_core.specs.Text.{text_of};
ghost use Rattle.cn_quantity.specs.declared.quantity.Quantity.{Quantity};
ghost use Rattle.cn_quantity.specs.declared.quantity.QuantityForm.TheVariants.{Percent};
ghost use Rattle.cn_quantity.specs.Reading.{quantity_answer};
ghost use Rattle.cn_quantity.specs.Reason.{quantity_fault};
ghost use Rattle.cn_quantity.specs.Trimmed.{decimals_of, trimmed};

/// A refusal points at a character: its char_index is that of a place of the text, sign included.
///
/// For form validators: they mark that character.
pub fn refusals_point_at_characters()
    ensures { (method : ChineseCountMethod) (bytes : List ℕ) (char_index : ℕ)
        → quantity_answer method bytes ≡ Err (incorrect_at char_index)
        → (place : ℕ) × (place < length (text_of bytes))
        × (char_index ≡ char_index_of bytes place) }
{}

/// `trimmed` keeps the value: both numerators over their denominators are the same ratio, a
/// denominator above 0 is still above 0, and the result is a percentage exactly if the quantity is
/// one. If the number of decimals is known, it is still known, and either no decimal is left or the
/// last one is not zero. If it is not known, the quantity does not change.
///
/// For programs that show or compare quantities without zeros at their end: 350000/10 becomes
/// 35000/1, and 12.50%, which is 1250/10000, becomes 125/1000.
pub fn trimmed_keeps_the_value()
    ensures value { (q : Quantity)
        → (trimmed q).numerator *ℤ pos q.denominator ≡ q.numerator *ℤ pos (trimmed q).denominator }
    ensures above { (q : Quantity) → 0 < q.denominator → 0 < (trimmed q).denominator }
    ensures percent { (q : Quantity) → ((trimmed q).form ≡ Percent) ↔ (q.form ≡ Percent) }
    ensures known { (q : Quantity) → IsSome (decimals_of q) → IsSome (decimals_of (trimmed q)) }
    ensures last { (q : Quantity) → IsSome (decimals_of q)
        → (decimals_of (trimmed q) ≡ Some 0) ⊎ (0 < nat_abs (trimmed q).numerator % 10) }
    ensures unknown { (q : Quantity) → decimals_of q ≡ None → trimmed q ≡ q }
{}

/// A text has a reason exactly if it is not a quantity.
///
/// For form validators that explain what is wrong: `explain_quantity` never leaves a refusal without
/// a reason.
pub fn each_refusal_has_a_reason()
    ensures { (method : ChineseCountMethod) (bytes : List ℕ)
        → (quantity_fault method bytes ≡ None)
        ↔ ((quantity : Quantity) × (quantity_answer method bytes ≡ Ok quantity)) }
{}
