//! Laws of quantities: a refusal points at a character and has a reason, a number is the same number
//! as a quantity, what is written is read back, and zeros that are left out at the end do not change
//! the value.
ghost use Rattle.std.specs.Prelude.{◌≡◌, ℕ, ℤ, List, Ok, false};
ghost use Rattle.chinese_number.specs.Parts.{unsigned_text};
ghost use Rattle.cn_core.specs.declared.method.ChineseCountMethod.{ChineseCountMethod};
ghost use Rattle.cn_core.specs.Reading.{Reads, naive_reading};
ghost use Rattle.cn_core.specs.Whole.{signed_kind};
ghost use Rattle.cn_quantity.specs.declared.quantity.QuantityForm.TheVariants.{Whole};
ghost use Rattle.cn_quantity.specs.Misread.{is_misread};
ghost use Rattle.cn_quantity.specs.Reading.{quantity_answer};

pub use cn_quantity::laws::{
    each_refusal_has_a_reason, refusals_point_at_characters, trimmed_keeps_the_value,
};
pub use cn_quantity_text::laws::{
    figures_are_read_back, middle_is_read_by_ten_thousand, no_spelling_is_misread,
    what_is_written_is_read_back,
};

/// A number is the same number as a quantity, unless it is misread: a string that is read as an
/// `i128`, by a method or as plain digits, is read as the quantity with that numerator and the
/// denominator 1.
///
/// For callers who read numbers and want to read quantities instead.
pub fn numbers_stay_numbers()
    ensures units { (method : ChineseCountMethod) (bytes : List ℕ) (number : ℤ)
        → Reads (signed_kind 128) method bytes (Ok number)
        → is_misread (unsigned_text (signed_kind 128) bytes) ≡ false
        → quantity_answer method bytes
        ≡ Ok (record { numerator = number; denominator = 1; form = Whole }) }
    ensures digits { (method : ChineseCountMethod) (bytes : List ℕ) (number : ℤ)
        → naive_reading (signed_kind 128) bytes ≡ Ok number
        → is_misread (unsigned_text (signed_kind 128) bytes) ≡ false
        → quantity_answer method bytes
        ≡ Ok (record { numerator = number; denominator = 1; form = Whole }) }
{}
