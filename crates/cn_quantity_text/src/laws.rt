//! The laws that users can rely on, stated as contracts of functions that do nothing.
ghost use Rattle.std.specs.Prelude.{◌≡◌, ℕ, ◌<◌, ◌^◌, IsSome, IsTrue, Ok, false, pos};
ghost use Rattle.cn_core.specs.declared.case.ChineseCase.{ChineseCase};
ghost use Rattle.cn_core.specs.declared.method.ChineseCountMethod.{ChineseCountMethod};
ghost use Rattle.cn_core.specs.declared.method.ChineseCountMethod.TheVariants.{Middle, TenThousand};
ghost use Rattle.cn_core.specs.declared.script.ChineseVariant.{ChineseVariant};
ghost use Rattle.cn_core.specs.Printing.{is_printable};
ghost use Rattle.cn_core.specs.Whole.{holds, signed_kind};
ghost use Rattle.cn_quantity_text.specs.Figures.{figures_text};
ghost use Rattle.cn_quantity_text.specs.Numerals.{greatest_spelled, magnitude_text};
ghost use Rattle.cn_quantity_text.specs.ReadBack.{form_read_back};
ghost use Rattle.cn_quantity_text.specs.Writes.{IsWritten, numeral_bytes};
ghost use Rattle.cn_quantity.specs.declared.quantity.Quantity.{Quantity};
ghost use Rattle.cn_quantity.specs.Misread.{is_misread};
ghost use Rattle.cn_quantity.specs.Reading.{quantity_answer};
ghost use Rattle.cn_quantity.specs.Trimmed.{decimals_of, trimmed};

/// A quantity that is written in numerals is read back with the same method, as the same numerator
/// over the same denominator. Its form is the same too, except that a quantity written as a
/// fraction, because its denominator is not one of its form, is read as a fraction, or as a
/// percentage over 100.
///
/// For programs that show quantities in numerals: 314/100 is 三點一四 as a decimal, which is read as
/// 314/100, and as nothing else.
pub fn what_is_written_is_read_back()
    ensures { (variant : ChineseVariant) (case : ChineseCase) (method : ChineseCountMethod)
        (q : Quantity) → IsTrue (holds (signed_kind 128) q.numerator)
        → q.denominator < 2 ^ 128 → IsWritten method q
        → quantity_answer method (numeral_bytes variant case method q)
        ≡ Ok (record {
          numerator = q.numerator;
          denominator = q.denominator;
          form = form_read_back q;
        }) }
{}

/// A quantity that is written with `Middle`, and in which each spelled number is below 10^16, is
/// also read back with `TenThousand`, with the same result as with `Middle`.
///
/// For programs that write texts for the mainland, where 10^12 is 一万亿, and read texts of any
/// origin.
pub fn middle_is_read_by_ten_thousand()
    ensures { (variant : ChineseVariant) (case : ChineseCase) (q : Quantity)
        → IsTrue (holds (signed_kind 128) q.numerator)
        → 0 < q.denominator → q.denominator < 2 ^ 128 → greatest_spelled q < 10 ^ 16
        → quantity_answer TenThousand (numeral_bytes variant case Middle q)
        ≡ Ok (record {
          numerator = q.numerator;
          denominator = q.denominator;
          form = form_read_back q;
        }) }
{}

/// A quantity that is written in figures without a fraction bar is read back with each method, as
/// exactly the quantity that is written, which has no zeros at the end of its decimals.
///
/// For programs that store quantities as figures: 1250/10000 as a percentage is 12.5%, which is
/// read as 125/1000, a percentage.
pub fn figures_are_read_back()
    ensures { (method : ChineseCountMethod) (q : Quantity)
        → IsTrue (holds (signed_kind 128) q.numerator) → q.denominator < 2 ^ 128
        → IsSome (decimals_of q)
        → quantity_answer method (figures_text q) ≡ Ok (trimmed q) }
{}

/// No spelling that is printed for a magnitude is misread, in any script and case and with any
/// method. If a reader reads it as an `i128`, it is the same number as a quantity; magnitudes from
/// 2^127 on are too large for a numerator.
pub fn no_spelling_is_misread()
    ensures { (variant : ChineseVariant) (case : ChineseCase) (method : ChineseCountMethod)
        (magnitude : ℕ) → magnitude < 2 ^ 128 → IsTrue (is_printable method (pos magnitude))
        → is_misread (magnitude_text variant case method magnitude) ≡ false }
{}
