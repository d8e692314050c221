// Laws of plain digits.
ghost use Rattle.std.specs.Prelude.{◌≡◌, ◌↔◌, ◌<◌, ◌++◌, ℕ, ℤ, List, Ok, Some, IsTrue, All, length, encode_utf8_all};
ghost use Rattle.std.specs.List.{list_all};
ghost use Rattle.chinese_number.specs.Digits.{is_digit};
ghost use Rattle.chinese_number.specs.Parts.{sign_at, sign_text, unsigned_text};
ghost use Rattle.cn_core.specs.Characters.{digit_of};
ghost use Rattle.cn_core.specs.Naive.{decimal_value};
ghost use Rattle.cn_core.specs.Text.{text_of, marks_of};
ghost use Rattle.cn_core.specs.Reading.{naive_reading, is_minus};
ghost use Rattle.cn_core.specs.Whole.{signed_number, Kind, holds};
ghost use Rattle.cn_core.specs.Printing.{naive_text};
ghost use Rattle.cn_core.specs.declared.case.ChineseCase.{ChineseCase};
ghost use Rattle.cn_core.specs.declared.script.ChineseVariant.{ChineseVariant};

use cn_core::Whole;

/// A string is read as a number, as plain digits, exactly if its text, without white space and, for
/// a signed type, one leading sign, is one or more digits and nothing else, and their signed value
/// is that number, which the type holds.
///
/// For form validators that accept only digits: 二零二五 is 2025, and 二千零二十五 is refused.
pub fn digits_alone_are_read<T: Whole>()
    ensures { (bytes : List ℕ) (number : ℤ)
        → let marks = marks_of (unsigned_text T.kind bytes) in
        (naive_reading T.kind bytes ≡ Ok number)
        ↔ ((0 < length marks) × IsTrue (list_all is_digit marks)
        × (signed_number (is_minus (sign_at T.kind bytes)) (decimal_value marks) ≡ number)
        × IsTrue (holds T.kind number)) }
{}

/// Plain digits are read back: the text that is printed of a number, in any script and case, is
/// read as that number.
///
/// For dates and serial numbers, which are read digit by digit: 2025 is 二零二五.
pub fn naive_texts_read_back<T: Whole>()
    ensures { (variant : ChineseVariant) (case : ChineseCase) (number : ℤ)
        → IsTrue (holds T.kind number)
        → naive_reading T.kind (encode_utf8_all (naive_text variant case number)) ≡ Ok number }
{}

/// Leading zeros change nothing: if a string of plain digits is read as a number, so is the string
/// with any number of zeros before its digits, after its sign.
///
/// For a search index that folds numerals to numbers: 零零一二 is 12, as 一二 is.
pub fn leading_zeros_change_nothing()
    ensures { (kind : Kind) (bytes more zeros : List ℕ) (number : ℤ)
        → All (λ c. digit_of c ≡ Some 0) zeros
        → text_of more ≡ sign_text kind bytes ++ zeros ++ unsigned_text kind bytes
        → naive_reading kind bytes ≡ Ok number → naive_reading kind more ≡ Ok number }
{}
