// What is printed is read back.
ghost use Rattle.std.specs.Prelude.{◌≡◌, ◌↔◌, ℕ, ◌^◌, ◌<◌, ℤ, nat_abs, take, Result, Ok, IsTrue, encode_utf8_all};
ghost use Rattle.chinese_number.specs.Parts.{sign_length};
ghost use Rattle.cn_core.specs.Numeral.{IsNumeral};
ghost use Rattle.cn_core.specs.Refusal.{Refusal};
ghost use Rattle.cn_core.specs.Spelling.{spelling};
ghost use Rattle.cn_core.specs.Reading.{Reads, naive_reading};
ghost use Rattle.cn_core.specs.Value.{numeral_value};
ghost use Rattle.cn_core.specs.Whole.{holds};
ghost use Rattle.cn_core.specs.Printing.{naive_text, spelled_text, is_printable};
ghost use Rattle.cn_core.specs.declared.case.ChineseCase.{ChineseCase};
ghost use Rattle.cn_core.specs.declared.method.ChineseCountMethod.{ChineseCountMethod};
ghost use Rattle.cn_core.specs.declared.method.ChineseCountMethod.TheVariants.{Middle, TenThousand};
ghost use Rattle.cn_core.specs.declared.script.ChineseVariant.{ChineseVariant};

use cn_core::Whole;

/// The spelling of each number that the type holds and the method writes is a numeral, and its
/// value is the number's magnitude.
///
/// For programs that normalise speech: what they write is a numeral by the rules. 110 is 一百一十 under
/// each method.
pub fn spellings_are_numerals<T: Whole>()
    ensures { (method : ChineseCountMethod) (number : ℤ)
        → IsTrue (holds T.kind number) → IsTrue (is_printable method number)
        → IsNumeral (spelling method (nat_abs number))
        × (numeral_value method (spelling method (nat_abs number)) ≡ nat_abs number) }
{}

/// What is printed is read back: the written spelling of a number, in any script and case, is read
/// as that number and as nothing else.
///
/// For programs that print amounts: `TenThousand` writes 1,280,500 as 一百二十八萬零五百, and that reads as
/// 1,280,500 and as nothing else.
pub fn spellings_read_back<T: Whole>()
    ensures { (variant : ChineseVariant) (case : ChineseCase) (method : ChineseCountMethod)
        (number : ℤ) → IsTrue (holds T.kind number) → IsTrue (is_printable method number)
        → (answer : Result ℤ Refusal)
        → Reads T.kind method (encode_utf8_all (spelled_text variant case method number)) answer
        ↔ (answer ≡ Ok number) }
{}

/// What `Middle` writes for a number with a magnitude below 10^16 is also read under `TenThousand`,
/// as the same number and as nothing else.
///
/// For programs that write texts for the mainland, where 10^12 is 一万亿, and read texts of any
/// origin: they need not know the method.
pub fn middle_is_read_by_ten_thousand<T: Whole>()
    ensures { (variant : ChineseVariant) (case : ChineseCase) (number : ℤ)
        → IsTrue (holds T.kind number) → nat_abs number < 10 ^ 16 → (answer : Result ℤ Refusal)
        → Reads T.kind TenThousand (encode_utf8_all (spelled_text variant case Middle number)) answer
        ↔ (answer ≡ Ok number) }
{}

/// One text for each number: two numbers have the same written text, under one method or as plain
/// digits, and in one script and case, exactly if they are equal.
///
/// For programs that print amounts: no two amounts have the same text.
pub fn one_text_for_each_number<T: Whole>()
    ensures units { (variant : ChineseVariant) (case : ChineseCase) (method : ChineseCountMethod)
        (one other : ℤ) → IsTrue (holds T.kind one) → IsTrue (holds T.kind other)
        → IsTrue (is_printable method one) → IsTrue (is_printable method other)
        → (encode_utf8_all (spelled_text variant case method one)
        ≡ encode_utf8_all (spelled_text variant case method other)) ↔ (one ≡ other) }
    ensures digits { (variant : ChineseVariant) (case : ChineseCase) (one other : ℤ)
        → IsTrue (holds T.kind one) → IsTrue (holds T.kind other)
        → (encode_utf8_all (naive_text variant case one)
        ≡ encode_utf8_all (naive_text variant case other)) ↔ (one ≡ other) }
{}

/// Each beginning of a printed text is read: the first characters of a number's text, with units or
/// as plain digits and in any script and case, are read as a number of the same type, by the same
/// method, if there are more of them than the sign has.
///
/// For forms that check a numeral at each key: while a user types 負一百二十, as it is printed, 負一, 負一百
/// and 負一百二 are accepted too.
pub fn beginnings_are_read<T: Whole>()
    ensures units { (variant : ChineseVariant) (case : ChineseCase) (method : ChineseCountMethod)
        (number : ℤ) (count : ℕ) → IsTrue (holds T.kind number)
        → IsTrue (is_printable method number) → let text = spelled_text variant case method number
        in sign_length T.kind (encode_utf8_all text) < count
        → (beginning : ℤ) × Reads T.kind method (encode_utf8_all (take count text)) (Ok beginning) }
    ensures digits { (variant : ChineseVariant) (case : ChineseCase) (number : ℤ) (count : ℕ)
        → IsTrue (holds T.kind number) → let digits = naive_text variant case number in
        sign_length T.kind (encode_utf8_all digits) < count
        → (beginning : ℤ)
        × (naive_reading T.kind (encode_utf8_all (take count digits)) ≡ Ok beginning) }
{}
