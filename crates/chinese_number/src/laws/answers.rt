// Which answer a string has.
ghost use Rattle.std.specs.Prelude.{◌≡◌, ◌↔◌, ℕ, ℤ, false, List, Option, None, Result, Ok, IsTrue};
ghost use Rattle.chinese_number.specs.Parts.{sign_at, unsigned_text};
ghost use Rattle.cn_core.specs.Judge.{Judges};
ghost use Rattle.cn_core.specs.Judging.{judge};
ghost use Rattle.cn_core.specs.Mark.{Mark};
ghost use Rattle.cn_core.specs.Numeral.{IsNumeral};
ghost use Rattle.cn_core.specs.Place.{some_unfit};
ghost use Rattle.cn_core.specs.Refusal.{Refusal};
ghost use Rattle.cn_core.specs.Text.{marks_of};
ghost use Rattle.cn_core.specs.Reading.{Reads, is_minus};
ghost use Rattle.cn_core.specs.Value.{numeral_value};
ghost use Rattle.cn_core.specs.Whole.{signed_number, Kind, holds};
ghost use Rattle.cn_judge.specs.Reason.{IsReason};
ghost use Rattle.cn_judge.specs.declared.fault.NumeralFault.{NumeralFault};
ghost use Rattle.cn_core.specs.declared.method.ChineseCountMethod.{ChineseCountMethod};

use cn_core::Whole;

/// Each text has one judgement under a method: a number, or one refusal.
///
/// For authors of other readers: there is one right answer.
pub fn each_text_has_one_judgement()
    ensures { (method : ChineseCountMethod) (marks : List Mark)
        → (answer : Result ℕ Refusal) × Judges method marks answer
        × ((other : Result ℕ Refusal) → Judges method marks other → other ≡ answer) }
{}

/// The judgement of a text is the one that `judge` computes, and no other.
///
/// For authors of tests or tables: `Judges` quantifies over all prefixes that a text could have,
/// and `judge` looks at the text alone: 二十十 is refused at place 1.
pub fn judgements_can_be_computed()
    ensures { (method : ChineseCountMethod) (marks : List Mark) (answer : Result ℕ Refusal)
        → Judges method marks answer ↔ (judge method marks ≡ answer) }
{}

/// Each string has one answer, for each type and method.
///
/// For a search index that stores answers: a stored answer is right whenever the same string occurs
/// again.
pub fn each_string_has_one_answer()
    ensures { (kind : Kind) (method : ChineseCountMethod) (bytes : List ℕ)
        → (answer : Result ℤ Refusal) × Reads kind method bytes answer
        × ((other : Result ℤ Refusal) → Reads kind method bytes other → other ≡ answer) }
{}

/// A string is read as a number exactly if its text, without white space and, for a signed type,
/// one leading sign, is a numeral whose scales all fit 128 bits and whose signed value is that
/// number, which the type holds.
///
/// For programs that read dates, chapter numbers and amounts: exactly the numerals are read, with
/// the value that the definitions give them, such as 120 for 一百二.
pub fn numerals_alone_are_read<T: Whole>()
    ensures { (method : ChineseCountMethod) (bytes : List ℕ) (number : ℤ)
        → let marks = marks_of (unsigned_text T.kind bytes) in
        Reads T.kind method bytes (Ok number)
        ↔ (IsNumeral marks × (some_unfit method marks ≡ false)
        × (signed_number (is_minus (sign_at T.kind bytes)) (numeral_value method marks) ≡ number)
        × IsTrue (holds T.kind number)) }
{}

/// Each string that is read with units has one reason for its refusal, or none, and none exactly if
/// it is read as a number.
///
/// For form validators that explain what is wrong: 一百十 breaks rule 4, and no other rule is named.
pub fn each_refusal_has_one_reason()
    ensures reason { (kind : Kind) (method : ChineseCountMethod) (bytes : List ℕ)
        → (reason : Option NumeralFault) × IsReason kind method bytes reason
        × ((other : Option NumeralFault) → IsReason kind method bytes other → other ≡ reason) }
    ensures none { (kind : Kind) (method : ChineseCountMethod) (bytes : List ℕ)
        → IsReason kind method bytes None
        ↔ ((number : ℤ) × Reads kind method bytes (Ok number)) }
{}
