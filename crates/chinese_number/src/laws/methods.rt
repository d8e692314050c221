// Where the four methods agree, and where they do not.
ghost use Rattle.std.specs.Prelude.{◌≡◌, ◌≢◌, ◌↔◌, ◌^◌, ◌<◌, ℕ, ℤ, List, Result, IsTrue};
ghost use Rattle.chinese_number.specs.Methods.{names_no_unit_above_wan, names_no_unit_above_yi};
ghost use Rattle.chinese_number.specs.Parts.{unsigned_text};
ghost use Rattle.cn_core.specs.Refusal.{Refusal};
ghost use Rattle.cn_core.specs.Spelling.{spelling};
ghost use Rattle.cn_core.specs.Text.{marks_of};
ghost use Rattle.cn_core.specs.Reading.{Reads};
ghost use Rattle.cn_core.specs.Whole.{Kind};
ghost use Rattle.cn_core.specs.declared.method.ChineseCountMethod.{ChineseCountMethod};
ghost use Rattle.cn_core.specs.declared.method.ChineseCountMethod.TheVariants.{Low, TenThousand, Middle, High};

/// The methods spell a number alike if they use the same units for it: all four below 10^5, all
/// except `Low` below 10^12, and `Middle` and `High` below 10^24.
///
/// For programs that print years, page and chapter numbers: the method does not matter. 10,000 is
/// 一萬 under each of them.
pub fn methods_spell_alike_below()
    ensures all { (number : ℕ) → number < 10 ^ 5 → (one other : ChineseCountMethod)
        → spelling one number ≡ spelling other number }
    ensures three { (number : ℕ) → number < 10 ^ 12
        → (spelling TenThousand number ≡ spelling Middle number)
        × (spelling Middle number ≡ spelling High number) }
    ensures two { (number : ℕ) → number < 10 ^ 24 → spelling Middle number ≡ spelling High number }
{}

/// These limits are exact: the methods differ at 10^5 for `Low`, at 10^12 for `TenThousand`, and at
/// 10^24 for `Middle`.
///
/// For programs that print large numbers: from these limits on the method matters. 100,000 is 一億
/// under `Low` and 十萬 under the others.
pub fn methods_spell_otherwise_from()
    ensures low { (spelling Low (10 ^ 5) ≢ spelling TenThousand (10 ^ 5))
        × (spelling Low (10 ^ 5) ≢ spelling Middle (10 ^ 5))
        × (spelling Low (10 ^ 5) ≢ spelling High (10 ^ 5)) }
    ensures ten_thousand { (spelling TenThousand (10 ^ 12) ≢ spelling Middle (10 ^ 12))
        × (spelling TenThousand (10 ^ 12) ≢ spelling High (10 ^ 12)) }
    ensures middle { spelling Middle (10 ^ 24) ≢ spelling High (10 ^ 24) }
{}

/// A string without units above 萬 has the same answer under all four methods, the char_index of a
/// refusal included, and a string without units above 億 has it under all except `Low`. The sign
/// that is removed for a signed type does not count: 正 is also a unit.
///
/// For programs that read dates and chapter numbers: the method does not matter. 一萬億 is 10^12 under
/// three of them.
pub fn small_units_read_alike()
    ensures all { (kind : Kind) (bytes : List ℕ)
        → IsTrue (names_no_unit_above_wan (marks_of (unsigned_text kind bytes)))
        → (one other : ChineseCountMethod) (answer : Result ℤ Refusal)
        → Reads kind one bytes answer ↔ Reads kind other bytes answer }
    ensures three { (kind : Kind) (bytes : List ℕ)
        → IsTrue (names_no_unit_above_yi (marks_of (unsigned_text kind bytes)))
        → (answer : Result ℤ Refusal)
        → (Reads kind TenThousand bytes answer ↔ Reads kind Middle bytes answer)
        × (Reads kind Middle bytes answer ↔ Reads kind High bytes answer) }
{}
