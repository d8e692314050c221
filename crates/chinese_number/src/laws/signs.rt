// What a leading sign does.
ghost use Rattle.std.specs.Prelude.{◌≡◌, ◌↔◌, [], ◌∷◌, ℕ, ℤ, pos, false, List, Result, Ok, Some, IsTrue};
ghost use Rattle.cn_core.specs.Characters.{digit_of, sign_of};
ghost use Rattle.cn_core.specs.Numeral.{IsNumeral};
ghost use Rattle.cn_core.specs.Place.{some_unfit};
ghost use Rattle.cn_core.specs.Refusal.{Refusal};
ghost use Rattle.cn_core.specs.Text.{text_of, marks_of};
ghost use Rattle.cn_core.specs.Reading.{Reads, is_minus};
ghost use Rattle.cn_core.specs.Value.{numeral_value};
ghost use Rattle.cn_core.specs.Whole.{signed_number, holds};
ghost use Rattle.cn_core.specs.declared.method.ChineseCountMethod.{ChineseCountMethod};
ghost use Rattle.cn_core.specs.declared.sign.Sign.TheVariants.{Minus};
ghost use Rattle.cn_core.specs.declared.sign.Sign.{Sign};

use cn_core::Whole;

/// A numeral after a sign, if the scales of its units fit, is read as its signed value: after 負 the
/// negated value, after 正 the value itself, in each signed type that holds it.
///
/// For programs that normalise speech: 負十 is -10, and 正十 is 10.
pub fn a_sign_gives_the_signed_value<T: Whole>()
    ensures { (method : ChineseCountMethod) (bytes rest : List ℕ) (character : ℕ) (sign : Sign)
        → IsTrue T.SIGNED → text_of bytes ≡ character ∷ rest → sign_of character ≡ Some sign
        → IsNumeral (marks_of rest) → some_unfit method (marks_of rest) ≡ false
        → let number = signed_number (is_minus (Some sign)) (numeral_value method (marks_of rest)) in
        IsTrue (holds T.kind number)
        → (answer : Result ℤ Refusal) → Reads T.kind method bytes answer ↔ (answer ≡ Ok number) }
{}

/// A zero after a minus sign is read as 0, in each signed type: 負零.
///
/// For a search index that converts numerals to numbers: there is only one zero.
pub fn minus_zero_is_zero<T: Whole>()
    ensures { (method : ChineseCountMethod) (bytes : List ℕ) (minus zero : ℕ) → IsTrue T.SIGNED
        → sign_of minus ≡ Some Minus → digit_of zero ≡ Some 0
        → text_of bytes ≡ minus ∷ zero ∷ []
        → (answer : Result ℤ Refusal) → Reads T.kind method bytes answer ↔ (answer ≡ Ok (pos 0)) }
{}
