// The scripts and cases agree.
ghost use Rattle.std.specs.Prelude.{◌≡◌, ℤ, length};
ghost use Rattle.cn_core.specs.Printing.{naive_text, spelled_text};
ghost use Rattle.cn_core.specs.declared.case.ChineseCase.{ChineseCase};
ghost use Rattle.cn_core.specs.declared.method.ChineseCountMethod.{ChineseCountMethod};
ghost use Rattle.cn_core.specs.declared.script.ChineseVariant.{ChineseVariant};

use cn_core::Whole;

/// The four texts of a number, by script and case, have the same number of characters.
///
/// For forms: a field that is long enough for one of the texts is long enough for each. 123 has
/// five characters in each.
pub fn texts_of_a_number_are_equally_long()
    ensures units { (one other : ChineseVariant) (first second : ChineseCase)
        (method : ChineseCountMethod) (number : ℤ)
        → length (spelled_text one first method number)
        ≡ length (spelled_text other second method number) }
    ensures digits { (one other : ChineseVariant) (first second : ChineseCase) (number : ℤ)
        → length (naive_text one first number) ≡ length (naive_text other second number) }
{}
