//! What holds of each grammar, each as the contract of a function that does nothing.
ghost use Rattle.std.specs.Prelude.{◌≡◌, ℕ, List, ◌++◌, Result, Err};
ghost use Rattle.cn_grammar.specs.declared.refusal.Refusal.{Refusal};
ghost use Rattle.cn_grammar.specs.declared.refusal.Refusal.TheVariants.{Incorrect};
ghost use Rattle.cn_grammar.specs.Answers.{Answers};
ghost use Rattle.cn_grammar.specs.Expected.{IsExpected, is_expected};
ghost use Rattle.cn_grammar.specs.declared.expecting.Expected.{Expected as Expectation};

use crate::Grammar;

/// No text has two values.
pub fn each_text_is_one_value<G: Grammar>()
    ensures { (text : List ℕ) → (one two : G.Value)
        → G.is_form text one → G.is_form text two → one ≡ two }
{
    G::states_read_the_forms()
}

/// Each text has one answer and no more: what is a form is neither unfinished nor incorrect, and a
/// text is incorrect at one character.
pub fn each_text_has_one_answer<G: Grammar>()
    ensures { (text : List ℕ) → (answer : Result G.Value Refusal) × Answers G.is_form text answer
        × ((other : Result G.Value Refusal) → Answers G.is_form text other → other ≡ answer) }
{
    G::states_read_the_forms()
}

/// Each prefix of a form is unfinished or a form, and never incorrect. So an input form can judge a
/// text at each key.
pub fn beginnings_are_begun<G: Grammar>()
    ensures { (start rest : List ℕ) → (value : G.Value) → G.is_form (start ++ rest) value
        → (place : ℕ) → ¬ Answers G.is_form start (Err (Incorrect place)) }
{}

/// A text has one place, at which a form may end or not, and one set of characters that may come
/// next.
pub fn expectations_agree<G: Grammar>()
    ensures { (text : List ℕ) → (one two : Expectation) → IsExpected G.is_form text one
        → IsExpected G.is_form text two → (one.char_index ≡ two.char_index)
        × (one.may_end ≡ two.may_end) × ((c : ℕ) → is_expected one c ≡ is_expected two c) }
{}

/// What may come next is said of the character at which the text is refused.
pub fn refusals_are_where_expected<G: Grammar>()
    ensures { (text : List ℕ) → (expected : Expectation) → IsExpected G.is_form text expected
        → (place : ℕ) → Answers G.is_form text (Err (Incorrect place))
        → expected.char_index ≡ place }
{}
