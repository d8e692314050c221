//! What callers can count on of a text in which phrases are written in figures, each as the contract of a
//! function that does nothing.
ghost use Rattle.std.specs.Prelude.{◌≡◌, ℕ, List, true, IsUtf8};
ghost use Rattle.cn_find.specs.Spans.{expressions};
ghost use Rattle.cn_replace.specs.InFigures.{in_figures};
ghost use Rattle.cn_phrase.specs.Items.{items};
ghost use Rattle.cn_phrase.specs.InText.{text_in_figures};
ghost use Rattle.cn_phrase.specs.Plain.{has_no_phrase};

use cn_core::ChineseCountMethod;
use cn_find::Wanted;
use cn_replace::Figures;

/// The items of a text in which no phrase, no sum of money and no range begins are its expressions.
pub fn items_are_expressions_without_phrases(wanted: Wanted)
    ensures { (bytes : List ℕ) → has_no_phrase wanted bytes ≡ true
        → items wanted bytes ≡ expressions wanted bytes }
{}

/// A text in which no phrase, no sum of money and no range begins is written in figures as its quantities are.
pub fn texts_without_phrases_are_written_as_their_quantities(
    wanted: Wanted,
    method: ChineseCountMethod,
    figures: Figures,
)
    ensures { (bytes : List ℕ) → IsUtf8 bytes → has_no_phrase wanted bytes ≡ true
        → text_in_figures method figures wanted bytes ≡ in_figures method figures wanted bytes }
{}
