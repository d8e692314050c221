//! What users can count on, each as the contract of a function that does nothing.
ghost use Rattle.std.specs.Prelude.{◌≡◌, ◌↔◌, ℕ, ◌<◌, Ok, IsTrue};
ghost use Rattle.cn_amount.specs.Places.{amount_limit};
ghost use Rattle.cn_figures.specs.declared.error.FiguresError.{FiguresError as ReadingError};
ghost use Rattle.cn_figures.specs.Figures.{ReadsFigures, figures_of};

use crate::FiguresError;

/// Two errors are equal exactly if they are the same variant and, if they have a char_index, it is
/// the same.
///
/// For callers who compare errors: two that are incorrect at different characters are not equal.
pub fn equal_errors_are_the_same_variant()
    ensures { (a b : ReadingError)
        → IsTrue (⟦<FiguresError as PartialEq>⟧.eq a b) ↔ (a ≡ b) }
{}

/// The figures that are shown of an amount are read as that amount.
pub fn shown_amounts_are_read()
    ensures { (fen : ℕ) → fen < amount_limit → ReadsFigures (figures_of fen) (Ok fen) }
{}
