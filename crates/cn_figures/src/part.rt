ghost use Rattle.std.specs.Prelude.{◌≡◌};
ghost use Rattle.cn_figures.specs.Parts.{part_of};

use cn_core::{figure_of, is_comma, is_currency, is_figure_point};

/// What a character of figures is.
#[derive(Clone, Copy)]
pub enum Part {
    /// ¥, the currency sign.
    Currency,
    /// A digit from 0 to 9.
    Digit(u8),
    /// A comma, which is before three digits.
    Comma,
    /// The point after the yuan.
    Point,
}

/// What a character is read as; `None` if it is not read. A full-width character is read as its
/// plain form.
#[tactic(auto, unfolding(crate::specs::Parts::part_of))]
pub fn part_of(character: char) -> Option<Part>
    ensures { result ≡ part_of character }
{
    if is_currency(character) {
        return Some(Part::Currency);
    }
    if is_comma(character) {
        return Some(Part::Comma);
    }
    if is_figure_point(character) {
        return Some(Part::Point);
    }
    let digit = figure_of(character)?;
    Some(Part::Digit(digit))
}
