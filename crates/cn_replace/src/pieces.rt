// Tests of characters, and the pieces of a text that pass them.
ghost use Rattle.std.specs.Prelude.{◌≡◌, ℕ, Bool, true, ◌∷◌, [], ◌++◌, chars, not, nat_lt, MatchOption};
ghost use Rattle.std.specs.Char.{is_ascii_alphabetic};
ghost use Rattle.std.specs.List.{list_all, list_any};
ghost use Rattle.std.specs.Option.{option_map_or};
ghost use Rattle.cn_core.specs.Characters.{digit_of, rank, rank_of};
ghost use Rattle.cn_find.specs.Belongs.{is_chinese_digit};
ghost use Rattle.cn_find.specs.Spans.{in_front};
ghost use Rattle.cn_core.specs.FigureCharacters.{is_figure};
ghost use Rattle.cn_replace.specs.Pieces.{after_leading, begins, is_letter_or_figure, is_point, is_unit_from, is_zero, leading};
ghost use Rattle.cn_replace.specs.Private.{IsEnd};

use cn_core::{Unit, digit_of, is_figure, split_first_char, unit_of};
use cn_judge::split_last_char;

/// A test of characters.
pub trait CharTest: Copy {
    ghost test: { Self → ℕ → Bool };

    /// Whether a character passes.
    fn passes(self, c: char) -> bool
        ensures { result ≡ test self c };
}

/// A figure: an ASCII digit or its full-width form.
#[derive(Copy, Clone)]
pub struct Figure;

impl CharTest for Figure {
    ghost test = { λ _. is_figure };

    fn passes(self, c: char) -> bool {
        is_figure(c)
    }
}

/// A character that is not a Chinese point.
#[derive(Copy, Clone)]
pub struct NoPoint;

impl CharTest for NoPoint {
    ghost test = { λ _ c. not (is_point c) };

    #[tactic(auto, unfolding(crate::specs::Pieces::is_point))]
    fn passes(self, c: char) -> bool {
        !matches!(c, '点' | '點')
    }
}

/// A zero that is not a figure.
#[derive(Copy, Clone)]
pub struct Zero;

impl CharTest for Zero {
    ghost test = { λ _. is_zero };

    #[tactic(auto, unfolding(crate::specs::Pieces::is_zero))]
    fn passes(self, c: char) -> bool {
        matches!(c, '零' | '〇')
    }
}

/// A digit of numerals that is not a figure.
#[derive(Copy, Clone)]
pub struct ChineseDigit;

impl CharTest for ChineseDigit {
    ghost test = { λ _. is_chinese_digit };

    fn passes(self, c: char) -> bool {
        digit_of(c).is_some() && !c.is_ascii_digit()
    }
}

/// An ASCII letter.
#[derive(Copy, Clone)]
pub struct Letter;

impl CharTest for Letter {
    ghost test = { λ _. is_ascii_alphabetic };

    fn passes(self, c: char) -> bool {
        c.is_ascii_alphabetic()
    }
}

/// An ASCII letter or a figure.
#[derive(Copy, Clone)]
pub struct LetterOrFigure;

impl CharTest for LetterOrFigure {
    ghost test = { λ _. is_letter_or_figure };

    fn passes(self, c: char) -> bool {
        c.is_ascii_alphabetic() || Figure.passes(c)
    }
}

/// A unit that is this one or greater.
#[derive(Copy, Clone)]
pub struct UnitFrom {
    pub least: Unit,
}

impl CharTest for UnitFrom {
    ghost test = { λ t. is_unit_from (rank t.least) };

    fn passes(self, c: char) -> bool {
        match unit_of(c) {
            Some(unit) => unit >= self.least,
            None => false,
        }
    }
}

/// A character that is not a unit, or is a unit smaller than this one.
#[derive(Copy, Clone)]
pub struct Below {
    pub greatest: Unit,
}

impl CharTest for Below {
    ghost test = { λ t c. option_map_or (λ rank_of_it. nat_lt rank_of_it (rank t.greatest)) (rank_of c) true };

    fn passes(self, c: char) -> bool {
        match unit_of(c) {
            Some(unit) => unit < self.greatest,
            None => true,
        }
    }
}

/// Whether each character of a text passes.
pub fn all<T: CharTest>(test: T, text: &str) -> bool
    ensures { result ≡ list_all (T.test test) (chars text.now) }
{
    let mut rest = text;
    'looking: while let Some((c, others)) = split_first_char(rest) {
        if !test.passes(c) {
            return false;
        }
        rest = others;
    }
    true
}

/// Whether some character of a text passes.
pub fn any<T: CharTest>(test: T, text: &str) -> bool
    ensures { result ≡ list_any (T.test test) (chars text.now) }
{
    let mut rest = text;
    'looking: while let Some((c, others)) = split_first_char(rest) {
        if test.passes(c) {
            return true;
        }
        rest = others;
    }
    false
}

/// Whether the first character passes.
pub fn begins<T: CharTest>(test: T, text: &str) -> bool
    ensures { result ≡ begins (T.test test) (chars text.now) }
{
    match split_first_char(text) {
        Some((c, _)) => test.passes(c),
        None => false,
    }
}

/// Whether the last character passes.
pub fn ends<T: CharTest>(test: T, text: &str) -> bool
    ensures { result ≡ begins (T.test test) (in_front text.now) }
{
    match split_nearest(text) {
        Some((c, _)) => test.passes(c),
        None => false,
    }
}

/// The last character, and the text before it.
#[tactic(auto, using(crate::proofs::Ends::reverse_last))]
pub fn split_nearest(text: &str) -> Option<(char, &str)>
    ensures { MatchOption result (in_front text.now ≡ [])
        (λ r. in_front text.now ≡ r.0 ∷ in_front r.1.now) }
{
    split_last_char(text)
}

/// The last character, the text before it, and its piece of the text.
pub fn split_last(text: &str) -> Option<(char, &str, &str)>
    ensures { MatchOption result (in_front text.now ≡ [])
        (λ r. (in_front text.now ≡ r.0 ∷ in_front r.1.now) × (chars r.2.now ≡ r.0 ∷ [])) }
{
    let (c, head) = split_last_char(text)?;
    let (_, last) = text.split_at(head.len());
    Some((c, head, last))
}

/// The text before one of its suffixes.
pub fn before_rest<'a>(text: &'a str, rest: &str) -> &'a str
    requires { IsEnd text.now rest.now }
    ensures { chars text.now ≡ chars result.now ++ chars rest.now }
{
    let (before, _) = text.split_at(text.len() - rest.len());
    before
}

/// The characters with which a text begins that pass, and the text after them.
#[tactic(auto, using(crate::proofs::Passing::passing_all, crate::proofs::Passing::leading_more, crate::proofs::Passing::passing_end, crate::proofs::Passing::passing_before))]
pub fn split_leading<T: CharTest>(test: T, text: &str) -> (&str, &str)
    ensures leading { chars result.0.now ≡ leading (T.test test) (chars text.now) }
    ensures after { chars result.1.now ≡ after_leading (T.test test) (chars text.now) }
{
    let mut rest = text;
    'passing: while let Some((c, others)) = split_first_char(rest) {
        if !test.passes(c) {
            break;
        }
        rest = others;
    }
    (before_rest(text, rest), rest)
}
