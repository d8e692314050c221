// Texts of figures alone, written in ASCII, without commas and without leading zeros.
ghost use Rattle.std.specs.Prelude.{◌≡◌, ◌&&◌, ◌||◌, not, chars, OnOk};
ghost use Rattle.cn_core.specs.FigureCharacters.{is_figure};
ghost use Rattle.cn_replace.specs.Canonical.{are_figures, ascii_of, ascii_unless, canonical_text, is_leading_zero, is_zero_figure};

use crate::Sink;
use crate::pieces::{CharTest, Figure, all, begins};
use cn_core::{is_comma, is_figure, is_figure_minus, is_figure_point, split_first_char};

// A figure, a point, a comma or a sign.
#[derive(Copy, Clone)]
struct OfFigures;

impl CharTest for OfFigures {
    ghost use Rattle.cn_replace.specs.Canonical.{is_of_figures};

    ghost test = { λ _. is_of_figures };

    fn passes(self, c: char) -> bool {
        is_figure(c) || is_figure_point(c) || is_comma(c) || is_figure_minus(c)
    }
}

/// Whether each character is a figure, a point, a comma or a sign.
pub fn are_figures(text: &str) -> bool
    ensures { result ≡ are_figures (chars text.now) }
{
    all(OfFigures, text)
}

// A character in ASCII, or nothing for a comma.
#[tactic(auto, unfolding(crate::specs::Canonical::ascii_of))]
fn ascii_of(c: char) -> &'static str
    ensures { result.now ≡ ascii_of c }
{
    match c {
        '0' | '０' => "0",
        '1' | '１' => "1",
        '2' | '２' => "2",
        '3' | '３' => "3",
        '4' | '４' => "4",
        '5' | '５' => "5",
        '6' | '６' => "6",
        '7' | '７' => "7",
        '8' | '８' => "8",
        '9' | '９' => "9",
        '.' | '．' => ".",
        '-' | '−' | '－' => "-",
        _ => "",
    }
}

#[tactic(auto, unfolding(crate::specs::Canonical::is_zero_figure))]
fn is_zero_figure(c: char) -> bool
    ensures { result ≡ is_zero_figure c }
{
    matches!(c, '0' | '０')
}

fn is_leading_zero(has_figure: bool, c: char, after: &str) -> bool
    ensures { result ≡ is_leading_zero has_figure c (chars after.now) }
{
    !has_figure && is_zero_figure(c) && begins(Figure, after)
}

// The same, or nothing if the character is left out.
fn ascii_unless(is_left_out: bool, c: char) -> &'static str
    ensures { result.now ≡ ascii_unless is_left_out c }
{
    if is_left_out { "" } else { ascii_of(c) }
}

// Whether a figure is written before the text after this character.
fn has_figure_after(leads: bool, has_figure: bool, c: char) -> bool
    ensures { result ≡ (not leads && (has_figure || is_figure c)) }
{
    !leads && (has_figure || is_figure(c))
}

/// Writes a text of figures alone.
pub fn put_canonical<S: Sink>(sink: &mut S, text: &str) -> Result<(), S::Error>
    ensures { OnOk result (S.took sink.old sink.new (canonical_text (chars text.now))) }
{
    let mut has_figure = false;
    let mut rest = text;
    'putting: while let Some((c, others)) = split_first_char(rest) {
        let leads = is_leading_zero(has_figure, c, others);
        sink.put(ascii_unless(leads, c))?;
        has_figure = has_figure_after(leads, has_figure, c);
        rest = others;
    }
    Ok(())
}
