// Signs as they are meant: a colon that ends a label, and a bar between two numbers with units.
ghost use Rattle.std.specs.Prelude.{◌≡◌, chars, OnOk};
ghost use Rattle.cn_find.specs.Spans.{in_front};
ghost use Rattle.cn_speech.specs.Meant.{as_meant, follows_clock, follows_counted, follows_figure, follows_measure, follows_word, is_colon, is_link_after, is_minus, is_of_measure, label_sign, link_sign, meant, without_letter};

use crate::voice::put_char;
use cn_codes::counted::is_counted;
use cn_codes::in_figures::Han;
use cn_codes::words::without_last;
use cn_core::split_first_char;
use cn_find::{ends_with, is_one_of, text_before};
use cn_replace::Sink;
use cn_replace::pieces::{CharTest, Figure, LetterOrFigure, begins, ends};

// A colon.
#[derive(Copy, Clone)]
struct Colon;

impl CharTest for Colon {
    ghost test = { λ _. is_colon };

    #[tactic(auto, unfolding(crate::specs::Meant::is_colon))]
    fn passes(self, c: char) -> bool {
        is_one_of(&[':', '：'], c)
    }
}

// A bar that may be a minus sign.
#[derive(Copy, Clone)]
struct Minus;

impl CharTest for Minus {
    ghost test = { λ _. is_minus };

    #[tactic(auto, unfolding(crate::specs::Meant::is_minus))]
    fn passes(self, c: char) -> bool {
        is_one_of(&['-', '−', '－'], c)
    }
}

// A letter or a sign of a measure.
#[derive(Copy, Clone)]
struct OfMeasure;

impl CharTest for OfMeasure {
    ghost test = { λ _. is_of_measure };

    #[tactic(auto, unfolding(crate::specs::Meant::is_of_measure))]
    fn passes(self, c: char) -> bool {
        c.is_ascii_alphabetic() || is_one_of(&['μ', '℃', '°', '㎡', '‰', '半'], c)
    }
}

/// A character that begins a measure word.
#[derive(Copy, Clone)]
pub struct Counted;

impl CharTest for Counted {
    ghost use Rattle.cn_codes.specs.Counted.{is_counted};

    ghost test = { λ _. is_counted };

    fn passes(self, c: char) -> bool {
        is_counted(c)
    }
}

// Whether a figure is at the end of a text, perhaps with a blank after it.
fn follows_figure(before: &str) -> bool
    ensures { result ≡ follows_figure (in_front before.now) }
{
    if ends_with(&[' '], before) {
        ends(Figure, without_last(before))
    } else {
        ends(Figure, before)
    }
}

// Whether the first character of a measure word is at the end of a text, and a figure before that.
fn follows_word(before: &str) -> bool
    ensures { result ≡ follows_word (in_front before.now) }
{
    ends(Counted, before) && follows_figure(without_last(before))
}

// Whether a measure word of one to three Han characters, of which the last is not 到 or 至, is at the end
// of a text, and a figure before that.
#[tactic(auto, unfolding(crate::specs::Meant::follows_counted))]
fn follows_counted(before: &str) -> bool
    ensures { result ≡ follows_counted (in_front before.now) }
{
    let front = without_last(before);
    !ends_with(&['到', '至'], before)
        && (follows_word(before)
            || (ends(Han, before)
                && (follows_word(front)
                    || (ends(Han, front) && follows_word(without_last(front))))))
}

// A text without a letter or a sign of a measure at its end.
fn without_letter(before: &str) -> &str
    ensures { in_front result.now ≡ without_letter (in_front before.now) }
{
    if ends(OfMeasure, before) {
        without_last(before)
    } else {
        before
    }
}

// Whether one to four letters or signs of a measure are at the end of a text, and a figure before that.
#[tactic(auto, unfolding(crate::specs::Meant::follows_measure))]
fn follows_measure(before: &str) -> bool
    ensures { result ≡ follows_measure (in_front before.now) }
{
    let front = without_letter(without_letter(without_letter(without_last(before))));
    ends(OfMeasure, before) && follows_figure(front)
}

// Whether a time with a colon is at the end of a text.
#[tactic(auto, unfolding(crate::specs::Meant::follows_clock))]
fn follows_clock(before: &str) -> bool
    ensures { result ≡ follows_clock (in_front before.now) }
{
    let tens = without_last(before);
    let colon = without_last(tens);
    ends(Figure, before)
        && ends(Figure, tens)
        && ends(Colon, colon)
        && ends(Figure, without_last(colon))
}

// Whether a bar before a figure is a link after this text, and no minus sign.
fn is_link_after(before: &str) -> bool
    ensures { result ≡ is_link_after (in_front before.now) }
{
    follows_counted(before) || follows_measure(before) || follows_clock(before)
}

// The sign that is meant by a colon which ends a label.
#[tactic(auto, unfolding(crate::specs::Meant::label_sign))]
fn label_sign(c: char) -> char
    ensures { result ≡ label_sign c }
{
    if c == ':' { ';' } else { '；' }
}

// The sign that is meant by a bar which is a link.
#[tactic(auto, unfolding(crate::specs::Meant::link_sign))]
fn link_sign(c: char) -> char
    ensures { result ≡ link_sign c }
{
    if c == '-' { '~' } else { '～' }
}

// A character between these texts as it is meant.
fn meant(before: &str, c: char, rest: &str) -> char
    ensures { result ≡ meant (in_front before.now) c (chars rest.now) }
{
    if Colon.passes(c) && !ends(LetterOrFigure, before) {
        return label_sign(c);
    }
    if Minus.passes(c) && begins(Figure, rest) && is_link_after(before) {
        link_sign(c)
    } else {
        c
    }
}

/// Writes a text with its signs as they are meant: `;` for a colon that ends a label, and `~` for a bar
/// between two numbers with units. The new text has as many bytes, and a character begins where one began.
///
/// The text of 时间：15:30 is 时间；15:30, and that of 5元-10元 is 5元~10元. The errors are those of the sink.
pub fn put_as_meant<S: Sink>(sink: &mut S, text: &str) -> Result<(), S::Error>
    ensures { OnOk result (S.took sink.old sink.new (as_meant text.now)) }
{
    let mut rest = text;
    'putting: while let Some((c, others)) = split_first_char(rest) {
        put_char(sink, meant(text_before(text, rest), c, others))?;
        rest = others;
    }
    Ok(())
}
