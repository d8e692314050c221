// What a number is a part of: a name, an address, a formula or a longer number.
ghost use Rattle.std.specs.Prelude.{◌≡◌, chars};
ghost use Rattle.cn_find.specs.Spans.{in_front};
ghost use Rattle.cn_speech.specs.Joined.{begins_bridge, begins_group, begins_letter, begins_slash, begins_word_after, begins_year, has_figure, is_after_group, is_after_name, is_after_word, is_before_group, is_joined_after, is_joined_before, is_name_after, is_name_before, may_be_short_year};

use cn_codes::beside::{Capital, follows_letters};
use cn_codes::digits::{begins_zero, has_at_least, has_at_most, has_count, is_at_most};
use cn_codes::in_figures::Han;
use cn_codes::words::{without_first, without_last};
use cn_find::{begins_with, ends_with, is_one_of};
use cn_replace::pieces::{
    CharTest, Figure, Letter, LetterOrFigure, any, begins, ends, split_leading,
};

/// Whether a text has a figure, as 3万 has and 三万 has not.
pub fn has_figure(text: &str) -> bool
    ensures { result ≡ has_figure (chars text.now) }
{
    any(Figure, text)
}

// A sign of a name or a formula that goes on with a number after it.
#[derive(Copy, Clone)]
struct NameBefore;

impl CharTest for NameBefore {
    ghost test = { λ _. is_name_before };

    #[tactic(auto, unfolding(crate::specs::Joined::is_name_before))]
    fn passes(self, c: char) -> bool {
        is_one_of(
            &[
                '_', '-', '.', '/', '\\', ':', '=', '#', '@', '^', '*', '&', '<', '+', '%', '％',
                '‰', '幺',
            ],
            c,
        )
    }
}

// A sign of a name or a formula that goes on with a number before it.
#[derive(Copy, Clone)]
struct NameAfter;

impl CharTest for NameAfter {
    ghost test = { λ _. is_name_after };

    #[tactic(auto, unfolding(crate::specs::Joined::is_name_after))]
    fn passes(self, c: char) -> bool {
        is_one_of(
            &['_', '\\', '=', '#', '@', '^', '*', '$', '&', '<', '+', '幺'],
            c,
        )
    }
}

// A point in ASCII.
#[derive(Copy, Clone)]
struct AsciiPoint;

impl CharTest for AsciiPoint {
    ghost use Rattle.std.specs.Prelude.{codes};
    ghost use Rattle.std.specs.Char.{char_set_contains};

    ghost test = { λ _. char_set_contains (codes ".") };

    fn passes(self, c: char) -> bool {
        is_one_of(&['.'], c)
    }
}

// Whether a letter is before a number that ends a word, or goes on with a code.
fn is_after_word(before: &str, rest: &str) -> bool
    ensures { result ≡ is_after_word (in_front before.now) (chars rest.now) }
{
    ends(Letter, before) && (!follows_letters(before) || begins(LetterOrFigure, rest))
}

// Whether a name of letters and a blank is before more than two figures: RTX 4090.
#[tactic(auto, unfolding(crate::specs::Joined::is_after_name))]
fn is_after_name(before: &str, written: &str) -> bool
    ensures { result ≡ is_after_name (in_front before.now) (chars written.now) }
{
    let (figures, _) = split_leading(Figure, written);
    ends_with(&[' '], before)
        && ends(Letter, without_last(before))
        && has_at_least(3, figures)
        && !any(AsciiPoint, written)
}

// Whether a text begins with exactly three figures.
fn begins_group(text: &str) -> bool
    ensures { result ≡ begins_group (chars text.now) }
{
    let (figures, _) = split_leading(Figure, text);
    has_count(3, figures)
}

// Whether a number is a group of figures after a blank and others: 280 of 1 280.
#[tactic(auto, unfolding(crate::specs::Joined::is_after_group))]
fn is_after_group(before: &str, written: &str) -> bool
    ensures { result ≡ is_after_group (in_front before.now) (chars written.now) }
{
    ends_with(&[' '], before) && ends(Figure, without_last(before)) && begins_group(written)
}

// Whether a group of figures is after a number and a blank: 280 after 1.
#[tactic(auto, unfolding(crate::specs::Joined::is_before_group))]
fn is_before_group(written: &str, rest: &str) -> bool
    ensures { result ≡ is_before_group (chars written.now) (chars rest.now) }
{
    ends(Figure, written) && begins_with(&[' '], rest) && begins_group(without_first(rest))
}

/// Whether the text before a number goes on with it, as in x86, or the number is one of several
/// groups, as 1 and 280 in 1 280.
pub fn is_joined_before(before: &str, written: &str, rest: &str) -> bool
    ensures { result
        ≡ is_joined_before (in_front before.now) (chars written.now) (chars rest.now) }
{
    is_after_word(before, rest)
        || ends(Figure, before)
        || ends(NameBefore, before)
        || is_after_name(before, written)
        || is_after_group(before, written)
        || is_before_group(written, rest)
}

// Whether one capital letter is after at most two characters: 5G, 12A.
#[tactic(auto, unfolding(crate::specs::Joined::begins_letter))]
fn begins_letter(written: &str, rest: &str) -> bool
    ensures { result ≡ begins_letter (chars written.now) (chars rest.now) }
{
    let after = without_first(rest);
    begins(Capital, rest)
        && has_at_most(2, written)
        && !begins(LetterOrFigure, after)
        && !begins_with(&['_', '-', '/'], after)
}

// Whether a letter or a figure is after a number.
fn begins_word_after(written: &str, rest: &str) -> bool
    ensures { result ≡ begins_word_after (chars written.now) (chars rest.now) }
{
    begins(LetterOrFigure, rest) && !begins_letter(written, rest)
}

// Whether a point, a bar or a colon is after a number, and then a letter or a figure.
#[tactic(auto, unfolding(crate::specs::Joined::begins_bridge))]
fn begins_bridge(rest: &str) -> bool
    ensures { result ≡ begins_bridge (chars rest.now) }
{
    begins_with(&['.', '-', ':', '：'], rest) && begins(LetterOrFigure, without_first(rest))
}

// Whether a slash is after a number, and no Han character after that.
#[tactic(auto, unfolding(crate::specs::Joined::begins_slash))]
fn begins_slash(rest: &str) -> bool
    ensures { result ≡ begins_slash (chars rest.now) }
{
    begins_with(&['/'], rest) && !begins(Han, without_first(rest))
}

/// Whether the text after a number, or after its measure, goes on with it, as in 3x and 3.x.
pub fn is_joined_after(written: &str, rest: &str) -> bool
    ensures { result ≡ is_joined_after (chars written.now) (chars rest.now) }
{
    begins_word_after(written, rest)
        || begins(NameAfter, rest)
        || begins_bridge(rest)
        || begins_slash(rest)
}

// Whether 年 is after a number, and no 级, 期 or 来 after that.
#[tactic(auto, unfolding(crate::specs::Joined::begins_year))]
fn begins_year(rest: &str) -> bool
    ensures { result ≡ begins_year (chars rest.now) }
{
    begins_with(&['年'], rest) && !begins_with(&['级', '級', '期', '来', '來'], without_first(rest))
}

/// Whether two figures from 61 on are before 年: 98年 may be a year, or a number of years.
pub fn may_be_short_year(written: &str, rest: &str) -> bool
    ensures { result ≡ may_be_short_year (chars written.now) (chars rest.now) }
{
    has_count(2, written)
        && !is_at_most(60, written)
        && !begins_zero(without_first(written))
        && begins_year(rest)
}
