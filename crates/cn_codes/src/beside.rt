// What is directly beside a number, and makes it a part of a name, an address or a formula.
ghost use Rattle.std.specs.Prelude.{◌≡◌, chars, length, nat_le};
ghost use Rattle.cn_find.specs.Spans.{in_front};
ghost use Rattle.cn_replace.specs.Pieces.{after_leading, leading};
ghost use Rattle.cn_codes.specs.Beside.{follows_letters, is_bridge, is_capital, is_sign_after, is_sign_before, touches_after, touches_before};

use cn_core::split_first_char;
use cn_find::is_one_of;
use cn_replace::pieces::{CharTest, LetterOrFigure, begins, ends, split_nearest};

/// A capital letter, from A to Z.
#[derive(Copy, Clone)]
pub struct Capital;

impl CharTest for Capital {
    ghost test = { λ _. is_capital };

    fn passes(self, c: char) -> bool {
        matches!(c, 'A'..='Z')
    }
}

#[tactic(auto, unfolding(crate::specs::Beside::is_sign_before))]
fn is_sign_before(c: char) -> bool
    ensures { result ≡ is_sign_before c }
{
    is_one_of(
        &[
            '_', '-', '.', '/', '\\', ':', '=', '#', '@', '^', '*', '$', '&', '<', '+', '%', '％',
            '‰', '~', '～',
        ],
        c,
    )
}

#[tactic(auto, unfolding(crate::specs::Beside::is_sign_after))]
fn is_sign_after(c: char) -> bool
    ensures { result ≡ is_sign_after c }
{
    is_one_of(
        &[
            '_', '/', '\\', '=', '@', '^', '*', '$', '&', '<', '+', '%', '％', '‰',
        ],
        c,
    )
}

#[tactic(auto, unfolding(crate::specs::Beside::is_bridge))]
fn is_bridge(c: char) -> bool
    ensures { result ≡ is_bridge c }
{
    is_one_of(&['.', '-', ':', '~', '～'], c)
}

/// Whether the last character of a text is one that a code is not after.
#[tactic(auto, unfolding(crate::specs::Beside::touches_before))]
pub fn touches_before(before: &str) -> bool
    ensures { result ≡ touches_before (in_front before.now) }
{
    match split_nearest(before) {
        Some((c, _)) => LetterOrFigure.passes(c) || is_sign_before(c),
        None => false,
    }
}

/// Whether a text begins with what a code is not before.
#[tactic(auto, unfolding(crate::specs::Beside::touches_after))]
pub fn touches_after(text: &str) -> bool
    ensures { result ≡ touches_after (chars text.now) }
{
    match split_first_char(text) {
        Some((c, rest)) => {
            LetterOrFigure.passes(c)
                || is_sign_after(c)
                || (is_bridge(c) && begins(LetterOrFigure, rest))
        }
        None => false,
    }
}

// Whether a text ends with at most so many capital letters.
fn has_at_most_capitals(most: u8, before: &str) -> bool
    ensures { result ≡ nat_le (length (leading is_capital (in_front before.now))) most }
{
    match split_nearest(before) {
        Some((c, front)) => {
            !Capital.passes(c) || (most > 0 && has_at_most_capitals(most - 1, front))
        }
        None => true,
    }
}

// The text before the capital letters at its end.
fn before_capitals(before: &str) -> &str
    ensures { in_front result.now ≡ after_leading is_capital (in_front before.now) }
{
    let mut rest = before;
    'passing: while let Some((c, front)) = split_nearest(rest) {
        if !Capital.passes(c) {
            break;
        }
        rest = front;
    }
    rest
}

/// Whether one to three capital letters are at the end of a text, and begin a name, as G in G15.
#[tactic(auto, unfolding(crate::specs::Beside::follows_letters))]
pub fn follows_letters(before: &str) -> bool
    ensures { result ≡ follows_letters (in_front before.now) }
{
    ends(Capital, before)
        && has_at_most_capitals(3, before)
        && !touches_before(before_capitals(before))
}
