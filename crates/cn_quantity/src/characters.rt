// Which characters occur in quantities besides those of numerals.
ghost use Rattle.std.specs.Prelude.{◌≡◌, ◌<◌, IfSome};
ghost use Rattle.cn_quantity.specs.Characters.{chinese_digit_of, digit_by, is_fen, is_ling, is_point, is_xia, is_you, is_zhi, share_of, sign_of};

use cn_core::{
    Sign, digit_of, figure_of, is_figure_minus, is_figure_plus, is_figure_point, is_per_mille,
    is_percent, sign_of as numeral_sign,
};

/// Which characters count as digits.
#[derive(Copy, Clone)]
pub enum DigitKind {
    /// The ASCII digits and their full-width forms.
    Figure,
    /// The digits of numerals that are not figures.
    Chinese,
}

#[tactic(auto, unfolding(crate::specs::Characters::chinese_digit_of))]
fn chinese_digit_of(c: char) -> Option<u8>
    ensures { result ≡ chinese_digit_of c }
{
    if c.is_ascii_digit() {
        return None;
    }
    digit_of(c)
}

/// The value of a digit of this kind.
pub fn digit_by(kind: DigitKind, c: char) -> Option<u8>
    ensures { result ≡ digit_by kind c }
{
    match kind {
        DigitKind::Figure => figure_of(c),
        DigitKind::Chinese => chinese_digit_of(c),
    }
}

/// Whether the character is the first one of 零下.
pub fn is_ling(c: char) -> bool
    ensures { result ≡ is_ling c }
{
    c == '零'
}

/// Whether the character is the second one of 零下.
pub fn is_xia(c: char) -> bool
    ensures { result ≡ is_xia c }
{
    c == '下'
}

/// Whether the character is 又.
pub fn is_you(c: char) -> bool
    ensures { result ≡ is_you c }
{
    c == '又'
}

/// The sign of a sign character, of figures or of numerals.
#[tactic(auto, unfolding(crate::specs::Characters::sign_of))]
pub fn sign_of(c: char) -> Option<Sign>
    ensures { result ≡ sign_of c }
{
    if is_figure_plus(c) {
        return Some(Sign::Plus);
    }
    if is_figure_minus(c) {
        return Some(Sign::Minus);
    }
    numeral_sign(c)
}

/// Whether the character is a point between digits of this kind.
#[tactic(auto, unfolding(crate::specs::Characters::is_point))]
pub fn is_point(kind: DigitKind, c: char) -> bool
    ensures { result ≡ is_point kind c }
{
    match kind {
        DigitKind::Figure => is_figure_point(c),
        DigitKind::Chinese => matches!(c, '點' | '点'),
    }
}

/// The number by which a sign at the end of a share divides: 100 for a percent sign, 1000 for ‰.
#[tactic(auto, unfolding(crate::specs::Characters::share_of))]
pub fn share_of(c: char) -> Option<u128>
    ensures value { result ≡ share_of c }
    ensures above { IfSome result (λ divisor. 0 < divisor) }
{
    if is_percent(c) {
        return Some(100);
    }
    if is_per_mille(c) {
        return Some(1000);
    }
    None
}

/// Whether the character is the first one of 分之.
#[tactic(auto, unfolding(crate::specs::Characters::is_fen))]
pub fn is_fen(c: char) -> bool
    ensures { result ≡ is_fen c }
{
    c == '分'
}

/// Whether the character is the second one of 分之.
#[tactic(auto, unfolding(crate::specs::Characters::is_zhi))]
pub fn is_zhi(c: char) -> bool
    ensures { result ≡ is_zhi c }
{
    c == '之'
}
