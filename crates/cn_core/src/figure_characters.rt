// Which characters occur in figures, and beside numerals in quantities.
ghost use Rattle.std.specs.Prelude.{◌≡◌, is_some};
ghost use Rattle.cn_core.specs.FigureCharacters.{figure_of, is_comma, is_currency, is_figure, is_figure_minus, is_figure_plus, is_figure_point, is_per_mille, is_percent, is_share_sign, is_wide_figure, tens_of};

/// The value of a figure, 0 to 9: an ASCII digit or its full-width form; `None` for any other
/// character.
///
/// ```text
/// figure_of('7') == Some(7)
/// figure_of('７') == Some(7)
/// figure_of('七') == None
/// ```
#[tactic(auto, unfolding(crate::specs::FigureCharacters::figure_of))]
pub fn figure_of(c: char) -> Option<u8>
    ensures { result ≡ figure_of c }
{
    match c {
        '0' | '０' => Some(0),
        '1' | '１' => Some(1),
        '2' | '２' => Some(2),
        '3' | '３' => Some(3),
        '4' | '４' => Some(4),
        '5' | '５' => Some(5),
        '6' | '６' => Some(6),
        '7' | '７' => Some(7),
        '8' | '８' => Some(8),
        '9' | '９' => Some(9),
        _ => None,
    }
}

/// Whether a character is a full-width figure.
///
/// ```text
/// is_wide_figure('７') == true
/// is_wide_figure('7') == false
/// ```
pub fn is_wide_figure(c: char) -> bool
    ensures { result ≡ is_wide_figure c }
{
    matches!(c, '０'..='９')
}

/// Whether a character is a figure: one for which [`figure_of`] returns a value.
///
/// ```text
/// is_figure('７') == true
/// is_figure('七') == false
/// ```
pub fn is_figure(c: char) -> bool
    ensures figure { result ≡ is_figure c }
    ensures value { result ≡ is_some (figure_of c) }
{
    c.is_ascii_digit() || is_wide_figure(c)
}

/// Whether a character is a minus sign before figures: as it is typed, as it is printed, or
/// full-width.
///
/// ```text
/// is_figure_minus('－') == true
/// is_figure_minus('负') == false
/// ```
pub fn is_figure_minus(c: char) -> bool
    ensures { result ≡ is_figure_minus c }
{
    matches!(c, '-' | '−' | '－')
}

/// Whether a character is a plus sign before figures.
///
/// ```text
/// is_figure_plus('＋') == true
/// is_figure_plus('正') == false
/// ```
pub fn is_figure_plus(c: char) -> bool
    ensures { result ≡ is_figure_plus c }
{
    matches!(c, '+' | '＋')
}

/// Whether a character is a point between figures.
///
/// ```text
/// is_figure_point('．') == true
/// is_figure_point('点') == false
/// ```
pub fn is_figure_point(c: char) -> bool
    ensures { result ≡ is_figure_point c }
{
    matches!(c, '.' | '．')
}

/// Whether a character is a comma, which may occur before three figures.
///
/// ```text
/// is_comma('，') == true
/// is_comma('、') == false
/// ```
pub fn is_comma(c: char) -> bool
    ensures { result ≡ is_comma c }
{
    matches!(c, ',' | '，')
}

/// Whether a character is a percent sign.
///
/// ```text
/// is_percent('％') == true
/// is_percent('‰') == false
/// ```
pub fn is_percent(c: char) -> bool
    ensures { result ≡ is_percent c }
{
    matches!(c, '%' | '％')
}

/// Whether a character is ‰.
///
/// ```text
/// is_per_mille('‰') == true
/// is_per_mille('%') == false
/// ```
pub fn is_per_mille(c: char) -> bool
    ensures { result ≡ is_per_mille c }
{
    c == '‰'
}

/// Whether a character is a percent sign or ‰.
///
/// ```text
/// is_share_sign('％') == true
/// is_share_sign('‰') == true
/// ```
pub fn is_share_sign(c: char) -> bool
    ensures { result ≡ is_share_sign c }
{
    is_percent(c) || is_per_mille(c)
}

/// Whether a character is ¥, the sign of yuan.
///
/// ```text
/// is_currency('￥') == true
/// is_currency('元') == false
/// ```
pub fn is_currency(c: char) -> bool
    ensures { result ≡ is_currency c }
{
    matches!(c, '¥' | '￥')
}

/// The tens that one character stands for: 20 for 廿, 30 for 卅; `None` for any other character.
///
/// ```text
/// tens_of('廿') == Some(20)
/// tens_of('十') == None
/// ```
#[tactic(auto, unfolding(crate::specs::FigureCharacters::tens_of))]
pub fn tens_of(c: char) -> Option<u8>
    ensures { result ≡ tens_of c }
{
    match c {
        '廿' => Some(20),
        '卅' => Some(30),
        _ => None,
    }
}
