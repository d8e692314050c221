// The flags of a number in a text, and the options of a call; both are added together.
ghost use Rattle.std.specs.Prelude.{◌≡◌, ◌+◌, ◌*◌, ◌<◌, ◌≤◌};
ghost use Rattle.chinese_number.specs.Spans.{span_of};
ghost use Rattle.cn_c.specs.Finds.{doubt_code, flag_if, flags_told};
ghost use Rattle.cn_c.specs.Codes.{has_flag};
ghost use Rattle.cn_c.specs.Replaces.{figures_of, style_of};

use chinese_number::{Doubt, Found, SearchRule};
use cn_replace::{Figures, Included, Style};

/// A flag: each character of the number is a digit.
pub const PLAIN_DIGITS: u32 = 1;

/// A flag: the text around the number does not continue it.
pub const STANDS_ALONE: u32 = 2;

/// A flag: the number is approximate.
pub const ABOUT: u32 = 4;

/// A flag: the number is one Chinese character.
pub const ONE_CHARACTER: u32 = 8;

/// A flag if it applies, and otherwise 0.
pub fn flag_if(is_set: bool, flag: u32) -> u32
    ensures { result ≡ flag_if is_set flag }
{
    if is_set { flag } else { 0 }
}

// The flags of a number.
#[inline(always)]
fn flags_of(found: Found<'_>) -> u32
    ensures value { result ≡ flags_told (span_of found.entry) }
    ensures most { result ≤ 15 }
{
    let flags = cn_find::flags_of(found.before, found.text, found.after);
    flag_if(flags.is_plain, PLAIN_DIGITS)
        + flag_if(flags.stands_alone, STANDS_ALONE)
        + flag_if(flags.is_about, ABOUT)
        + flag_if(flags.is_one_character, ONE_CHARACTER)
}

// The code of a doubt.
fn doubt_code(doubt: Option<Doubt>) -> u32
    ensures value { result ≡ doubt_code doubt }
    ensures most { result ≤ 6 }
{
    match doubt {
        None => 0,
        Some(Doubt::Word) => 1,
        Some(Doubt::Digits) => 2,
        Some(Doubt::Term) => 3,
        Some(Doubt::Part) => 4,
        Some(Doubt::Time) => 5,
        Some(Doubt::Range) => 6,
    }
}

/// The sum of the flags of what a rule finds and 16 times the code of its doubt.
#[inline(always)]
pub fn flags_and_doubt<R: SearchRule>(found: Found<'_>) -> u32
    ensures { result
        ≡ flags_told (span_of found.entry) + doubt_code (R.doubt (span_of found.entry)) * 16 }
{
    flags_of(found) + doubt_code(R::doubt_of(found)) * 16
}

/// An option: a doubtful expression is written in figures too.
pub const DOUBTFUL: u32 = 16;

/// An option: great units are not kept.
pub const EXPANDED: u32 = 32;

/// An option: what is in figures alone is rewritten in ASCII, without commas and leading zeros.
pub const CANONICAL: u32 = 64;

/// An option: phrases are written in their shortest form.
pub const COMPACT: u32 = 128;

/// An option: codes, such as telephone numbers, are written in figures.
pub const CODES: u32 = 256;

/// Whether a flag is among these flags.
pub fn has_flag(flags: u32, flag: u32) -> bool
    requires { 0 < flag }
    ensures { result ≡ has_flag flags flag }
{
    flags / flag % 2 == 1
}

// The style that the flags name.
fn style_of(flags: u32) -> Style
    ensures { result ≡ style_of flags }
{
    if has_flag(flags, EXPANDED) {
        Style::Expanded
    } else {
        Style::Kept
    }
}

/// How the quantities of a text are written in figures, given a sum of any of seven flags; `None` if
/// it is not such a sum.
pub fn figures_of(flags: u32) -> Option<Figures>
    ensures { result ≡ figures_of flags }
{
    if flags % 4 != 0 || flags >= 512 {
        return None;
    }
    Some(Figures {
        included: Included {
            about: has_flag(flags, ABOUT),
            one_character: has_flag(flags, ONE_CHARACTER),
            doubtful: has_flag(flags, DOUBTFUL),
        },
        style: style_of(flags),
        canonical: has_flag(flags, CANONICAL),
        compact: has_flag(flags, COMPACT),
        codes: has_flag(flags, CODES),
    })
}
