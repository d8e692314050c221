// Whether an expression clings to the characters beside it, as if it were a part of them.
ghost use Rattle.std.specs.Prelude.{◌≡◌, chars, codes, bytes_eq};
ghost use Rattle.cn_find.specs.Spans.{in_front};
ghost use Rattle.cn_replace.specs.Clings.{begins_measure, clings, clings_to, is_bound, is_bridge, is_word_of, measures};

use crate::pieces::{
    CharTest, Figure, Letter, LetterOrFigure, begins, ends, split_leading, split_nearest,
};
use cn_core::split_first_char;

#[tactic(auto, unfolding(crate::specs::Clings::is_bound))]
fn is_bound(c: char) -> bool
    ensures { result ≡ is_bound c }
{
    LetterOrFigure.passes(c) || matches!(c, '_' | '幺' | '廿' | '卅' | '卌')
}

#[tactic(auto, unfolding(crate::specs::Clings::is_bridge))]
fn is_bridge(c: char) -> bool
    ensures { result ≡ is_bridge c }
{
    matches!(c, '-' | '.' | '/' | ':')
}

fn clings_before(before: &str) -> bool
    ensures { result ≡ clings_to (in_front before.now) }
{
    match split_nearest(before) {
        Some((c, front)) => is_bound(c) || (is_bridge(c) && ends(LetterOrFigure, front)),
        None => false,
    }
}

fn clings_after(after: &str) -> bool
    ensures { result ≡ clings_to (chars after.now) }
{
    match split_first_char(after) {
        Some((c, others)) => is_bound(c) || (is_bridge(c) && begins(LetterOrFigure, others)),
        None => false,
    }
}

fn is_measure(letters: &[u8]) -> bool
    ensures { result ≡ is_word_of measures letters.now }
{
    matches!(
        letters,
        b"km"
            | b"m"
            | b"cm"
            | b"mm"
            | b"nm"
            | b"kg"
            | b"g"
            | b"mg"
            | b"t"
            | b"L"
            | b"l"
            | b"mL"
            | b"ml"
            | b"cc"
            | b"kW"
            | b"W"
            | b"kWh"
            | b"MW"
            | b"GW"
            | b"kPa"
            | b"MPa"
            | b"kcal"
            | b"kHz"
            | b"MHz"
            | b"GHz"
            | b"Hz"
            | b"dB"
            | b"KB"
            | b"MB"
            | b"GB"
            | b"TB"
            | b"kB"
            | b"K"
            | b"M"
            | b"G"
            | b"T"
            | b"Mbps"
            | b"Gbps"
            | b"V"
            | b"A"
            | b"mA"
            | b"mAh"
            | b"px"
            | b"pt"
            | b"s"
            | b"ms"
            | b"h"
            | b"min"
    )
}

#[tactic(auto, unfolding(crate::specs::Clings::begins_measure))]
fn begins_measure(text: &str) -> bool
    ensures { result ≡ begins_measure (chars text.now) }
{
    let (letters, after) = split_leading(Letter, text);
    is_measure(letters.as_bytes()) && !begins(Figure, after)
}

/// Whether an expression between these texts clings to one of them.
#[tactic(auto, unfolding(crate::specs::Clings::clings))]
pub fn clings(before: &str, after: &str) -> bool
    ensures { result ≡ clings (chars before.now) (chars after.now) }
{
    clings_before(before) || (clings_after(after) && !begins_measure(after))
}
