// A text as it is spoken, and what is left of its figures.
ghost use Rattle.std.specs.Prelude.{◌≡◌, ◌++◌, ◌-◌, ◌∷◌, [], chars, drop, encode_utf8_all, length, map, string_bytes, IfOk, IfSome, MatchOption, OnOk};
ghost use Rattle.std.specs.Option.{option_map};
ghost use Rattle.cn_find.specs.Spans.{in_front, span_of, text_before};
ghost use Rattle.cn_phrase.specs.Suffix.{EndsWith};
ghost use Rattle.cn_speech.specs.Meant.{as_meant};
ghost use Rattle.cn_speech.specs.Places.{IsPlace, left_at};
ghost use Rattle.cn_speech.specs.Speech.{is_left, left_here, rest_here, text_here, text_in_speech};
ghost use Rattle.cn_speech.specs.SpokenParts.{IsPartWithin, part_of};

use crate::joined::has_figure;
use crate::meant::put_as_meant;
use crate::part::{Part, part_at, put_part};
use crate::voice::Voice;
use cn_core::split_first_char;
use cn_find::{Found, Wanted, text_before};
use cn_replace::Sink;
use cn_replace::numbers::put_same;
use std::alloc::{AllocError, Global};

// The text after the part with which a text begins, or after its first character.
fn rest_here<'a>(part: Option<Part<'a>>, behind: &'a str) -> &'a str
    ensures { chars result.now ≡ rest_here (chars behind.now) (option_map part_of part.entry) }
{
    match part {
        Some(part) => part.rest(),
        None => behind,
    }
}

// Writes the new text of the part with which a suffix of a text begins, or of a character in none, which is
// given.
fn put_here<S: Sink>(
    sink: &mut S,
    voice: Voice,
    whole: &str,
    ahead: &str,
    given: &str,
    part: Option<Part<'_>>,
) -> Result<(), S::Error>
    requires ends { text_before whole.now ahead.now ++ ahead.now ≡ whole.now }
    requires within { IfSome (option_map part_of part) (IsPartWithin (chars ahead.now)) }
    ensures { OnOk result (S.took sink.old sink.new (encode_utf8_all (text_here voice
        (in_front (text_before whole.now ahead.now)) (chars ahead.now) (chars given.now)
        (option_map part_of part.entry)))) }
{
    match part {
        Some(part) => put_part(sink, voice, whole, ahead, given, part),
        None => put_same(sink, given),
    }
}

// A text without as many characters as are before the suffix `rest` of another text.
fn after_as_many<'a>(given: &'a str, ahead: &str, rest: &str) -> &'a str
    requires { EndsWith (chars ahead.now) (chars rest.now) }
    ensures rest { chars result.now
        ≡ drop (length (chars ahead.now) - length (chars rest.now)) (chars given.now) }
    ensures ends { text_before given.now result.now ++ result.now ≡ given.now }
{
    let mut next = given;
    let mut left = ahead;
    'passing: while rest.len() < left.len() {
        let Some((_, behind)) = split_first_char(left) else {
            return next;
        };
        let Some((_, others)) = split_first_char(next) else {
            return next;
        };
        left = behind;
        next = others;
    }
    next
}

/// Writes a text as it is spoken, given also with its signs as they are meant, which `put_as_meant` writes.
///
/// The errors are those of the sink.
pub fn put_speech<S: Sink>(
    sink: &mut S,
    voice: Voice,
    wanted: Wanted,
    text: &str,
    meant: &str,
) -> Result<(), S::Error>
    requires { meant.now ≡ as_meant text.now }
    ensures { OnOk result
        (S.took sink.old sink.new (text_in_speech voice wanted text.now)) }
{
    let mut given = text;
    let mut ahead = meant;
    'speaking: while let Some((_, behind)) = split_first_char(ahead) {
        let part = part_at(meant, ahead, wanted);
        let rest = rest_here(part, behind);
        let next = after_as_many(given, ahead, rest);
        put_here(sink, voice, meant, ahead, text_before(given, next), part)?;
        given = next;
        ahead = rest;
    }
    Ok(())
}

/// A place of a text: what is after it, as it is given, and with its signs as they are meant.
#[derive(Debug, Copy, Clone)]
pub struct Place<'a> {
    pub given: &'a str,
    pub meant: &'a str,
}

/// A part with figures that is left, and the place after it.
#[derive(Debug, Copy, Clone)]
pub struct Left<'a> {
    pub found: Found<'a>,
    pub after: Place<'a>,
}

fn is_left(part: Option<Part<'_>>) -> bool
    ensures { result ≡ is_left (option_map part_of part.entry) }
{
    matches!(part, Some(Part::Left(_)))
}

// The span of a part that is left, if it has figures.
fn left_here<'a>(
    text: &'a str,
    given: &'a str,
    next: &'a str,
    part: Option<Part<'_>>,
) -> Option<Found<'a>>
    requires given { text_before text.now given.now ++ given.now ≡ text.now }
    requires next { text_before given.now next.now ++ next.now ≡ given.now }
    ensures { MatchOption result (left_here (in_front (text_before text.now given.now))
        (chars given.now) (chars next.now) (option_map part_of part.entry) ≡ [])
        (λ found. left_here (in_front (text_before text.now given.now)) (chars given.now)
        (chars next.now) (option_map part_of part.entry) ≡ span_of found ∷ []) }
{
    if !is_left(part) {
        return None;
    }
    let found = Found {
        before: text_before(text, given),
        text: text_before(given, next),
        after: next,
    };
    if has_figure(found.text) {
        Some(found)
    } else {
        None
    }
}

/// The first part with figures that is left from a place of a text on; `None` if there is none.
pub fn next_left<'a>(
    text: &'a str,
    meant: &'a str,
    place: Place<'a>,
    wanted: Wanted,
) -> Option<Left<'a>>
    requires { IsPlace text.now meant.now place }
    ensures parts { MatchOption result (left_at wanted text.now meant.now place.entry ≡ [])
        (λ left. left_at wanted text.now meant.now place.entry
        ≡ span_of left.found ∷ left_at wanted text.now meant.now left.after) }
    ensures place { IfSome result (λ left. IsPlace text.now meant.now left.after) }
{
    let mut given = place.given;
    let mut ahead = place.meant;
    'searching: while let Some((_, behind)) = split_first_char(ahead) {
        let part = part_at(meant, ahead, wanted);
        let rest = rest_here(part, behind);
        let next = after_as_many(given, ahead, rest);
        if let Some(found) = left_here(text, given, next, part) {
            let after = Place {
                given: next,
                meant: rest,
            };
            return Some(Left { found, after });
        }
        given = next;
        ahead = rest;
    }
    None
}

// A text with its signs as they are meant.
fn as_meant(alloc: Global, text: &str) -> Result<String, AllocError>
    ensures { IfOk result (λ meant. string_bytes meant ≡ as_meant text.now) }
{
    let mut meant = String::with_capacity(alloc, text.len())?;
    put_as_meant(&mut meant, text)?;
    Ok(meant)
}

/// Returns the text as it is spoken: its figures, signs and measures in Chinese characters. The rules are
/// those of docs/RULES.md, "A text as it is spoken". What no rule covers stays.
///
/// ```text
/// text_to_speech(alloc, "15:30到，共2.5kg", Wanted::EVERYDAY, voice)
///     == Ok("十五点三十分到，共二点五千克")
/// ```
///
/// The error means that memory ran out; memory is requested as the text grows.
pub fn text_to_speech(
    alloc: Global,
    text: &str,
    wanted: Wanted,
    voice: Voice,
) -> Result<String, AllocError>
    ensures { IfOk result (λ new. string_bytes new ≡ text_in_speech voice wanted text.now) }
{
    let meant = as_meant(alloc, text)?;
    let mut new = String::with_capacity(alloc, text.len())?;
    put_speech(&mut new, voice, wanted, text, meant.as_str())?;
    Ok(new)
}
