// Writes a text as it is spoken, and finds the figures that speech leaves.
ghost use Rattle.std.specs.Prelude.{◌≡◌, ◌++◌, ◌-◌, ◌^◌, ◌≤◌, drop, length, map, min, nat_le, slice_get, true, false, take, MatchOption};
ghost use Rattle.cn_speech.specs.Meant.{as_meant};
ghost use Rattle.cn_speech.specs.Places.{IsPlace, left_at};
ghost use Rattle.cn_speech.specs.Speech.{text_in_speech};
ghost use Rattle.cn_c.specs.Codes.{named_ways, ones, scripts};
ghost use Rattle.cn_c.specs.Finds.{Fills, span_told};
ghost use Rattle.cn_c.specs.Speaking.{FindsLeft, IsLeftFound, IsSpoken, doubt_in_text, spoken_method, voice_of};

use crate::codes::{NamedWay, named_way_of, script_of};
use crate::finding::{Span, span_of_found, wanted_of};
use crate::status::{DONE, NO_ROOM, NOT_UTF8, UNKNOWN, tell_none};
use chinese_number::{ChineseCountMethod, ChineseVariant, QuantityRule, Wanted};
use cn_core::Buffer;
use cn_dynamic::{Way, utf8_text, written_method};
use cn_speech::{One, Place, Voice, next_left, put_as_meant, put_speech};

// The word for 1 in a code, by the options of a call.
fn one_of(options: u32) -> Option<One>
    ensures { result ≡ slice_get ones options }
{
    match options {
        0 => Some(One::Yi),
        1 => Some(One::Yao),
        _ => None,
    }
}

// The method by which numbers are spoken, given its code; `None` if there is none.
fn spoken_method(code: u32, script: ChineseVariant) -> Option<ChineseCountMethod>
    ensures { result ≡ spoken_method (slice_get named_ways code) script }
{
    match named_way_of(code) {
        Some(NamedWay::By(Way::Units(method))) => Some(method),
        Some(NamedWay::Either) => Some(written_method(script, 0)),
        _ => None,
    }
}

// How a text is spoken, by the codes of a method and a script, and the options; `None` if one of them
// names nothing.
fn voice_of(method: u32, script: u32, options: u32) -> Option<Voice>
    ensures { result ≡ voice_of (slice_get named_ways method) (slice_get scripts script)
        (slice_get ones options) }
{
    let variant = script_of(script)?;
    let one = one_of(options)?;
    let method = spoken_method(method, variant)?;
    Some(Voice {
        variant,
        method,
        one,
    })
}

// A text with its signs as they are meant, which is written at the start of a buffer; `None` if it does
// not fit.
fn meant_in<'a>(text: &str, room: &'a mut [u8]) -> Option<&'a str>
    ensures { MatchOption result (nat_le (length (as_meant text.now)) (length room.old) ≡ false)
        (λ meant. (nat_le (length (as_meant text.now)) (length room.old) ≡ true)
        × (meant.now ≡ as_meant text.now)) }
{
    let most = room.len();
    let mut buffer = Buffer::new(room);
    match put_as_meant(&mut buffer, text) {
        Ok(()) => {
            if buffer.count <= most {
                Some(buffer.into_text())
            } else {
                None
            }
        }
        Err(never) => match never {},
    }
}

// Writes a text as it is spoken at the start of a buffer, if it fits, and returns the number of its
// bytes, at most the greatest `usize`.
fn put_spoken(room: &mut [u8], voice: Voice, wanted: Wanted, text: &str, meant: &str) -> usize
    requires { meant.now ≡ as_meant text.now }
    ensures count { result ≡ min (length (text_in_speech voice wanted text.now)) (2 ^ 64 - 1) }
    ensures put { let new = text_in_speech voice wanted text.now in
        length new ≤ length room.old → room.new ≡ new ++ drop (length new) room.old }
{
    let mut buffer = Buffer::new(room);
    match put_speech(&mut buffer, voice, wanted, text, meant) {
        Ok(()) => buffer.count,
        Err(never) => match never {},
    }
}

/// Writes a text as it is spoken into the caller's buffer, `room`: its figures, signs and measures in
/// Chinese characters. `options` is 0 or YAO. `meant` is a second buffer, of at least as many bytes as
/// the text, to which the text with its signs as they are meant is written. The status is UNKNOWN if a
/// code or the options name nothing, NOT_UTF8 if the bytes are not UTF-8, and NO_ROOM if `meant` is
/// shorter than the text or the new text does not fit.
///
/// Writes `*len`, which is the length of the new text, or 0 if there is none, and bytes of both
/// buffers: if the new text fits, it is at the start of `room`.
#[unsafe(no_mangle)]
pub extern "C" fn chinese_text_to_speech(
    text: &[u8],
    upper: u32,
    greatest: u32,
    method: u32,
    script: u32,
    options: u32,
    meant: &mut [u8],
    room: &mut [u8],
    len: &mut usize,
) -> u32
    ensures { IsSpoken text.now upper greatest method script options (length meant.old) room.old
        result room.new len.new }
{
    *len = 0;
    let (Some(wanted), Some(voice)) = (
        wanted_of(upper, greatest),
        voice_of(method, script, options),
    ) else {
        return UNKNOWN;
    };
    let Some(text) = utf8_text(text) else {
        return NOT_UTF8;
    };
    let Some(meant) = meant_in(text, meant) else {
        return NO_ROOM;
    };
    *len = put_spoken(room, voice, wanted, text, meant);
    if *len <= room.len() { DONE } else { NO_ROOM }
}

// Writes spans of the parts that are left from a place on, until there are no more or the spans are
// full, and returns how many were written.
fn fill_left<'a>(
    text: &'a str,
    meant: &'a str,
    place: Place<'a>,
    wanted: Wanted,
    spans: &mut [Span],
) -> usize
    requires { IsPlace text.now meant.now place }
    ensures { Fills (map (span_told doubt_in_text) (take (length spans.old)
        (left_at wanted text.now meant.now place.entry))) spans.old spans.new result }
{
    let mut count = 0;
    let mut next = place;
    'filling: while count < spans.len() {
        let Some(left) = next_left(text, meant, next, wanted) else {
            break;
        };
        spans[count] = span_of_found::<QuantityRule>(left.found);
        next = left.after;
        count += 1;
    }
    count
}

// Finds the parts that are left from a byte of a text on.
fn find_left(
    text: &str,
    meant: &str,
    from: usize,
    wanted: Wanted,
    spans: &mut [Span],
    count: &mut usize,
) -> u32
    ensures { FindsLeft wanted text.now meant.now from spans.old result spans.new count.new }
{
    let Some((_, given)) = text.split_at_checked(from) else {
        return tell_none(count, NOT_UTF8);
    };
    let Some((_, ahead)) = meant.split_at_checked(from) else {
        return tell_none(count, NOT_UTF8);
    };
    let place = Place {
        given,
        meant: ahead,
    };
    *count = fill_left(text, meant, place, wanted, spans);
    DONE
}

/// Finds the parts of a text with figures that `chinese_text_to_speech` leaves as they are, from a byte
/// on, in the same way as `chinese_quantity_find` finds expressions: 86 of x86, and 2026.1.15. `meant`
/// is a buffer as for that call. The status is also NO_ROOM, if `meant` is shorter than the text.
#[unsafe(no_mangle)]
pub extern "C" fn chinese_speech_left(
    text: &[u8],
    from: usize,
    upper: u32,
    greatest: u32,
    meant: &mut [u8],
    spans: &mut [Span],
    count: &mut usize,
) -> u32
    ensures { IsLeftFound text.now from upper greatest (length meant.old) spans.old
        result spans.new count.new }
{
    let Some(wanted) = wanted_of(upper, greatest) else {
        return tell_none(count, UNKNOWN);
    };
    let Some(text) = utf8_text(text) else {
        return tell_none(count, NOT_UTF8);
    };
    match meant_in(text, meant) {
        Some(meant) => find_left(text, meant, from, wanted, spans, count),
        None => tell_none(count, NO_ROOM),
    }
}
