// Finds the phrases of a text.
ghost use Rattle.std.specs.Prelude.{◌≡◌, ◌++◌, ◌+◌, ◌*◌, map, take, length, IsUtf8, Some, slice_get, IsCharBoundary, drop};
ghost use Rattle.std.specs.Str.{is_utf8};
ghost use Rattle.cn_find.specs.Spans.{span_of, text_before};
ghost use Rattle.cn_phrase.specs.Items.{items_left};
ghost use Rattle.cn_replace.specs.Chains.{IsPart};
ghost use Rattle.cn_c.specs.Codes.{units, uppers};
ghost use Rattle.cn_c.specs.Finds.{Fills, wanted_of};
ghost use Rattle.cn_c.specs.Phrases.{FindsPhrases, IsPhraseFound, IsRangeRead, TellsRange, kind_code, phrase_told, state_code};
ghost use Rattle.cn_phrase.specs.Ranges.{range_of};

use crate::codes::{unit_of, upper_of};
use crate::flags::flags_and_doubt;
use crate::quantity::{NOTHING, Quantity, told_quantity};
use crate::status::{DONE, INCORRECT, NOT_UTF8, UNKNOWN, tell_none};
use chinese_number::{QuantityRule, Wanted};
use cn_dynamic::utf8_text;
use cn_find::Found;
use cn_phrase::items::next_item;
use cn_phrase::range::{QuantityRange, range_of};
use cn_phrase::{PhraseKind, PhraseState, describe_phrase};
use std::str;

/// A phrase of a text, or an expression that is in none: its position in bytes, how many bytes the
/// first end of a range has, the codes of its kind and its state, its flags as those of a span, and its
/// numbers.
#[repr(C)]
#[derive(Clone, Copy)]
pub struct Phrase {
    pub start: usize,
    pub end: usize,
    pub split: usize,
    pub kind: u32,
    pub state: u32,
    pub flags: u32,
    pub first: u32,
    pub second: u32,
    pub third: u32,
    pub fourth: u32,
}

// The code of a kind.
fn kind_code(kind: PhraseKind) -> u32
    ensures { result ≡ kind_code kind }
{
    match kind {
        PhraseKind::Expression => 0,
        PhraseKind::Date => 1,
        PhraseKind::Years => 2,
        PhraseKind::Months => 3,
        PhraseKind::Days => 4,
        PhraseKind::Time => 5,
        PhraseKind::Duration => 6,
        PhraseKind::Half => 7,
        PhraseKind::Length => 8,
        PhraseKind::Score => 9,
        PhraseKind::Range => 10,
        PhraseKind::Money => 11,
    }
}

// The code of a state.
fn state_code(state: PhraseState) -> u32
    ensures { result ≡ state_code state }
{
    match state {
        PhraseState::Certain => 0,
        PhraseState::Doubtful => 1,
        PhraseState::Refused => 2,
    }
}

// An item of a text as C gets it.
fn phrase_of(text: &str, found: Found<'_>, wanted: Wanted) -> Phrase
    requires { IsPart text.now (span_of found) }
    ensures { result ≡ phrase_told wanted (span_of found.entry) }
{
    let item = describe_phrase(text, found, wanted);
    Phrase {
        start: found.start(),
        end: found.end(),
        split: item.split,
        kind: kind_code(item.kind),
        state: state_code(item.state),
        flags: flags_and_doubt::<QuantityRule>(found),
        first: item.numbers.first,
        second: item.numbers.second,
        third: item.numbers.third,
        fourth: item.numbers.fourth,
    }
}

// Writes the items of a suffix of a text until there are no more or the array is full, and returns how
// many were written.
fn fill_phrases(text: &str, rest: &str, wanted: Wanted, phrases: &mut [Phrase]) -> usize
    requires { text_before text.now rest.now ++ rest.now ≡ text.now }
    ensures { Fills (map (phrase_told wanted) (take (length phrases.old) (items_left wanted text.now rest.now)))
        phrases.old phrases.new result }
{
    let mut count = 0;
    let mut left = rest;
    'filling: while count < phrases.len() {
        let Some(found) = next_item(text, left, wanted) else {
            break;
        };
        phrases[count] = phrase_of(text, found, wanted);
        left = found.after;
        count += 1;
    }
    count
}

// Finds the items of a text from a byte on.
fn find_phrases(
    text: &str,
    from: usize,
    wanted: Wanted,
    phrases: &mut [Phrase],
    count: &mut usize,
) -> u32
    ensures { FindsPhrases wanted text.now from phrases.old result phrases.new count.new }
{
    let Some((_, rest)) = text.split_at_checked(from) else {
        return tell_none(count, NOT_UTF8);
    };
    *count = fill_phrases(text, rest, wanted, phrases);
    DONE
}

/// Finds the phrases of a text from a byte on, and the expressions that are in none, in order, until
/// there are no more or the array is full. If it is full, the next call finds the rest from the end of
/// the last one on. The status is UNKNOWN if a code names nothing; it is NOT_UTF8 if the bytes are not
/// UTF-8, or if no character begins at that byte and the text does not end there.
///
/// Writes `*count` and that many phrases; those after them do not change.
#[unsafe(no_mangle)]
pub extern "C" fn chinese_phrase_find(
    text: &[u8],
    from: usize,
    upper: u32,
    greatest: u32,
    phrases: &mut [Phrase],
    count: &mut usize,
) -> u32
    ensures { IsPhraseFound text.now from upper greatest phrases.old result phrases.new count.new }
{
    let (Some(upper), Some(greatest)) = (upper_of(upper), unit_of(greatest)) else {
        return tell_none(count, UNKNOWN);
    };
    match utf8_text(text) {
        Some(text) => find_phrases(text, from, Wanted { upper, greatest }, phrases, count),
        None => tell_none(count, NOT_UTF8),
    }
}

/// Finds the same as `chinese_phrase_find`, for a caller who knows that the bytes are UTF-8.
#[unsafe(no_mangle)]
pub unsafe extern "C" fn chinese_phrase_find_utf8(
    text: &[u8],
    from: usize,
    upper: u32,
    greatest: u32,
    phrases: &mut [Phrase],
    count: &mut usize,
) -> u32
    requires { IsUtf8 text.now }
    ensures { IsPhraseFound text.now from upper greatest phrases.old result phrases.new count.new }
{
    let (Some(upper), Some(greatest)) = (upper_of(upper), unit_of(greatest)) else {
        return tell_none(count, UNKNOWN);
    };
    let text = unsafe { str::from_utf8_unchecked(text) };
    find_phrases(text, from, Wanted { upper, greatest }, phrases, count)
}

// Writes the ends of a range, if there is one.
fn tell_range(range: Option<QuantityRange>, low: &mut Quantity, high: &mut Quantity) -> u32
    ensures { TellsRange range result low.new high.new }
{
    match range {
        Some(range) => {
            *low = told_quantity(range.low);
            *high = told_quantity(range.high);
            DONE
        }
        None => {
            *low = NOTHING;
            *high = NOTHING;
            INCORRECT
        }
    }
}

// Reads the two ends of a range.
fn read_range(first: &str, second: &str, low: &mut Quantity, high: &mut Quantity) -> u32
    ensures { TellsRange (range_of first.now second.now) result low.new high.new }
{
    tell_range(range_of(first, second), low, high)
}

/// Reads the two ends of a range, which are the text before its link and the text after it. Units and a
/// percent sign that count for both ends do. The status is NOT_UTF8 if either is not UTF-8, and
/// INCORRECT if they are not a range: one is no quantity, or the second is not greater.
///
/// Writes all of `*low` and `*high` at each status.
#[unsafe(no_mangle)]
pub extern "C" fn chinese_range_read(
    first: &[u8],
    second: &[u8],
    low: &mut Quantity,
    high: &mut Quantity,
) -> u32
    ensures { IsRangeRead first.now second.now result low.new high.new }
{
    *low = NOTHING;
    *high = NOTHING;
    let Some(first) = utf8_text(first) else {
        return NOT_UTF8;
    };
    match utf8_text(second) {
        Some(second) => read_range(first, second, low, high),
        None => NOT_UTF8,
    }
}
