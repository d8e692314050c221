// Finds the numbers and the expressions of a text.
ghost use Rattle.std.specs.Prelude.{◌≡◌, Some, map, take, IfNone, IfSome, IsUtf8, length, slice_get};
ghost use Rattle.std.specs.Str.{is_utf8};
ghost use Rattle.chinese_number.specs.Spans.{span_of};
ghost use Rattle.cn_c.specs.Finds.{Fills, FindsFrom, IsFound, IsFoundAs, IsQuantityFound, number_search, span_told, wanted_of};
ghost use Rattle.cn_c.specs.Codes.{units, uppers, CN_DONE, CN_NOT_UTF8};

use crate::codes::{unit_of, upper_of};
use crate::flags::flags_and_doubt;
use crate::status::{DONE, NOT_UTF8, UNKNOWN, tell_none};
use chinese_number::{
    Found, Numbers, SearchRule, Unit, Wanted, find_numbers_from, find_quantities_from,
};
use cn_dynamic::{are_common, are_utf8_at_all, utf8_text};
use std::str;

/// The position of a run in its text, in bytes, and the sum of its flags and 16 times the code of
/// its doubt.
#[repr(C)]
#[derive(Clone, Copy)]
pub struct Span {
    pub start: usize,
    pub end: usize,
    pub flags: u32,
}

/// A run as C gets it. As a call, this takes some 25 instructions more for each run.
#[inline(always)]
pub fn span_of_found<R: SearchRule>(found: Found<'_>) -> Span
    ensures { result ≡ span_told R.doubt (span_of found.entry) }
{
    Span {
        start: found.start(),
        end: found.end(),
        flags: flags_and_doubt::<R>(found),
    }
}

// Writes spans of the runs until there are no more runs or the spans are full, and returns how many
// were written.
fn fill<R: SearchRule>(mut runs: Numbers<'_, R>, spans: &mut [Span]) -> usize
    ensures { Fills (map (span_told R.doubt) (take (length spans.old) runs.entry)) spans.old spans.new result }
{
    let mut count = 0;
    'filling: while count < spans.len() {
        let Some(found) = runs.next() else {
            break;
        };
        spans[count] = span_of_found::<R>(found);
        count += 1;
    }
    count
}

// Writes spans of the runs from a byte on. The status is NOT_UTF8 if no character begins at that
// byte and the text does not end there.
fn tell<R: SearchRule>(runs: Option<Numbers<'_, R>>, spans: &mut [Span], count: &mut usize) -> u32
    ensures some { IfSome runs.entry (λ left. (result ≡ CN_DONE)
        × Fills (map (span_told R.doubt) (take (length spans.old) left)) spans.old spans.new count.new) }
    ensures none { IfNone runs.entry
        ((result ≡ CN_NOT_UTF8) × (spans.new ≡ spans.old) × (count.new ≡ 0)) }
{
    let Some(runs) = runs else {
        return tell_none(count, NOT_UTF8);
    };
    *count = fill(runs, spans);
    DONE
}

/// The characters that a search looks for, by two codes; `None` if a code names nothing.
pub fn wanted_of(upper: u32, greatest: u32) -> Option<Wanted>
    ensures { result ≡ wanted_of (slice_get uppers upper) (slice_get units greatest) }
{
    let upper = upper_of(upper)?;
    let greatest = unit_of(greatest)?;
    Some(Wanted { upper, greatest })
}

// Finds the numbers of a text. This is a function of its own, so that a call with nothing to do,
// because of its codes or at the end of the text, does not save the registers that a search uses.
#[inline(never)]
fn find_ahead(
    text: &str,
    from: usize,
    upper: bool,
    greatest: Unit,
    spans: &mut [Span],
    count: &mut usize,
) -> u32
    ensures { FindsFrom (number_search (record { upper = upper; greatest = greatest })) text.now from
        spans.old result spans.new count.new }
{
    tell(
        find_numbers_from(text, from, Wanted { upper, greatest }),
        spans,
        count,
    )
}

// Unlike `utf8_text`, this makes no call for bytes that are not common characters.
#[inline(always)]
fn are_utf8(bytes: &[u8]) -> bool
    ensures { result ≡ is_utf8 bytes.now }
{
    are_common(bytes) || are_utf8_at_all(bytes)
}

// Finds the numbers of bytes if they are UTF-8. This is a function of its own for the same reason.
#[inline(never)]
fn find_tested(
    bytes: &[u8],
    from: usize,
    upper: bool,
    greatest: Unit,
    spans: &mut [Span],
    count: &mut usize,
) -> u32
    ensures { IsFoundAs number_search (Some (record { upper = upper; greatest = greatest })) bytes.now from
        spans.old result spans.new count.new }
{
    if are_utf8(bytes) {
        let text = unsafe { str::from_utf8_unchecked(bytes) };
        find_ahead(text, from, upper, greatest, spans, count)
    } else {
        tell_none(count, NOT_UTF8)
    }
}

/// Finds the numbers of a text from a byte on, in order, until there are no more or the spans are
/// full. If they are full, the next call finds the rest from the end of the last span on. The
/// status is UNKNOWN if a code names nothing; it is NOT_UTF8 if the bytes are not UTF-8, or if no
/// character begins at that byte and the text does not end there.
///
/// Writes `*count` and that many spans; the spans after them do not change.
#[unsafe(no_mangle)]
pub extern "C" fn chinese_number_find(
    text: &[u8],
    from: usize,
    upper: u32,
    greatest: u32,
    spans: &mut [Span],
    count: &mut usize,
) -> u32
    ensures { IsFound text.now from upper greatest spans.old result spans.new count.new }
{
    let Some(upper) = upper_of(upper) else {
        return tell_none(count, UNKNOWN);
    };
    let Some(greatest) = unit_of(greatest) else {
        return tell_none(count, UNKNOWN);
    };
    find_tested(text, from, upper, greatest, spans, count)
}

/// Finds the same as `chinese_number_find`, for a caller who knows that the bytes are UTF-8. So a
/// text is tested once, and not again at each call.
#[unsafe(no_mangle)]
pub unsafe extern "C" fn chinese_number_find_utf8(
    text: &[u8],
    from: usize,
    upper: u32,
    greatest: u32,
    spans: &mut [Span],
    count: &mut usize,
) -> u32
    requires { IsUtf8 text.now }
    ensures { IsFound text.now from upper greatest spans.old result spans.new count.new }
{
    let Some(upper) = upper_of(upper) else {
        return tell_none(count, UNKNOWN);
    };
    let Some(greatest) = unit_of(greatest) else {
        return tell_none(count, UNKNOWN);
    };
    // If the text ends here, this returns at once, so that no registers are saved for a search.
    if from == text.len() {
        return tell_none(count, DONE);
    }
    let text = unsafe { str::from_utf8_unchecked(text) };
    find_ahead(text, from, upper, greatest, spans, count)
}

/// Finds the expressions of a text, which `chinese_quantity_read` reads, in the same way as
/// `chinese_number_find` finds numbers: 12.5% and 三分之一 are one expression each.
#[unsafe(no_mangle)]
pub extern "C" fn chinese_quantity_find(
    text: &[u8],
    from: usize,
    upper: u32,
    greatest: u32,
    spans: &mut [Span],
    count: &mut usize,
) -> u32
    ensures { IsQuantityFound text.now from upper greatest spans.old result spans.new count.new }
{
    let Some(_) = wanted_of(upper, greatest) else {
        return tell_none(count, UNKNOWN);
    };
    match utf8_text(text) {
        Some(_) => unsafe { chinese_quantity_find_utf8(text, from, upper, greatest, spans, count) },
        None => tell_none(count, NOT_UTF8),
    }
}

/// Finds the same as `chinese_quantity_find`, for a caller who knows that the bytes are UTF-8.
#[unsafe(no_mangle)]
pub unsafe extern "C" fn chinese_quantity_find_utf8(
    text: &[u8],
    from: usize,
    upper: u32,
    greatest: u32,
    spans: &mut [Span],
    count: &mut usize,
) -> u32
    requires { IsUtf8 text.now }
    ensures { IsQuantityFound text.now from upper greatest spans.old result spans.new count.new }
{
    let Some(wanted) = wanted_of(upper, greatest) else {
        return tell_none(count, UNKNOWN);
    };
    let text = unsafe { str::from_utf8_unchecked(text) };
    tell(find_quantities_from(text, from, wanted), spans, count)
}
