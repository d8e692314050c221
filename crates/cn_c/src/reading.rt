// Reads numbers.
ghost use Rattle.std.specs.Prelude.{◌≡◌, IsSome, slice_get, true, false, IsUtf8};
ghost use Rattle.chinese_number.specs.Answer.{refusal_of};
ghost use Rattle.cn_c.specs.declared.codes.NamedWay.TheVariants.{By, Either};
ghost use Rattle.cn_c.specs.Codes.{kinds, named_ways, refusal_status};
ghost use Rattle.cn_c.specs.Reads.{ReadsInto, IsRead, bytes_in_front, chars_in_front, no_number};
ghost use Rattle.cn_dynamic.specs.IntegerTypes.{the_kind};

use crate::codes::{NamedWay, kind_of, named_way_of};
use crate::number::{Number, halves, halves_of};
use crate::status::{DONE, EMPTY, INCORRECT, NOT_UTF8, TOO_LARGE, TOO_SMALL, UNKNOWN};
use chinese_number::ChineseToNumberError;
use cn_dynamic::{
    IntegerType, Way, are_common, are_utf8_at_all, either_way, read_as, read_unsigned,
};
use cn_judge::byte_index;
use std::str;

/// The result of reading a number: the number; or, if a character is at fault, how many characters
/// and how many bytes of the text come before it.
#[repr(C)]
#[derive(Clone, Copy)]
pub struct Reading {
    pub number: Number,
    pub char_index: usize,
    pub byte_index: usize,
}

/// The result if no number was read.
pub const NOTHING: Reading = Reading {
    number: Number { low: 0, high: 0 },
    char_index: 0,
    byte_index: 0,
};

/// The status of a refusal.
#[inline(always)]
pub fn refusal_status(error: ChineseToNumberError) -> u32
    ensures { result ≡ refusal_status (refusal_of error) }
{
    match error {
        ChineseToNumberError::ChineseNumberEmpty => EMPTY,
        ChineseToNumberError::ChineseNumberIncorrect { .. } => INCORRECT,
        ChineseToNumberError::Overflow => TOO_LARGE,
        ChineseToNumberError::Underflow => TOO_SMALL,
    }
}

// Writes that nothing was read, and returns the status.
#[inline(always)]
fn tell_nothing(reading: &mut Reading, status: u32) -> u32
    ensures { (result ≡ status) × (reading.new ≡ no_number 0 0) }
{
    *reading = NOTHING;
    status
}

// Writes where the character at fault is, if there is one, and returns the status of a refusal.
#[inline(always)]
fn tell_refusal(text: &str, error: ChineseToNumberError, reading: &mut Reading) -> u32
    ensures status { result ≡ refusal_status (refusal_of error) }
    ensures reading { reading.new ≡ no_number (chars_in_front (refusal_of error))
        (bytes_in_front text.now (refusal_of error)) }
{
    *reading = NOTHING;
    if let ChineseToNumberError::ChineseNumberIncorrect { char_index } = error {
        // It is written before the search for the byte, so that no register holds it during the
        // search.
        reading.char_index = char_index;
        reading.byte_index = byte_index(text, char_index);
    }
    refusal_status(error)
}

// Reads a text as a number of a signed type. This is a function of its own, like the next one, so
// that its caller is short.
#[inline(never)]
fn read_signed_text(text: &str, integer: IntegerType, way: Way, reading: &mut Reading) -> u32
    requires { (the_kind integer).signed ≡ true }
    ensures { ReadsInto (the_kind integer) (By way) text.now result reading.new }
{
    match read_as(integer, way, text) {
        Ok(number) => {
            *reading = Reading {
                number: halves(number),
                ..NOTHING
            };
            DONE
        }
        Err(error) => tell_refusal(text, error, reading),
    }
}

// Reads a text as a number of an unsigned type.
#[inline(never)]
fn read_unsigned_text(text: &str, integer: IntegerType, way: Way, reading: &mut Reading) -> u32
    requires { (the_kind integer).signed ≡ false }
    ensures { ReadsInto (the_kind integer) (By way) text.now result reading.new }
{
    match read_unsigned(integer, way, text) {
        Ok(number) => {
            *reading = Reading {
                number: halves_of(number),
                ..NOTHING
            };
            DONE
        }
        Err(error) => tell_refusal(text, error, reading),
    }
}

// Reads a text in a way, as a number of a type.
#[inline(always)]
fn read_text(text: &str, integer: IntegerType, way: Way, reading: &mut Reading) -> u32
    ensures { ReadsInto (the_kind integer) (By way) text.now result reading.new }
{
    if integer.is_signed() {
        read_signed_text(text, integer, way, reading)
    } else {
        read_unsigned_text(text, integer, way, reading)
    }
}

// Reads a text either way, as a number of a type.
#[inline(never)]
fn read_either(text: &str, integer: IntegerType, reading: &mut Reading) -> u32
    ensures { ReadsInto (the_kind integer) Either text.now result reading.new }
{
    read_text(text, integer, either_way(integer, text), reading)
}

// Reads bytes that are not all common characters. This is a function of its own, so that its caller
// keeps nothing in registers during a test: each other text is then read in some 16 instructions
// fewer.
#[inline(never)]
fn read_uncommon(text: &[u8], kind: u32, way: u32, reading: &mut Reading) -> u32
    requires kind { IsSome (slice_get kinds kind) }
    requires way { IsSome (slice_get named_ways way) }
    ensures { IsRead text.now kind way result reading.new }
{
    if !are_utf8_at_all(text) {
        return tell_nothing(reading, NOT_UTF8);
    }
    unsafe { chinese_number_read_utf8(text, kind, way, reading) }
}

// Same answer (if are_common(text) → nothing): the reader of uncommon text tests all bytes, more
// slowly.
/// Reads a numeral as a number of a type. The status is UNKNOWN if a code names no type or way,
/// NOT_UTF8 if the bytes are not UTF-8, and otherwise that of a refusal: EMPTY, INCORRECT,
/// TOO_LARGE or TOO_SMALL.
///
/// Writes all of `*reading` at each status, and nothing else.
#[unsafe(no_mangle)]
pub extern "C" fn chinese_number_read(
    text: &[u8],
    kind: u32,
    way: u32,
    reading: &mut Reading,
) -> u32
    ensures { IsRead text.now kind way result reading.new }
{
    // Tested in one `let`, as below, the codes take 2 instructions more here.
    let Some(_) = kind_of(kind) else {
        return tell_nothing(reading, UNKNOWN);
    };
    let Some(_) = named_way_of(way) else {
        return tell_nothing(reading, UNKNOWN);
    };
    if are_common(text) {
        return unsafe { chinese_number_read_utf8(text, kind, way, reading) };
    }
    read_uncommon(text, kind, way, reading)
}

/// Reads a numeral as `chinese_number_read` does, for a caller who knows that the bytes are UTF-8.
#[unsafe(no_mangle)]
pub unsafe extern "C" fn chinese_number_read_utf8(
    text: &[u8],
    kind: u32,
    way: u32,
    reading: &mut Reading,
) -> u32
    requires { IsUtf8 text.now }
    ensures { IsRead text.now kind way result reading.new }
{
    let (Some(integer), Some(way)) = (kind_of(kind), named_way_of(way)) else {
        return tell_nothing(reading, UNKNOWN);
    };
    let text = unsafe { str::from_utf8_unchecked(text) };
    match way {
        NamedWay::By(way) => read_text(text, integer, way, reading),
        NamedWay::Either => read_either(text, integer, reading),
    }
}
