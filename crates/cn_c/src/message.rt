// Messages for people.
ghost use Rattle.std.specs.Prelude.{◌≡◌, ◌==◌, ◌&&◌, not, is_some};
ghost use Rattle.cn_c.specs.Messages.{IsInputMessage, IsNumberMessage, IsQuantityMessage, IsStatusMessage, PutsMessage, is_status};

use crate::codes::{input_of, kind_of, language_of, named_way_of};
use crate::explain::way_for;
use crate::quantity::method_of;
use crate::room::put_text;
use crate::status::{
    DONE, EMPTY, INCORRECT, NO_ROOM, NONE, NOT_A_DATE, NOT_A_QUANTITY, NOT_HELD, NOT_UTF8,
    TOO_LARGE, TOO_SMALL, UNFINISHED, UNKNOWN,
};
use cn_core::Buffer;
use cn_dynamic::utf8_text;
use cn_message::{
    Sentence, put_input_message, put_number_message, put_quantity_message, put_status_message,
};
use std::convert::Infallible;

// Only the C source of the library returns this status.
const TOO_LONG: u32 = u32::MAX;

// How many bytes a message has at most.
const MOST_MESSAGE_BYTES: usize = 512;

// How many bytes were written to a buffer.
fn count_of(written: Result<(), Infallible>, buffer: &Buffer<'_>) -> usize {
    match written {
        Ok(()) => buffer.count,
        Err(never) => match never {},
    }
}

// Copies a message of so many bytes to the start of the caller's buffer if it fits, and writes its
// length. A message that is longer than all messages would be left out.
fn put_message(
    message: &[u8; MOST_MESSAGE_BYTES],
    count: usize,
    room: &mut [u8],
    len: &mut usize,
) -> u32
    ensures { PutsMessage room.old result room.new len.new }
{
    put_text(message.get(..count).unwrap_or(&[]), room, len)
}

/// Writes why a text is not an input, in a language, into the caller's buffer, `room`; nothing for a
/// text that is one. The status is UNKNOWN if a code names nothing, NOT_UTF8 if the bytes are not
/// UTF-8, and NO_ROOM if the message does not fit.
///
/// Writes `*len`, which is the length of the message at DONE and NO_ROOM, and otherwise 0. If the
/// message fits, it is written at the start of the buffer; no other byte of the buffer changes. 512
/// bytes are enough for any message.
#[unsafe(no_mangle)]
pub extern "C" fn chinese_input_message(
    text: &[u8],
    input: u32,
    language: u32,
    room: &mut [u8],
    len: &mut usize,
) -> u32
    ensures { IsInputMessage text.now input language room.old result room.new len.new }
{
    *len = 0;
    let (Some(input), Some(language)) = (input_of(input), language_of(language)) else {
        return UNKNOWN;
    };
    let Some(text) = utf8_text(text) else {
        return NOT_UTF8;
    };
    let mut message = [0; MOST_MESSAGE_BYTES];
    let mut buffer = Buffer::new(&mut message);
    let written = put_input_message(&mut buffer, input, language, text);
    let count = count_of(written, &buffer);
    put_message(&message, count, room, len)
}

/// Writes why `chinese_number_read` refuses a text, likewise.
#[unsafe(no_mangle)]
pub extern "C" fn chinese_number_message(
    text: &[u8],
    kind: u32,
    way: u32,
    language: u32,
    room: &mut [u8],
    len: &mut usize,
) -> u32
    ensures { IsNumberMessage text.now kind way language room.old result room.new len.new }
{
    *len = 0;
    let (Some(integer), Some(way)) = (kind_of(kind), named_way_of(way)) else {
        return UNKNOWN;
    };
    let Some(language) = language_of(language) else {
        return UNKNOWN;
    };
    let Some(text) = utf8_text(text) else {
        return NOT_UTF8;
    };
    let mut message = [0; MOST_MESSAGE_BYTES];
    let mut buffer = Buffer::new(&mut message);
    let way = way_for(way, integer, text);
    let written = put_number_message(&mut buffer, integer, way, language, text);
    let count = count_of(written, &buffer);
    put_message(&message, count, room, len)
}

/// Writes why `chinese_quantity_read` refuses a text, likewise.
#[unsafe(no_mangle)]
pub extern "C" fn chinese_quantity_message(
    text: &[u8],
    method: u32,
    language: u32,
    room: &mut [u8],
    len: &mut usize,
) -> u32
    ensures { IsQuantityMessage text.now method language room.old result room.new len.new }
{
    *len = 0;
    let (Some(method), Some(language)) = (method_of(method), language_of(language)) else {
        return UNKNOWN;
    };
    let Some(text) = utf8_text(text) else {
        return NOT_UTF8;
    };
    let mut message = [0; MOST_MESSAGE_BYTES];
    let mut buffer = Buffer::new(&mut message);
    let written = put_quantity_message(&mut buffer, method, language, text);
    let count = count_of(written, &buffer);
    put_message(&message, count, room, len)
}

// What a status means; `None` if there is nothing to say, or no such status.
fn sentence_of(status: u32) -> Option<Sentence>
    ensures { is_some result ≡ (is_status status && not (status == 0)) }
{
    Some(match status {
        EMPTY => Sentence::NoNumber,
        INCORRECT => Sentence::Incorrect,
        TOO_LARGE => Sentence::TooLarge,
        TOO_SMALL => Sentence::TooSmall,
        NOT_UTF8 => Sentence::NotUtf8,
        NO_ROOM => Sentence::SmallBuffer,
        NOT_HELD => Sentence::NotHeld,
        UNKNOWN => Sentence::UnknownCode,
        UNFINISHED => Sentence::Unfinished,
        NONE => Sentence::NoneLeft,
        NOT_A_DATE => Sentence::NotADate,
        NOT_A_QUANTITY => Sentence::NoDenominator,
        TOO_LONG => Sentence::TooLong,
        _ => return None,
    })
}

/// Writes what a status means, in a language, into the caller's buffer, `room`; nothing for DONE. The
/// status is UNKNOWN if a code names nothing, and NO_ROOM if the message does not fit.
///
/// Writes `*len`, which is the length of the message at DONE and NO_ROOM, and otherwise 0. If the
/// message fits, it is written at the start of the buffer; no other byte of the buffer changes. 512
/// bytes are enough for any message.
#[unsafe(no_mangle)]
pub extern "C" fn chinese_status_message(
    status: u32,
    language: u32,
    room: &mut [u8],
    len: &mut usize,
) -> u32
    ensures { IsStatusMessage status language room.old result room.new len.new }
{
    *len = 0;
    let Some(language) = language_of(language) else {
        return UNKNOWN;
    };
    if status == DONE {
        return put_text(&[], room, len);
    }
    let Some(sentence) = sentence_of(status) else {
        return UNKNOWN;
    };
    let mut message = [0; MOST_MESSAGE_BYTES];
    let mut buffer = Buffer::new(&mut message);
    let written = put_status_message(&mut buffer, sentence, language);
    let count = count_of(written, &buffer);
    put_message(&message, count, room, len)
}
