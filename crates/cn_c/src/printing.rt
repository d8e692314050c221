// Prints numbers.
ghost use Rattle.std.specs.Prelude.{◌≡◌, ◌≤◌, nat_abs};
ghost use Rattle.cn_c.specs.Prints.{PrintsNumber, IsPrinted, way_written};
ghost use Rattle.cn_dynamic.specs.IntegerTypes.{the_kind};

use crate::codes::{NamedWay, case_of, kind_of, named_way_of, script_of};
use crate::number::{Number, bits_of, signed_number};
use crate::room::put_text;
use crate::status::{NOT_HELD, TOO_LARGE, TOO_SMALL, UNKNOWN, tell_none};
use chinese_number::{ChineseCase, ChineseVariant, NumberToChineseError, ROOM_BYTES, Whole};
use cn_dynamic::{IntegerType, SignedMagnitude, Way, put_by, written_method};

/// How a number is written.
#[derive(Clone, Copy)]
pub struct Style {
    pub way: NamedWay,
    pub script: ChineseVariant,
    pub case: ChineseCase,
}

/// The way in which a magnitude is written.
pub fn way_written(way: NamedWay, script: ChineseVariant, magnitude: u128) -> Way
    ensures { result ≡ way_written way script magnitude }
{
    match way {
        NamedWay::By(way) => way,
        NamedWay::Either => Way::Units(written_method(script, magnitude)),
    }
}

// Prints a number of 128 bits. The status is NOT_HELD if the type does not hold it.
fn print_as<T: Whole>(
    integer: IntegerType,
    value: T,
    style: Style,
    room: &mut [u8],
    len: &mut usize,
) -> u32
    ensures printed { PrintsNumber (the_kind integer)
        (way_written style.way style.script (nat_abs (T.number value))) style.script style.case
        (T.number value) room.old result room.new len.new }
    ensures bound { len.new ≤ 234 }
{
    if !integer.holds(SignedMagnitude::of(value)) {
        return tell_none(len, NOT_HELD);
    }
    let Style { way, script, case } = style;
    let way = way_written(way, script, value.magnitude());
    let mut scratch = [0; ROOM_BYTES];
    match put_by(&mut scratch, way, script, case, value) {
        Ok(text) => put_text(text.as_bytes(), room, len),
        Err(NumberToChineseError::Underflow) => tell_none(len, TOO_SMALL),
        Err(_) => tell_none(len, TOO_LARGE),
    }
}

/// Prints a number of a type, given in halves, into the caller's buffer, `room`. 234 bytes are
/// enough for any number. The status is UNKNOWN if a code names nothing, NOT_HELD if the type does
/// not hold the number, TOO_LARGE or TOO_SMALL if the method does not write it, and NO_ROOM if the
/// text does not fit.
///
/// Writes `*len`, which is the length of the text at DONE and NO_ROOM, and otherwise 0. If the text
/// fits, it is written at the start of the buffer; no other byte of the buffer changes.
#[unsafe(no_mangle)]
pub extern "C" fn chinese_number_print(
    low: u64,
    high: u64,
    kind: u32,
    way: u32,
    script: u32,
    case: u32,
    room: &mut [u8],
    len: &mut usize,
) -> u32
    ensures printed { IsPrinted low high kind way script case room.old result room.new len.new }
    ensures bound { len.new ≤ 234 }
{
    let Some(integer) = kind_of(kind) else {
        return tell_none(len, UNKNOWN);
    };
    let Some(way) = named_way_of(way) else {
        return tell_none(len, UNKNOWN);
    };
    let Some(script) = script_of(script) else {
        return tell_none(len, UNKNOWN);
    };
    let Some(case) = case_of(case) else {
        return tell_none(len, UNKNOWN);
    };
    let number = Number { low, high };
    let style = Style { way, script, case };
    if integer.is_signed() {
        print_as(integer, signed_number(number), style, room, len)
    } else {
        print_as(integer, bits_of(number), style, room, len)
    }
}
