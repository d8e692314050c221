// Prints quantities in numerals.
ghost use Rattle.std.specs.Prelude.{◌≡◌, ◌≤◌, slice_get};
ghost use Rattle.cn_c.specs.Codes.{named_ways};
ghost use Rattle.cn_c.specs.QuantityPrints.{IsQuantityPrinted, method_written};

use crate::codes::{NamedWay, case_of, named_way_of, script_of};
use crate::quantity::{Quantity, quantity_of};
use crate::room::put_text;
use crate::status::{NOT_A_QUANTITY, TOO_LARGE, TOO_SMALL, UNKNOWN};
use chinese_number::{ChineseCountMethod, ChineseVariant};
use cn_dynamic::{Way, written_method};
use cn_quantity_text::{
    MOST_QUANTITY_BYTES, QuantityToChineseError, greatest_spelled, put_quantity,
};

// The method by which a quantity is written, given its code; `None` if there is none.
fn method_written(
    code: u32,
    script: ChineseVariant,
    quantity: chinese_number::Quantity,
) -> Option<ChineseCountMethod>
    ensures { result ≡ method_written (slice_get named_ways code) script quantity }
{
    match named_way_of(code) {
        Some(NamedWay::By(Way::Units(method))) => Some(method),
        Some(NamedWay::Either) => Some(written_method(script, greatest_spelled(quantity))),
        _ => None,
    }
}

/// Prints a quantity in numerals, by a method or either way, into the caller's buffer, `room`. 471
/// bytes are enough for any quantity. The status is UNKNOWN if a code names nothing, NOT_A_QUANTITY
/// if the denominator is 0, TOO_LARGE or TOO_SMALL if the method does not write the quantity, and
/// NO_ROOM if the text does not fit.
///
/// Writes `*len`, which is the length of the text at DONE and NO_ROOM, and otherwise 0. If the text
/// fits, it is written at the start of the buffer; no other byte of the buffer changes.
#[unsafe(no_mangle)]
pub extern "C" fn chinese_quantity_print(
    quantity: &Quantity,
    method: u32,
    script: u32,
    case: u32,
    room: &mut [u8],
    len: &mut usize,
) -> u32
    ensures printed { IsQuantityPrinted quantity.now method script case room.old result room.new
        len.new }
    ensures bound { len.new ≤ 471 }
{
    *len = 0;
    let (Some(script), Some(case)) = (script_of(script), case_of(case)) else {
        return UNKNOWN;
    };
    let Some(quantity) = quantity_of(quantity) else {
        return UNKNOWN;
    };
    let Some(method) = method_written(method, script, quantity) else {
        return UNKNOWN;
    };
    let mut scratch = [0; MOST_QUANTITY_BYTES];
    match put_quantity(&mut scratch, script, case, method, quantity) {
        Ok(text) => put_text(text.as_bytes(), room, len),
        Err(QuantityToChineseError::Overflow) => TOO_LARGE,
        Err(QuantityToChineseError::Underflow) => TOO_SMALL,
        Err(_) => NOT_A_QUANTITY,
    }
}
