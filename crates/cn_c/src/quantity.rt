// Exact quantities.
ghost use Rattle.std.specs.Prelude.{◌≡◌, slice_get};
ghost use Rattle.chinese_number.specs.Answer.{answer_of};
ghost use Rattle.cn_c.specs.Codes.{named_ways};
ghost use Rattle.cn_c.specs.Quantities.{IsTold, TellsQuantity, IsQuantityRead, method_of, quantity_of};

use crate::codes::{NamedWay, named_way_of};
use crate::number::{Number, bits_of, halves, signed_number};
use crate::quantity_form::{form_code, quantity_form_of};
use crate::reading::refusal_status;
use crate::status::{DONE, NOT_UTF8, UNKNOWN};
use chinese_number::{ChineseCountMethod, ChineseToNumberError, chinese_to_quantity};
use cn_dynamic::{SignedMagnitude, Way, utf8_text};
use cn_judge::byte_index;

/// A quantity that was read or is to be printed: its numerator, its denominator and the code of its
/// form; or, if a character is at fault, how many characters and how many bytes of the text come
/// before it.
#[repr(C)]
#[derive(Clone, Copy)]
pub struct Quantity {
    pub numerator: Number,
    pub denominator: Number,
    pub form: u32,
    pub char_index: usize,
    pub byte_index: usize,
}

/// What is written if there is no quantity.
pub const NOTHING: Quantity = Quantity {
    numerator: Number { low: 0, high: 0 },
    denominator: Number { low: 0, high: 0 },
    form: 0,
    char_index: 0,
    byte_index: 0,
};

/// The method by which a quantity is read, given its code; `None` if there is none.
pub fn method_of(code: u32) -> Option<ChineseCountMethod>
    ensures { result ≡ method_of (slice_get named_ways code) }
{
    match named_way_of(code) {
        Some(NamedWay::By(Way::Units(method))) => Some(method),
        Some(NamedWay::Either) => Some(ChineseCountMethod::TenThousand),
        _ => None,
    }
}

/// The quantity that a caller in C passes; `None` if the code of its form names none.
pub fn quantity_of(told: &Quantity) -> Option<chinese_number::Quantity>
    ensures { result ≡ quantity_of told.now }
{
    Some(chinese_number::Quantity {
        numerator: signed_number(told.numerator),
        denominator: bits_of(told.denominator),
        form: quantity_form_of(told.form)?,
    })
}

/// A quantity as C gets it.
pub fn told_quantity(exact: chinese_number::Quantity) -> Quantity
    ensures { IsTold exact result }
{
    Quantity {
        numerator: halves(SignedMagnitude::of(exact.numerator)),
        denominator: halves(SignedMagnitude::of(exact.denominator)),
        form: form_code(exact.form),
        char_index: 0,
        byte_index: 0,
    }
}

// Writes the answer to a text to `*quantity`, and returns its status.
fn tell_quantity(
    text: &str,
    answer: Result<chinese_number::Quantity, ChineseToNumberError>,
    quantity: &mut Quantity,
) -> u32
    ensures { TellsQuantity text.now (answer_of (λ q. q) answer) result quantity.new }
{
    *quantity = NOTHING;
    match answer {
        Ok(exact) => {
            *quantity = told_quantity(exact);
            DONE
        }
        Err(error) => {
            if let ChineseToNumberError::ChineseNumberIncorrect { char_index } = error {
                quantity.char_index = char_index;
                quantity.byte_index = byte_index(text, char_index);
            }
            refusal_status(error)
        }
    }
}

/// Reads a text as an exact quantity by a method. The status is UNKNOWN if the code names no
/// method, NOT_UTF8 if the bytes are not UTF-8, and otherwise that of a refusal: EMPTY, INCORRECT,
/// TOO_LARGE or TOO_SMALL.
///
/// Writes all of `*quantity` at each status, and nothing else.
#[unsafe(no_mangle)]
pub extern "C" fn chinese_quantity_read(text: &[u8], method: u32, quantity: &mut Quantity) -> u32
    ensures { IsQuantityRead text.now method result quantity.new }
{
    *quantity = NOTHING;
    let Some(method) = method_of(method) else {
        return UNKNOWN;
    };
    match utf8_text(text) {
        Some(text) => tell_quantity(text, chinese_to_quantity(text, method), quantity),
        None => NOT_UTF8,
    }
}
