// Why a text is not a number or a quantity.
ghost use Rattle.std.specs.Prelude.{◌≡◌};
ghost use Rattle.cn_c.specs.Explains.{misread_code, numeral_code, quantity_code, IsNumberExplained, IsQuantityExplained};
ghost use Rattle.cn_c.specs.Reads.{way_meant};
ghost use Rattle.cn_dynamic.specs.IntegerTypes.{the_kind};

use crate::codes::{NamedWay, kind_of, named_way_of};
use crate::quantity::method_of;
use crate::status::{DONE, NOT_UTF8, UNKNOWN};
use cn_dynamic::{IntegerType, Way, either_way, explain_as, utf8_text};
use cn_judge::NumeralFault;
use cn_quantity::{MisreadFault, QuantityFault, explain_quantity};

// The code of the reason why a text is not a number.
fn numeral_code(fault: NumeralFault) -> u32
    ensures { result ≡ numeral_code fault }
{
    match fault {
        NumeralFault::Empty => 1,
        NumeralFault::TooLarge => 2,
        NumeralFault::TooSmall => 3,
        NumeralFault::Start => 4,
        NumeralFault::Character => 5,
        NumeralFault::Digits => 6,
        NumeralFault::Units => 7,
        NumeralFault::Ge => 8,
        NumeralFault::Groups => 9,
    }
}

// The code of the reason why a text is misread as a number.
fn misread_code(fault: MisreadFault) -> u32
    ensures { result ≡ misread_code fault }
{
    match fault {
        MisreadFault::BareTen => 10,
        MisreadFault::RepeatedTen => 11,
        MisreadFault::AfterZero => 12,
        MisreadFault::Weight => 13,
        MisreadFault::TwoReadings => 14,
        MisreadFault::LeftOutZero => 15,
    }
}

// The code of the reason why a text is not a quantity.
fn quantity_code(fault: QuantityFault) -> u32
    ensures { result ≡ quantity_code fault }
{
    match fault {
        QuantityFault::Numeral(fault) => numeral_code(fault),
        QuantityFault::Misread(fault) => misread_code(fault),
        QuantityFault::Denominator => 16,
    }
}

/// The way in which a text is read as a number of a type.
pub fn way_for(way: NamedWay, integer: IntegerType, text: &str) -> Way
    ensures { result ≡ way_meant (the_kind integer) way text.now }
{
    match way {
        NamedWay::By(way) => way,
        NamedWay::Either => either_way(integer, text),
    }
}

/// Says why `chinese_number_read` refuses a text: 0 if it does not, otherwise the code of the reason.
/// The status is UNKNOWN if a code names no type or way, and NOT_UTF8 if the bytes are not UTF-8.
///
/// Writes `*fault` at each status, and nothing else.
#[unsafe(no_mangle)]
pub extern "C" fn chinese_number_explain(text: &[u8], kind: u32, way: u32, fault: &mut u32) -> u32
    ensures { IsNumberExplained text.now kind way result fault.new }
{
    *fault = 0;
    let (Some(integer), Some(way)) = (kind_of(kind), named_way_of(way)) else {
        return UNKNOWN;
    };
    let Some(text) = utf8_text(text) else {
        return NOT_UTF8;
    };
    if let Some(reason) = explain_as(integer, way_for(way, integer, text), text) {
        *fault = numeral_code(reason);
    }
    DONE
}

/// Says why `chinese_quantity_read` refuses a text, likewise.
///
/// Writes `*fault` at each status, and nothing else.
#[unsafe(no_mangle)]
pub extern "C" fn chinese_quantity_explain(text: &[u8], method: u32, fault: &mut u32) -> u32
    ensures { IsQuantityExplained text.now method result fault.new }
{
    *fault = 0;
    let Some(method) = method_of(method) else {
        return UNKNOWN;
    };
    let Some(text) = utf8_text(text) else {
        return NOT_UTF8;
    };
    if let Some(reason) = explain_quantity(text, method) {
        *fault = quantity_code(reason);
    }
    DONE
}
