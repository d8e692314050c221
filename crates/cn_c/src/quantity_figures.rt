// Prints quantities in figures.
ghost use Rattle.std.specs.Prelude.{◌≤◌};
ghost use Rattle.cn_c.specs.QuantityPrints.{IsFiguresPrinted};

use crate::quantity::{Quantity, quantity_of};
use crate::room::put_text;
use crate::status::UNKNOWN;
use cn_quantity_text::{MOST_FIGURES_BYTES, put_figures};

/// Prints a quantity in figures into the caller's buffer, `room`. 80 bytes are enough for any
/// quantity. The status is UNKNOWN if the code of the form names none, and NO_ROOM if the text does
/// not fit.
///
/// Writes `*len`, which is 0 at UNKNOWN, and otherwise the length of the text. If the text fits, it
/// is written at the start of the buffer; no other byte of the buffer changes.
#[unsafe(no_mangle)]
pub extern "C" fn chinese_quantity_figures(
    quantity: &Quantity,
    room: &mut [u8],
    len: &mut usize,
) -> u32
    ensures printed { IsFiguresPrinted quantity.now room.old result room.new len.new }
    ensures bound { len.new ≤ 80 }
{
    *len = 0;
    let Some(quantity) = quantity_of(quantity) else {
        return UNKNOWN;
    };
    let mut scratch = [0; MOST_FIGURES_BYTES];
    put_text(put_figures(&mut scratch, quantity).as_bytes(), room, len)
}
