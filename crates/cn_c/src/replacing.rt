// Writes a text with its quantities, or also its phrases, in figures.
ghost use Rattle.cn_replace.specs.InFigures.{in_figures};
ghost use Rattle.cn_codes.specs.CodesInText.{text_as_chosen};
ghost use Rattle.cn_c.specs.Replaces.{IsReplaced};

use crate::codes::{unit_of, upper_of};
use crate::flags::figures_of;
use crate::quantity::method_of;
use crate::status::{DONE, NO_ROOM, NOT_UTF8, UNKNOWN};
use chinese_number::Wanted;
use cn_codes::put_text_in_figures;
use cn_dynamic::utf8_text;
use cn_replace::put_quantities_in_figures;

/// Writes a text, with its quantities in figures, into the caller's buffer, `room`. By default
/// quantities that are approximate, one Chinese character or doubtful stay as they are, as do great
/// units and what is already in figures; the flags of `included` change that. The status is UNKNOWN
/// if a code or the flags name nothing, NOT_UTF8 if the bytes are not UTF-8, and NO_ROOM if the new
/// text does not fit.
///
/// Writes `*len`, the length of the new text, and bytes of the buffer: if the new text fits, it is
/// at the start of the buffer.
#[unsafe(no_mangle)]
pub extern "C" fn chinese_quantities_to_figures(
    text: &[u8],
    upper: u32,
    greatest: u32,
    method: u32,
    included: u32,
    room: &mut [u8],
    len: &mut usize,
) -> u32
    ensures { IsReplaced in_figures text.now upper greatest method included room.old result room.new len.new }
{
    *len = 0;
    let (Some(upper), Some(greatest)) = (upper_of(upper), unit_of(greatest)) else {
        return UNKNOWN;
    };
    let (Some(method), Some(figures)) = (method_of(method), figures_of(included)) else {
        return UNKNOWN;
    };
    let Some(text) = utf8_text(text) else {
        return NOT_UTF8;
    };
    let wanted = Wanted { upper, greatest };
    *len = put_quantities_in_figures(room, text, wanted, method, figures);
    if *len <= room.len() { DONE } else { NO_ROOM }
}

/// Writes a text, with its dates, times, durations, ranges and quantities in figures, into the caller's
/// buffer, `room`, in the same way as `chinese_quantities_to_figures` writes its quantities. The flags of
/// `included` apply to phrases too, where doubtful phrases and halves after one character stay as they
/// are by default. With CODES codes are written too.
#[unsafe(no_mangle)]
pub extern "C" fn chinese_text_to_figures(
    text: &[u8],
    upper: u32,
    greatest: u32,
    method: u32,
    included: u32,
    room: &mut [u8],
    len: &mut usize,
) -> u32
    ensures { IsReplaced text_as_chosen text.now upper greatest method included room.old result room.new len.new }
{
    *len = 0;
    let (Some(upper), Some(greatest)) = (upper_of(upper), unit_of(greatest)) else {
        return UNKNOWN;
    };
    let (Some(method), Some(figures)) = (method_of(method), figures_of(included)) else {
        return UNKNOWN;
    };
    let Some(text) = utf8_text(text) else {
        return NOT_UTF8;
    };
    let wanted = Wanted { upper, greatest };
    *len = put_text_in_figures(room, text, wanted, method, figures);
    if *len <= room.len() { DONE } else { NO_ROOM }
}
