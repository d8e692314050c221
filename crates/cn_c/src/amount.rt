// Amounts of money.
ghost use Rattle.std.specs.Prelude.{◌<◌, ◌≤◌, encode_utf8_all};
ghost use Rattle.chinese_number.specs.AmountAnswer.{answer_of};
ghost use Rattle.chinese_number.specs.AmountPlaces.{amount_limit};
ghost use Rattle.chinese_number.specs.AmountWrites.{amount_text};
ghost use Rattle.cn_c.specs.Amounts.{TellsAmount, IsAmountPrinted, IsAmountRead};
ghost use Rattle.cn_c.specs.Prints.{PutsIfItFits};

use crate::amount_form::form_of;
use crate::codes::script_of;
use crate::room::put_text;
use crate::status::{DONE, INCORRECT, NOT_UTF8, TOO_LARGE, UNFINISHED, UNKNOWN, tell_none};
use chinese_number::{
    AMOUNT_LIMIT, AmountForm, ChineseToAmountError, ChineseVariant, chinese_to_amount,
};
use cn_amount::{MOST_AMOUNT_BYTES, amount_text};
use cn_dynamic::utf8_text;
use cn_judge::byte_index;

/// The result of reading an amount: the amount in fen; or, if a character is at fault, how many
/// characters and how many bytes of the text come before it.
#[repr(C)]
#[derive(Clone, Copy)]
pub struct Amount {
    pub fen: u64,
    pub char_index: usize,
    pub byte_index: usize,
}

/// The result if no amount was read.
pub const NOTHING: Amount = Amount {
    fen: 0,
    char_index: 0,
    byte_index: 0,
};

// Prints an amount below the limit. This is a function of its own, so that a refusal does not save
// registers.
#[inline(never)]
fn print_amount(
    fen: u64,
    script: ChineseVariant,
    form: AmountForm,
    room: &mut [u8],
    len: &mut usize,
) -> u32
    requires { fen < amount_limit }
    ensures printed { PutsIfItFits (encode_utf8_all (amount_text script form fen)) room.old result room.new
        len.new }
    ensures bound { len.new ≤ 117 }
{
    let mut scratch = [0; MOST_AMOUNT_BYTES];
    let text = amount_text(&mut scratch, script, form, fen);
    put_text(text.as_bytes(), room, len)
}

/// Prints an amount of fen in a form into the caller's buffer, `room`. 117 bytes are enough for any
/// amount. The status is UNKNOWN if a code names no script, or the flags no form, TOO_LARGE from 10^16 yuan on,
/// and NO_ROOM if the text does not fit.
///
/// Writes `*len`, which is 0 at UNKNOWN and TOO_LARGE, and otherwise the length of the text. If the
/// text fits, it is written at the start of the buffer; no other byte of the buffer changes.
#[unsafe(no_mangle)]
pub extern "C" fn chinese_amount_print(
    fen: u64,
    script: u32,
    form: u32,
    room: &mut [u8],
    len: &mut usize,
) -> u32
    ensures printed { IsAmountPrinted fen script form room.old result room.new len.new }
    ensures bound { len.new ≤ 117 }
{
    let Some(script) = script_of(script) else {
        return tell_none(len, UNKNOWN);
    };
    let Some(form) = form_of(form) else {
        return tell_none(len, UNKNOWN);
    };
    if fen >= AMOUNT_LIMIT {
        return tell_none(len, TOO_LARGE);
    }
    print_amount(fen, script, form, room, len)
}

/// Writes the answer to a text to `*amount`, and returns its status.
pub fn tell_amount(
    text: &str,
    answer: Result<u64, ChineseToAmountError>,
    amount: &mut Amount,
) -> u32
    ensures { TellsAmount text.now (answer_of answer) result amount.new }
{
    *amount = NOTHING;
    match answer {
        Ok(fen) => {
            amount.fen = fen;
            DONE
        }
        Err(ChineseToAmountError::Unfinished) => UNFINISHED,
        Err(ChineseToAmountError::Incorrect { char_index }) => {
            amount.char_index = char_index;
            amount.byte_index = byte_index(text, char_index);
            INCORRECT
        }
    }
}

/// Reads a text in capitals as an amount. The status is NOT_UTF8 if the bytes are not UTF-8,
/// INCORRECT if a character is at fault, and UNFINISHED if the text is not an amount but something
/// after it can make it one. The whole text is tested to be UTF-8; a text that is not an amount is
/// read only up to the character at fault.
///
/// Writes all of `*amount` at each status, and nothing else.
#[unsafe(no_mangle)]
pub extern "C" fn chinese_amount_read(text: &[u8], amount: &mut Amount) -> u32
    ensures { IsAmountRead text.now result amount.new }
{
    *amount = NOTHING;
    match utf8_text(text) {
        Some(text) => tell_amount(text, chinese_to_amount(text), amount),
        None => NOT_UTF8,
    }
}
