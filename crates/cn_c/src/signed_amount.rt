// Amounts of money that may be below zero, in capitals and in figures.
ghost use Rattle.std.specs.Prelude.{◌≤◌, Err};
ghost use Rattle.chinese_number.specs.AmountAnswer.{answer_of};
ghost use Rattle.chinese_number.specs.AmountReading.{incorrect_at};
ghost use Rattle.cn_c.specs.SignedAmounts.{TellsSigned, TellsFigures, IsSignedPrinted, IsSignedRead, IsFiguresRead};

use crate::amount_form::form_of;
use crate::codes::script_of;
use crate::room::put_text;
use crate::status::{DONE, INCORRECT, NOT_UTF8, TOO_LARGE, TOO_SMALL, UNFINISHED, UNKNOWN};
use chinese_number::{AMOUNT_LIMIT, ChineseToAmountError, chinese_to_signed_amount};
use cn_amount::{MOST_INVOICE_BYTES, invoice_amount_text};
use cn_dynamic::utf8_text;
use cn_figures::{FiguresError, signed_yuan_to_fen};
use cn_judge::byte_index;

/// The result of reading an amount: the amount in fen; or, if a character is at fault, how many
/// characters and how many bytes of the text come before it.
#[repr(C)]
#[derive(Clone, Copy)]
pub struct SignedAmount {
    pub fen: i64,
    pub char_index: usize,
    pub byte_index: usize,
}

/// The result if no amount was read.
pub const NO_SIGNED: SignedAmount = SignedAmount {
    fen: 0,
    char_index: 0,
    byte_index: 0,
};

// Same answer (0 → 1 #2, < → <=): an amount of 0 is never too large, so it does not reach this
// test.
/// Prints an amount of fen in a form, after 负 (負), or （负数） (（負數）), if it is below zero, into the
/// caller's buffer, `room`. 129 bytes are enough for any amount. The status is UNKNOWN if a code
/// names no script, or the flags no form; TOO_LARGE or TOO_SMALL if the magnitude is 10^16 yuan or
/// more, and NO_ROOM if the text does not fit.
///
/// Writes `*len`, which is the length of the text at DONE and NO_ROOM, and otherwise 0. If the text
/// fits, it is written at the start of the buffer; no other byte of the buffer changes.
#[unsafe(no_mangle)]
pub extern "C" fn chinese_signed_amount_print(
    fen: i64,
    script: u32,
    form: u32,
    room: &mut [u8],
    len: &mut usize,
) -> u32
    ensures printed { IsSignedPrinted fen script form room.old result room.new len.new }
    ensures bound { len.new ≤ 129 }
{
    *len = 0;
    let (Some(script), Some(form)) = (script_of(script), form_of(form)) else {
        return UNKNOWN;
    };
    if fen.unsigned_abs() >= AMOUNT_LIMIT {
        return if fen < 0 { TOO_SMALL } else { TOO_LARGE };
    }
    let mut scratch = [0; MOST_INVOICE_BYTES];
    let text = invoice_amount_text(&mut scratch, script, form, fen);
    put_text(text.as_bytes(), room, len)
}

// Writes where a text is incorrect, and returns the status INCORRECT.
fn tell_place(text: &str, char_index: usize, amount: &mut SignedAmount) -> u32
    ensures { TellsSigned text.now (Err (incorrect_at char_index)) result amount.new }
{
    *amount = SignedAmount {
        fen: 0,
        char_index,
        byte_index: byte_index(text, char_index),
    };
    INCORRECT
}

/// Writes the answer to a text to `*amount`, and returns its status.
pub fn tell_signed(
    text: &str,
    answer: Result<i64, ChineseToAmountError>,
    amount: &mut SignedAmount,
) -> u32
    ensures { TellsSigned text.now (answer_of answer) result amount.new }
{
    *amount = NO_SIGNED;
    match answer {
        Ok(fen) => {
            amount.fen = fen;
            DONE
        }
        Err(ChineseToAmountError::Unfinished) => UNFINISHED,
        Err(ChineseToAmountError::Incorrect { char_index }) => {
            tell_place(text, char_index, amount)
        }
    }
}

/// Reads a text in capitals, which may begin with 负 (負), as an amount. The status is NOT_UTF8 if
/// the bytes are not UTF-8, INCORRECT if a character is at fault, and UNFINISHED if the text is not
/// an amount but something after it can make it one. The whole text is tested to be UTF-8; a text
/// that is not an amount is read only up to the character at fault.
///
/// Writes all of `*amount` at each status, and nothing else.
#[unsafe(no_mangle)]
pub extern "C" fn chinese_signed_amount_read(text: &[u8], amount: &mut SignedAmount) -> u32
    ensures { IsSignedRead text.now result amount.new }
{
    *amount = NO_SIGNED;
    match utf8_text(text) {
        Some(text) => tell_signed(text, chinese_to_signed_amount(text), amount),
        None => NOT_UTF8,
    }
}

// Writes the answer to figures to `*amount`, and returns its status.
fn tell_figures(text: &str, answer: Result<i64, FiguresError>, amount: &mut SignedAmount) -> u32
    ensures { TellsFigures text.now answer result amount.new }
{
    *amount = NO_SIGNED;
    match answer {
        Ok(fen) => {
            amount.fen = fen;
            DONE
        }
        Err(FiguresError::Unfinished) => UNFINISHED,
        Err(FiguresError::TooLarge) => TOO_LARGE,
        Err(FiguresError::Incorrect { char_index }) => tell_place(text, char_index, amount),
    }
}

/// Reads figures, such as -1,409.50, as an amount. The status is NOT_UTF8 if the bytes are not
/// UTF-8, INCORRECT if a character is at fault, UNFINISHED if the text is not figures but something
/// after it can make it figures, and TOO_LARGE if the amount is too large. The whole text is tested
/// to be UTF-8; a text that is not figures is read only up to the character at fault.
///
/// Writes all of `*amount` at each status, and nothing else.
#[unsafe(no_mangle)]
pub extern "C" fn chinese_figures_read(text: &[u8], amount: &mut SignedAmount) -> u32
    ensures { IsFiguresRead text.now result amount.new }
{
    *amount = NO_SIGNED;
    match utf8_text(text) {
        Some(text) => tell_figures(text, signed_yuan_to_fen(text), amount),
        None => NOT_UTF8,
    }
}
