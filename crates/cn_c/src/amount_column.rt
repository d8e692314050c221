// Columns of amounts of money.
ghost use Rattle.std.specs.Prelude.{◌≡◌};
ghost use Rattle.cn_message.specs.declared.input.Input.TheVariants.{Amount, Figures, SignedAmount, TypedAmount, TypedSignedAmount};
ghost use Rattle.cn_c.specs.Columns.{AreAmountsPrinted, AreAmountsRead, IsAmountAnswer, is_amount};

use crate::amount::{NOTHING, chinese_amount_read};
use crate::amount_form::form_of;
use crate::codes::{input_of, script_of};
use crate::column::{Texts, print_column, read_column, refused};
use crate::signed_amount::{NO_SIGNED, chinese_figures_read, chinese_signed_amount_read};
use crate::status::{DONE, TOO_LARGE, TOO_SMALL, UNKNOWN, tell_none};
use crate::typed_amount::{chinese_typed_amount_read, chinese_typed_signed_amount_read};
use chinese_number::{AMOUNT_LIMIT, AmountForm, ChineseVariant};
use cn_amount::{MOST_INVOICE_BYTES, invoice_amount_text};
use cn_columns::{Answer, Presence, Printed, RowPrinter, RowReader};
use cn_message::Input;

/// Prints amounts in a script and a form.
#[derive(Clone, Copy)]
pub struct AmountPrinter {
    pub script: ChineseVariant,
    pub form: AmountForm,
}

impl RowPrinter<i64> for AmountPrinter {
    type Scratch = [u8; MOST_INVOICE_BYTES];

    ghost use Rattle.cn_c.specs.Private.Rows.{amount_row};

    ghost row_of = { λ printer fen. amount_row printer.script printer.form fen };

    fn print(self, fen: i64, scratch: &mut [u8; MOST_INVOICE_BYTES]) -> Printed<'_> {
        if fen.unsigned_abs() >= AMOUNT_LIMIT {
            return refused(if fen < 0 { TOO_SMALL } else { TOO_LARGE });
        }
        Printed {
            status: DONE,
            text: invoice_amount_text(scratch, self.script, self.form, fen),
        }
    }
}

/// Prints amounts of fen, each as `chinese_signed_amount_print` does, until a text does not fit the
/// buffer. The rows, what is written and the statuses are those of `chinese_numbers_print_column`.
#[unsafe(no_mangle)]
pub extern "C" fn chinese_amounts_print_column(
    values: &[i64],
    bitmap: &[u8],
    first: usize,
    script: u32,
    form: u32,
    offsets: &mut [u64],
    bytes: &mut [u8],
    statuses: &mut [u32],
    done: &mut usize,
) -> u32
    ensures { AreAmountsPrinted values.now bitmap.now first script form
        (record { offsets = offsets.old; bytes = bytes.old; statuses = statuses.old }) result
        (record { offsets = offsets.new; bytes = bytes.new; statuses = statuses.new }) done.new }
{
    let (Some(script), Some(form)) = (script_of(script), form_of(form)) else {
        return tell_none(done, UNKNOWN);
    };
    let mut scratch = [0; MOST_INVOICE_BYTES];
    let printer = AmountPrinter { script, form };
    let presence = Presence { bitmap, first };
    print_column(
        printer,
        values,
        presence,
        &mut scratch,
        offsets,
        bytes,
        statuses,
        done,
    )
}

// Reads a text as an amount.
fn read_plain(text: &[u8]) -> Answer<i64>
    ensures { IsAmountAnswer Amount text.now result.status result.value }
{
    let mut amount = NOTHING;
    let status = chinese_amount_read(text, &mut amount);
    Answer {
        status,
        value: amount.fen as i64,
    }
}

// Reads a text as an amount as people type it.
fn read_typed(text: &[u8]) -> Answer<i64>
    ensures { IsAmountAnswer TypedAmount text.now result.status result.value }
{
    let mut amount = NOTHING;
    let status = chinese_typed_amount_read(text, &mut amount);
    Answer {
        status,
        value: amount.fen as i64,
    }
}

// Reads a text as an amount that may be below zero.
fn read_signed(text: &[u8]) -> Answer<i64>
    ensures { IsAmountAnswer SignedAmount text.now result.status result.value }
{
    let mut amount = NO_SIGNED;
    let status = chinese_signed_amount_read(text, &mut amount);
    Answer {
        status,
        value: amount.fen,
    }
}

// Reads a text as such an amount as people type it.
fn read_typed_signed(text: &[u8]) -> Answer<i64>
    ensures { IsAmountAnswer TypedSignedAmount text.now result.status result.value }
{
    let mut amount = NO_SIGNED;
    let status = chinese_typed_signed_amount_read(text, &mut amount);
    Answer {
        status,
        value: amount.fen,
    }
}

// Reads a text as an amount in figures.
fn read_figures(text: &[u8]) -> Answer<i64>
    ensures { IsAmountAnswer Figures text.now result.status result.value }
{
    let mut amount = NO_SIGNED;
    let status = chinese_figures_read(text, &mut amount);
    Answer {
        status,
        value: amount.fen,
    }
}

/// Reads texts as an input.
#[derive(Clone, Copy)]
pub struct AmountReader {
    pub input: Input,
}

impl RowReader<i64> for AmountReader {
    ghost use Rattle.cn_c.specs.Columns.{IsAmountAnswer};

    ghost is_answer = { λ reader text status fen. IsAmountAnswer reader.input text status fen };

    fn read(self, text: &[u8]) -> Answer<i64> {
        match self.input {
            Input::Amount => read_plain(text),
            Input::SignedAmount => read_signed(text),
            Input::TypedAmount => read_typed(text),
            Input::TypedSignedAmount => read_typed_signed(text),
            Input::Figures => read_figures(text),
            Input::Date => Answer {
                status: UNKNOWN,
                value: 0,
            },
        }
    }
}

// Whether the input is an amount.
fn is_amount(input: Input) -> bool
    ensures { result ≡ is_amount input }
{
    !matches!(input, Input::Date)
}

/// Reads each text of a column as an amount, as the call of this input does, and writes its fen and
/// its status. The status is UNKNOWN if the code names no input, or a date. The rows, what is
/// written and the statuses are those of `chinese_numbers_read_column`.
#[unsafe(no_mangle)]
pub extern "C" fn chinese_amounts_read_column(
    texts: &[u8],
    offsets: &[u64],
    bitmap: &[u8],
    first: usize,
    input: u32,
    values: &mut [i64],
    statuses: &mut [u32],
) -> u32
    ensures { AreAmountsRead (record {
      bytes = texts.now;
      offsets = offsets.now;
      bitmap = bitmap.now;
      first = first;
    }) input values.old statuses.old result values.new statuses.new }
{
    let Some(input) = input_of(input) else {
        return UNKNOWN;
    };
    if !is_amount(input) {
        return UNKNOWN;
    }
    let texts = Texts {
        bytes: texts,
        offsets,
        presence: Presence { bitmap, first },
    };
    read_column(AmountReader { input }, texts, 0, values, statuses)
}
