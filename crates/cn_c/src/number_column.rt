// Columns of numbers.
ghost use Rattle.std.specs.Prelude.{◌≡◌, Bool, nat_abs, slice_get};
ghost use Rattle.cn_c.specs.declared.number.Number.{Number as Halves};
ghost use Rattle.chinese_number.specs.declared.NumberToChineseError.TheVariants.{Overflow, Underflow};
ghost use Rattle.cn_c.specs.Codes.{cases, named_ways, scripts, CN_TOO_LARGE, CN_TOO_SMALL};
ghost use Rattle.cn_c.specs.Columns.{AreNumbersPrinted, AreNumbersRead, AreWideNumbersPrinted, AreWideNumbersRead};
ghost use Rattle.cn_c.specs.Prints.{way_written};
ghost use Rattle.cn_c.specs.Private.Rows.{number_row, row_written, style_of};
ghost use Rattle.cn_dynamic.specs.IntegerTypes.{the_kind};
ghost use Rattle.cn_dynamic.specs.Ways.{written_by};

use crate::codes::{NamedWay, case_of, kind_of, named_way_of, script_of};
use crate::column::{Texts, print_column, read_column, refused};
use crate::number::{Number, bits_of, signed_number};
use crate::printing::{Style, way_written};
use crate::reading::{NOTHING, chinese_number_read};
use crate::status::{DONE, NOT_HELD, TOO_LARGE, TOO_SMALL, UNKNOWN, tell_none};
use chinese_number::{NumberToChineseError, ROOM_BYTES, Whole};
use cn_columns::{Answer, Presence, Printed, RowPrinter, RowReader};
use cn_dynamic::{IntegerType, SignedMagnitude, put_by};

/// A value of a column of numbers, which is made of two halves.
pub trait InHalves: Copy {
    // The halves of a value of a signed or an unsigned type.
    ghost halves: { Bool → Self → Halves };

    // The value of two halves.
    ghost value: { Halves → Self };

    /// The halves of the value, as one of a signed or an unsigned type.
    fn halves(self, is_signed: bool) -> Number
        ensures { result ≡ halves is_signed self };

    /// The value of two halves.
    fn of(number: Number) -> Self
        ensures { result ≡ value number };
}

// A number of 64 bits, which for a signed type is in two's complement.
impl InHalves for u64 {
    ghost use Rattle.cn_c.specs.Columns.{widened};

    ghost halves = { widened };

    ghost value = { λ number. number.low };

    #[inline(always)]
    fn halves(self, is_signed: bool) -> Number {
        let is_negative = is_signed && self >= 0x8000_0000_0000_0000;
        Number {
            low: self,
            high: if is_negative { u64::MAX } else { 0 },
        }
    }

    #[inline(always)]
    fn of(number: Number) -> u64 {
        number.low
    }
}

impl InHalves for Number {
    ghost halves = { λ _ number. number };

    ghost value = { λ number. number };

    #[inline(always)]
    fn halves(self, _is_signed: bool) -> Number {
        self
    }

    #[inline(always)]
    fn of(number: Number) -> Number {
        number
    }
}

/// Prints numbers as numbers of a type.
#[derive(Clone, Copy)]
pub struct NumberPrinter {
    pub integer: IntegerType,
    pub style: Style,
}

// The status of a number that a method does not write.
#[inline(always)]
fn unwritten(error: NumberToChineseError) -> u32
    ensures { (error ≡ Overflow → result ≡ CN_TOO_LARGE) × (error ≡ Underflow → result ≡ CN_TOO_SMALL) }
{
    match error {
        NumberToChineseError::Underflow => TOO_SMALL,
        _ => TOO_LARGE,
    }
}

// The row of a number of 128 bits that its type holds.
#[inline(always)]
fn print_held<T: Whole>(style: Style, value: T, scratch: &mut [u8; ROOM_BYTES]) -> Printed<'_>
    ensures { record { status = result.status; text = result.text.now }
        ≡ row_written (written_by (way_written style.way style.script (nat_abs (T.number value)))
        style.script style.case (T.number value)) }
{
    let Style { way, script, case } = style;
    let way = way_written(way, script, value.magnitude());
    match put_by(scratch, way, script, case, value) {
        Ok(text) => Printed { status: DONE, text },
        Err(error) => refused(unwritten(error)),
    }
}

// The row of a number of 128 bits.
#[inline(always)]
fn print_value<T: Whole>(
    integer: IntegerType,
    style: Style,
    value: T,
    scratch: &mut [u8; ROOM_BYTES],
) -> Printed<'_>
    ensures { record { status = result.status; text = result.text.now }
        ≡ number_row (the_kind integer) style.way style.script style.case (T.number value) }
{
    if integer.holds(SignedMagnitude::of(value)) {
        print_held(style, value, scratch)
    } else {
        refused(NOT_HELD)
    }
}

impl<V: InHalves> RowPrinter<V> for NumberPrinter {
    type Scratch = [u8; ROOM_BYTES];

    ghost use Rattle.cn_c.specs.Halves.{number_of};
    ghost use Rattle.cn_c.specs.Private.Rows.{number_row};
    ghost use Rattle.cn_dynamic.specs.IntegerTypes.{the_kind};

    ghost row_of = { λ printer value. number_row (the_kind printer.integer) printer.style.way
        printer.style.script printer.style.case
        (number_of (the_kind printer.integer).signed
        (V.halves (the_kind printer.integer).signed value)) };

    fn print(self, value: V, scratch: &mut [u8; ROOM_BYTES]) -> Printed<'_> {
        let NumberPrinter { integer, style } = self;
        if integer.is_signed() {
            print_value(integer, style, signed_number(value.halves(true)), scratch)
        } else {
            print_value(integer, style, bits_of(value.halves(false)), scratch)
        }
    }
}

// The style of these codes; `None` if one names nothing.
fn style_of(way: u32, script: u32, case: u32) -> Option<Style>
    ensures { result ≡ style_of (slice_get named_ways way) (slice_get scripts script) (slice_get cases case) }
{
    let way = named_way_of(way)?;
    let script = script_of(script)?;
    let case = case_of(case)?;
    Some(Style { way, script, case })
}

/// Prints numbers of 64 bits as numbers of a type, each as `chinese_number_print` does, until a text
/// does not fit the buffer. For a signed type a number is in two's complement. There are as many
/// rows as the shortest of the values, the statuses and the offsets after the first has. Row i is
/// missing if bit `first` + i of the bitmap is 0. The first text begins at byte `offsets[0]`.
///
/// Writes `*done`, how many rows are printed, and of each its status, where its text ends, and its
/// text, which is empty if the row is refused or, with the status NONE, missing. Nothing else
/// changes. The status is UNKNOWN if a code names nothing, and NO_ROOM if a text does not fit; the
/// next call can go on from there.
#[unsafe(no_mangle)]
pub extern "C" fn chinese_numbers_print_column(
    values: &[u64],
    bitmap: &[u8],
    first: usize,
    kind: u32,
    way: u32,
    script: u32,
    case: u32,
    offsets: &mut [u64],
    bytes: &mut [u8],
    statuses: &mut [u32],
    done: &mut usize,
) -> u32
    ensures { AreNumbersPrinted values.now bitmap.now first kind way script case
        (record { offsets = offsets.old; bytes = bytes.old; statuses = statuses.old }) result
        (record { offsets = offsets.new; bytes = bytes.new; statuses = statuses.new }) done.new }
{
    let (Some(integer), Some(style)) = (kind_of(kind), style_of(way, script, case)) else {
        return tell_none(done, UNKNOWN);
    };
    let mut scratch = [0; ROOM_BYTES];
    let printer = NumberPrinter { integer, style };
    let presence = Presence { bitmap, first };
    print_column(
        printer,
        values,
        presence,
        &mut scratch,
        offsets,
        bytes,
        statuses,
        done,
    )
}

/// Prints numbers of 128 bits, likewise.
#[unsafe(no_mangle)]
pub extern "C" fn chinese_wide_numbers_print_column(
    values: &[Number],
    bitmap: &[u8],
    first: usize,
    kind: u32,
    way: u32,
    script: u32,
    case: u32,
    offsets: &mut [u64],
    bytes: &mut [u8],
    statuses: &mut [u32],
    done: &mut usize,
) -> u32
    ensures { AreWideNumbersPrinted values.now bitmap.now first kind way script case
        (record { offsets = offsets.old; bytes = bytes.old; statuses = statuses.old }) result
        (record { offsets = offsets.new; bytes = bytes.new; statuses = statuses.new }) done.new }
{
    let (Some(integer), Some(style)) = (kind_of(kind), style_of(way, script, case)) else {
        return tell_none(done, UNKNOWN);
    };
    let mut scratch = [0; ROOM_BYTES];
    let printer = NumberPrinter { integer, style };
    let presence = Presence { bitmap, first };
    print_column(
        printer,
        values,
        presence,
        &mut scratch,
        offsets,
        bytes,
        statuses,
        done,
    )
}

/// Reads texts as numbers of a type in a way, given their codes.
#[derive(Clone, Copy)]
pub struct NumberReader {
    pub kind: u32,
    pub way: u32,
}

impl<V: InHalves> RowReader<V> for NumberReader {
    ghost use Rattle.std.specs.Prelude.{◌≡◌};
    ghost use Rattle.cn_c.specs.declared.reading.Reading.{Reading as TheReading};
    ghost use Rattle.cn_c.specs.Reads.{IsRead};

    ghost is_answer = { λ reader text status value. (reading : TheReading)
        × IsRead text reader.kind reader.way status reading × (value ≡ V.value reading.number) };

    fn read(self, text: &[u8]) -> Answer<V> {
        let mut reading = NOTHING;
        let status = chinese_number_read(text, self.kind, self.way, &mut reading);
        Answer {
            status,
            value: V::of(reading.number),
        }
    }
}

/// Reads each text of a column as a number of a type, as `chinese_number_read` does, and writes its
/// lower 64 bits, which are all of a number of up to 64 bits, and its status. Row i is missing if
/// bit `first` + i of the bitmap is 0; it is then 0 with the status NONE. A row whose offsets are
/// not those of a text is 0 with the status NO_ROOM. The status is UNKNOWN if a code names nothing;
/// then nothing is written.
#[unsafe(no_mangle)]
pub extern "C" fn chinese_numbers_read_column(
    texts: &[u8],
    offsets: &[u64],
    bitmap: &[u8],
    first: usize,
    kind: u32,
    way: u32,
    values: &mut [u64],
    statuses: &mut [u32],
) -> u32
    ensures { AreNumbersRead (record {
      bytes = texts.now;
      offsets = offsets.now;
      bitmap = bitmap.now;
      first = first;
    }) kind way values.old statuses.old result values.new statuses.new }
{
    let (Some(_), Some(_)) = (kind_of(kind), named_way_of(way)) else {
        return UNKNOWN;
    };
    let texts = Texts {
        bytes: texts,
        offsets,
        presence: Presence { bitmap, first },
    };
    read_column(NumberReader { kind, way }, texts, 0, values, statuses)
}

/// Reads texts as numbers of 128 bits, likewise.
#[unsafe(no_mangle)]
pub extern "C" fn chinese_wide_numbers_read_column(
    texts: &[u8],
    offsets: &[u64],
    bitmap: &[u8],
    first: usize,
    kind: u32,
    way: u32,
    values: &mut [Number],
    statuses: &mut [u32],
) -> u32
    ensures { AreWideNumbersRead (record {
      bytes = texts.now;
      offsets = offsets.now;
      bitmap = bitmap.now;
      first = first;
    }) kind way values.old statuses.old result values.new statuses.new }
{
    let (Some(_), Some(_)) = (kind_of(kind), named_way_of(way)) else {
        return UNKNOWN;
    };
    let texts = Texts {
        bytes: texts,
        offsets,
        presence: Presence { bitmap, first },
    };
    read_column(
        NumberReader { kind, way },
        texts,
        NOTHING.number,
        values,
        statuses,
    )
}
