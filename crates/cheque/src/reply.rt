//! The reply to a request.
ghost use Rattle.std.specs.Prelude.{◌≡◌, IfOk, IfSome, map, string_bytes};
ghost use Rattle.std.specs.Io.KnownBytes.{Appends};
ghost use Rattle.cheque.specs.Reply.{Gives, Replies, line, RepliesCapitals, RepliesDateCapitals, RepliesFigures, RepliesDateFigures, form_of};
ghost use Rattle.cheque.specs.Request.{asked};

use crate::dates::{DateFigures, date_of};
use crate::request::{Request, request_of};
use chinese_number::{
    AmountForm, AmountToChineseError, ChineseVariant, DateToChineseError, amount_to_chinese_as,
    chinese_to_amount, chinese_to_date, date_to_chinese,
};
use cn_figures::{Figures, yuan_to_fen};
use std::alloc::Global;
use std::fmt::Display;
use std::io::{self, Write};

// Same answer ("\ usage: cheque [--prefix] FIGURES | cheque .. → "\ vsage: cheque [--prefix]
// FIGURES | cheque ..): only tests/test_cheque.py shows what the usage says.
static USAGE: &str = "\
usage: cheque [--prefix] FIGURES | cheque CAPITALS
Writes an amount of yuan in capitals, as 壹仟肆佰零玖元伍角整 of 1409.50, or reads capitals and writes
the amount in figures. Figures are digits, with a comma in front of each three or with none, and
then nothing, or a point and digits, of which those behind the second are 0. ¥ may stand in front,
and full-width characters are read as plain ones.
--prefix writes 人民币 in front of the capitals of an amount.
Writes a date in capitals, as 贰零贰陆年零壹月壹拾伍日 of 2026-01-15, or reads capitals with 年 and writes
the date in figures: four digits of the year, two of the month and two of the day.";

// Writes an answer, and returns the status.
fn show<W: Write, D: Display + Drop>(output: &mut W, answer: D) -> io::Result<u8>
    ensures { IfOk result (λ status. (status ≡ 0) × IfSome (D.output answer) (λ text.
        Appends (W.contents output.old) (W.contents output.new) (line text))) }
{
    writeln!(output, "{answer}")?;
    Ok(0)
}

// Writes why there is no answer, and returns the status.
fn refuse<E: Write, D: Display + Drop>(errors: &mut E, error: D) -> io::Result<u8>
    ensures { IfOk result (λ status. (status ≡ 1) × IfSome (D.output error) (λ text.
        Appends (E.contents errors.old) (E.contents errors.new) (line text))) }
{
    writeln!(errors, "{error}")?;
    Ok(1)
}

// The form in which capitals are written.
fn form_of(prefixed: bool) -> AmountForm
    ensures { result ≡ form_of prefixed }
{
    AmountForm {
        currency: prefixed,
        ..AmountForm::PLAIN
    }
}

// Writes the capitals of an amount in figures, with or without 人民币 before them.
fn write_capitals<W: Write, E: Write>(
    alloc: Global,
    output: &mut W,
    errors: &mut E,
    figures: &str,
    prefixed: bool,
) -> io::Result<u8>
    ensures { IfOk result (λ status. Gives (RepliesCapitals prefixed figures.now)
        status (W.contents output.old) (W.contents output.new)
        (E.contents errors.old) (E.contents errors.new)) }
{
    let fen = match yuan_to_fen(figures) {
        Ok(fen) => fen,
        Err(error) => return refuse(errors, error),
    };
    match amount_to_chinese_as(alloc, ChineseVariant::Simple, form_of(prefixed), fen) {
        Ok(capitals) => show(output, capitals),
        Err(AmountToChineseError::OutOfMemory) => Ok(2),
        Err(error) => refuse(errors, error),
    }
}

// Writes the figures of an amount in capitals.
fn write_figures<W: Write, E: Write>(
    output: &mut W,
    errors: &mut E,
    capitals: &str,
) -> io::Result<u8>
    ensures { IfOk result (λ status. Gives (RepliesFigures capitals.now)
        status (W.contents output.old) (W.contents output.new)
        (E.contents errors.old) (E.contents errors.new)) }
{
    match chinese_to_amount(capitals) {
        Ok(fen) => show(output, Figures { fen }),
        Err(error) => refuse(errors, error),
    }
}

// Writes the capitals of a date in figures.
fn write_date_capitals<W: Write, E: Write>(
    alloc: Global,
    output: &mut W,
    errors: &mut E,
    figures: &str,
) -> io::Result<u8>
    ensures { IfOk result (λ status. Gives (RepliesDateCapitals figures.now)
        status (W.contents output.old) (W.contents output.new)
        (E.contents errors.old) (E.contents errors.new)) }
{
    let date = match date_of(figures) {
        Ok(date) => date,
        Err(error) => return refuse(errors, error),
    };
    match date_to_chinese(alloc, ChineseVariant::Simple, date) {
        Ok(capitals) => show(output, capitals),
        Err(DateToChineseError::OutOfMemory) => Ok(2),
        Err(error) => refuse(errors, error),
    }
}

// Writes the figures of a date in capitals.
fn write_date_figures<W: Write, E: Write>(
    output: &mut W,
    errors: &mut E,
    capitals: &str,
) -> io::Result<u8>
    ensures { IfOk result (λ status. Gives (RepliesDateFigures capitals.now)
        status (W.contents output.old) (W.contents output.new)
        (E.contents errors.old) (E.contents errors.new)) }
{
    match chinese_to_date(capitals) {
        Ok(date) => show(output, DateFigures { date }),
        Err(error) => refuse(errors, error),
    }
}

/// Writes the reply to the words of a command line, and returns the status: 0 if they are answered,
/// 1 if they are refused, and 2 if memory ran out or they ask for nothing. If a write fails, part
/// of the reply may have been written.
pub fn write_reply<W: Write, E: Write>(
    alloc: Global,
    output: &mut W,
    errors: &mut E,
    words: &[String],
) -> io::Result<u8>
    ensures { IfOk result (λ status. Gives (Replies (asked (map string_bytes words.now)))
        status (W.contents output.old) (W.contents output.new)
        (E.contents errors.old) (E.contents errors.new)) }
{
    match request_of(words) {
        Some(Request::Help) => show(output, USAGE),
        Some(Request::Write { figures, prefixed }) => {
            write_capitals(alloc, output, errors, figures, prefixed)
        }
        Some(Request::Read { capitals }) => write_figures(output, errors, capitals),
        Some(Request::WriteDate { figures }) => {
            write_date_capitals(alloc, output, errors, figures)
        }
        Some(Request::ReadDate { capitals }) => write_date_figures(output, errors, capitals),
        None => {
            writeln!(errors, "{USAGE}")?;
            Ok(2)
        }
    }
}
