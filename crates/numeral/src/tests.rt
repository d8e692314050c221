// Tests of facts that no contract states: the worked lines have the expected answers, and the
// effects of a run at each fault.
mod devices;
mod faults;
mod flushing;
mod lengths;
mod rows;
mod unit_rows;

use crate::devices::{MemorySink, MemorySource};
use crate::engine::run;
use crate::fault::RunError;
use Answer::{BadLine, Done, Refused};
use chinese_number::ChineseToNumberError;
use chinese_number::ChineseToNumberError::{
    ChineseNumberEmpty, ChineseNumberIncorrect, Overflow, Underflow,
};
use std::alloc::{AllocError, Global};
use std::process::Abort;

// The expected answer to a line: a number or its text, an error, or `bad line`.
#[derive(Clone, Copy)]
enum Answer {
    Done(&'static str),
    Refused(ChineseToNumberError),
    BadLine,
}

// Worked lines, each with its answer.
static ROWS: [(&str, Answer); 51] = [
    ("print u128 naive traditional lower 123", Done("一二三")),
    ("read u128 naive 一二三", Done("123")),
    (
        "print u128 naive simple upper 9876543210",
        Done("玖捌柒陆伍肆叁贰壹零"),
    ),
    ("print u128 naive traditional upper -0", Done("零")),
    ("print u128 naive traditional lower -1", BadLine),
    ("read u128 naive 零〇1兩", Done("12")),
    (
        "read u128 naive 一十",
        Refused(ChineseNumberIncorrect { char_index: 1 }),
    ),
    ("read u128 naive ", Refused(ChineseNumberEmpty)),
    (
        "read u128 naive 340282366920938463463374607431768211455",
        Done("340282366920938463463374607431768211455"),
    ),
    (
        "read u128 naive 340282366920938463463374607431768211456",
        Refused(Overflow),
    ),
    (
        "print u128 naive traditional lower 340282366920938463463374607431768211456",
        BadLine,
    ),
    ("read u8 naive 一", Done("1")),
    ("read u128 naive 零零一二", Done("12")),
    ("read u8 naive 二五六", Refused(Overflow)),
    (
        "read u8 naive 九九九x",
        Refused(ChineseNumberIncorrect { char_index: 3 }),
    ),
    (
        "read i128 naive 負170141183460469231731687303715884105728",
        Done("-170141183460469231731687303715884105728"),
    ),
    ("read i16 naive 負三二七六八", Done("-32768")),
    ("read i16 naive 負三二七六九", Refused(Underflow)),
    ("print i8 naive simple upper -5", Done("负伍")),
    (
        "read i8 naive 負999999999999999999999999999999999999999x",
        Refused(Underflow),
    ),
    (
        "read i8 naive 負九九九x",
        Refused(ChineseNumberIncorrect { char_index: 4 }),
    ),
    (
        "read u128 naive 零 一 十",
        Refused(ChineseNumberIncorrect { char_index: 4 }),
    ),
    ("read u8 naive  一", Done("1")),
    ("read u8 naive 一\r", Done("1")),
    ("print u8 naive traditional lower 1\r", BadLine),
    ("print u8 naive traditional lower 007", Done("七")),
    ("print u8 naive traditional lower 256", BadLine),
    ("print  u8 naive traditional lower 1", BadLine),
    ("print i8 naive traditional lower -129", BadLine),
    ("print i8 naive traditional lower -128", Done("負一二八")),
    ("print i8 naive traditional lower -", BadLine),
    ("print i8 naive traditional lower +1", BadLine),
    ("print i8 naive traditional lower ", BadLine),
    ("print i8 naive traditional lower 1 ", BadLine),
    ("print i8 naive traditional lower --1", BadLine),
    ("print i8 naive traditional lower 1a", BadLine),
    ("print i8 naive traditional lower", BadLine),
    ("print i8 naive traditional middle 1", BadLine),
    ("print i8 naive classical lower 1", BadLine),
    ("print i8 plain traditional lower 1", BadLine),
    ("print i9 naive traditional lower 1", BadLine),
    ("print U8 naive traditional lower 1", BadLine),
    ("Print u8 naive traditional lower 1", BadLine),
    ("print", BadLine),
    ("read", BadLine),
    ("read u8 naive", BadLine),
    ("read U8 naive 一", BadLine),
    ("read u8\r naive 一", BadLine),
    ("read  u8 naive 一", BadLine),
    ("", BadLine),
    ("hello", BadLine),
];

fn push_line(text: &mut String, line: &str) -> Result<(), AllocError> {
    text.push_str(line)?;
    text.push('\n')
}

fn push_answer(text: &mut String, answer: Answer) -> Result<(), AllocError> {
    match answer {
        Done(answer) => writeln!(text, "ok {answer}"),
        Refused(error) => writeln!(text, "err {error}"),
        BadLine => push_line(text, "bad line"),
    }
}

// The first `count` of these lines, each followed by a line feed, and their answers.
fn first_rows(
    alloc: Global,
    rows: &[(&str, Answer)],
    count: usize,
) -> Result<(String, String), AllocError> {
    let mut input = String::new(alloc);
    let mut output = String::new(alloc);
    for (line, answer) in rows.iter().take(count) {
        push_line(&mut input, line)?;
        push_answer(&mut output, *answer)?;
    }
    Ok((input, output))
}

// The most bytes that a call moves, and the read and the write that fail.
#[derive(Clone, Copy)]
struct Calls {
    most: usize,
    read_fails: Option<u64>,
    write_fails: Option<u64>,
}

// Asserts the result of a run over this input and the bytes that it writes.
fn leaves(
    rt: &(impl Abort + AllocGlobal),
    input: &[u8],
    calls: Calls,
    outcome: Result<(), RunError>,
    output: &[u8],
) {
    let (most, read, write) = (calls.most, calls.read_fails, calls.write_fails);
    assert!(rt; most > 0);
    let mut reader = MemorySource::new(input, most, read);
    let mut writer = MemorySink::new(most, write);
    let ended = run(rt.alloc(), &mut reader, &mut writer);
    assert_eq!(rt;
        (ended, writer.bytes()),
        (outcome, output),
        "by {most}, read {read:?}, write {write:?}"
    );
}

// Asserts that a run over this input ends well and writes this output, with at most `most` bytes in
// a call.
fn ends_well(rt: &(impl Abort + AllocGlobal), input: &[u8], most: usize, output: &[u8]) {
    let calls = Calls {
        most,
        read_fails: None,
        write_fails: None,
    };
    leaves(rt, input, calls, Ok(()), output);
}

// Asserts that these lines have the expected answers, with each of these numbers of bytes in a
// call.
fn answers_rows(
    rt: &(impl Abort + AllocGlobal),
    rows: &[(&str, Answer)],
    sizes: &[usize],
) -> Result<(), AllocError> {
    let (input, output) = first_rows(rt.alloc(), rows, rows.len())?;
    for most in sizes {
        ends_well(rt, input.as_bytes(), *most, output.as_bytes());
    }
    Ok(())
}
