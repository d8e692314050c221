ghost use Rattle.std.specs.Prelude.{◌≡◌, ◌≢◌, ◌++◌, ◌∷◌, [], ℕ, List, length, chars, Result, IfErr, IfOk, OnOk, IfSome};
ghost use Rattle.std.specs.Io.Buffered.{reader_remaining, writer_buffer, writer_contents};
ghost use Rattle.std.specs.Io.KnownBytes.{Appends, Keeps};
ghost use Rattle.std.specs.Io.BufRead.{strip_last};
ghost use Rattle.chinese_number.specs.Rule.{Rule};
ghost use Rattle.chinese_number.specs.Spans.{spans_by};
ghost use Rattle.numbers.specs.Answers.{AnswersLine, AreFound, IsAnswered, found_spans, found_text, quantity_text};
ghost use Rattle.numbers.specs.Leaves.{Leaves, ReadWithinLine};
ghost use Rattle.numbers.specs.Private.{TakesLine, Puts, Replies};

use crate::fault::RunError;
use crate::options::Search;
use chinese_number::{Found, Numbers, Quantity, SearchRule, find_numbers, find_quantities};
use std::alloc::Global;
use std::io::{self, BufRead, BufReader, BufWriter, Read, Write};

// Writes a quantity.
fn write_quantity<W: Write>(writer: &mut W, quantity: Quantity) -> io::Result<()>
    ensures { OnOk result (Appends (W.contents writer.old) (W.contents writer.new)
        (quantity_text quantity)) }
{
    let numerator = quantity.numerator;
    let denominator = quantity.denominator;
    if denominator == 1 {
        write!(writer, "{numerator}")
    } else {
        write!(writer, "{numerator}/{denominator}")
    }
}

// Writes what the reader answers to what was found.
fn write_answer<W: Write>(writer: &mut W, found: Found<'_>, search: Search) -> io::Result<()>
    ensures { OnOk result ((answer : List ℕ) × IsAnswered search found.entry.text.now answer
        × Appends (W.contents writer.old) (W.contents writer.new) answer) }
{
    if search.exact {
        match found.quantity(search.method) {
            Ok(quantity) => write_quantity(writer, quantity),
            Err(error) => write!(writer, "err {error}"),
        }
    } else {
        match found.number::<u128>(search.method) {
            Ok(number) => write!(writer, "{number}"),
            Err(error) => write!(writer, "err {error}"),
        }
    }
}

// Writes the line for what was found.
fn write_found<W: Write>(
    writer: &mut W,
    line: u64,
    column: usize,
    found: Found<'_>,
    search: Search,
) -> io::Result<()>
    ensures { OnOk result ((answer : List ℕ) × IsAnswered search found.entry.text.now answer
        × Appends (W.contents writer.old) (W.contents writer.new)
        (found_text line column found.entry.text.now answer)) }
{
    let text = found.text;
    write!(writer, "{line}:{column} {text} ")?;
    write_answer(writer, found, search)?;
    writeln!(writer)
}

// How many characters a text has.
fn char_count(text: &str) -> usize
    ensures { result ≡ length (chars text.now) }
{
    text.chars().count()
}

// Writes a line for each of the runs of the text of a line.
fn write_runs<W: Write, R: SearchRule>(
    writer: &mut W,
    line: u64,
    text: &str,
    mut runs: Numbers<'_, R>,
    search: Search,
) -> io::Result<()>
    requires { (rule : Rule) × (runs ≡ spans_by rule text.now) }
    ensures { OnOk result ((written : List ℕ) × AreFound search line runs.entry written
        × Appends (W.contents writer.old) (W.contents writer.new) written) }
{
    let mut rest = text;
    // The column of the rest.
    let mut column = 1usize;
    'searching: while let Some(found) = runs.next() {
        let (passed, after) = rest.split_at(rest.len() - found.after.len());
        column += char_count(passed);
        write_found(writer, line, column - char_count(found.text), found, search)?;
        rest = after;
    }
    Ok(())
}

// Writes a line for each number or expression that is found in the text of a line.
fn write_numbers<W: Write>(writer: &mut W, line: u64, text: &str, search: Search) -> io::Result<()>
    ensures { OnOk result ((written : List ℕ)
        × AreFound search line (found_spans search text.now) written
        × Appends (W.contents writer.old) (W.contents writer.new) written) }
{
    if search.exact {
        let quantities = find_quantities(text, search.wanted);
        write_runs(writer, line, text, quantities, search)
    } else {
        let numbers = find_numbers(text, search.wanted);
        write_runs(writer, line, text, numbers, search)
    }
}

// Writes these lines for the bytes of a line, or `bad line` if they are not UTF-8.
fn write_line<W: Write>(writer: &mut W, line: u64, bytes: &[u8], search: Search) -> io::Result<()>
    ensures { OnOk result ((written : List ℕ) × AnswersLine search line bytes.now written
        × Appends (W.contents writer.old) (W.contents writer.new) written) }
{
    match str::from_utf8(bytes) {
        Ok(text) => write_numbers(writer, line, text, search),
        Err(_) => writeln!(writer, "{line}:1 bad line"),
    }
}

// A line without its line feed.
fn without_feed(line: &[u8]) -> &[u8]
    ensures { result.now ≡ strip_last 10 line.now }
{
    line.strip_suffix(b"\n").unwrap_or(line)
}

// Reads the next line, with its line feed, and returns whether there was one.
fn read_line<R: BufRead>(reader: &mut R, bytes: &mut Vec<u8>) -> Result<bool, RunError>
    ensures line { IfOk result (λ more. IfSome (R.remaining reader.old) (λ input.
        TakesLine more input (R.remaining reader.new) bytes.new.items)) }
    ensures within { IfSome (R.remaining reader.old) (λ input.
        ReadWithinLine input (R.remaining reader.new)) }
    ensures fault { IfErr result (λ error. error ≢ RunError.Write) }
{
    bytes.clear();
    let count = reader.read_until(b'\n', bytes).map_err(RunError::of_read)?;
    Ok(count > 0)
}

// Writes all the bytes, in as many writes as are needed.
fn write_all<W: Write>(writer: &mut W, bytes: &[u8]) -> Result<(), RunError>
    ensures { Puts (W.contents writer.old) (W.contents writer.new) bytes.now result }
{
    let mut rest = bytes;
    while !rest.is_empty() {
        match writer.write(rest) {
            Ok(count) if count > 0 => rest = rest.split_at(count).1,
            _ => return Err(RunError::Write),
        }
    }
    Ok(())
}

// Answers a line. The whole answer is made before any of it is written.
fn answer_line<W: Write>(
    writer: &mut W,
    answer: &mut Vec<u8>,
    line: u64,
    bytes: &[u8],
    search: Search,
) -> Result<(), RunError>
    ensures { Replies search line bytes.now (W.contents writer.old) (W.contents writer.new) result }
{
    answer.clear();
    write_line(answer, line, bytes, search).map_err(|_| RunError::Memory)?;
    write_all(writer, answer.as_slice())
}

// Flushes what was written.
fn flush<W: Write + Drop>(writer: &mut BufWriter<W>) -> Result<(), RunError>
    ensures sent { OnOk result (writer_buffer writer.new ≡ []) }
    ensures kept { Keeps (writer_contents W.contents writer.old)
        (writer_contents W.contents writer.new) }
    ensures fault { IfErr result (λ error. error ≡ RunError.Write) }
{
    writer.flush().map_err(|_| RunError::Write)
}

// Flushes what was written if the next read may wait.
// Same answer (b'\n' → b'\t'): only tests/test_numbers.py shows that answers are written before the
// next line is read.
fn flush_before_read<R: Read + Drop, W: Write + Drop>(
    reader: &BufReader<R>,
    writer: &mut BufWriter<W>,
) -> Result<(), RunError>
    ensures kept { Keeps (writer_contents W.contents writer.old)
        (writer_contents W.contents writer.new) }
    ensures fault { IfErr result (λ error. error ≡ RunError.Write) }
{
    if reader.buffer().contains(&b'\n') {
        Ok(())
    } else {
        flush(writer)
    }
}

/// Searches the lines of the reader up to its end, and writes a line for each number or expression
/// that is found. What was written is flushed before a read that may wait, and at the end.
///
/// If the error is `Write`, a prefix of the answers to the lines read has been written. If it is
/// `Read` or `Memory`, the answers to the lines before the current one have been written, and
/// nothing else.
pub fn search_lines<R: Read + Drop, W: Write + Drop>(
    alloc: Global,
    reader: &mut BufReader<R>,
    writer: &mut BufWriter<W>,
    search: Search,
) -> Result<(), RunError>
    ensures sent { OnOk result (writer_buffer writer.new ≡ []) }
    ensures leaves { IfSome (reader_remaining R.remaining reader.old) (λ input.
        Leaves search input (reader_remaining R.remaining reader.new)
        (writer_contents W.contents writer.old) (writer_contents W.contents writer.new) result) }
{
    let mut bytes = Vec::new(alloc);
    let mut answer = Vec::new(alloc);
    for line in 1..u64::MAX {
        flush_before_read(reader, writer)?;
        if !read_line(reader, &mut bytes)? {
            return flush(writer);
        }
        let text = without_feed(bytes.as_slice());
        answer_line(writer, &mut answer, line, text, search)?;
    }
    // The input has more lines than a `u64` counts.
    Err(RunError::Read)
}
