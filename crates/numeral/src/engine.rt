// Reads the input block by block, and answers its lines.
ghost use Rattle.std.specs.Prelude.{◌≡◌, ◌<◌, ◌≤◌, ◌++◌, [], ◌∷◌, false, length, take, drop, slice_index, OnOk, OnErr, IfOk, IfSome, MatchOption};
ghost use Rattle.std.specs.Io.KnownBytes.{Keeps, ReadConsumes};
ghost use Rattle.cn_lines.specs.Lines.{HasNoFeed, last_line, lines};
ghost use Rattle.cn_lines.specs.Answer.{Answers};
ghost use Rattle.numeral.specs.Leaves.{Wrote, Runs, Stops};
ghost use Rattle.numeral.specs.Devices.{CountsRead, IsHandedOn};
ghost use Rattle.numeral.specs.Steps.{Fails, Puts, Replies, AnswersEnded};

use crate::devices::{Sink, Source};
use crate::fault::RunError;
use cn_lines::answer::{MOST_ANSWER_BYTES, answer};
use cn_lines::lines::split_line;
use std::alloc::Global;

// The number of bytes that are read at a time.
// Same answer (65536 → 65535, 65536 → 65537): the lines are the same for every block size.
const BLOCK: usize = 65536;

// The rest of the bytes after the first `count`.
#[inline(always)]
fn bytes_after(bytes: &[u8], count: usize) -> &[u8]
    requires { count ≤ length bytes.now }
    ensures { result.now ≡ drop count bytes.now }
{
    bytes.split_at(count).1
}

// Writes all the bytes, in as many calls as are needed.
fn write_all<W: Sink>(writer: &mut W, bytes: &[u8]) -> Result<(), RunError>
    requires { (W.state writer.old).failed ≡ false }
    ensures { Puts (W.state writer.old) (W.state writer.new) bytes.now result }
{
    let mut rest = bytes;
    while !rest.is_empty() {
        match writer.write(rest) {
            Ok(count) => rest = bytes_after(rest, count),
            Err(_) => return Err(RunError::Write),
        }
    }
    Ok(())
}

// Writes an answer and a line feed.
fn write_answer<W: Sink>(writer: &mut W, answer: &str) -> Result<(), RunError>
    requires { (W.state writer.old).failed ≡ false }
    ensures { Puts (W.state writer.old) (W.state writer.new) (answer.now ++ 10 ∷ []) result }
{
    write_all(writer, answer.as_bytes())?;
    write_all(writer, b"\n")
}

// Answers a line. The whole answer is computed before any of it is written.
fn answer_line<W: Sink>(writer: &mut W, line: &[u8]) -> Result<(), RunError>
    requires { (W.state writer.old).failed ≡ false }
    ensures { Replies (W.state writer.old) (W.state writer.new) (line.now ∷ []) result }
{
    let mut room = [0; MOST_ANSWER_BYTES];
    write_answer(writer, answer(&mut room, line))
}

// Answers the line that begins with the bytes that are kept and ends with this piece, and then keeps
// nothing.
// Same answer (if kept.is_empty() → nothing): the answers are equal; only tests/test_numeral.py
// shows which lines need memory.
fn answer_kept<W: Sink>(writer: &mut W, kept: &mut Vec<u8>, piece: &[u8]) -> Result<(), RunError>
    requires { (W.state writer.old).failed ≡ false }
    ensures replies { Replies (W.state writer.old) (W.state writer.new)
        ((kept.old.items ++ piece.now) ∷ []) result }
    ensures kept { OnOk result (kept.new.items ≡ []) }
{
    if kept.is_empty() {
        return answer_line(writer, piece);
    }
    kept.extend_from_slice(piece)?;
    answer_line(writer, kept.as_slice())?;
    kept.clear();
    Ok(())
}

// Processes the next bytes: answers each line that ends in them, and keeps the rest.
fn answer_ended<W: Sink>(writer: &mut W, kept: &mut Vec<u8>, block: &[u8]) -> Result<(), RunError>
    requires works { (W.state writer.old).failed ≡ false }
    requires unended { HasNoFeed kept.old.items }
    ensures { AnswersEnded (W.state writer.old) (W.state writer.new)
        (kept.old.items ++ block.now) kept.new.items result }
{
    let mut rest = block;
    'lines: while let Some((line, after)) = split_line(rest) {
        answer_kept(writer, kept, line)?;
        rest = after;
    }
    if !rest.is_empty() {
        kept.extend_from_slice(rest)?;
    }
    Ok(())
}

// Answers the bytes that are kept at the end of the input, if they are a line.
fn answer_last<W: Sink>(writer: &mut W, kept: &[u8]) -> Result<(), RunError>
    requires { (W.state writer.old).failed ≡ false }
    ensures replies { Replies (W.state writer.old) (W.state writer.new)
        (last_line kept.now) result }
    ensures some { OnErr result (0 < length kept.now) }
{
    match kept {
        [] => Ok(()),
        line => answer_line(writer, line),
    }
}

// The bytes that a read has stored at the start of the block.
#[inline(always)]
fn first_bytes(block: &[u8], count: usize) -> &[u8]
    requires { count ≤ length block.now }
    ensures { result.now ≡ take count block.now }
{
    block.split_at(count).0
}

// Reads into the start of the block, and returns the number of bytes. It flushes first, since the
// sender of the next bytes may be waiting for the answers. If the flush fails although no write
// failed, it still reads.
fn flush_and_read<R: Source, W: Sink>(
    reader: &mut R,
    writer: &mut W,
    block: &mut [u8],
) -> Result<usize, RunError>
    requires reads { (R.state reader.old).failed ≡ false }
    requires writes { (W.state writer.old).failed ≡ false }
    requires some { 0 < length block.old }
    ensures bound { IfOk result (λ n. n ≤ length block.new) }
    ensures fails { Fails (R.state reader.new) (W.state writer.new) result }
    ensures bytes { ReadConsumes (R.state reader.old).remaining (R.state reader.new).remaining
        result block.new }
    ensures kept { Keeps (W.state writer.old).contents (W.state writer.new).contents }
    ensures out { IsHandedOn (W.state writer.new) }
    ensures ends { IfOk result (λ n. 0 < n → R.reads_left reader.new < R.reads_left reader.old) }
    ensures counts { CountsRead (R.state reader.old).empty (R.state reader.new).empty result }
{
    if writer.flush().is_err() && writer.has_failed() {
        return Err(RunError::Write);
    }
    reader.read(block).map_err(|_| RunError::Read)
}

// Runs with this block as its read buffer.
fn run_by<R: Source, W: Sink>(
    alloc: Global,
    reader: &mut R,
    writer: &mut W,
    block: &mut [u8],
) -> Result<(), RunError>
    requires reads { (R.state reader.old).failed ≡ false }
    requires writes { (W.state writer.old).failed ≡ false }
    requires some { 0 < length block.old }
    ensures leaves { Runs (R.state reader.old) (R.state reader.new)
        (W.state writer.old) (W.state writer.new) result }
    ensures stops { Stops (R.state reader.old) (R.state reader.new) result }
{
    // the start of a line that continues in the next block
    let mut kept = Vec::new(alloc);
    'reads: loop {
        let count = flush_and_read(reader, writer, block)?;
        if count == 0 {
            break;
        }
        answer_ended(writer, &mut kept, first_bytes(block, count))?;
    }
    answer_last(writer, kept.as_slice())
}

/// Reads the input to its end, and writes the answers to its lines, each followed by a line feed.
///
/// A line is answered, and its answer is written, before memory for a later line is allocated. The
/// output is flushed before each read, which may have to wait. If a flush fails although no write
/// failed, the run goes on; the caller must flush at the end. After a read that returns no byte,
/// there is no further read. After a fault nothing is read, written or flushed: with `Read`, the
/// lines that had ended are answered; with `Write`, a prefix of the answers was written; with
/// `Memory`, the lines before the current one are answered.
pub fn run<R: Source, W: Sink>(
    alloc: Global,
    reader: &mut R,
    writer: &mut W,
) -> Result<(), RunError>
    requires reads { (R.state reader.old).failed ≡ false }
    requires writes { (W.state writer.old).failed ≡ false }
    ensures whole { OnOk result (IfSome (R.state reader.old).remaining (λ input.
        Wrote (W.state writer.old) (W.state writer.new) (lines input))) }
    ensures leaves { Runs (R.state reader.old) (R.state reader.new)
        (W.state writer.old) (W.state writer.new) result }
    ensures stops { Stops (R.state reader.old) (R.state reader.new) result }
{
    let mut block = [0u8; BLOCK];
    run_by(alloc, reader, writer, &mut block)
}
