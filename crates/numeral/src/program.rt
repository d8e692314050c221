// Connects the engine to the program's input and output.
ghost use Rattle.std.specs.Prelude.{◌≡◌, ◌≤◌, ℕ, List, true, false, IfSome};
ghost use Rattle.std.specs.Io.KnownBytes.{Consumes};
ghost use Rattle.numeral.specs.Devices.{IsHandedOn};
ghost use Rattle.numeral.specs.Leaves.{Wrote, WroteBeginning, WroteFirst, EndedOnce, EndedAtMostOnce, any_failed};
ghost use Rattle.numeral.specs.Status.{status_of};
ghost use Rattle.cn_lines.specs.Lines.{lines};

use crate::devices::{Sink, Source};
use crate::engine::run;
use crate::fault::RunError;
use std::alloc::Global;

/// The exit status of the program: 2 if memory could not be allocated, 1 if a read or a write
/// failed or the output could not be flushed at the end, else 0.
pub fn status(outcome: &Result<(), RunError>, flushed: bool) -> u8
    ensures { result ≡ status_of outcome.now flushed }
{
    match outcome {
        Err(RunError::Memory) => 2,
        Ok(_) if flushed => 0,
        _ => 1,
    }
}

/// Answers the lines of the reader on the writer, flushes all answers, and returns the exit status
/// of the program.
///
/// The bytes that were written are a prefix of the answers to the lines that were read, and none of
/// them is held back unless a write or the last flush failed. After a read that returned no byte,
/// there is no further read. If the status is 0, nothing failed, the input was read to its end, and
/// exactly the answers to its lines were written. It is 1 only if a read, a write or the last flush
/// failed. If it is 2, the complete answers to the first k lines that were read were written, and a
/// further line was read.
pub(crate) fn answer_all<R: Source, W: Sink>(alloc: Global, reader: &mut R, writer: &mut W) -> u8
    requires reads { (R.state reader.old).failed ≡ false }
    requires writes { (W.state writer.old).failed ≡ false }
    ensures beginning { (bytes : List ℕ)
        × Consumes (R.state reader.old).remaining (R.state reader.new).remaining bytes
        × WroteBeginning (W.state writer.old) (W.state writer.new) (lines bytes) }
    ensures whole { result ≡ 0 → IfSome (R.state reader.old).remaining (λ input.
        Wrote (W.state writer.old) (W.state writer.new) (lines input)) }
    ensures ended { result ≡ 0 → EndedOnce (R.state reader.old) (R.state reader.new) }
    ensures stops { EndedAtMostOnce (R.state reader.old) (R.state reader.new) }
    ensures out { IsHandedOn (W.state writer.new) }
    ensures works { result ≡ 0 → any_failed (R.state reader.new) (W.state writer.new) ≡ false }
    ensures fault { result ≡ 1 → any_failed (R.state reader.new) (W.state writer.new) ≡ true }
    ensures memory { result ≡ 2 → (bytes : List ℕ)
        × Consumes (R.state reader.old).remaining (R.state reader.new).remaining bytes
        × WroteFirst (W.state writer.old) (W.state writer.new) bytes }
    ensures no_other { result ≤ 2 }
{
    let outcome = run(alloc, reader, writer);
    let flushed = !writer.has_failed() && writer.flush().is_ok();
    status(&outcome, flushed)
}
