// Tests of the effects of a run at a fault.
use super::{Calls, ROWS, first_rows, leaves};
use crate::fault::RunError;
use crate::program::status;
use std::alloc::AllocError;
use std::process::Abort;

// The read with this number fails: the lines that had ended are answered.
fn a_read_fails(
    rt: &(impl Abort + AllocGlobal),
    input: &[u8],
    most: usize,
    call: u64,
) -> Result<(), AllocError> {
    let read = input
        .len()
        .min((call as usize).saturating_sub(1).saturating_mul(most));
    let (seen, _) = input.split_at(read);
    let ended = seen.iter().filter(|byte| **byte == b'\n').count();
    let (_, output) = first_rows(rt.alloc(), &ROWS, ended)?;
    // a run makes this call if the call before it returned a byte
    let before = (call as usize).saturating_sub(2).saturating_mul(most);
    let outcome = if before < input.len() {
        Err(RunError::Read)
    } else {
        Ok(())
    };
    let calls = Calls {
        most,
        read_fails: Some(call),
        write_fails: None,
    };
    leaves(rt, input, calls, outcome, output.as_bytes());
    Ok(())
}

// Each read fails in turn.
#[test]
fn each_read_fails(rt: HostRuntime) -> Result<(), AllocError> {
    let (input, _) = first_rows(rt.alloc(), &ROWS, 9)?;
    for most in [1, 10, 100] {
        for call in 1..input.len() as u64 {
            a_read_fails(&rt, input.as_bytes(), most, call)?;
        }
    }
    Ok(())
}

// Each write fails in turn: the bytes that were written are a prefix of the answers.
#[test]
fn each_write_fails(rt: HostRuntime) -> Result<(), AllocError> {
    let (input, output) = first_rows(rt.alloc(), &ROWS, 9)?;
    for call in 1..output.len() as u64 + 2 {
        let (before, rest) = output.as_bytes().split_at(call as usize - 1);
        let outcome = if rest.is_empty() {
            Ok(())
        } else {
            Err(RunError::Write)
        };
        let calls = Calls {
            most: 1,
            read_fails: None,
            write_fails: Some(call),
        };
        leaves(&rt, input.as_bytes(), calls, outcome, before);
    }
    Ok(())
}

// A run with one byte in a call: its input, the read and the write that fail, its result, and the
// bytes that it writes.
type Unfinished = (
    &'static str,
    Option<u64>,
    Option<u64>,
    Result<(), RunError>,
    &'static str,
);

static UNFINISHED: [Unfinished; 3] = [
    (
        "read u8 naive 一\nread u8 naive 二",
        Some(36),
        None,
        Err(RunError::Read),
        "ok 1\n",
    ),
    (
        "read u8 naive 一\nread u8 naive 二",
        Some(37),
        None,
        Ok(()),
        "ok 1\nok 2\n",
    ),
    (
        "read u8 naive 一",
        None,
        Some(5),
        Err(RunError::Write),
        "ok 1",
    ),
];

// After a fault after the last byte, the unfinished line is not answered; at the end of the input
// it is.
#[test]
fn an_unfinished_line(rt: HostRuntime) {
    for (input, read_fails, write_fails, outcome, output) in &UNFINISHED {
        let calls = Calls {
            most: 1,
            read_fails: *read_fails,
            write_fails: *write_fails,
        };
        leaves(&rt, input.as_bytes(), calls, *outcome, output.as_bytes());
    }
}

static STATUSES: [(Result<(), RunError>, bool, u8); 8] = [
    (Ok(()), true, 0),
    (Ok(()), false, 1),
    (Err(RunError::Read), true, 1),
    (Err(RunError::Read), false, 1),
    (Err(RunError::Write), true, 1),
    (Err(RunError::Write), false, 1),
    (Err(RunError::Memory), true, 2),
    (Err(RunError::Memory), false, 2),
];

#[test]
fn statuses(rt: HostRuntime) {
    for (outcome, flushed, want) in &STATUSES {
        assert_eq!(rt; status(outcome, *flushed), *want);
    }
}
