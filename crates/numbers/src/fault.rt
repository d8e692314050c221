ghost use Rattle.std.specs.Prelude.{◌≡◌};
ghost use Rattle.std.specs.IoError.{error_kind};
ghost use Rattle.numbers.specs.Faults.{fault_of_read, status_of};

use std::io::{self, ErrorKind};

/// Why a run stopped before the end of its input.
#[derive(Debug, Copy, Clone)]
pub enum RunError {
    /// A read failed.
    Read,
    /// A write failed.
    Write,
    /// Memory ran out.
    Memory,
}

impl RunError {
    /// Why a run stops if a read fails with this error. A read requests memory too, so memory may
    /// have run out.
    pub fn of_read(error: io::Error) -> RunError
        ensures { result ≡ fault_of_read (error_kind error) }
    {
        match error.kind() {
            ErrorKind::OutOfMemory => RunError::Memory,
            _ => RunError::Read,
        }
    }
}

/// The exit status of a run: whether the command line asked for anything, or why the run stopped,
/// decides it.
pub fn status(outcome: &Result<bool, RunError>) -> u8
    ensures { result ≡ status_of outcome.now }
{
    match outcome {
        Ok(true) => 0,
        Ok(false) | Err(RunError::Memory) => 2,
        Err(RunError::Read) | Err(RunError::Write) => 1,
    }
}
