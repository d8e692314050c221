//! Writes an amount of money or a date as on a cheque, and reads it back.
//!
//! ```text
//! cheque 1409.50                       壹仟肆佰零玖元伍角整
//! cheque --prefix 15                   人民币壹拾伍元整
//! cheque 壹仟肆佰零玖元伍角                1409.50
//! cheque ¥1,409.50                     壹仟肆佰零玖元伍角整
//! cheque 1409.505                      the amount is incorrect (position: 7)
//! cheque 2026-01-15                    贰零贰陆年零壹月壹拾伍日
//! cheque 贰零贰陆年零壹月壹拾伍日              2026-01-15
//! ```
//!
//! The figures of an amount are those that `cn_figures` reads. The figures of a date are four
//! digits, two digits and two digits, with hyphens between them. A word that begins with an ASCII
//! character, ¥ or a full-width digit is read as figures: as those of a date if a hyphen follows
//! the digits at its start. Any other word is read as capitals: as those of a date if it has a 年.
//! Refusals are written to standard error.
//!
//! The status is 0 if the amount or the date was written, 1 if it was refused or a write failed,
//! and 2 if memory ran out or the words of the command line ask for nothing.
#![tactic(auto)]

ghost use Rattle.std.specs.Prelude.{◌≡◌, MatchResult};
ghost use Rattle.std.specs.IoError.{error_kind};
ghost use Rattle.cheque.specs.Status.{status_of_fault};

pub mod dates;
mod digits;
pub mod laws;
mod reply;
mod request;

use crate::reply::write_reply;
use std::env;
use std::io::{self, ErrorKind, LineWriter};
use std::process::ExitCode;

// Replies to the words of the command line, and returns the status.
fn serve(rt: &HostRuntime) -> io::Result<u8> {
    let mut words = Vec::new(rt.alloc());
    for word in env::args(rt)?.skip(1) {
        words.push(word)?;
    }
    let mut output = LineWriter::new(rt.alloc(), rt.stdout())?;
    let mut errors = LineWriter::new(rt.alloc(), rt.stderr())?;
    write_reply(rt.alloc(), &mut output, &mut errors, words.as_slice())
}

// The exit status of a run: the status of its reply, or one that says why there is none.
fn status(served: io::Result<u8>) -> u8
    ensures { MatchResult served (λ status. result ≡ status)
        (λ error. result ≡ status_of_fault (error_kind error)) }
{
    match served {
        Ok(status) => status,
        Err(error) => match error.kind() {
            ErrorKind::OutOfMemory => 2,
            _ => 1,
        },
    }
}

fn main(rt: HostRuntime) -> ExitCode {
    ExitCode::from(status(serve(&rt)))
}
