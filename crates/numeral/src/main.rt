//! Reads and writes Chinese numerals, one line at a time.
//!
//! ```text
//! read u64 ten_thousand 一百二                ok 120
//! read u64 naive 一二三                       ok 123
//! print i8 naive traditional lower -12        ok 負一二
//! read u64 ten_thousand 二十十                err the chinese number is incorrect (position: 1)
//! anything else                               bad line
//! ```
//!
//! A `read` line has a type, a method or `naive`, and a text. A `print` line has a type, a method
//! or `naive`, a script, a case and a number. Exactly one space separates them, and the text is
//! everything after the third space. The other errors are `a chinese number cannot be empty`,
//! `number is too large` and `number is too small`.
//!
//! The exit status is 0 if everything was read and answered, 1 if a read, a write or the last flush
//! failed, and 2 if memory could not be allocated.
#![tactic(auto)]

mod devices;
pub mod engine;
mod fault;
pub mod laws;
mod program;
#[cfg(test)]
mod tests;

use crate::devices::{BufferedSink, Device};
use crate::fault::RunError;
use crate::program::{answer_all, status};
use std::process::ExitCode;

fn main(rt: HostRuntime) -> ExitCode {
    let Ok(mut writer) = BufferedSink::new(rt.alloc(), Device::new(rt.stdout())) else {
        return ExitCode::from(status(&Err(RunError::Memory), false));
    };
    let mut reader = Device::new(rt.stdin());
    ExitCode::from(answer_all(rt.alloc(), &mut reader, &mut writer))
}
