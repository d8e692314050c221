//! Repeats a call over numbers or amounts of all lengths or over a text, and prints a checksum, so
//! that the compiler cannot remove the work.
//!
//! ```text
//! bench print u128 naive 1000
//! bench read u64 naive 1000
//! bench print amount 1000
//! bench find 10
//! ```
//!
//! The last word is the number of passes over all ten thousand numbers or amounts, or over the text
//! of a million characters. Measure the time from outside, and subtract the time with 0 passes, in
//! which only the data is made.
#![tactic(auto)]

mod amounts;
mod finding;
mod numbers;
mod task;

use crate::amounts::{print_amounts, read_amounts};
use crate::finding::find_sum;
use crate::numbers::{amounts, narrow_numbers, wide_numbers};
use crate::task::{Call, Job, Task, print_sum, read_sum};
use std::alloc::{AllocError, Global};
use std::{env, io};

static USAGE: &str = "\
usage: bench print|read u64|u128 METHOD PASSES
       bench print|read amount PASSES
       bench find PASSES";

fn sum_of(alloc: Global, task: Task) -> Result<u64, AllocError> {
    let passes = task.passes;
    match task.job {
        Job::Narrow(Call::Print, way) => print_sum(alloc, &narrow_numbers(alloc)?, way, passes),
        Job::Narrow(Call::Read, way) => read_sum(alloc, &narrow_numbers(alloc)?, way, passes),
        Job::Wide(Call::Print, way) => print_sum(alloc, &wide_numbers(alloc)?, way, passes),
        Job::Wide(Call::Read, way) => read_sum(alloc, &wide_numbers(alloc)?, way, passes),
        Job::Amounts(Call::Print) => print_amounts(alloc, &amounts(alloc)?, passes),
        Job::Amounts(Call::Read) => read_amounts(alloc, &amounts(alloc)?, passes),
        Job::Find => find_sum(alloc, passes),
    }
}

fn main(rt: HostRuntime) -> io::Result<()> {
    let mut words = Vec::new(rt.alloc());
    for word in env::args(&rt)?.skip(1) {
        words.push(word)?;
    }
    let Some(task) = Task::from_words(&words) else {
        return println!(rt; "{USAGE}");
    };
    let sum = sum_of(rt.alloc(), task)?;
    println!(rt; "{sum}")
}
