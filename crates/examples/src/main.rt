//! The first program of the README, and calls with contracts, some of which are in the README too:
//! an amount in capitals, a number that is read, a number that is printed and read back, with and
//! without memory, and the number of a chapter, read from its heading.
#![tactic(auto)]

use chinese_number::{ChineseVariant, amount_to_chinese};
use std::io;

fn main(rt: HostRuntime) -> io::Result<()> {
    match amount_to_chinese(rt.alloc(), ChineseVariant::Simple, 1_500) {
        Ok(amount) => println!(rt; "{amount}"),
        Err(error) => println!(rt; "{error}"),
    }
}

#[cfg(test)]
mod allocating_calls;
mod amount;
mod chapter;
mod number;
mod read_back;
#[cfg(test)]
mod tests;
