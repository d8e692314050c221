//! The lines of the program `numeral`: where a line ends, what it asks, and what the answer is.
//!
//! That program, which re-exports the laws, and the calls for C use this crate.
#![tactic(auto)]

pub mod answer;
pub mod laws;
pub mod lines;
mod question;
