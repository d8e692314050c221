//! Reads regular numerals in one pass, and leaves every other text to `cn_judge`.
//!
//! `read_quickly` passes from right to left over characters of three bytes, and sums the digits of
//! a section in 64 bits. If it cannot read a text, `cn_judge` judges the text from its beginning.
//! This crate only makes reading faster: `read_number` has the contract of `cn_judge::read_number`, so `cn_calls`
//! and `cn_find` can call either, and `cn_dynamic` can call `judge_quickly` or
//! `cn_judge::judge_text`. `read_quickly` is public so that `call_tests` can check it against
//! printed numerals.
#![tactic(auto)]

mod open_exponents;
mod quick;
mod state;
mod steps;

pub use quick::{judge_quickly, read_number, read_quickly};
