//! The printer of any integer type, with units or as plain digits. Only the crates above this one
//! use it; users call `chinese_number`.
//!
//! It fills a buffer from the last character to the first. The buffer is either lent by the caller,
//! and the text is then its end, or allocated once, with three bytes for each of the characters,
//! which are counted first.
#![tactic(auto)]

mod characters;
mod error;
mod naive;
mod pen;
mod print;
mod sections;
mod spell;
mod spelled;
mod text;
mod units;

pub use error::NumberToChineseError;
pub use naive::{print_naive, put_chinese_naive};
pub use print::{print_by_units, print_or_refuse, put_chinese};
pub use text::ROOM_BYTES;
