//! Reads a text as a number of any integer type, with units or as plain digits, exactly as the
//! definitions of `cn_core` judge it. No reader allocates memory.
//!
//! Only the crates above this one use it: `cn_calls` gives the readers their public names and
//! re-exports the error; `cn_quick` uses marks, signs and the rules on the first digit; `cn_find`
//! uses marks; `cn_quantity` uses the judgements of a text without sign, and the reasons for
//! refusals; `chinese_number` re-exports `explain_number`; `cn_dynamic` uses the reasons, and the test
//! for eight bytes of ASCII; and `cn_c` uses the byte index of a character.
#![tactic(auto)]

mod error;
mod fault;
mod first_bytes;
mod judge;
mod mark;
mod naive;
mod open_units;
mod space;
mod text;
mod walk;
mod word;

pub use error::ChineseToNumberError;
pub use fault::{NumeralFault, explain_number, explain_number_naive, naive_reason_of, reason_of};
pub use judge::{AfterSign, first_digit, judge_text, read_number, signed_answer, split_sign};
pub use mark::{Mark, mark_of};
pub use naive::{judge_naive, read_naive};
pub use text::{
    First, byte_index, count_chars, split_end_mark, split_first, split_first_known,
    split_first_mark, split_first_three, split_last, split_last_char, split_last_known,
};
pub use walk::separates_digits;
pub use word::eight_ascii_at;
