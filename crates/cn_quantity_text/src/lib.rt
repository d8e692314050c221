//! Writes a quantity in numerals or in figures, exactly as the definitions in `specs/` say.
//!
//! A buffer is filled from its last character to its first, and the text is then its end.
#![tactic(auto)]

mod digits;
mod error;
pub mod laws;
mod numerals;
mod write_figures;

pub use error::QuantityToChineseError;
pub use numerals::{MOST_QUANTITY_BYTES, greatest_spelled, put_quantity, quantity_to_chinese};
pub use write_figures::{MOST_FIGURES_BYTES, put_figures, put_number, quantity_to_figures};
