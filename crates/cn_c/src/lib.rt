//! Chinese numerals for C, and for languages that call C: calls that print and read whole numbers
//! of each type by each method, exact quantities, amounts of money and dates, find the numbers,
//! the expressions and the phrases of a text, write a text in figures or as it is spoken, and answer
//! the lines of the program `numeral`.
//!
//! `bindings/c/chinese_number.h` declares them.
#![tactic(auto)]

mod amount;
mod amount_column;
mod amount_form;
mod codes;
mod column;
mod date;
mod date_column;
mod explain;
mod finding;
mod flags;
mod input;
pub mod laws;
mod line;
mod message;
mod number;
mod number_column;
mod phrases;
mod printing;
mod quantity;
mod quantity_figures;
mod quantity_form;
mod quantity_text;
mod reading;
mod replacing;
mod room;
mod signed_amount;
mod speaking;
mod status;
mod typed_amount;
mod version;

pub use amount::{Amount, chinese_amount_print, chinese_amount_read};
pub use amount_column::{chinese_amounts_print_column, chinese_amounts_read_column};
pub use date::{Date, chinese_date_print, chinese_date_read};
pub use date_column::{Day, chinese_dates_print_column, chinese_dates_read_column};
pub use explain::{chinese_number_explain, chinese_quantity_explain};
pub use finding::{
    Span, chinese_number_find, chinese_number_find_utf8, chinese_quantity_find,
    chinese_quantity_find_utf8,
};
pub use input::{Change, Expected, chinese_input_expected, chinese_input_repair};
pub use line::chinese_number_answer_line;
pub use message::{
    chinese_input_message, chinese_number_message, chinese_quantity_message, chinese_status_message,
};
pub use number::Number;
pub use number_column::{
    chinese_numbers_print_column, chinese_numbers_read_column, chinese_wide_numbers_print_column,
    chinese_wide_numbers_read_column,
};
pub use phrases::{Phrase, chinese_phrase_find, chinese_phrase_find_utf8, chinese_range_read};
pub use printing::chinese_number_print;
pub use quantity::{Quantity, chinese_quantity_read};
pub use quantity_figures::chinese_quantity_figures;
pub use quantity_text::chinese_quantity_print;
pub use reading::{Reading, chinese_number_read, chinese_number_read_utf8};
pub use replacing::{chinese_quantities_to_figures, chinese_text_to_figures};
pub use signed_amount::{
    SignedAmount, chinese_figures_read, chinese_signed_amount_print, chinese_signed_amount_read,
};
pub use speaking::{chinese_speech_left, chinese_text_to_speech};
pub use typed_amount::{chinese_typed_amount_read, chinese_typed_signed_amount_read};
pub use version::chinese_number_version;
