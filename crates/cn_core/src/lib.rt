//! The characters and integer types of Chinese numerals, and what numerals mean. The definitions
//! that the readers and printers are proved against are in `specs/`.
//!
//! Buffers for a text that is written piece by piece, without memory being requested: `Buffer` is
//! filled from its start, and `EndBuffer` from its end (`specs/Buffers`). `string_of` makes a string
//! of a text.
#![tactic(auto)]

mod buffer;
pub mod case;
mod characters_read;
mod characters_written;
mod end_buffer;
mod figure_characters;
pub mod method;
mod scales;
pub mod script;
pub mod sign;
mod string;
mod text;
pub mod unit;
pub mod whole;

pub use buffer::Buffer;
pub use case::ChineseCase;
pub use characters_read::{digit_of, sign_of, unit_of};
pub use characters_written::{
    PrintedCharacters, digit_char, minus_char, printed_characters, unit_char,
};
pub use end_buffer::EndBuffer;
pub use figure_characters::{
    figure_of, is_comma, is_currency, is_figure, is_figure_minus, is_figure_plus, is_figure_point,
    is_per_mille, is_percent, is_share_sign, is_wide_figure, tens_of,
};
pub use method::ChineseCountMethod;
pub use scales::{exponent, power_of_ten, scale};
pub use script::ChineseVariant;
pub use sign::Sign;
pub use string::string_of;
pub use text::split_first_char;
pub use unit::Unit;
pub use whole::Whole;
