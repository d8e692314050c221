//! Codes in a text, such as telephone numbers and addresses, and a text with its codes in figures.
#![tactic(auto)]

pub mod beside;
pub mod code;
mod code_words;
pub mod counted;
pub mod digits;
mod groups;
pub mod in_figures;
mod signs;
pub mod tens;
pub mod with_codes;
pub mod words;

pub use code::{Code, CodeKind, code_at};
pub use with_codes::{WithCodes, put_text_in_figures, text_to_figures};
