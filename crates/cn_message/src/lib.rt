//! Messages for people, in three languages: why a text that was typed is refused, where, and how to
//! repair it. The texts are in `texts.rt`, once for all languages and bindings.
//!
//! The contracts of the readers, of `.._expected`, `.._repair` and `explain_..` prove what a message
//! is based on. The wording has no contract: `tests/rows/messages.tsv` tests it.
#![tactic(auto)]

mod characters;
mod input;
mod input_message;
mod language;
mod message;
mod number_message;
mod status_message;
mod texts;

pub use input::Input;
pub use input_message::put_input_message;
pub use language::Language;
pub use number_message::{put_number_message, put_quantity_message};
pub use status_message::put_status_message;
pub use texts::Sentence;
