//! What amounts and dates in capitals share: a reader from left to right, which works for each
//! grammar that has states; the lookup of a character in a table; and a call that writes a capital.
//!
//! `specs/Answers` defines the answer to a text, for any definition of a form. `specs/Machine` has
//! what must be shown once for a grammar, `specs/Sieve` how a grammar reads only the characters
//! that a sieve keeps, and `specs/Text` what has been written to a buffer.
#![tactic(auto)]

mod character_list;
mod expecting;
mod fault;
mod grammar;
mod hint;
pub mod laws;
mod listed;
mod look_alikes;
mod partial;
mod reader;
mod refusal;
mod repairing;
mod sign;
mod table;
mod text;
mod written;

pub use character_list::CharacterList;
pub use expecting::{Expected, expected_next};
pub use grammar::Grammar;
pub use hint::{Hint, Repair};
pub use listed::Listed;
pub use reader::read_form;
pub use refusal::Refusal;
pub use repairing::find_repair;
pub use sign::Front;
pub use table::known_in;
pub use text::put_capital;
pub use written::Written;
