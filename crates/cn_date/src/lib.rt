//! Dates in Chinese capitals, as on cheques: written in one form, and read in each form.
//!
//! `specs/Form` defines the forms of a date, and `specs/Calendar` which dates exist.
//!
//! Writing copies that form piece by piece into a short text, and makes a string of it. Reading
//! goes from left to right through states, which say what has been read. Three parts show that it
//! is right: each form is read to its end (`proofs/FormsRead`), each state stands for what has been
//! read of a form (`proofs/Fronts`), and each state can be completed (`proofs/Completed`).
#![tactic(auto)]

mod capital;
mod date;
mod error;
mod expect;
pub mod laws;
mod listed;
mod part;
mod put;
mod read;
mod repair;
mod state;
mod write;

pub use date::{BillDate, days_of};
pub use error::{ChineseToDateError, DateToChineseError};
pub use expect::date_expected;
pub use read::chinese_to_date;
pub use repair::date_repair;
pub use state::DateGrammar;
pub use write::{MOST_DATE_BYTES, date_text, date_to_chinese};
