//! Finds phrases in a text: dates, times of day, durations, ranges, scores, lengths and sums of money.
#![tactic(auto)]

mod compact;
mod described;
pub mod form;
mod hour;
mod in_text;
pub mod items;
pub mod laws;
pub mod money;
mod money_text;
pub mod phrase;
pub mod piece;
pub mod range;
mod shape;
pub mod value;
mod word;
mod written;

pub use described::{
    Described, PhraseKind, PhraseNumbers, PhraseState, describe_phrase, yuan_of_phrase,
};
pub use hour::{PartOfDay, hour_of_day};
pub use in_text::{InText, is_doubtful, is_range_doubtful, may_be_years, put_in_figures};
pub use money_text::{fen_of, is_money_doubtful, yuan_of};
pub use shape::Shape;
pub use word::Word;
pub use written::put_passed;
