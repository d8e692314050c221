//! Laws of dates in capitals, besides those of `grammars`: what is written is read back.
pub use cn_date::laws::{forms_are_short, written_dates_are_dates};
