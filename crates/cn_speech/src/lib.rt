//! A text as it is spoken: its figures, signs and measures in Chinese characters.
#![tactic(auto)]

pub mod codes;
pub mod expressions;
pub mod items;
pub mod joined;
pub mod laws;
pub mod meant;
pub mod measures;
pub mod money;
pub mod numbers;
pub mod pairs;
pub mod part;
pub mod phrases;
pub mod ranges;
pub mod speech;
pub mod tail;
pub mod voice;

pub use meant::put_as_meant;
pub use speech::{Left, Place, next_left, put_speech, text_to_speech};
pub use voice::{One, Voice};
