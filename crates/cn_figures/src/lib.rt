//! Amounts of money in figures, such as 1,409.50: they are read exactly, and shown.
//!
//! `specs/Figures` defines figures. Reading goes from left to right through states, which say what
//! was read last. Three steps show that it is right: each state stands for what has been read of
//! figures (`proofs/Fronts`), figures are read to their end (`proofs/FiguresRun`), and characters
//! are read as the parts that they are (`proofs/FiguresRead`).
#![tactic(auto)]

mod error;
mod expect;
pub mod laws;
mod listed;
mod part;
mod progress;
mod read;
mod repair;
mod shown;
mod signed;
mod state;

pub use error::FiguresError;
pub use expect::{figures_expected, signed_figures_expected};
pub use progress::FiguresGrammar;
pub use read::{signed_yuan_to_fen, yuan_to_fen};
pub use repair::{figures_repair, signed_figures_repair};
pub use shown::Figures;
pub use signed::SignedFiguresGrammar;
