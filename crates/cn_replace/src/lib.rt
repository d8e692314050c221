//! Replaces the expressions of a text by other texts, or writes them in figures, such as 3.5万 for
//! 三点五万. All else is left unchanged.
#![tactic(auto)]

mod buffer;
mod canonical;
pub mod chains;
pub mod clings;
mod in_figures;
mod joined;
pub mod kept;
pub mod laws;
pub mod nothing;
pub mod numbers;
mod options;
pub mod pieces;
mod quantities;
mod replace;
mod replacement;
mod rewriting;
mod sink;

pub use in_figures::InFigures;
pub use options::{Figures, Included, Style};
pub use quantities::{put_quantities_in_figures, quantities_to_figures};
pub use replace::replace_quantities;
pub use replacement::Replacement;
pub use rewriting::Rewriting;
pub use sink::Sink;
