//! Columns: many rows in one call, in the layout of Arrow's large strings. The texts of a column
//! are in one buffer, one after another. Its offsets say where each begins and ends, and a bitmap
//! says which rows are present.
//!
//! `specs/Columns` defines what is written.
#![tactic(auto)]

mod bitmap;
pub mod laws;
mod printing;
mod reading;

pub use bitmap::Presence;
pub use printing::{Printed, RowPrinter, count_rows, print_rows};
pub use reading::{Answer, RowReader, Unread, read_rows};
