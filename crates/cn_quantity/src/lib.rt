//! Reads a text as an exact quantity: a whole number, a decimal, a percentage or a fraction, in
//! figures, in numerals or in both, exactly as the definitions in `specs/` say. Nothing here
//! allocates. `cn_quantity_text` also calls the functions for the number of decimals and for rising
//! units.
#![tactic(auto)]

mod characters;
mod decimal;
mod digits;
mod fault;
mod figures;
pub mod laws;
mod misread;
mod mixed;
mod number;
mod pieces;
mod quantity;
mod ratio;
mod trimmed;
mod turns;
mod units;
mod whole_number;

pub use fault::{QuantityFault, explain_quantity};
pub use misread::MisreadFault;
pub use quantity::{Quantity, QuantityForm, chinese_to_quantity};
pub use trimmed::decimals_of;
pub use units::{are_rising_units, first_unit};
