//! The code that the interfaces of the library share: the integer types; the ways of reading and
//! writing a number, and the choice between them; a number as its sign and its magnitude; the value
//! of decimal digits; and the test whether bytes are text.
//!
//! The programs and the calls for C use it. Callers in Rattle use `chinese_number`.
#![tactic(auto)]

mod either;
mod integer_type;
mod read;
mod utf8;
mod way;

pub use either::{either_way, written_method};
pub use integer_type::IntegerType;
pub use read::{explain_as, read_as, read_unsigned};
pub use utf8::{are_common, are_utf8_at_all, utf8_text};
pub use way::{SignedMagnitude, Way, put_by, read_by, way_named};
