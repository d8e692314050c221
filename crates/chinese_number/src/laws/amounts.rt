//! Laws of amounts of money in capitals, besides those of `grammars`: what is written is read back.
pub use cn_amount::laws::{
    amounts_are_below_the_limit, forms_are_short, written_amounts_are_amounts,
};
