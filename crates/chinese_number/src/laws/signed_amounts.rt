//! Laws of amounts that may be below zero, besides those of `grammars`: what is written is read back.
pub use cn_amount::laws::signed::{
    amounts_are_below_the_limit, amounts_stay_amounts, forms_are_short, written_amounts_are_amounts,
};
