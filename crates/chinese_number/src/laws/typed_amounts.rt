//! Laws of amounts as they are typed, besides those of `grammars`: what is written is read back, and
//! what the strict reader reads has the same amount here.
pub use cn_amount::laws::typed::{
    amounts_are_below_the_limit, amounts_stay_amounts, written_amounts_are_amounts,
};
