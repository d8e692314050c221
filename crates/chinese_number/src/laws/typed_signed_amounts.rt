//! Laws of amounts as they are typed or copied, with a sign or without one, besides those of
//! `grammars`: what is written is read back, and what is read without a sign or strictly stays the
//! same.
pub use cn_amount::laws::typed_signed::{
    amounts_are_below_the_limit, amounts_with_each_sign_are_amounts, signed_amounts_stay_amounts,
    typed_amounts_stay_amounts, written_amounts_are_amounts,
};
