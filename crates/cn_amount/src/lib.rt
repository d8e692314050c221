//! Amounts of money in Chinese capitals, as on cheques: written in one form, and read in each form.
//!
//! `specs/Form` defines the forms of an amount, place by place from the top: a digit that is not 0
//! is written with its unit, and 零 is written before it if the digit directly before it is 0.
//! `Choices` has what the rules leave open. The form that is written makes one fixed choice of
//! each, except that a caller can choose 人民币, and 圆 and 正 in place of 元 and 整.
//!
//! Writing copies that form piece by piece into a buffer for the longest form, and makes a string
//! of it. Reading goes from left to right through states, each of which says what may follow. At
//! each point of a form a list of ways says what can still be written (`proofs/Points`). Each state
//! stands for such a list, which is checked by computing it (`proofs/States`). So reading is right
//! if the forms are exactly what is written along the ways: each form is (`proofs/FormsRead`), and
//! nothing else is (`proofs/Accepted`). The sum of the characters read is the amount
//! (`proofs/Values`).
//!
//! An amount that may be below zero is read by the same states after a sieve that leaves out 負
//! (`proofs/SignedReads`). An amount as people type it is read by the states of its prefix
//! (`proofs/Prefixes`, `proofs/PrefixRuns`) and then by the same states, from that after 人民币 on
//! (`proofs/TypedRuns`), after a sieve that leaves out white space (`proofs/TypedReads`).
#![tactic(auto)]

mod before;
mod capital;
mod error;
mod expect;
mod form;
mod invoice;
pub mod laws;
mod listed;
mod places;
mod prefix;
mod progress;
mod put;
mod read;
mod repair;
mod signed;
mod state;
mod sum;
mod typed;
mod write;

pub use error::{AmountToChineseError, ChineseToAmountError};
pub use expect::{
    amount_expected, signed_amount_expected, typed_amount_expected, typed_signed_amount_expected,
};
pub use form::AmountForm;
pub use invoice::{
    MOST_INVOICE_BYTES, chinese_to_signed_amount_as_typed, invoice_amount_text,
    signed_amount_to_chinese_as,
};
pub use progress::AmountGrammar;
pub use read::{chinese_to_amount, chinese_to_amount_as_typed, chinese_to_signed_amount};
pub use repair::{
    amount_repair, signed_amount_repair, typed_amount_repair, typed_signed_amount_repair,
};
pub use signed::SignedAmountGrammar;
pub use typed::{TypedAmountGrammar, TypedSignedAmountGrammar};
pub use write::{
    AMOUNT_LIMIT, MOST_AMOUNT_BYTES, amount_text, amount_to_chinese, amount_to_chinese_as,
    signed_amount_text, signed_amount_to_chinese,
};
