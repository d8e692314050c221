//! Laws of each grammar: of `AmountGrammar`, `SignedAmountGrammar`, `TypedAmountGrammar`,
//! `TypedSignedAmountGrammar` and `DateGrammar`.
pub use cn_grammar::laws::{
    beginnings_are_begun, each_text_has_one_answer, each_text_is_one_value, expectations_agree,
    refusals_are_where_expected,
};
