//! What users can rely on. Each law is a function that does nothing; its contract is the theorem,
//! which the check proves.
// To add a law, write a function that does nothing in `laws.rt` or `laws/` of its crate, and name it
// here and in docs/PROMISES.md. If the law has premises, add an instance to
// proofs/LawExamples.antt. First try the law without a proof. For each goal that the search leaves
// open, write a lemma and cite it in the law's `Answers.antt`. If a goal has written characters,
// `unfolding digit_char unit_char` lets the search compute them.
pub mod amounts;
mod answers;
pub mod dates;
mod enums;
pub mod grammars;
mod methods;
mod places;
mod plain_digits;
pub mod quantities;
mod read_back;
mod refusals;
mod scripts;
pub mod signed_amounts;
mod signs;
pub mod typed_amounts;
pub mod typed_signed_amounts;
mod white_space;

pub use answers::{
    each_refusal_has_one_reason, each_string_has_one_answer, each_text_has_one_judgement,
    judgements_can_be_computed, numerals_alone_are_read,
};
pub use cn_find::laws::{
    expressions_are_the_runs, expressions_come_in_order, expressions_of_numerals_are_numbers,
    no_number_ends_with_mega, numbers_are_the_runs, numbers_come_in_order,
    numbers_that_meet_do_not_stand_alone, numerals_have_no_estimate, one_character_is_at_most_ten,
    one_number_either_way, runs_begin_with_no_other_sign,
    searches_for_expressions_go_on_in_the_whole_text, searches_go_on_behind_a_number,
    searches_go_on_in_the_whole_text, types_answer_alike_without_sign,
    unnamed_characters_part_texts, unwanted_characters_part_texts, wanted_constants_are,
};
pub use cn_phrase::laws::{
    items_are_expressions_without_phrases, texts_without_phrases_are_written_as_their_quantities,
};
pub use cn_replace::laws::{
    figures_constants_are, figures_stay, texts_are_put_in_figures_in_parts,
    texts_stay_where_nothing_is_new, texts_without_expressions_stay,
};
pub use enums::{
    equal_amount_forms_ask_for_the_same, equal_dates_are_the_same_day,
    equal_quantities_have_equal_parts, equal_values_are_the_same_variant, units_compare_by_rank,
};
pub use methods::{
    methods_spell_alike_below, methods_spell_otherwise_from, small_units_read_alike,
};
pub use places::{
    characters_complete_texts, each_list_has_one_place, ends_can_be_completed,
    nothing_is_wrong_after_a_place, reasons_are_the_first_broken_rules,
    refusals_name_the_last_place, zero_in_front_decides,
};
pub use plain_digits::{
    digits_alone_are_read, leading_zeros_change_nothing, naive_texts_read_back,
};
pub use read_back::{
    beginnings_are_read, middle_is_read_by_ten_thousand, one_text_for_each_number,
    spellings_are_numerals, spellings_read_back,
};
pub use refusals::{empty_is_nothing_left, unsigned_types_never_underflow};
pub use scripts::texts_of_a_number_are_equally_long;
pub use signs::{a_sign_gives_the_signed_value, minus_zero_is_zero};
pub use white_space::{refusals_point_at_characters, white_space_does_not_matter};
