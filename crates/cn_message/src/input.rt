// What a text is meant to be.
ghost use Rattle.std.specs.Prelude.{chars, IfSome};
ghost use Rattle.cn_message.specs.Inputs.{IsExpectedIn, IsRepairOf};

use crate::Language;
use crate::characters::char_at;
use cn_amount::{
    amount_expected, amount_repair, signed_amount_expected, signed_amount_repair,
    typed_amount_expected, typed_amount_repair, typed_signed_amount_expected,
    typed_signed_amount_repair,
};
use cn_date::{date_expected, date_repair};
use cn_figures::{signed_figures_expected, signed_figures_repair};
use cn_grammar::{Expected, Hint, Repair};

/// What a text that somebody types is meant to be: each names the reader that reads it.
#[derive(Debug, Clone, Copy, Eq, PartialEq)]
pub enum Input {
    /// `chinese_to_amount`
    Amount,
    /// `chinese_to_signed_amount`
    SignedAmount,
    /// `chinese_to_amount_as_typed`
    TypedAmount,
    /// `chinese_to_signed_amount_as_typed`
    TypedSignedAmount,
    /// `chinese_to_date`
    Date,
    /// `signed_yuan_to_fen`
    Figures,
}

// Whether a character is a sign, or a bracket in which an amount below zero may be.
fn is_like_a_sign(c: char) -> bool {
    matches!(c, '负' | '負' | '-' | '−' | '－' | '（' | '(')
}

// Whether a date ends with a 31st, which begins at a place.
fn is_31st(text: &str, char_index: usize) -> bool {
    let first = char_at(text, char_index);
    (first == "叁" && text.ends_with("月叁拾壹日")) || (first == "參" && text.ends_with("月參拾壹日"))
}

impl Input {
    /// What may come next in a text, after its longest start that begins such an input.
    pub fn expected(self, text: &str) -> Expected
        ensures { IsExpectedIn self (chars text.now) result }
    {
        match self {
            Input::Amount => amount_expected(text),
            Input::SignedAmount => signed_amount_expected(text),
            Input::TypedAmount => typed_amount_expected(text),
            Input::TypedSignedAmount => typed_signed_amount_expected(text),
            Input::Date => date_expected(text),
            Input::Figures => signed_figures_expected(text),
        }
    }

    // The first change that helps, whatever it means.
    fn first_repair(self, text: &str) -> Option<Hint>
        ensures { IfSome result (IsRepairOf self (chars text.now)) }
    {
        match self {
            Input::Amount => amount_repair(text),
            Input::SignedAmount => signed_amount_repair(text),
            Input::TypedAmount => typed_amount_repair(text),
            Input::TypedSignedAmount => typed_signed_amount_repair(text),
            Input::Date => date_repair(text),
            Input::Figures => signed_figures_repair(text),
        }
    }

    /// A change of one character after which a text that is not such an input goes on past its
    /// fault. A 31st that does not exist has none: 零 before 叁拾壹 would only make it a 30th.
    pub fn repair(self, text: &str) -> Option<Hint>
        ensures { IfSome result (IsRepairOf self (chars text.now)) }
    {
        let hint = self.first_repair(text)?;
        if self == Input::Date
            && hint.repair == Repair::Insert('零')
            && is_31st(text, hint.char_index)
        {
            return None;
        }
        Some(hint)
    }

    // No contract: tests/rows/messages.tsv tests the wording.
    /// An example of such an input, with a sign if the text has something like one.
    pub fn example(self, language: Language, text: &str) -> &'static str {
        let is_signed = text.chars().any(|c| is_like_a_sign(c));
        match (self, language) {
            (Input::SignedAmount, Language::Traditional) if is_signed => "負壹仟肆佰零玖元伍角整",
            (Input::SignedAmount, _) if is_signed => "负壹仟肆佰零玖元伍角整",
            (Input::TypedSignedAmount, Language::Traditional) if is_signed => { "（負數）壹仟肆佰零玖元伍角整" }
            (Input::TypedSignedAmount, _) if is_signed => "（负数）壹仟肆佰零玖元伍角整",
            (Input::Date, Language::Traditional) => "貳零貳陸年零壹月壹拾伍日",
            (Input::Date, _) => "贰零贰陆年零壹月壹拾伍日",
            (Input::Figures, _) => "1,409.50",
            _ => "壹仟肆佰零玖元伍角整",
        }
    }
}
