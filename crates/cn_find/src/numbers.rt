ghost use Rattle.std.specs.Prelude.{◌≡◌, ◌≤◌, ◌↔◌, ◌++◌, ◌∷◌, [], length, drop, chars, IsSome, IfSome, MatchOption, IsCharBoundary};
ghost use Rattle.std.specs.Option.{option_map};
ghost use Rattle.std.specs.Iterator.{YieldsFirstBy, item_count};
ghost use Rattle.cn_find.specs.Expressions.{expression_rule};
ghost use Rattle.cn_find.specs.Spans.{IsPartOf, expressions, expressions_left, in_front, left_by, run_after, spans, spans_by, spans_left, span_of, text_before};

use crate::rule::{NumberRule, QuantityRule, SearchRule};
use crate::run::{next_run, run_after};
use crate::{Found, Wanted};
use std::marker::Model;

/// An iterator over the numbers of a text, or over what another rule finds in it. In contracts its
/// value is the list of the runs that it has not yet returned.
#[derive(Drop)]
pub struct Numbers<'a, R: SearchRule = NumberRule> {
    rule: R,
    whole: &'a str,
    // The suffix that is not yet searched.
    rest: &'a str,
}

impl<'a, R: SearchRule> Model for Numbers<'a, R> {
    ghost use Rattle.std.specs.Prelude.{◌≡◌, ◌++◌, List};
    ghost use Rattle.cn_find.specs.Spans.{Span, text_before, left_by};

    ghost Value = { List Span };

    ghost view = { λ n. left_by (R.rule n.rule) n.whole.now n.rest.now };

    ghost invariant = { λ n. text_before n.whole.now n.rest.now ++ n.rest.now ≡ n.whole.now };
}

// Searches a text by a rule.
fn search<R: SearchRule>(rule: R, text: &str) -> Numbers<'_, R>
    ensures runs { result ≡ spans_by (R.rule rule) text.now }
    ensures few { length result ≤ length text.now }
{
    Numbers {
        rule,
        whole: text,
        rest: text,
    }
}

// Searches a text by a rule from a byte on. The rule also looks at the text before that byte.
fn search_from<R: SearchRule>(rule: R, text: &str, from: usize) -> Option<Numbers<'_, R>>
    ensures variant { IsSome result ↔ IsCharBoundary text.now from }
    ensures runs { IfSome result
        (λ found. found ≡ left_by (R.rule rule) text.now (drop from text.now)) }
{
    let (_, rest) = text.split_at_checked(from)?;
    Some(Numbers {
        rule,
        whole: text,
        rest,
    })
}

/// Finds the numbers of a text, from the first to the last.
///
/// `find_numbers("二零二五年十一月", Wanted::EVERYDAY)` gives 二零二五 and 十一.
pub fn find_numbers(text: &str, wanted: Wanted) -> Numbers<'_>
    ensures numbers { result ≡ spans wanted text.now }
    ensures few { length result ≤ length text.now }
{
    search(NumberRule { wanted }, text)
}

/// Finds the numbers of a text from a byte on. All of the text before a number is its `before`.
///
/// `find_numbers_from("一，二", 3, Wanted::EVERYDAY)` gives 二, after `一，`. The function returns
/// `None` if no character of the text begins at that byte and the text does not end there.
pub fn find_numbers_from(text: &str, from: usize, wanted: Wanted) -> Option<Numbers<'_>>
    ensures variant { IsSome result ↔ IsCharBoundary text.now from }
    ensures numbers { IfSome result
        (λ numbers. numbers ≡ spans_left wanted text.now (drop from text.now)) }
{
    search_from(NumberRule { wanted }, text, from)
}

/// Finds the expressions of a text, from the first to the last: numbers with their sign, figures,
/// point and units, percentages and fractions.
///
/// `find_quantities("占12.5%，共3.5万", Wanted::EVERYDAY)` gives `12.5%` and `3.5万`.
pub fn find_quantities(text: &str, wanted: Wanted) -> Numbers<'_, QuantityRule>
    ensures expressions { result ≡ expressions wanted text.now }
    ensures few { length result ≤ length text.now }
{
    search(QuantityRule { wanted }, text)
}

/// Finds the expressions of a text from a byte on. All of the text before an expression is its
/// `before`.
///
/// `find_quantities_from("3-5", 1, Wanted::EVERYDAY)` gives 5, after `3-`, and not `-5`: the search
/// looks at the text before that byte too. The function returns `None` if no character of the text
/// begins at that byte and the text does not end there.
pub fn find_quantities_from(
    text: &str,
    from: usize,
    wanted: Wanted,
) -> Option<Numbers<'_, QuantityRule>>
    ensures variant { IsSome result ↔ IsCharBoundary text.now from }
    ensures expressions { IfSome result
        (λ found. found ≡ expressions_left wanted text.now (drop from text.now)) }
{
    search_from(QuantityRule { wanted }, text, from)
}

/// The first expression of a suffix of a text; `None` if it has none. The search looks at the text
/// before the suffix too.
///
/// `next_expression("3-5", "-5", Wanted::EVERYDAY)` is 5, after `3-`.
pub fn next_expression<'a>(whole: &'a str, rest: &'a str, wanted: Wanted) -> Option<Found<'a>>
    requires { text_before whole.now rest.now ++ rest.now ≡ whole.now }
    ensures first { MatchOption result (expressions_left wanted whole.now rest.now ≡ [])
        (λ found. expressions_left wanted whole.now rest.now
        ≡ span_of found ∷ expressions_left wanted whole.now found.after.now) }
    ensures part { IfSome result (λ found. IsPartOf whole.now rest.now (span_of found)) }
{
    next_run(QuantityRule { wanted }, whole, rest)
}

/// The text after the expression that begins with a suffix of a text; `None` if none begins there. The
/// suffix may begin within an expression: then the rest of it is meant.
///
/// `expression_after("共3.5万元", "3.5万元", Wanted::EVERYDAY)` is 元.
pub fn expression_after<'a>(whole: &'a str, ahead: &'a str, wanted: Wanted) -> Option<&'a str>
    requires { text_before whole.now ahead.now ++ ahead.now ≡ whole.now }
    ensures { option_map (λ after. chars after.now) result ≡ run_after (expression_rule wanted)
        (in_front (text_before whole.now ahead.now)) (chars ahead.now) }
{
    run_after(QuantityRule { wanted }, whole, ahead)
}

impl<'a, R: SearchRule> Iterator for Numbers<'a, R> {
    type Item = Found<'a>;

    ghost next_gives = { YieldsFirstBy span_of (λ left. left) };

    ghost remaining = { item_count (λ left. left) };

    // Same answer (if self.rest.is_empty() → nothing): an empty text has no run either.
    #[tactic(auto, using(crate::proofs::Runs::none_left, crate::proofs::Runs::none_left_of_empty))]
    fn next(&mut self) -> Option<Found<'a>> {
        // An empty rest has no run, so it is not searched.
        if self.rest.is_empty() {
            return None;
        }
        match next_run(self.rule, self.whole, self.rest) {
            Some(found) => {
                self.rest = found.after;
                Some(found)
            }
            None => {
                self.rest = "";
                None
            }
        }
    }
}
