// Finds the phrases of a text, and its expressions that are in none.
ghost use Rattle.std.specs.Prelude.{◌≡◌, ◌++◌, ◌∷◌, [], ◌↔◌, None, Some, chars, drop, IsCharBoundary, IsSome, MatchOption, IfSome};
ghost use Rattle.std.specs.Iterator.{YieldsFirstBy, item_count};
ghost use Rattle.std.specs.Option.{option_map};
ghost use Rattle.cn_core.specs.Mark.{mark_of};
ghost use Rattle.cn_find.specs.Expressions.{expression_rule};
ghost use Rattle.cn_find.specs.Spans.{IsPartOf, in_front, run_after, span_of, text_before};
ghost use Rattle.cn_judge.specs.Marked.{marked};
ghost use Rattle.cn_replace.specs.Chains.{IsPart};
ghost use Rattle.cn_replace.specs.Pieces.{begins};
ghost use Rattle.cn_phrase.specs.Between.{part_between};
ghost use Rattle.cn_phrase.specs.Items.{ends_whole, first_of, is_price_within, item_at, item_of, item_rest, items, items_left, rest_of, whole_phrase};
ghost use Rattle.cn_phrase.specs.Money.{counted, money_of, signed_at, signed_from};
ghost use Rattle.cn_phrase.specs.Phrases.{found_of};
ghost use Rattle.cn_phrase.specs.Private.{may_be_first};
ghost use Rattle.cn_phrase.specs.Ranges.{ends_of, linked, range_from};

use crate::money::{Money, begins_one, counted, is_sign, signed};
use crate::phrase::{Match, ends_with_name, may_lead, phrase_at};
use crate::piece::without_blank;
use crate::range::{Ends, is_link, is_range};
use cn_core::{is_figure, split_first_char};
use cn_find::{Found, Wanted, expression_after, is_extra, text_before};
use cn_judge::{Mark, split_first_mark};
use cn_replace::pieces::{Figure, ends, split_nearest};
use std::marker::Model;

/// What is found in a text.
#[derive(Debug, Copy, Clone)]
pub enum Item<'a> {
    /// A phrase of one of the forms.
    Phrase(Match<'a>),
    /// A sum of money.
    Money(Money<'a>),
    /// Two quantities with a link between them.
    Range(Ends<'a>),
    /// An expression that is in no phrase, and the text after it.
    Expression(&'a str),
}

impl<'a> Item<'a> {
    /// The text after it.
    pub fn rest(self) -> &'a str
        ensures { chars result.now ≡ rest_of (item_of self.entry) }
    {
        match self {
            Item::Phrase(found) => found.rest,
            Item::Money(money) => money.rest,
            Item::Range(ends) => ends.high.after,
            Item::Expression(rest) => rest,
        }
    }
}

// The part of a text between two of its suffixes.
fn part_between<'a>(whole: &'a str, ahead: &'a str, rest: &'a str) -> Found<'a>
    requires ahead { text_before whole.now ahead.now ++ ahead.now ≡ whole.now }
    requires rest { text_before ahead.now rest.now ++ rest.now ≡ ahead.now }
    ensures span { span_of result
        ≡ part_between (in_front (text_before whole.now ahead.now)) (chars ahead.now) (chars rest.now) }
    ensures part { IsPart whole.now (span_of result) }
    ensures after { result.after.now ≡ rest.now }
{
    Found {
        before: text_before(whole, ahead),
        text: text_before(ahead, rest),
        after: rest,
    }
}

// The expression with which a suffix of a text begins.
fn expression_at<'a>(whole: &'a str, ahead: &'a str, wanted: Wanted) -> Option<Found<'a>>
    requires { text_before whole.now ahead.now ++ ahead.now ≡ whole.now }
    ensures span { option_map span_of result ≡ option_map
        (part_between (in_front (text_before whole.now ahead.now)) (chars ahead.now))
        (run_after (expression_rule wanted) (in_front (text_before whole.now ahead.now)) (chars ahead.now)) }
    ensures rest { option_map (λ found. chars found.after.now) result
        ≡ run_after (expression_rule wanted) (in_front (text_before whole.now ahead.now)) (chars ahead.now) }
    ensures part { IfSome result (λ found. IsPart whole.now (span_of found)) }
{
    match expression_after(whole, ahead, wanted) {
        Some(rest) => Some(part_between(whole, ahead, rest)),
        None => None,
    }
}

// A link and an expression, after the expression `low`.
fn linked<'a>(whole: &'a str, low: Found<'a>, wanted: Wanted) -> Option<Ends<'a>>
    requires { IsPart whole.now (span_of low) }
    ensures { option_map ends_of result ≡ linked wanted (span_of low.entry) (chars low.entry.after.now) }
{
    let (link, ahead) = split_first_char(low.after)?;
    if !is_link(link) {
        return None;
    }
    match expression_at(whole, ahead, wanted) {
        Some(high) => Some(Ends { low, link, high }),
        None => None,
    }
}

// The range that begins with an expression.
fn range_after<'a>(whole: &'a str, low: Found<'a>, wanted: Wanted) -> Option<Ends<'a>>
    requires { IsPart whole.now (span_of low) }
    ensures { option_map ends_of result
        ≡ range_from (linked wanted (span_of low.entry) (chars low.entry.after.now)) }
{
    let ends = linked(whole, low, wanted)?;
    if is_range(ends) { Some(ends) } else { None }
}

// Whether what ends before a suffix of a text does not end within an expression.
fn ends_whole(whole: &str, rest: &str, wanted: Wanted) -> bool
    requires { text_before whole.now rest.now ++ rest.now ≡ whole.now }
    ensures { result ≡ ends_whole wanted (in_front (text_before whole.now rest.now)) (chars rest.now) }
{
    let Some((_, front)) = split_nearest(text_before(whole, rest)) else {
        return true;
    };
    let (_, last) = whole.split_at(front.len());
    match expression_after(whole, last, wanted) {
        Some(after) => after.len() == rest.len(),
        None => true,
    }
}

// The phrase with which a suffix of a text begins, unless it ends within an expression.
fn whole_phrase<'a>(whole: &'a str, ahead: &'a str, wanted: Wanted) -> Option<Match<'a>>
    requires { text_before whole.now ahead.now ++ ahead.now ≡ whole.now }
    ensures { option_map found_of result
        ≡ whole_phrase wanted (in_front (text_before whole.now ahead.now)) (chars ahead.now) }
{
    match phrase_at(text_before(whole, ahead), ahead) {
        Some(found) => {
            if ends_whole(whole, found.rest, wanted) {
                Some(found)
            } else {
                None
            }
        }
        None => None,
    }
}

// The sum of money after a sign, given the text from the sign on and the text after the sign.
fn signed_from<'a>(
    whole: &'a str,
    ahead: &'a str,
    start: &'a str,
    wanted: Wanted,
) -> Option<Money<'a>>
    requires ahead { text_before whole.now ahead.now ++ ahead.now ≡ whole.now }
    requires start { text_before ahead.now start.now ++ start.now ≡ ahead.now }
    ensures { option_map money_of result ≡ signed_from wanted
        (in_front (text_before whole.now ahead.now)) (chars ahead.now) (chars start.now) }
{
    match expression_at(whole, start, wanted) {
        Some(number) => signed(text_before(ahead, start), number),
        None => None,
    }
}

// The sum of money that begins with a sign.
fn signed_at<'a>(whole: &'a str, ahead: &'a str, wanted: Wanted) -> Option<Money<'a>>
    requires { text_before whole.now ahead.now ++ ahead.now ≡ whole.now }
    ensures { option_map money_of result
        ≡ signed_at wanted (in_front (text_before whole.now ahead.now)) (chars ahead.now) }
{
    let (c, after) = split_first_char(ahead)?;
    let before = text_before(whole, ahead);
    if !is_sign(c) || ends_with_name(before) || ends(Figure, before) {
        return None;
    }
    signed_from(whole, ahead, without_blank(false, after), wanted)
}

// What begins with an expression: a sum of money, a range, or the expression by itself.
fn counted_item<'a>(whole: &'a str, low: Found<'a>, wanted: Wanted) -> Item<'a>
    requires { IsPart whole.now (span_of low) }
    ensures { Some (item_of result) ≡ first_of None
        (counted (span_of low.entry) (chars low.entry.after.now))
        (range_from (linked wanted (span_of low.entry) (chars low.entry.after.now)))
        (Some (chars low.entry.after.now)) }
{
    if let Some(money) = counted(low) {
        return Item::Money(money);
    }
    match range_after(whole, low, wanted) {
        Some(ends) => Item::Range(ends),
        None => Item::Expression(low.after),
    }
}

// Whether a suffix of a text begins with the price of one, and within an expression.
fn is_price_within(whole: &str, ahead: &str, wanted: Wanted) -> bool
    requires { text_before whole.now ahead.now ++ ahead.now ≡ whole.now }
    ensures { result
        ≡ is_price_within wanted (in_front (text_before whole.now ahead.now)) (chars ahead.now) }
{
    begins_one(ahead) && !ends_whole(whole, ahead, wanted)
}

/// The item that begins with a suffix of a text; `None` if none begins there.
pub fn item_at<'a>(whole: &'a str, ahead: &'a str, wanted: Wanted) -> Option<Item<'a>>
    requires { text_before whole.now ahead.now ++ ahead.now ≡ whole.now }
    ensures { option_map item_of result
        ≡ item_at wanted (in_front (text_before whole.now ahead.now)) (chars ahead.now) }
{
    if is_price_within(whole, ahead, wanted) {
        return None;
    }
    if let Some(found) = whole_phrase(whole, ahead, wanted) {
        return Some(Item::Phrase(found));
    }
    if let Some(money) = signed_at(whole, ahead, wanted) {
        return Some(Item::Money(money));
    }
    match expression_at(whole, ahead, wanted) {
        Some(low) => Some(counted_item(whole, low, wanted)),
        None => None,
    }
}

// Whether an item can begin with a character: most fail this quick test.
fn may_be_first(c: char, mark: Mark) -> bool
    requires { marked mark ≡ mark_of c }
    ensures { result ≡ may_be_first c }
{
    match mark {
        Mark::Other => is_figure(c) || is_extra(c) || may_lead(c),
        _ => true,
    }
}

// Whether an item can begin with a text.
fn may_begin(text: &str) -> bool
    ensures { result ≡ begins may_be_first (chars text.now) }
{
    match split_first_mark(text) {
        Some((c, mark, _)) => may_be_first(c, mark),
        None => false,
    }
}

// The text after the item that begins with a suffix of a text.
#[tactic(auto, using(crate::proofs::ItemBeginnings::no_item_begins))]
fn item_rest<'a>(whole: &'a str, ahead: &'a str, wanted: Wanted) -> Option<&'a str>
    requires { text_before whole.now ahead.now ++ ahead.now ≡ whole.now }
    ensures { option_map (λ rest. chars rest.now) result
        ≡ item_rest wanted (in_front (text_before whole.now ahead.now)) (chars ahead.now) }
{
    if !may_begin(ahead) {
        return None;
    }
    match item_at(whole, ahead, wanted) {
        Some(item) => Some(item.rest()),
        None => None,
    }
}

/// The first item of a suffix of a text; `None` if it has none.
pub fn next_item<'a>(whole: &'a str, rest: &'a str, wanted: Wanted) -> Option<Found<'a>>
    requires { text_before whole.now rest.now ++ rest.now ≡ whole.now }
    ensures parts { MatchOption result (items_left wanted whole.now rest.now ≡ [])
        (λ found. items_left wanted whole.now rest.now
        ≡ span_of found ∷ items_left wanted whole.now found.after.now) }
    ensures ends { IfSome result
        (λ found. text_before whole.now found.after.now ++ found.after.now ≡ whole.now) }
    ensures part { IfSome result (λ found. IsPartOf whole.now rest.now (span_of found)) }
{
    let mut ahead = rest;
    'searching: while let Some((_, behind)) = split_first_char(ahead) {
        if let Some(after) = item_rest(whole, ahead, wanted) {
            return Some(Found {
                before: text_before(whole, ahead),
                text: text_before(ahead, after),
                after,
            });
        }
        ahead = behind;
    }
    None
}

/// An iterator over the phrases of a text, and over its expressions that are in none. In contracts its
/// value is the list of those that it has not yet returned.
#[derive(Drop)]
pub struct Phrases<'a> {
    wanted: Wanted,
    whole: &'a str,
    // The suffix that is not yet searched.
    rest: &'a str,
}

impl<'a> Model for Phrases<'a> {
    ghost use Rattle.std.specs.Prelude.{◌≡◌, ◌++◌, List};
    ghost use Rattle.cn_find.specs.Spans.{Span, text_before};
    ghost use Rattle.cn_phrase.specs.Items.{items_left};

    ghost Value = { List Span };

    ghost view = { λ n. items_left n.wanted n.whole.now n.rest.now };

    ghost invariant = { λ n. text_before n.whole.now n.rest.now ++ n.rest.now ≡ n.whole.now };
}

/// Finds the phrases of a text, and its expressions that are in none, from the first to the last.
///
/// `find_phrases("1月5日共三千元", Wanted::EVERYDAY)` gives 1月5日 and 三千.
pub fn find_phrases(text: &str, wanted: Wanted) -> Phrases<'_>
    ensures { result ≡ items wanted text.now }
{
    Phrases {
        wanted,
        whole: text,
        rest: text,
    }
}

/// Finds the phrases and expressions of a text from a byte on. All of the text before one is its
/// `before`. The function returns `None` if no character of the text begins at that byte and the
/// text does not end there.
pub fn find_phrases_from(text: &str, from: usize, wanted: Wanted) -> Option<Phrases<'_>>
    ensures variant { IsSome result ↔ IsCharBoundary text.now from }
    ensures found { IfSome result
        (λ found. found ≡ items_left wanted text.now (drop from text.now)) }
{
    let (_, rest) = text.split_at_checked(from)?;
    Some(Phrases {
        wanted,
        whole: text,
        rest,
    })
}

impl<'a> Iterator for Phrases<'a> {
    type Item = Found<'a>;

    ghost next_gives = { YieldsFirstBy span_of (λ left. left) };

    ghost remaining = { item_count (λ left. left) };

    #[tactic(auto, using(crate::proofs::ItemsFound::no_item_left))]
    fn next(&mut self) -> Option<Found<'a>> {
        match next_item(self.whole, self.rest, self.wanted) {
            Some(found) => {
                self.rest = found.after;
                Some(found)
            }
            None => {
                self.rest = "";
                None
            }
        }
    }
}
