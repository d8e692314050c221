// A text with its codes, phrases and expressions in figures.
ghost use Rattle.std.specs.Prelude.{◌≡◌, ◌≤◌, ◌++◌, ◌∷◌, ◌-◌, ◌^◌, [], chars, drop, encode_utf8_all, is_some, length, min, nat_lt, string_bytes, unwrap_or, IfOk, IfSome, MatchOption, OnOk};
ghost use Rattle.cn_core.specs.Buffers.{PutsPrefix};
ghost use Rattle.std.specs.Option.{option_map};
ghost use Rattle.cn_find.specs.Spans.{IsPartOf, in_front, span_of, text_before};
ghost use Rattle.cn_phrase.specs.Items.{item_of};
ghost use Rattle.cn_replace.specs.Chains.{IsPart};
ghost use Rattle.cn_codes.specs.CodesInText.{code_here, code_of_span, code_or_single, ends_number, is_phrase, reaches_further, rest_here, single_at, new_text, text_as_chosen, text_with_codes, written_of};
ghost use Rattle.cn_codes.specs.Parts.{parts_left};

use crate::code::{Code, code_at};
use crate::in_figures::{is_single, put_code, single_text};
use crate::tens::tens_version_at;
use cn_core::{Buffer, ChineseCountMethod, digit_of, split_first_char, unit_of};
use cn_find::{Found, Wanted, text_before};
use cn_phrase::items::{Item, item_at};
use cn_phrase::{InText, put_in_figures};
use cn_replace::chains::put_in_chains;
use cn_replace::pieces::split_nearest;
use cn_replace::{Figures, InFigures, Rewriting, Sink};
use std::alloc::{AllocError, Global};

/// What is written in figures and is no phrase.
#[derive(Debug, Copy, Clone)]
pub enum Written<'a> {
    /// A code.
    Code(Code<'a>),
    /// A single digit, such as the 三 of 三号楼, and the text after it.
    Single(char, &'a str),
}

impl<'a> Written<'a> {
    // The text after it.
    fn rest(self) -> &'a str
        ensures { chars result.now ≡ (written_of self.entry).rest }
    {
        match self {
            Written::Code(code) => code.rest,
            Written::Single(_, rest) => rest,
        }
    }
}

// Whether a number is at the end of a text.
fn ends_number(before: &str) -> bool
    ensures { result ≡ ends_number (in_front before.now) }
{
    match split_nearest(before) {
        Some((c, _)) => digit_of(c).is_some() || unit_of(c).is_some(),
        None => false,
    }
}

// The single digit with which a text begins.
fn single_at<'a>(before: &str, text: &'a str) -> Option<Written<'a>>
    ensures { option_map written_of result
        ≡ single_at (in_front before.now) (chars text.now) }
{
    let (c, rest) = split_first_char(text)?;
    if is_single(before, c, rest) && !ends_number(before) {
        Some(Written::Single(c, rest))
    } else {
        None
    }
}

// The code or single digit with which a text begins.
fn code_or_single<'a>(before: &str, text: &'a str) -> Option<Written<'a>>
    ensures { option_map written_of result
        ≡ code_or_single (in_front before.now) (chars text.now) }
{
    if let Some(code) = code_at(before, text) {
        return Some(Written::Code(code));
    }
    match tens_version_at(before, text) {
        Some(code) => Some(Written::Code(code)),
        None => single_at(before, text),
    }
}

fn is_phrase(item: Item<'_>) -> bool
    ensures { result ≡ is_phrase (item_of item.entry) }
{
    !matches!(item, Item::Expression(_))
}

// Whether a text is shorter than another one.
fn is_shorter(text: &str, other: &str) -> bool
    ensures { result ≡ nat_lt (length (encode_utf8_all (chars text.now)))
        (length (encode_utf8_all (chars other.now))) }
{
    text.len() < other.len()
}

// Whether a phrase ends after a code.
fn reaches_further(rest: &str, item: Option<Item<'_>>) -> bool
    ensures { result ≡ reaches_further (chars rest.now) (option_map item_of item.entry) }
{
    match item {
        Some(item) => is_phrase(item) && is_shorter(item.rest(), rest),
        None => false,
    }
}

// The code or single digit that begins with a suffix of a text, unless a phrase there reaches further.
fn code_here<'a>(whole: &'a str, ahead: &'a str, wanted: Wanted) -> Option<Written<'a>>
    requires { text_before whole.now ahead.now ++ ahead.now ≡ whole.now }
    ensures { option_map written_of result ≡ code_here wanted
        (in_front (text_before whole.now ahead.now)) (chars ahead.now) }
{
    let written = code_or_single(text_before(whole, ahead), ahead)?;
    if reaches_further(written.rest(), item_at(whole, ahead, wanted)) {
        None
    } else {
        Some(written)
    }
}

// The text after the code or the item that begins with a suffix of a text.
fn rest_here<'a>(whole: &'a str, ahead: &'a str, wanted: Wanted) -> Option<&'a str>
    requires { text_before whole.now ahead.now ++ ahead.now ≡ whole.now }
    ensures { option_map (λ rest. chars rest.now) result ≡ rest_here wanted
        (in_front (text_before whole.now ahead.now)) (chars ahead.now) }
{
    if let Some(written) = code_here(whole, ahead, wanted) {
        return Some(written.rest());
    }
    match item_at(whole, ahead, wanted) {
        Some(item) => Some(item.rest()),
        None => None,
    }
}

// The first code or item of a suffix of a text.
fn next_part<'a>(whole: &'a str, rest: &'a str, wanted: Wanted) -> Option<Found<'a>>
    requires { text_before whole.now rest.now ++ rest.now ≡ whole.now }
    ensures parts { MatchOption result (parts_left (rest_here wanted) whole.now rest.now ≡ [])
        (λ found. parts_left (rest_here wanted) whole.now rest.now
        ≡ span_of found ∷ parts_left (rest_here wanted) whole.now found.after.now) }
    ensures ends { IfSome result
        (λ found. text_before whole.now found.after.now ++ found.after.now ≡ whole.now) }
    ensures part { IfSome result (λ found. IsPartOf whole.now rest.now (span_of found)) }
{
    let mut ahead = rest;
    'searching: while let Some((_, others)) = split_first_char(ahead) {
        if let Some(after) = rest_here(whole, ahead, wanted) {
            return Some(Found {
                before: text_before(whole, ahead),
                text: text_before(ahead, after),
                after,
            });
        }
        ahead = others;
    }
    None
}

// The text that begins with a part of a text.
fn text_from<'a>(whole: &'a str, part: Found<'_>) -> &'a str
    requires { IsPart whole.now (span_of part) }
    ensures text { result.now ≡ part.entry.text.now ++ part.entry.after.now }
    ensures before { text_before whole.now result.now ≡ part.entry.before.now }
    ensures end { text_before whole.now result.now ++ result.now ≡ whole.now }
{
    let (_, text) = whole.split_at(part.before.len());
    text
}

// The code or single digit that a part of a text is, if it is one.
fn code_for<'a>(whole: &'a str, part: Found<'_>, wanted: Wanted) -> Option<Written<'a>>
    requires { IsPart whole.now (span_of part) }
    ensures { option_map written_of result
        ≡ code_of_span wanted (span_of part.entry) }
{
    code_here(whole, text_from(whole, part), wanted)
}

// Writes the new text of a code or a single digit with these characters, and returns whether it has one.
fn put_written<S: Sink>(
    sink: &mut S,
    written: Written<'_>,
    characters: &str,
) -> Result<bool, S::Error>
    ensures variant { IfOk result (λ is_new. is_new
        ≡ is_some (new_text (written_of written.entry) (chars characters.now))) }
    ensures text { OnOk result (S.took sink.old sink.new
        (unwrap_or (new_text (written_of written.entry) (chars characters.now)) [])) }
{
    match written {
        Written::Code(_) => put_code(sink, characters),
        Written::Single(c, _) => {
            sink.put(single_text(c))?;
            Ok(true)
        }
    }
}

/// The codes, phrases and expressions of a text, which are written in figures.
#[derive(Debug, Copy, Clone)]
pub struct WithCodes {
    /// The phrases and expressions, and how all is written.
    pub items: InText,
}

impl Rewriting for WithCodes {
    ghost use Rattle.cn_codes.specs.CodesInText.{rest_here, span_holds, text_for_span};
    ghost use Rattle.cn_codes.specs.Parts.{parts_left};

    ghost left = { λ t. parts_left (rest_here t.items.wanted) };

    ghost new = { λ t. text_for_span t.items.replacement.method t.items.replacement.figures t.items.wanted };

    ghost holds = { λ t. span_holds t.items.replacement.method t.items.replacement.figures t.items.wanted };

    fn next<'a>(self, whole: &'a str, rest: &'a str) -> Option<Found<'a>> {
        next_part(whole, rest, self.items.wanted)
    }

    #[tactic(auto, unfolding(crate::specs::CodesInText::span_holds))]
    fn holds_others(self, whole: &str, part: Found<'_>) -> bool {
        code_for(whole, part, self.items.wanted).is_none() && self.items.holds_others(whole, part)
    }

    #[tactic(auto, unfolding(crate::specs::CodesInText::text_for_span))]
    fn put_new<S: Sink>(
        self,
        sink: &mut S,
        whole: &str,
        part: Found<'_>,
    ) -> Result<bool, S::Error> {
        match code_for(whole, part, self.items.wanted) {
            Some(written) => put_written(sink, written, part.text),
            None => self.items.put_new(sink, whole, part),
        }
    }
}

// Writes a text with its codes, phrases and expressions in figures.
fn put_coded<S: Sink>(sink: &mut S, text: &str, with_codes: WithCodes) -> Result<(), S::Error>
    ensures { OnOk result (S.took sink.old sink.new (text_with_codes
        with_codes.items.replacement.method with_codes.items.replacement.figures
        with_codes.items.wanted text.now)) }
{
    put_in_chains(sink, text, with_codes)
}

// Writes a text in figures, with its codes if they are wanted.
#[tactic(auto, unfolding(crate::specs::CodesInText::text_as_chosen))]
fn put_text<S: Sink>(sink: &mut S, text: &str, items: InText) -> Result<(), S::Error>
    ensures { OnOk result (S.took sink.old sink.new (text_as_chosen items.replacement.method
        items.replacement.figures items.wanted text.now)) }
{
    if items.replacement.figures.codes {
        put_coded(sink, text, WithCodes { items })
    } else {
        put_in_figures(sink, text, items)
    }
}

/// Returns the text with its dates, times, durations, sums of money, ranges and quantities in figures:
/// numerals are changed, unless they may mean something else, and words stay. The rules are those of
/// docs/RULES.md, "Phrases in figures". With `figures.codes` codes such as telephone numbers are written
/// too, by "Codes in a text".
///
/// ```text
/// text_to_figures(alloc, "二零二六年一月五日下午三点半，三到五万元", Wanted::EVERYDAY,
///     ChineseCountMethod::TenThousand, Figures::DEFAULT)
///     == Ok("2026年1月5日下午3点半，3万到5万元")
/// ```
///
/// The error means that memory ran out; memory is requested as the text grows.
pub fn text_to_figures(
    alloc: Global,
    text: &str,
    wanted: Wanted,
    method: ChineseCountMethod,
    figures: Figures,
) -> Result<String, AllocError>
    ensures { IfOk result (λ new. string_bytes new ≡ text_as_chosen method figures wanted text.now) }
{
    let mut new = String::with_capacity(alloc, text.len())?;
    let replacement = InFigures { method, figures };
    put_text(
        &mut new,
        text,
        InText {
            wanted,
            replacement,
        },
    )?;
    Ok(new)
}

/// Writes the same text at the start of a buffer, if it fits, and returns the number of its bytes,
/// at most the greatest `usize`. If it does not fit, a prefix of it is written. All other bytes of the
/// buffer stay as they are.
pub fn put_text_in_figures(
    room: &mut [u8],
    text: &str,
    wanted: Wanted,
    method: ChineseCountMethod,
    figures: Figures,
) -> usize
    ensures count { let new = text_as_chosen method figures wanted text.now in
        result ≡ min (length new) (2 ^ 64 - 1) }
    ensures put { let new = text_as_chosen method figures wanted text.now in
        length new ≤ length room.old → room.new ≡ new ++ drop (length new) room.old }
    ensures prefix { PutsPrefix (text_as_chosen method figures wanted text.now) room.old room.new }
{
    let mut buffer = Buffer::new(room);
    let replacement = InFigures { method, figures };
    match put_text(
        &mut buffer,
        text,
        InText {
            wanted,
            replacement,
        },
    ) {
        Ok(()) => buffer.count,
        Err(never) => match never {},
    }
}
