// A text with its phrases and expressions in figures.
ghost use Rattle.std.specs.Prelude.{◌≡◌, ◌++◌, chars, is_some, IfOk, OnOk};
ghost use Rattle.std.specs.Option.{option_map};
ghost use Rattle.std.specs.Char.{char_set_contains};
ghost use Rattle.cn_find.specs.Spans.{in_front, span_of, text_before};
ghost use Rattle.cn_replace.specs.Chains.{IsPart};
ghost use Rattle.cn_replace.specs.Pieces.{begins};
ghost use Rattle.cn_replace.specs.Private.{PutsText};
ghost use Rattle.cn_phrase.specs.InText.{follows_republic, is_doubtful, is_half, is_minute, is_of_calendar, is_of_era, is_of_old_calendar, is_of_tenths, is_of_year, is_range_doubtful, may_be_decimal, is_phrase_included, is_range_included, is_short_half, is_short_while, item_holds, item_text, may_be_years, phrase_new, phrase_text, phrase_written, range_new, text_for_item, text_in_figures};
ghost use Rattle.cn_phrase.specs.Items.{item_at, item_of};
ghost use Rattle.cn_phrase.specs.Phrases.{found_of};
ghost use Rattle.cn_phrase.specs.Ranges.{ends_of, is_doubtful_end};

use crate::compact::{has_compact, put_compact};
use crate::form::Form;
use crate::items::{Item, item_at, next_item};
use crate::money_text::put_money;
use crate::phrase::{Lead, Match, begins_with, ends_with};
use crate::piece::{Numeral, Progress};
use crate::range::{Ends, put_range, range_of};
use crate::word::{Word, after_two};
use crate::written::{put_passed, put_pieces};
use cn_find::{
    Doubt, Found, Wanted, ends_in_next_word, ends_old_calendar, ends_with_two, is_one_character,
    is_one_of, is_title_open,
};
use cn_replace::chains::put_in_chains;
use cn_replace::nothing::Nothing;
use cn_replace::pieces::{CharTest, Figure, any, begins, split_leading};
use cn_replace::{Figures, InFigures, Included, Rewriting, Sink};

/// Whether a year, with which a text begins, may be a number of years, as in 1000年前.
pub fn may_be_years(form: Form, year: u16, text: &str, rest: &str) -> bool
    ensures { result ≡ may_be_years form year (chars text.now) (chars rest.now) }
{
    match form {
        Form::Year => {
            year % 100 == 0
                && begins(Figure, text)
                && begins_with(&['前', '来', '來', '历', '歷', '间', '間'], rest)
        }
        _ => false,
    }
}

// A character that makes a year one of an era.
#[derive(Copy, Clone)]
struct TenOrHundred;

impl CharTest for TenOrHundred {
    ghost use Rattle.std.specs.Prelude.{codes};
    ghost use Rattle.std.specs.Char.{char_set_contains};

    ghost test = { λ _ c. char_set_contains (codes "十百") c };

    fn passes(self, c: char) -> bool {
        is_one_of(&['十', '百'], c)
    }
}

fn is_of_year(form: Form) -> bool
    ensures { result ≡ is_of_year form }
{
    matches!(form, Form::YearMonthDay | Form::YearMonth)
}

fn is_of_calendar(form: Form) -> bool
    ensures { result ≡ is_of_calendar form }
{
    is_of_year(form) || matches!(form, Form::MonthDay | Form::Year | Form::PartOfMonth)
}

// Whether a text ends with 民國.
fn follows_republic(before: &str) -> bool
    ensures { result ≡ follows_republic (in_front before.now) }
{
    ends_with_two(&['國'], &['民'], before)
}

// Whether a date that begins with this text is one of an era, by its year.
fn is_of_era(before: &str, form: Form, text: &str) -> bool
    ensures { result ≡ is_of_era (in_front before.now) form (chars text.now) }
{
    let (year, _) = split_leading(Numeral, text);
    is_of_year(form)
        && !follows_republic(before)
        && (any(TenOrHundred, year) || is_one_character(year))
}

// Whether a date that begins with this text is one of an era, or of the calendar of the moon.
fn is_of_old_calendar(before: &str, form: Form, text: &str) -> bool
    ensures { result ≡ is_of_old_calendar (in_front before.now) form (chars text.now) }
{
    is_of_era(before, form, text) || (is_of_calendar(form) && ends_old_calendar(before))
}

fn is_minute(form: Form, lead: Lead) -> bool
    ensures { result ≡ is_minute form lead }
{
    matches!((form, lead), (Form::HourMinute, Lead::Bare))
}

// Whether a time that begins with this text may be a decimal: its minute is one digit, and it is not
// after a day.
fn may_be_decimal(before: &str, found: Match<'_>, text: &str) -> bool
    ensures { result
        ≡ may_be_decimal (in_front before.now) (found_of found.entry) (chars text.now) }
{
    let (_, rest) = split_leading(Numeral, text);
    match Word::Dian.after(rest) {
        Some(after) => {
            let (minute, _) = split_leading(Numeral, after);
            is_minute(found.form, found.lead)
                && found.numbers.last < 10
                && !ends_with(&['日', '号', '號'], before)
                && is_one_character(minute)
        }
        None => false,
    }
}

// Whether a text begins with 一时半会 or 一时半刻, a short while.
fn is_short_while(text: &str) -> bool
    ensures { result ≡ is_short_while (chars text.now) }
{
    match after_two(&['一'], &['时', '時'], text) {
        Some(rest) => after_two(&['半'], &['会', '會', '刻'], rest).is_some(),
        None => false,
    }
}

/// Whether a phrase that begins with this text, after another text, may mean something else, is a date
/// of another calendar, is in a title, or may begin further in front: a circle may be a zero.
pub fn is_doubtful(before: &str, found: Match<'_>, text: &str) -> bool
    ensures { result ≡ is_doubtful (in_front before.now) (found_of found.entry) (chars text.now) }
{
    may_be_years(found.form, found.numbers.last, text, found.rest)
        || is_of_old_calendar(before, found.form, text)
        || may_be_decimal(before, found, text)
        || is_short_while(text)
        || ends_with(&['○', '◯'], before)
        || is_title_open(before)
}

// Whether a range is one of tenths, before 折 or 成.
fn is_of_tenths(ends: Ends<'_>) -> bool
    ensures { result ≡ is_of_tenths (ends_of ends.entry) }
{
    begins_with(&['折', '成'], ends.high.after)
}

/// Whether a number in a phrase, such as an end of a range, may mean something else.
pub fn is_doubtful_end(end: Found<'_>) -> bool
    ensures { result ≡ is_doubtful_end (span_of end.entry) }
{
    ends_in_next_word(end.text, end.after)
        || matches!(
            end.doubt(),
            Some(Doubt::Word | Doubt::Digits | Doubt::Term | Doubt::Time)
        )
}

/// Whether a range is one of tenths, or has a doubtful end.
pub fn is_range_doubtful(ends: Ends<'_>) -> bool
    ensures { result ≡ is_range_doubtful (ends_of ends.entry) }
{
    is_of_tenths(ends) || is_doubtful_end(ends.low) || is_doubtful_end(ends.high)
}

// Whether a form is a half.
fn is_half(form: Form) -> bool
    ensures { result ≡ is_half form }
{
    matches!(form, Form::HalfOf | Form::HalfAfter)
}

// Whether a half is after one Chinese character.
fn is_short_half(form: Form, text: &str) -> bool
    ensures { result ≡ is_short_half form (chars text.now) }
{
    let (number, _) = split_leading(Numeral, text);
    is_half(form) && is_one_character(number)
}

// Whether a phrase that begins with this text, after another one, is written in figures.
fn is_phrase_included(figures: Figures, before: &str, found: Match<'_>, text: &str) -> bool
    ensures { result ≡ is_phrase_included figures (in_front before.now) (found_of found.entry)
        (chars text.now) }
{
    found.form.value(found.numbers).is_some()
        && (figures.included.doubtful || !is_doubtful(before, found, text))
        && (figures.compact || figures.included.one_character || !is_short_half(found.form, text))
}

// Whether a range is written in figures.
fn is_range_included(included: Included, ends: Ends<'_>) -> bool
    ensures { result ≡ is_range_included included (ends_of ends.entry) }
{
    range_of(ends.low.text, ends.high.text).is_some()
        && (included.doubtful || !is_range_doubtful(ends))
}

// Writes a phrase that begins with this text, with its numbers in figures.
fn put_phrase<S: Sink>(sink: &mut S, found: Match<'_>, text: &str) -> Result<(), S::Error>
    ensures { OnOk result
        (S.took sink.old sink.new (phrase_text (found_of found.entry) (chars text.now))) }
{
    let Some(start) = found.lead.after(text) else {
        return Ok(());
    };
    put_passed(sink, text, start)?;
    put_pieces(sink, found.form.pieces(), Progress::start(start))
}

// Writes a phrase that begins with this text in figures, by choice in its shortest form.
fn put_written<S: Sink>(
    sink: &mut S,
    is_compact: bool,
    before: &str,
    found: Match<'_>,
    text: &str,
) -> Result<(), S::Error>
    ensures { OnOk result (S.took sink.old sink.new
        (phrase_written is_compact (in_front before.now) (found_of found.entry) (chars text.now))) }
{
    if is_compact {
        if has_compact(before, found, text) {
            put_compact(sink, before, found, text)?;
            return Ok(());
        }
    }
    put_phrase(sink, found, text)
}

// Writes the new text of a phrase, and returns whether it has one.
fn put_included<S: Sink>(
    sink: &mut S,
    figures: Figures,
    before: &str,
    found: Match<'_>,
    text: &str,
) -> Result<bool, S::Error>
    ensures { IfOk result (PutsText S.took sink.old sink.new
        (phrase_new figures (in_front before.now) (found_of found.entry) (chars text.now))) }
{
    if !is_phrase_included(figures, before, found, text) {
        return Ok(false);
    }
    put_written(sink, figures.compact, before, found, text)?;
    Ok(true)
}

// Writes the new text of a range, and returns whether it has one.
fn put_range_included<S: Sink>(
    sink: &mut S,
    figures: Figures,
    ends: Ends<'_>,
) -> Result<bool, S::Error>
    ensures { IfOk result (PutsText S.took sink.old sink.new (range_new figures (ends_of ends.entry))) }
{
    if is_range_included(figures.included, ends) {
        put_range(sink, figures.style, ends)
    } else {
        Ok(false)
    }
}

/// The text that begins with a part of a text.
pub fn text_from<'a>(whole: &'a str, part: Found<'_>) -> &'a str
    requires { IsPart whole.now (span_of part) }
    ensures text { result.now ≡ part.entry.text.now ++ part.entry.after.now }
    ensures before { text_before whole.now result.now ≡ part.entry.before.now }
    ensures end { text_before whole.now result.now ++ result.now ≡ whole.now }
{
    let (_, text) = whole.split_at(part.before.len());
    text
}

/// The item that a part of a text is.
pub fn item_for<'a>(whole: &'a str, part: Found<'_>, wanted: Wanted) -> Option<Item<'a>>
    requires { IsPart whole.now (span_of part) }
    ensures { option_map item_of result ≡ item_at wanted (in_front part.entry.before.now)
        (chars (part.entry.text.now ++ part.entry.after.now)) }
{
    item_at(whole, text_from(whole, part), wanted)
}

/// The phrases and expressions of a text, which are written in figures.
#[derive(Debug, Copy, Clone)]
pub struct InText {
    pub wanted: Wanted,
    pub replacement: InFigures,
}

impl InText {
    // Writes the new text of an item with which this text begins, and returns whether it has one. If
    // not, anything may have been written.
    fn put_known<S: Sink>(
        self,
        sink: &mut S,
        part: Found<'_>,
        text: &str,
        item: Option<Item<'_>>,
    ) -> Result<bool, S::Error>
        ensures { IfOk result (PutsText S.took sink.old sink.new
            (item_text self.replacement.method self.replacement.figures (span_of part.entry)
            (chars text.now) (option_map item_of item.entry))) }
    {
        let figures = self.replacement.figures;
        match item {
            None => Ok(false),
            Some(Item::Phrase(found)) => put_included(sink, figures, part.before, found, text),
            Some(Item::Money(money)) => put_money(sink, self.replacement, part.before, money),
            Some(Item::Range(ends)) => put_range_included(sink, figures, ends),
            Some(Item::Expression(_)) => self.replacement.put_known(part, sink),
        }
    }

    // Writes the new text of an item, and returns whether it has one. If not, anything may have been
    // written.
    fn put_item<S: Sink>(
        self,
        sink: &mut S,
        whole: &str,
        part: Found<'_>,
        item: Option<Item<'_>>,
    ) -> Result<bool, S::Error>
        requires part { IsPart whole.now (span_of part) }
        requires item { option_map item_of item ≡ item_at self.wanted (in_front part.before.now)
            (chars (part.text.now ++ part.after.now)) }
        ensures { IfOk result (PutsText S.took sink.old sink.new
            (text_for_item self.replacement.method self.replacement.figures self.wanted
            (span_of part.entry))) }
    {
        self.put_known(sink, part, text_from(whole, part), item)
    }

    // Whether an item has a new text.
    fn is_new(self, whole: &str, part: Found<'_>, item: Option<Item<'_>>) -> bool
        requires part { IsPart whole.now (span_of part) }
        requires item { option_map item_of item ≡ item_at self.wanted (in_front part.before.now)
            (chars (part.text.now ++ part.after.now)) }
        ensures { result ≡ is_some (text_for_item self.replacement.method self.replacement.figures
            self.wanted (span_of part.entry)) }
    {
        match self.put_item(&mut Nothing {}, whole, part, item) {
            Ok(is_new) => is_new,
            Err(never) => match never {},
        }
    }
}

impl Rewriting for InText {
    ghost use Rattle.cn_phrase.specs.Items.{items_left};
    ghost use Rattle.cn_phrase.specs.InText.{item_holds, text_for_item};

    ghost left = { λ t. items_left t.wanted };

    ghost new = { λ t. text_for_item t.replacement.method t.replacement.figures t.wanted };

    ghost holds = { λ t. item_holds t.replacement.method t.replacement.figures t.wanted };

    fn next<'a>(self, whole: &'a str, rest: &'a str) -> Option<Found<'a>> {
        next_item(whole, rest, self.wanted)
    }

    #[tactic(auto, unfolding(crate::specs::InText::item_holds))]
    fn holds_others(self, whole: &str, part: Found<'_>) -> bool {
        !any(Figure, part.text) && !self.is_new(whole, part, item_for(whole, part, self.wanted))
    }

    fn put_new<S: Sink>(
        self,
        sink: &mut S,
        whole: &str,
        part: Found<'_>,
    ) -> Result<bool, S::Error> {
        let item = item_for(whole, part, self.wanted);
        if !self.is_new(whole, part, item) {
            return Ok(false);
        }
        self.put_item(sink, whole, part, item)
    }
}

/// Writes a text with its phrases and expressions in figures. An error is one of the sink.
pub fn put_in_figures<S: Sink>(sink: &mut S, text: &str, in_text: InText) -> Result<(), S::Error>
    ensures { OnOk result (S.took sink.old sink.new (text_in_figures in_text.replacement.method
        in_text.replacement.figures in_text.wanted text.now)) }
{
    put_in_chains(sink, text, in_text)
}
