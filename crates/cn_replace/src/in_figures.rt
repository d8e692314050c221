// The new text of an expression in figures.
ghost use Rattle.std.specs.Prelude.{◌≡◌, ◌&&◌, ◌||◌, not, chars, is_some, IfOk};
ghost use Rattle.cn_find.specs.Spans.{in_front, span_of};
ghost use Rattle.cn_replace.specs.InFigures.{begins_unit, figures_for, has_unit_or_zero, holds_others, is_again, is_doubt_included, is_in_figures, is_included, is_short, may_change, styled_text, written_text};
ghost use Rattle.cn_replace.specs.Private.{PutsText};

use crate::canonical::{are_figures, put_canonical};
use crate::clings::clings;
use crate::kept::{put_kept, split_bar};
use crate::nothing::Nothing;
use crate::numbers::put_read;
use crate::pieces::{CharTest, Figure, UnitFrom, Zero, any};
use crate::{Figures, Included, Replacement, Sink, Style};
use cn_core::{ChineseCountMethod, Unit};
use cn_find::{Doubt, Found, begins_with, begins_with_two, ends_with, is_exactly};

// Whether an expression with this doubt is included.
fn is_doubt_included(included: Included, doubt: Option<Doubt>) -> bool
    ensures { result ≡ is_doubt_included included doubt }
{
    match doubt {
        None => true,
        Some(Doubt::Part) => false,
        Some(_) => included.doubtful,
    }
}

// Whether a text begins with a unit of measure, of money or of time.
fn begins_unit(after: &str) -> bool
    ensures { result ≡ begins_unit (chars after.now) }
{
    begins_with(
        &['元', '米', '克', '吨', '噸', '升', '秒', '度', '号', '號', '岁', '歲'],
        after,
    ) || begins_with_two(
        &['公', '厘', '釐', '毫', '千', '平', '立'],
        &['里', '斤', '顷', '頃', '尺', '米', '克', '升', '方'],
        after,
    ) || begins_with_two(&['分', '小'], &['钟', '鐘', '时', '時'], after)
        || begins_with_two(&['美', '欧', '歐', '日', '港'], &['元'], after)
        || begins_with_two(&['百'], &['分'], after)
}

// Whether an expression is one character that stays: 十 before such a unit, or after 每, does not, unless
// it is the second of two.
fn is_short(found: Found<'_>) -> bool
    ensures { result ≡ is_short (in_front found.entry.before.now) (chars found.entry.text.now)
        (chars found.entry.after.now) }
{
    found.is_one_character()
        && !(is_exactly(&['十'], found.text)
            && (begins_unit(found.after) || ends_with(&['每'], found.before))
            && !ends_with(&['到', '至', '、', '和', '与', '與', '或'], found.before))
}

// Whether an expression is included, given its flags and its doubt.
fn is_included(included: Included, found: Found<'_>) -> bool
    ensures { result ≡ is_included included (span_of found.entry) }
{
    (included.one_character || !is_short(found))
        && (included.about || !found.is_about())
        && is_doubt_included(included, found.doubt())
}

// Whether an expression may have a new text.
#[tactic(auto, unfolding(crate::specs::InFigures::may_change))]
fn may_change(method: ChineseCountMethod, included: Included, found: Found<'_>) -> bool
    ensures { result ≡ may_change method included (span_of found.entry) }
{
    is_included(included, found)
        && !clings(found.before, found.after)
        && found.quantity(method).is_ok()
}

// Whether the character is 又.
#[derive(Copy, Clone)]
struct Again;

impl CharTest for Again {
    ghost use Rattle.cn_replace.specs.InFigures.{is_again};

    ghost test = { λ _. is_again };

    #[tactic(auto, unfolding(crate::specs::InFigures::is_again))]
    fn passes(self, c: char) -> bool {
        c == '又'
    }
}

// A unit from 十 up, or a zero that is not a figure.
#[derive(Copy, Clone)]
struct UnitOrZero;

impl CharTest for UnitOrZero {
    ghost use Rattle.std.specs.Prelude.{◌||◌};
    ghost use Rattle.cn_replace.specs.Pieces.{is_unit_from, is_zero};

    ghost test = { λ _ c. is_unit_from 1 c || is_zero c };

    fn passes(self, c: char) -> bool {
        UnitFrom { least: Unit::Shi }.passes(c) || Zero.passes(c)
    }
}

// Whether a text has a figure and no 分之.
fn is_in_figures(text: &str) -> bool
    ensures { result ≡ is_in_figures (chars text.now) }
{
    any(Figure, text) && split_bar(text).is_none()
}

// Writes the new text, in a style, of an expression that is not figures alone.
#[tactic(auto, unfolding(crate::specs::InFigures::styled_text))]
fn put_styled<S: Sink>(
    sink: &mut S,
    method: ChineseCountMethod,
    style: Style,
    text: &str,
) -> Result<bool, S::Error>
    ensures { IfOk result (PutsText S.took sink.old sink.new
        (styled_text method style (chars text.now))) }
{
    match style {
        Style::Kept => {
            if is_in_figures(text) || any(Again, text) {
                return Ok(false);
            }
            put_kept(sink, method, text)
        }
        Style::Expanded => {
            if is_in_figures(text) && !any(UnitOrZero, text) {
                return Ok(false);
            }
            put_read(sink, method, text)
        }
    }
}

/// Replaces an expression by its figures, if it is to be changed.
#[derive(Debug, Copy, Clone)]
pub struct InFigures {
    pub method: ChineseCountMethod,
    pub figures: Figures,
}

impl InFigures {
    // Writes the new text of an expression that may change, and returns whether it has one. If not,
    // anything may have been written.
    #[tactic(auto, unfolding(crate::specs::InFigures::written_text))]
    fn put_written<S: Sink>(self, sink: &mut S, text: &str) -> Result<bool, S::Error>
        ensures { IfOk result (PutsText S.took sink.old sink.new
            (written_text self.method self.figures (chars text.now))) }
    {
        if !are_figures(text) {
            return put_styled(sink, self.method, self.figures.style, text);
        }
        if !self.figures.canonical {
            return Ok(false);
        }
        put_canonical(sink, text)?;
        Ok(true)
    }

    // Whether a text has a new text.
    fn is_written(self, text: &str) -> bool
        ensures { result ≡ is_some (written_text self.method self.figures (chars text.now)) }
    {
        match self.put_written(&mut Nothing {}, text) {
            Ok(is_written) => is_written,
            Err(never) => match never {},
        }
    }

    /// Writes the new text of an expression, and returns whether it has one. If not, anything may have
    /// been written.
    #[tactic(auto, unfolding(crate::specs::InFigures::figures_for))]
    pub fn put_known<S: Sink>(self, found: Found<'_>, sink: &mut S) -> Result<bool, S::Error>
        ensures { IfOk result (PutsText S.took sink.old sink.new
            (figures_for self.method self.figures (span_of found.entry))) }
    {
        if may_change(self.method, self.figures.included, found) {
            self.put_written(sink, found.text)
        } else {
            Ok(false)
        }
    }

    // Whether an expression has a new text.
    #[tactic(auto, unfolding(crate::specs::InFigures::figures_for))]
    fn is_new(self, found: Found<'_>) -> bool
        ensures { result
            ≡ is_some (figures_for self.method self.figures (span_of found.entry)) }
    {
        may_change(self.method, self.figures.included, found) && self.is_written(found.text)
    }

    /// Whether an expression without figures is left unchanged, and so holds what it is joined to.
    #[tactic(auto, unfolding(crate::specs::InFigures::holds_others))]
    pub fn holds_others(self, found: Found<'_>) -> bool
        ensures { result ≡ holds_others self.method self.figures (span_of found.entry) }
    {
        !any(Figure, found.text) && !self.is_new(found)
    }
}

impl Replacement for InFigures {
    ghost new = { λ r. figures_for r.method r.figures };

    #[tactic(auto, unfolding(crate::specs::InFigures::figures_for))]
    fn put_new<S: Sink>(self, found: Found<'_>, sink: &mut S) -> Result<bool, S::Error> {
        if !self.is_new(found) {
            return Ok(false);
        }
        self.put_written(sink, found.text)
    }
}
