// A text in which the parts of a chain, each joined to the next, are either all replaced or all left
// unchanged.
ghost use Rattle.std.specs.Prelude.{◌≡◌, ◌∷◌, OnOk, unwrap_or, IsCharBoundary};
ghost use Rattle.cn_find.specs.Spans.{span_of};
ghost use Rattle.cn_replace.specs.Chains.{IsPart, goes_on, held_on, in_chains, is_held, text_unless};
ghost use Rattle.cn_replace.specs.Replaced.{text_for};

use crate::joined::is_joined_at;
use crate::{Rewriting, Sink};
use cn_find::Found;

// Whether the chain that begins with a part is held.
fn is_held<R: Rewriting>(rewriting: R, text: &str, first: Found<'_>) -> bool
    requires { IsPart text.now (span_of first) }
    ensures { result ≡ is_held (R.holds rewriting)
        (span_of first.entry ∷ R.left rewriting text.now first.entry.after.now) }
{
    if rewriting.holds_others(text, first) {
        return true;
    }
    let mut end = first.end();
    let mut rest = first.after;
    'looking: while let Some(next) = rewriting.next(text, rest) {
        if !is_joined_at(end, next) {
            return false;
        }
        if rewriting.holds_others(text, next) {
            return true;
        }
        end = next.end();
        rest = next.after;
    }
    false
}

// Whether a part is joined to the part that ended at that byte, if there was one.
fn goes_on(end: Option<usize>, found: Found<'_>) -> bool
    requires { IsCharBoundary found.before.now (unwrap_or end 0) }
    ensures { result ≡ goes_on end (span_of found.entry) }
{
    match end {
        Some(end) => is_joined_at(end, found),
        None => false,
    }
}

// Whether the chain of a part is held, given where the part before it ended and whether the chain of
// that one was held.
fn held_on<R: Rewriting>(
    rewriting: R,
    text: &str,
    end: Option<usize>,
    held: bool,
    found: Found<'_>,
) -> bool
    requires cut { IsCharBoundary found.before.now (unwrap_or end 0) }
    requires part { IsPart text.now (span_of found) }
    ensures { result ≡ held_on (R.holds rewriting) end held (span_of found.entry)
        (R.left rewriting text.now found.entry.after.now) }
{
    if goes_on(end, found) {
        held
    } else {
        is_held(rewriting, text, found)
    }
}

// Writes the text in the place of a part: its new text, or itself if it has none.
fn put_part<S: Sink, R: Rewriting>(
    sink: &mut S,
    rewriting: R,
    text: &str,
    found: Found<'_>,
) -> Result<(), S::Error>
    requires { IsPart text.now (span_of found) }
    ensures { OnOk result
        (S.took sink.old sink.new (text_for (R.new rewriting) (span_of found.entry))) }
{
    if rewriting.put_new(sink, text, found)? {
        Ok(())
    } else {
        sink.put(found.text)
    }
}

// Writes the text in the place of a part: itself if its chain is held.
fn put_unless<S: Sink, R: Rewriting>(
    held: bool,
    sink: &mut S,
    rewriting: R,
    text: &str,
    found: Found<'_>,
) -> Result<(), S::Error>
    requires { IsPart text.now (span_of found) }
    ensures { OnOk result (S.took sink.old sink.new
        (text_unless held (R.new rewriting) (span_of found.entry))) }
{
    if held {
        sink.put(found.text)
    } else {
        put_part(sink, rewriting, text, found)
    }
}

/// Writes a text with its parts rewritten, except those whose chain is held.
pub fn put_in_chains<S: Sink, R: Rewriting>(
    sink: &mut S,
    text: &str,
    rewriting: R,
) -> Result<(), S::Error>
    ensures { OnOk result (S.took sink.old sink.new
        (in_chains (R.new rewriting) (R.holds rewriting) text.now
        (R.left rewriting text.now text.now))) }
{
    // Where the last part ended, and whether its chain is held.
    let mut end = None;
    let mut held = false;
    let mut rest = text;
    'replacing: while let Some(found) = rewriting.next(text, rest) {
        held = held_on(rewriting, text, end, held, found);
        let (_, between) = found.before.split_at(end.unwrap_or(0));
        sink.put(between)?;
        put_unless(held, sink, rewriting, text, found)?;
        end = Some(found.end());
        rest = found.after;
    }
    sink.put(rest)
}
