// The expressions of a text in figures.
ghost use Rattle.std.specs.Prelude.{◌≡◌, ◌++◌, ◌-◌, ◌^◌, ◌≤◌, min, drop, length, string_bytes, IfOk, OnOk};
ghost use Rattle.cn_core.specs.Buffers.{PutsPrefix};
ghost use Rattle.cn_replace.specs.InFigures.{in_figures};

use crate::chains::put_in_chains;
use crate::{Figures, InFigures, Replacement, Rewriting, Sink};
use cn_core::{Buffer, ChineseCountMethod};
use cn_find::{Found, Wanted, next_expression};
use std::alloc::{AllocError, Global};

// The quantities of a text, which are written in figures.
#[derive(Copy, Clone)]
struct Quantities {
    wanted: Wanted,
    replacement: InFigures,
}

impl Rewriting for Quantities {
    ghost use Rattle.cn_find.specs.Spans.{expressions_left};
    ghost use Rattle.cn_replace.specs.InFigures.{figures_for, holds_others};

    ghost left = { λ q. expressions_left q.wanted };

    ghost new = { λ q. figures_for q.replacement.method q.replacement.figures };

    ghost holds = { λ q. holds_others q.replacement.method q.replacement.figures };

    fn next<'a>(self, whole: &'a str, rest: &'a str) -> Option<Found<'a>> {
        next_expression(whole, rest, self.wanted)
    }

    fn holds_others(self, _whole: &str, part: Found<'_>) -> bool {
        self.replacement.holds_others(part)
    }

    fn put_new<S: Sink>(
        self,
        sink: &mut S,
        _whole: &str,
        part: Found<'_>,
    ) -> Result<bool, S::Error> {
        self.replacement.put_new(part, sink)
    }
}

// Writes a text with its expressions in figures.
fn put_quantities<S: Sink>(
    sink: &mut S,
    text: &str,
    wanted: Wanted,
    replacement: InFigures,
) -> Result<(), S::Error>
    ensures { OnOk result (S.took sink.old sink.new
        (in_figures replacement.method replacement.figures wanted text.now)) }
{
    put_in_chains(
        sink,
        text,
        Quantities {
            wanted,
            replacement,
        },
    )
}

/// Returns the text with its expressions in figures: numerals are changed, unless they may mean
/// something else. The rules are those of docs/RULES.md, "Expressions replaced".
///
/// ```text
/// quantities_to_figures(alloc, "一般占百分之三十，共三点五万", Wanted::EVERYDAY,
///     ChineseCountMethod::TenThousand, Figures::DEFAULT) == Ok("一般占30%，共3.5万")
/// ```
///
/// The error means that memory ran out; memory is requested as the text grows.
pub fn quantities_to_figures(
    alloc: Global,
    text: &str,
    wanted: Wanted,
    method: ChineseCountMethod,
    figures: Figures,
) -> Result<String, AllocError>
    ensures { IfOk result (λ new. string_bytes new ≡ in_figures method figures wanted text.now) }
{
    let mut new = String::with_capacity(alloc, text.len())?;
    put_quantities(&mut new, text, wanted, InFigures { method, figures })?;
    Ok(new)
}

/// Writes the same text at the start of a buffer, if it fits, and returns the number of its bytes,
/// at most the greatest `usize`. If it does not fit, a prefix of it is written. All other bytes of the
/// buffer stay as they are.
///
/// ```text
/// let mut room = [0; 8];
/// put_quantities_in_figures(&mut room, "三点五万", Wanted::EVERYDAY, ChineseCountMethod::TenThousand,
///     Figures::DEFAULT) == 6 // and the buffer begins with 3.5万
/// ```
pub fn put_quantities_in_figures(
    room: &mut [u8],
    text: &str,
    wanted: Wanted,
    method: ChineseCountMethod,
    figures: Figures,
) -> usize
    ensures count { let new = in_figures method figures wanted text.now in
        result ≡ min (length new) (2 ^ 64 - 1) }
    ensures put { let new = in_figures method figures wanted text.now in
        length new ≤ length room.old → room.new ≡ new ++ drop (length new) room.old }
    ensures prefix { PutsPrefix (in_figures method figures wanted text.now) room.old room.new }
{
    let mut buffer = Buffer::new(room);
    match put_quantities(&mut buffer, text, wanted, InFigures { method, figures }) {
        Ok(()) => buffer.count,
        Err(never) => match never {},
    }
}
