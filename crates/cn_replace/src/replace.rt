ghost use Rattle.std.specs.Prelude.{◌≡◌, IfOk, OnOk, string_bytes};
ghost use Rattle.cn_replace.specs.Replaced.{replaced, text_for};
ghost use Rattle.cn_find.specs.Spans.{span_of};

use crate::{Replacement, Sink};
use cn_find::{Found, Wanted, find_quantities};
use std::alloc::{AllocError, Global};

/// Writes the text in the place of an expression.
pub fn put_in_place<S: Sink, R: Replacement>(
    sink: &mut S,
    found: Found<'_>,
    replacement: R,
) -> Result<(), S::Error>
    ensures { OnOk result
        (S.took sink.old sink.new (text_for (R.new replacement) (span_of found.entry))) }
{
    if replacement.put_new(found, sink)? {
        Ok(())
    } else {
        sink.put(found.text)
    }
}

/// Writes a text with its expressions replaced.
pub fn put_replaced<S: Sink, R: Replacement>(
    sink: &mut S,
    text: &str,
    wanted: Wanted,
    replacement: R,
) -> Result<(), S::Error>
    ensures { OnOk result
        (S.took sink.old sink.new (replaced (R.new replacement) wanted text.now)) }
{
    let mut from = 0usize;
    let mut left = find_quantities(text, wanted);
    'replacing: while let Some(found) = left.next() {
        let (_, between) = found.before.split_at(from);
        sink.put(between)?;
        put_in_place(sink, found, replacement)?;
        from = found.end();
    }
    let (_, rest) = text.split_at(from);
    sink.put(rest)
}

/// Returns the text with its expressions replaced: each by its new text if it has one, and all else
/// unchanged.
///
/// ```text
/// // ByStar puts a star in place of each.
/// replace_quantities(alloc, "共3.5万元", Wanted::EVERYDAY, ByStar) == Ok("共*元")
/// ```
///
/// The error means that memory ran out; memory is requested as the text grows.
pub fn replace_quantities<R: Replacement>(
    alloc: Global,
    text: &str,
    wanted: Wanted,
    replacement: R,
) -> Result<String, AllocError>
    ensures { IfOk result (λ new. string_bytes new ≡ replaced (R.new replacement) wanted text.now) }
{
    let mut new = String::with_capacity(alloc, text.len())?;
    put_replaced(&mut new, text, wanted, replacement)?;
    Ok(new)
}
