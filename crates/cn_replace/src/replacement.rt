ghost use Rattle.std.specs.Prelude.{◌≡◌, ℕ, List, [], Option, is_some, unwrap_or, IfOk, OnOk};
ghost use Rattle.cn_find.specs.Spans.{Span, span_of};

use crate::Sink;
use cn_find::Found;

/// The texts that replace the expressions of a text.
///
/// ```text
/// // Writes a star in the place of each.
/// impl Replacement for ByStar {
///     ghost new = { λ r span. Some (codes "*") };
///
///     fn put_new<S: Sink>(self, found: Found<'_>, sink: &mut S) -> Result<bool, S::Error> {
///         sink.put("*")?;
///         Ok(true)
///     }
/// }
/// ```
pub trait Replacement: Copy {
    // The new text of an expression; none if it is left unchanged.
    ghost new: { Self → Span → Option (List ℕ) };

    /// Writes the new text of an expression, and returns whether there is one. Writes nothing if
    /// the expression is left unchanged.
    ///
    /// The errors are those of the sink.
    fn put_new<S: Sink>(self, found: Found<'_>, sink: &mut S) -> Result<bool, S::Error>
        ensures variant { IfOk result (λ is_new. is_new ≡ is_some (new self (span_of found.entry))) }
        ensures text { OnOk result
            (S.took sink.old sink.new (unwrap_or (new self (span_of found.entry)) [])) };
}
