ghost use Rattle.std.specs.Prelude.{◌≡◌, ◌++◌, ◌∷◌, [], ℕ, Bool, List, Option, is_some, unwrap_or, IfOk, IfSome, OnOk, MatchOption};
ghost use Rattle.cn_find.specs.Spans.{IsPartOf, Span, span_of, text_before};
ghost use Rattle.cn_replace.specs.Chains.{IsPart};

use crate::Sink;
use cn_find::Found;

/// What is rewritten in a text: the parts that are searched for, the new text of each, and which of
/// them hold what they are joined to.
pub trait Rewriting: Copy {
    // The parts that are found in the suffix `rest` of a text.
    ghost left: { Self → List ℕ → List ℕ → List Span };

    // The new text of a part; none if it is left unchanged.
    ghost new: { Self → Span → Option (List ℕ) };

    // Whether a part holds all that it is joined to: then all of that is left unchanged.
    ghost holds: { Self → Span → Bool };

    /// The first part that is found in the suffix `rest` of a text; `None` if there is none.
    fn next<'a>(self, whole: &'a str, rest: &'a str) -> Option<Found<'a>>
        requires { text_before whole.now rest.now ++ rest.now ≡ whole.now }
        ensures first { MatchOption result (left self whole.now rest.now ≡ [])
            (λ found. left self whole.now rest.now
            ≡ span_of found ∷ left self whole.now found.after.now) }
        ensures part { IfSome result (λ found. IsPartOf whole.now rest.now (span_of found)) };

    /// Whether a part of a text holds all that it is joined to.
    fn holds_others(self, whole: &str, part: Found<'_>) -> bool
        requires { IsPart whole.now (span_of part) }
        ensures { result ≡ holds self (span_of part.entry) };

    /// Writes the new text of a part of a text, and returns whether there is one. Writes nothing if
    /// the part is left unchanged.
    ///
    /// The errors are those of the sink.
    fn put_new<S: Sink>(self, sink: &mut S, whole: &str, part: Found<'_>) -> Result<bool, S::Error>
        requires { IsPart whole.now (span_of part) }
        ensures variant { IfOk result (λ is_new. is_new ≡ is_some (new self (span_of part.entry))) }
        ensures text { OnOk result
            (S.took sink.old sink.new (unwrap_or (new self (span_of part.entry)) [])) };
}
