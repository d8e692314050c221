ghost use Rattle.std.specs.Prelude.{◌≡◌, Option, None, chars};
ghost use Rattle.cn_core.specs.Mark.{mark_of};
ghost use Rattle.cn_judge.specs.Marked.{marked};
ghost use Rattle.cn_find.specs.declared.doubt.Doubt.{Doubt};
ghost use Rattle.cn_find.specs.Doubt.{doubt_of};
ghost use Rattle.cn_find.specs.Expressions.{expression_rule};
ghost use Rattle.cn_find.specs.Rule.{Rule, number_rule};
ghost use Rattle.cn_find.specs.Spans.{Span, in_front, span_of};

use crate::belongs::{belongs, is_parted};
use crate::expressions::{is_of_expression, parts_expressions};
use crate::{Doubt, Found, Wanted};
use cn_judge::Mark;

/// The rule of a search: which characters of a text belong to what it looks for.
pub trait SearchRule: Copy {
    // The rule as definitions use it.
    ghost rule: { Self → Rule };

    /// Whether a character, given with its mark and the text before and after it, belongs.
    fn belongs(self, before: &str, c: char, mark: Mark, after: &str) -> bool
        requires { marked mark ≡ mark_of c }
        ensures { result ≡ (rule self).belongs (in_front before.now) c (chars after.now) };

    /// Whether two neighbouring characters are in different runs although both belong.
    fn is_parted(self, c: char, next: char) -> bool
        ensures { result ≡ (rule self).is_parted c next };

    // Why what is found may mean something else than its value.
    ghost doubt: { Span → Option Doubt };

    /// Why what is found may mean something else than its value; `None` if nothing suggests that.
    fn doubt_of(found: Found<'_>) -> Option<Doubt>
        ensures { result ≡ doubt (span_of found.entry) };
}

/// The rule that finds numbers.
#[derive(Copy, Clone)]
pub struct NumberRule {
    /// The characters that the search looks for.
    pub wanted: Wanted,
}

impl SearchRule for NumberRule {
    ghost rule = { λ r. number_rule r.wanted };

    #[inline(always)]
    fn belongs(self, before: &str, c: char, mark: Mark, after: &str) -> bool {
        belongs(self.wanted, c, mark, after)
    }

    // Same answer (c, next → next, c): two characters are separated in either order.
    #[inline(always)]
    fn is_parted(self, c: char, next: char) -> bool {
        is_parted(c, next)
    }

    // This rule gives no reason.
    ghost doubt = { λ span. None };

    #[inline(always)]
    fn doubt_of(found: Found<'_>) -> Option<Doubt> {
        None
    }
}

/// The rule that finds expressions.
#[derive(Copy, Clone)]
pub struct QuantityRule {
    /// The characters that the search looks for.
    pub wanted: Wanted,
}

impl SearchRule for QuantityRule {
    ghost rule = { λ r. expression_rule r.wanted };

    #[inline(always)]
    fn belongs(self, before: &str, c: char, mark: Mark, after: &str) -> bool {
        is_of_expression(self.wanted, before, c, mark, after)
    }

    #[inline(always)]
    fn is_parted(self, c: char, next: char) -> bool {
        parts_expressions(c, next)
    }

    ghost doubt = { λ span. doubt_of span.before span.text span.after };

    fn doubt_of(found: Found<'_>) -> Option<Doubt> {
        found.doubt()
    }
}
