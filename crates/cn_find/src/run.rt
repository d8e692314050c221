// Finds the next run of a text.
ghost use Rattle.std.specs.Prelude.{◌≡◌, ◌++◌, ◌<◌, ◌∷◌, [], true, length, chars, MatchOption, IfSome};
ghost use Rattle.cn_core.specs.Mark.{mark_of};
ghost use Rattle.cn_judge.specs.Marked.{marked};
ghost use Rattle.cn_find.specs.Private.{EndsRun};
ghost use Rattle.std.specs.Option.{option_map};
ghost use Rattle.cn_find.specs.Spans.{IsPartOf, in_front, left_by, run_after, span_of, text_before};

use crate::Found;
use crate::rule::SearchRule;
use cn_core::split_first_char;
use cn_judge::{Mark, mark_of, split_first_mark, split_first_three};

/// The part of a text before its suffix `rest`.
#[inline(always)]
pub fn text_before<'a>(whole: &'a str, rest: &'a str) -> &'a str
    requires { text_before whole.now rest.now ++ rest.now ≡ whole.now }
    ensures { result.now ≡ text_before whole.now rest.now }
{
    let (before, _) = whole.split_at(whole.len() - rest.len());
    before
}

// The first character of a suffix, whether it belongs to what is searched for, and the text after
// it.
#[derive(Copy, Clone)]
struct Look<'a> {
    belongs: bool,
    first: char,
    tail: &'a str,
}

#[inline(always)]
fn look_at_mark<'a, R: SearchRule>(
    rule: R,
    before: &str,
    first: char,
    mark: Mark,
    tail: &'a str,
) -> Look<'a>
    requires { marked mark ≡ mark_of first }
    ensures first { result.first ≡ first }
    ensures tail { result.tail.now ≡ tail.now }
    ensures belongs { result.belongs
        ≡ (R.rule rule).belongs (in_front before.now) first (chars tail.now) }
{
    let belongs = rule.belongs(before, first, mark, tail);
    Look {
        belongs,
        first,
        tail,
    }
}

// Characters of three bytes have a path of their own, so that a search for numbers quickly passes
// those that do not belong.
// Same answer (if let Some((first, mark, tail)) = split_firs.. → nothing): the character is decoded
// and its mark looked up, more slowly.
#[inline(always)]
fn look_at<'a, R: SearchRule>(rule: R, whole: &'a str, ahead: &'a str) -> Option<Look<'a>>
    requires { text_before whole.now ahead.now ++ ahead.now ≡ whole.now }
    ensures parts { MatchOption result (chars ahead.now ≡ [])
        (λ look. (chars ahead.now ≡ look.first ∷ chars look.tail.now)
        × (look.belongs ≡ (R.rule rule).belongs (in_front (text_before whole.now ahead.now))
        look.first (chars look.tail.now))) }
    ensures shorter { IfSome result (λ look. length look.tail.now < length ahead.now) }
{
    let before = text_before(whole, ahead);
    if let Some((first, mark, tail)) = split_first_three(ahead) {
        return Some(look_at_mark(rule, before, first, mark, tail));
    }
    let (first, tail) = split_first_char(ahead)?;
    Some(look_at_mark(rule, before, first, mark_of(first), tail))
}

// The text after the run that begins at `ahead` with the character `first`. The text after `first`
// is `tail`.
fn skip_run<'a, R: SearchRule>(
    rule: R,
    whole: &'a str,
    ahead: &'a str,
    first: char,
    tail: &'a str,
) -> &'a str
    requires end { text_before whole.now ahead.now ++ ahead.now ≡ whole.now }
    requires parts { chars ahead.now ≡ first ∷ chars tail.now }
    requires begins { (R.rule rule).belongs (in_front (text_before whole.now ahead.now)) first
        (chars tail.now) ≡ true }
    ensures { EndsRun (R.rule rule) (text_before whole.now ahead.now) ahead.now result.now }
{
    let mut last = first;
    let mut rest = tail;
    'gathering: while let Some((next, mark, after)) = split_first_mark(rest) {
        if !rule.belongs(text_before(whole, rest), next, mark, after)
            || rule.is_parted(last, next)
        {
            return rest;
        }
        last = next;
        rest = after;
    }
    rest
}

/// The first run of a suffix of a text; `None` if it has none.
pub fn next_run<'a, R: SearchRule>(rule: R, whole: &'a str, rest: &'a str) -> Option<Found<'a>>
    requires { text_before whole.now rest.now ++ rest.now ≡ whole.now }
    ensures parts { MatchOption result (left_by (R.rule rule) whole.now rest.now ≡ [])
        (λ found. left_by (R.rule rule) whole.now rest.now
        ≡ span_of found ∷ left_by (R.rule rule) whole.now found.after.now) }
    ensures ends { IfSome result
        (λ found. text_before whole.now found.after.now ++ found.after.now ≡ whole.now) }
    ensures part { IfSome result (λ found. IsPartOf whole.now rest.now (span_of found)) }
{
    let mut ahead = rest;
    'searching: while let Some(look) = look_at(rule, whole, ahead) {
        if look.belongs {
            let after = skip_run(rule, whole, ahead, look.first, look.tail);
            return Some(Found {
                before: text_before(whole, ahead),
                text: text_before(ahead, after),
                after,
            });
        }
        ahead = look.tail;
    }
    None
}

/// The text after the run that begins with a suffix of a text; `None` if none begins there. The
/// character before the suffix is not looked at: the suffix may begin within a run.
pub fn run_after<'a, R: SearchRule>(rule: R, whole: &'a str, ahead: &'a str) -> Option<&'a str>
    requires { text_before whole.now ahead.now ++ ahead.now ≡ whole.now }
    ensures { option_map (λ after. chars after.now) result ≡ run_after (R.rule rule)
        (in_front (text_before whole.now ahead.now)) (chars ahead.now) }
{
    let look = look_at(rule, whole, ahead)?;
    if look.belongs {
        Some(skip_run(rule, whole, ahead, look.first, look.tail))
    } else {
        None
    }
}
