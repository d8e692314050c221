// Looks for a change after which a text goes on past its fault.
ghost use Rattle.std.specs.Prelude.{◌≡◌, ◌+◌, ◌^◌, ◌<◌, ◌≤◌, true, chars, length, take, [], IfSome, MatchBool, MatchOption};
ghost use Rattle.cn_grammar.specs.Answers.{Begins};
ghost use Rattle.cn_grammar.specs.Expected.{BeginsUpTo};
ghost use Rattle.cn_grammar.specs.Machine.{Reached};
ghost use Rattle.cn_grammar.specs.Repairs.{past, IsRepair};
ghost use Rattle.cn_grammar.specs.Working.Changes.{added, begins_with, goes_on, IsFirst, IsRefused, Fails, ReadsChange, ReadsRepaired, Works};

use crate::expecting::next_characters;
use crate::fault::Fault;
use crate::partial::{Partial, read_on};
use crate::{Grammar, Hint, Listed, Repair};
use cn_core::split_first_char;

// How many characters a change writes.
fn added(repair: Repair) -> usize
    ensures { result ≡ added repair }
{
    match repair {
        Repair::Insert(_) | Repair::Replace(_) => 1,
        Repair::Delete => 0,
    }
}

// How many characters of the changed text come before those that follow the fault; if the fault
// itself is deleted, the first of those is counted too.
fn past(fault: usize, hint: Hint) -> usize
    requires { fault < 2 ^ 63 }
    ensures { result ≡ past fault hint }
{
    match hint.repair {
        Repair::Insert(_) => fault + 2,
        Repair::Replace(_) => fault + 1,
        Repair::Delete if hint.char_index == fault => fault + 1,
        Repair::Delete => fault,
    }
}

// The state after what a change writes, and the text after it; `None` if no form continues with it,
// or if the character that is to be changed is missing.
fn change<'a, G: Grammar>(state: G, rest: &'a str, repair: Repair) -> Option<(G, &'a str)>
    requires { Reached G.machine state }
    ensures read { MatchOption result (IsRefused G.machine state (chars rest.now) repair)
        (λ next. ReadsChange G.machine state (chars rest.now) repair next.0 (chars next.1.now)) }
    ensures short { IfSome result (λ next. length next.1.now ≤ length rest.now) }
{
    match repair {
        Repair::Insert(character) => Some((state.step(character)?, rest)),
        Repair::Replace(character) => {
            let (_, after) = split_first_char(rest)?;
            Some((state.step(character)?, after))
        }
        Repair::Delete => {
            let (_, after) = split_first_char(rest)?;
            Some((state, after))
        }
    }
}

// What is read of a text after a change; `None` if the change has no place in the text, or if no
// form begins with the text up to what it writes.
fn read_repaired<'a, G: Grammar>(text: &'a str, hint: Hint) -> Option<Partial<'a, G>>
    requires begins { Begins G.is_form (take hint.char_index (chars text.now)) }
    requires place { hint.char_index ≤ length (chars text.now) }
    ensures { MatchOption result (Fails G.is_form (chars text.now) hint) (λ read.
        ReadsRepaired G.machine (chars text.now) hint
        read.state read.count (chars read.rest.now)) }
{
    G::states_read_the_forms();
    let before = read_on(G::begin(), text, hint.char_index);
    let (state, rest) = change(before.state, before.rest, hint.repair)?;
    let after = read_on(state, rest, usize::MAX);
    Some(Partial {
        state: after.state,
        count: before.count + added(hint.repair) + after.count,
        rest: after.rest,
    })
}

// Whether a text is empty.
fn is_end(text: &str) -> bool
    ensures { MatchBool result (chars text.now ≡ []) (0 < length (chars text.now)) }
{
    match split_first_char(text) {
        Some(_) => false,
        None => true,
    }
}

// Whether a text begins with a character that forms have.
fn is_known<G: Listed>(text: &str) -> bool
    ensures { result ≡ begins_with G.characters (chars text.now) }
{
    match split_first_char(text) {
        Some((character, _)) => G::characters().contains(&character),
        None => false,
    }
}

// Whether so many characters are read that the text goes on past a place. If it stops right there,
// this must not be at a character that forms have: the change would only move the fault.
fn goes_on<G: Listed>(count: usize, past: usize, rest: &str) -> bool
    ensures { result ≡ goes_on G.characters count past (chars rest.now) }
{
    count > past || (count == past && !is_known::<G>(rest))
}

// Whether a change takes the text past its fault. A text without a fault, which only ends too soon,
// must become a form.
fn works<G: Listed>(text: &str, fault: usize, ends: bool, hint: Hint) -> bool
    requires up_to { BeginsUpTo G.is_form (chars text.now) fault }
    requires fault { fault < 2 ^ 63 }
    ensures { MatchBool result (Works G.is_form G.characters (chars text.now) fault ends hint)
        (¬ Works G.is_form G.characters (chars text.now) fault ends hint) }
{
    G::states_read_the_forms();
    if hint.char_index > fault {
        return false;
    }
    let Some(read) = read_repaired::<G>(text, hint) else {
        return false;
    };
    if is_end(read.rest) {
        return !ends || read.state.end().is_some();
    }
    !ends && goes_on::<G>(read.count, past(fault, hint), read.rest)
}

// The first of some changes that takes the text past its fault; `None` if none does.
fn first_working<G: Listed>(
    text: &str,
    fault: usize,
    ends: bool,
    candidates: &[Option<Hint>],
) -> Option<Hint>
    requires up_to { BeginsUpTo G.is_form (chars text.now) fault }
    requires fault { fault < 2 ^ 63 }
    ensures { IsFirst (Works G.is_form G.characters (chars text.now) fault ends)
        candidates.now result }
{
    for candidate in candidates {
        if let Some(hint) = *candidate {
            if works::<G>(text, fault, ends, hint) {
                return Some(hint);
            }
        }
    }
    None
}

// Left open (text → "" #2): which changes are tried is in no definition, but in rows.
/// A change of one character after which a text goes on past its fault, for a text that is not a
/// form; `None` if no change that is tried does that, or if the text is a form. No memory is
/// allocated.
///
/// The fault is the first character with which no form begins, or the end of the text. The first of
/// these changes is returned after which the text is right up to what became of the fault, or up to
/// the character after a fault that is deleted, and if it stops right there, then not at a
/// character that forms have. A text without a fault, which only ends too soon, must become a form.
///
/// 1. The fault is replaced by the capital or figure for which it is typed, such as 一 by 壹.
/// 2. 零 is inserted one character before the fault, before the fault, or two characters before it.
/// 3. 壹 is inserted before a 拾.
/// 4. 整 is inserted at the end of the text, or 元 before a 整.
/// 5. The only character with which a form can go on is inserted before the fault, unless it is a
///    digit.
/// 6. A 零 or 整 two characters before the fault is deleted, or one directly before it; but no 零 if
///    the fault is a digit, except one before 壹拾.
/// 7. The fault is deleted: a 零 or 整; a character that means the same as the one before it; or one
///    that no form has, unless it may change the value. A digit is never deleted.
/// 8. The fault is replaced by the only character with which a form can go on, unless it carries a
///    value or the other is a digit.
pub fn find_repair<G: Listed>(text: &str) -> Option<Hint>
    ensures { IfSome result (IsRepair G.is_form (chars text.now)) }
{
    G::states_read_the_forms();
    let read = read_on(G::begin(), text, usize::MAX);
    let ends = is_end(read.rest);
    let may_end = read.state.end().is_some();
    if ends && may_end {
        return None;
    }
    let fault = Fault::new(
        text,
        read.count,
        &next_characters(read.state),
        G::characters(),
    );
    first_working::<G>(text, read.count, ends, &fault.candidates())
}
