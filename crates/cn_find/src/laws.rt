//! What users may count on, as contracts of functions that do nothing.
ghost use Rattle.std.specs.Prelude.{◌≡◌, ◌≢◌, ◌↔◌, [], ◌∷◌, ◌++◌, ◌+◌, ℕ, ℤ, pos, ◌≤ℤ◌, List, map, drop, length, chars, IsCharBoundary, encode_utf8, true, false, not, None, Some, Ok, Err, IsTrue, ◌&&◌};
ghost use Rattle.std.specs.List.{Contains, list_all};
ghost use Rattle.std.specs.Str.{IsUtf8};
ghost use Rattle.cn_core.specs.declared.method.ChineseCountMethod.{ChineseCountMethod};
ghost use Rattle.cn_core.specs.declared.sign.Sign.TheVariants.{Plus};
ghost use Rattle.cn_core.specs.declared.unit.Unit.TheVariants.{Zhao, Ji};
ghost use Rattle.cn_core.specs.Characters.{sign_of};
ghost use Rattle.cn_core.specs.FigureCharacters.{is_figure};
ghost use Rattle.cn_core.specs.Mark.{Mark};
ghost use Rattle.cn_core.specs.Naive.{decimal_value};
ghost use Rattle.cn_core.specs.Numeral.{IsNumeral};
ghost use Rattle.cn_core.specs.Reading.{leading_sign};
ghost use Rattle.cn_core.specs.Refusal.{incorrect_at};
ghost use Rattle.cn_core.specs.Text.{marks_of, text_of};
ghost use Rattle.cn_core.specs.Value.{numeral_value};
ghost use Rattle.cn_core.specs.Whole.{Kind, holds};
ghost use Rattle.cn_find.specs.Belongs.{is_mega, is_wanted};
ghost use Rattle.cn_find.specs.Expressions.{is_extra};
ghost use Rattle.cn_find.specs.Flags.{is_one_character, is_one_estimate, pairs};
ghost use Rattle.cn_find.specs.Number.{IsAnswer};
ghost use Rattle.cn_find.specs.Parting.{Meet, is_alone, is_named, is_of_measure, with_text_after, with_text_before};
ghost use Rattle.cn_find.specs.Plain.{is_decimal};
ghost use Rattle.cn_find.specs.Spans.{Span, expressions, expressions_left, spans, spans_left};
ghost use Rattle.cn_find.specs.Runs.{IsExpression, IsRun, is_rising};

use crate::Wanted;

/// The numbers of a text are exactly its runs: stretches of characters that belong to numbers, each
/// joined to the next. The first is not joined to a character before it, nor the last to one after
/// it.
pub fn numbers_are_the_runs(wanted: Wanted)
    ensures { (bytes : List ℕ) (span : Span)
        → Contains (spans wanted bytes) span ↔ IsRun wanted (chars bytes) span }
{}

/// They come in order, and no two overlap.
pub fn numbers_come_in_order(wanted: Wanted)
    ensures { (bytes : List ℕ) → IsTrue (is_rising 0 (spans wanted bytes)) }
{}

/// A character that is not wanted, and that `begins_measure` does not test for, parts a text: the
/// numbers found are those in the text before it, and then those in the text after it. So lines,
/// and parts of a file, can be searched by themselves.
pub fn unwanted_characters_part_texts(wanted: Wanted)
    ensures { (left right : List ℕ) (c : ℕ) → IsUtf8 left → IsUtf8 (encode_utf8 c ++ right)
        → is_wanted wanted c ≡ false → is_of_measure c ≡ false
        → spans wanted (left ++ (encode_utf8 c ++ right))
        ≡ map (with_text_after (encode_utf8 c ++ right)) (spans wanted left)
        ++ map (with_text_before (left ++ encode_utf8 c)) (spans wanted right) }
{}

/// A search goes on after a number: the numbers after the first one of a text are the numbers of
/// the text after that one. So a caller in C can find one number after another.
pub fn searches_go_on_behind_a_number(wanted: Wanted)
    ensures { (bytes : List ℕ) (first : Span) (rest : List Span)
        → spans wanted bytes ≡ first ∷ rest → IsUtf8 bytes
        → rest ≡ map (with_text_before (first.before ++ first.text)) (spans wanted first.after) }
{}

/// A search also goes on in sight of the whole text, from where a number ends: a search can begin
/// there, and it finds the numbers after that one. So a caller who takes a few numbers at a time
/// gets all of them.
pub fn searches_go_on_in_the_whole_text(wanted: Wanted)
    ensures { (bytes : List ℕ) (from : ℕ) (first : Span) (rest : List Span)
        → IsUtf8 bytes → IsCharBoundary bytes from
        → spans_left wanted bytes (drop from bytes) ≡ first ∷ rest
        → (rest ≡ spans_left wanted bytes (drop (length first.before + length first.text) bytes))
        × IsCharBoundary bytes (length first.before + length first.text) }
{}

/// The expressions of a text are exactly its runs by their rule.
pub fn expressions_are_the_runs(wanted: Wanted)
    ensures { (bytes : List ℕ) (span : Span)
        → Contains (expressions wanted bytes) span ↔ IsExpression wanted (chars bytes) span }
{}

/// They come in order, and no two overlap.
pub fn expressions_come_in_order(wanted: Wanted)
    ensures { (bytes : List ℕ) → IsTrue (is_rising 0 (expressions wanted bytes)) }
{}

/// A character that is not wanted, and that the rule of expressions does not name, such as a line
/// feed, parts a text: the expressions found are those in the text before it, and then those in the
/// text after it.
pub fn unnamed_characters_part_texts(wanted: Wanted)
    ensures { (left right : List ℕ) (c : ℕ) → IsUtf8 left → IsUtf8 (encode_utf8 c ++ right)
        → is_wanted wanted c ≡ false → is_named c ≡ false
        → expressions wanted (left ++ (encode_utf8 c ++ right))
        ≡ map (with_text_after (encode_utf8 c ++ right)) (expressions wanted left)
        ++ map (with_text_before (left ++ encode_utf8 c)) (expressions wanted right) }
{}

/// A search for expressions goes on in sight of the whole text, from where an expression ends. The
/// text after it can have other expressions by itself: in `1-2` the second expression is 2, and in
/// `-2` it is -2.
pub fn searches_for_expressions_go_on_in_the_whole_text(wanted: Wanted)
    ensures { (bytes : List ℕ) (from : ℕ) (first : Span) (rest : List Span)
        → IsUtf8 bytes → IsCharBoundary bytes from
        → expressions_left wanted bytes (drop from bytes) ≡ first ∷ rest
        → (rest
        ≡ expressions_left wanted bytes (drop (length first.before + length first.text) bytes))
        × IsCharBoundary bytes (length first.before + length first.text) }
{}

/// If a text has no figures and none of the characters that expressions treat differently from
/// numbers, its expressions are its numbers.
pub fn expressions_of_numerals_are_numbers(wanted: Wanted)
    ensures { (bytes : List ℕ)
        → IsTrue (list_all (λ c. not (is_figure c) && not (is_extra c)) (chars bytes))
        → expressions wanted bytes ≡ spans wanted bytes }
{}

/// Numbers that are cut apart do not stand alone: if a number begins at the end of another one, or
/// after a link there, neither of them does.
pub fn numbers_that_meet_do_not_stand_alone(wanted: Wanted)
    ensures { (bytes : List ℕ) (first second : Span) → IsUtf8 bytes
        → Contains (spans wanted bytes) first → Contains (spans wanted bytes) second
        → Meet first second → (is_alone first ≡ false) × (is_alone second ≡ false) }
{}

/// No number ends with a 兆 that means mega: no word of a measure is directly after it.
pub fn no_number_ends_with_mega(wanted: Wanted)
    ensures { (bytes : List ℕ) (span : Span) (front : List ℕ) (c : ℕ) → IsUtf8 bytes
        → Contains (spans wanted bytes) span → chars span.text ≡ front ++ c ∷ []
        → is_mega c (chars span.after) ≡ false }
{}

/// What is one Chinese character counts at most ten, by each method, or is refused.
pub fn one_character_is_at_most_ten()
    ensures { (kind : Kind) (method : ChineseCountMethod) (bytes : List ℕ) (number : ℤ)
        → is_one_character (chars bytes) ≡ true → IsAnswer kind method bytes (Ok number)
        → number ≤ℤ pos 10 }
{}

/// No pair of digits of a numeral means an approximate number: a number with units is approximate
/// only because of the text around it.
pub fn numerals_have_no_estimate()
    ensures { (text : List ℕ) → IsNumeral (marks_of text) → is_one_estimate (pairs text) ≡ false }
{}

/// A run begins with a sign only if it begins with 正, the only plus sign.
pub fn runs_begin_with_no_other_sign(wanted: Wanted)
    ensures { (bytes : List ℕ) (span : Span) (c : ℕ) (rest : List ℕ)
        → Contains (spans wanted bytes) span → IsUtf8 span.text → chars span.text ≡ c ∷ rest
        → sign_of c ≢ Some Plus → leading_sign true (text_of span.text) ≡ None }
{}

/// A text that begins with no sign has the same answer for each type that holds its number, and is
/// refused at the same place for all types. So is a run that does not begin with 正.
pub fn types_answer_alike_without_sign()
    ensures number { (here there : Kind) (method : ChineseCountMethod) (bytes : List ℕ)
        (number : ℤ) → leading_sign true (text_of bytes) ≡ None
        → IsAnswer here method bytes (Ok number) → IsTrue (holds there number)
        → IsAnswer there method bytes (Ok number) }
    ensures place { (here there : Kind) (method : ChineseCountMethod) (bytes : List ℕ)
        (char_index : ℕ) → leading_sign true (text_of bytes) ≡ None
        → IsAnswer here method bytes (Err (incorrect_at char_index))
        → IsAnswer there method bytes (Err (incorrect_at char_index)) }
{}

/// Plain digits that are a numeral too, as 五 and 零五, are one number, whichever way they are read.
pub fn one_number_either_way()
    ensures { (method : ChineseCountMethod) (marks : List Mark) (number : ℕ)
        → IsTrue (list_all is_decimal marks) → IsNumeral marks
        → decimal_value marks ≡ number → numeral_value method marks ≡ number }
{}

/// `EVERYDAY` is the lower case, with units up to 兆; `ALL` is both cases, with units up to 極.
pub fn wanted_constants_are()
    ensures everyday { Wanted.EVERYDAY ≡ record { upper = false; greatest = Zhao } }
    ensures all { Wanted.ALL ≡ record { upper = true; greatest = Ji } }
{}
