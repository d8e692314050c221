//! What callers can count on of a text in which expressions are replaced, each as the contract of a
//! function that does nothing.
ghost use Rattle.std.specs.Prelude.{◌≡◌, ℕ, Bool, List, [], ◌++◌, false, true, chars, None, Option, Contains, IsUtf8};
ghost use Rattle.std.specs.Char.{encode_utf8};
ghost use Rattle.cn_find.specs.Belongs.{is_wanted};
ghost use Rattle.cn_find.specs.Parting.{is_named};
ghost use Rattle.cn_find.specs.Spans.{Span, expressions};
ghost use Rattle.cn_replace.specs.declared.options.Style.TheVariants.{Kept};
ghost use Rattle.cn_replace.specs.InFigures.{figures_for, in_figures, is_in_figures};
ghost use Rattle.cn_replace.specs.Parting.{is_noticed};
ghost use Rattle.cn_replace.specs.Replaced.{replaced};

use crate::{Figures, Included};
use cn_core::ChineseCountMethod;
use cn_find::Wanted;

/// A text in which no expression has a new text is left unchanged, and so is a text without
/// expressions.
pub fn texts_stay_where_nothing_is_new(wanted: Wanted)
    ensures { (new : Span → Option (List ℕ)) (bytes : List ℕ) → IsUtf8 bytes
        → ((span : Span) → Contains (expressions wanted bytes) span → new span ≡ None)
        → replaced new wanted bytes ≡ bytes }
{}

/// A text without expressions is unchanged after its quantities are written in figures.
pub fn texts_without_expressions_stay(wanted: Wanted, method: ChineseCountMethod, figures: Figures)
    ensures { (bytes : List ℕ) → expressions wanted bytes ≡ []
        → in_figures method figures wanted bytes ≡ bytes }
{}

/// A character that is not wanted, and at which no rule looks, such as a line feed, parts a text that
/// is rewritten in figures: what is before it and what is after it are rewritten by themselves.
pub fn texts_are_put_in_figures_in_parts(
    wanted: Wanted,
    method: ChineseCountMethod,
    figures: Figures,
)
    ensures { (left right : List ℕ) (c : ℕ) → IsUtf8 left → IsUtf8 (encode_utf8 c ++ right)
        → is_wanted wanted c ≡ false → is_named c ≡ false → is_noticed c ≡ false
        → in_figures method figures wanted (left ++ (encode_utf8 c ++ right))
        ≡ in_figures method figures wanted left
        ++ (encode_utf8 c ++ in_figures method figures wanted right) }
{}

/// What has a figure and no 分之 stays in the kept style, unless canonical figures are requested.
pub fn figures_stay(method: ChineseCountMethod, included: Included)
    ensures { (compact codes : Bool) (span : Span) → is_in_figures (chars span.text) ≡ true
        → figures_for method (record {
          included = included;
          style = Kept;
          canonical = false;
          compact = compact;
          codes = codes;
        }) span
        ≡ None }
{}

/// `NONE` includes nothing. With `DEFAULT` great units and figures are left unchanged.
pub fn figures_constants_are()
    ensures none { Included.NONE
        ≡ record { about = false; one_character = false; doubtful = false } }
    ensures default { Figures.DEFAULT
        ≡ record { included = Included.NONE; style = Kept; canonical = false; compact = false; codes = false } }
{}
