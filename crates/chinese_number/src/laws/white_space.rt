// White space matters only for the position of an error.
ghost use Rattle.std.specs.Prelude.{◌≡◌, ◌+◌, ℕ, ℤ, List, Result, Err};
ghost use Rattle.chinese_number.specs.Parts.{sign_length, unsigned_text};
ghost use Rattle.chinese_number.specs.Places.{without_char_index, PointsAt};
ghost use Rattle.cn_core.specs.Judge.{Judges};
ghost use Rattle.cn_core.specs.Naive.{naive_answer};
ghost use Rattle.cn_core.specs.Refusal.{Refusal, incorrect_at};
ghost use Rattle.cn_core.specs.Text.{text_of, marks_of};
ghost use Rattle.cn_core.specs.Reading.{Reads, naive_reading};
ghost use Rattle.cn_core.specs.Whole.{Kind};
ghost use Rattle.cn_core.specs.declared.method.ChineseCountMethod.{ChineseCountMethod};

/// White space does not matter: strings with the same text have the same value, or are refused with
/// the same error, except for its position.
///
/// For programs that normalise speech: ` 一 百 二 ` is 120.
pub fn white_space_does_not_matter()
    ensures units { (kind : Kind) (method : ChineseCountMethod) (one other : List ℕ)
        → text_of one ≡ text_of other → (first second : Result ℤ Refusal)
        → Reads kind method one first → Reads kind method other second
        → without_char_index first ≡ without_char_index second }
    ensures digits { (kind : Kind) (one other : List ℕ) → text_of one ≡ text_of other
        → without_char_index (naive_reading kind one)
        ≡ without_char_index (naive_reading kind other) }
{}

/// A refusal points at a character: the character at its char_index is not white space, and the
/// number of other such characters before it is its place, plus 1 if there is a sign.
///
/// For form validators: they mark the character at the char_index. In ` 二 十 十 ` it is at 3, in
/// `二十十` at 1.
pub fn refusals_point_at_characters()
    ensures units { (kind : Kind) (method : ChineseCountMethod) (bytes : List ℕ) (char_index : ℕ)
        → Reads kind method bytes (Err (incorrect_at char_index))
        → (place : ℕ)
        × Judges method (marks_of (unsigned_text kind bytes)) (Err (incorrect_at place))
        × PointsAt bytes char_index (place + sign_length kind bytes) }
    ensures digits { (kind : Kind) (bytes : List ℕ) (char_index : ℕ)
        → naive_reading kind bytes ≡ Err (incorrect_at char_index)
        → (place : ℕ)
        × (naive_answer (marks_of (unsigned_text kind bytes)) ≡ Err (incorrect_at place))
        × PointsAt bytes char_index (place + sign_length kind bytes) }
{}
