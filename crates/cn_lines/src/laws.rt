//! The laws that users of the program can rely on, each stated as the contract of a function that
//! does nothing.
ghost use Rattle.std.specs.Prelude.{◌≡◌, ℕ, List};
ghost use Rattle.cn_lines.specs.Answer.{Answers, AreReplies};
ghost use Rattle.cn_lines.specs.Lines.{lines};

/// Each line has exactly one answer.
///
/// For programs that store answers by their lines.
pub fn each_line_has_one_answer()
    ensures { (line : List ℕ)
        → (answer : List ℕ) × Answers line answer
        × ((other : List ℕ) → Answers line other → other ≡ answer) }
{}

/// Each input has exactly one output: the answers to its lines, each followed by a line feed.
///
/// For programs that compare two runs over the same bytes: if both end without a fault, they write
/// the same.
pub fn each_input_has_one_output()
    ensures { (input : List ℕ)
        → (output : List ℕ) × AreReplies (lines input) output
        × ((other : List ℕ) → AreReplies (lines input) other → other ≡ output) }
{}
