// What can be completed, and where a refusal points.
ghost use Rattle.std.specs.Prelude.{◌≡◌, ◌↔◌, ◌⊎◌, ◌<◌, ◌+◌, ◌++◌, ◌∷◌, ℕ, List, Err, IsTrue, length, drop};
ghost use Rattle.std.specs.Str.{all_scalars};
ghost use Rattle.cn_core.specs.Judge.{Judges};
ghost use Rattle.cn_core.specs.Mark.{Mark, digit};
ghost use Rattle.cn_core.specs.Numeral.{IsNumeral, Completable};
ghost use Rattle.cn_core.specs.Place.{IsPlace, body};
ghost use Rattle.cn_core.specs.Refusal.{incorrect_at};
ghost use Rattle.cn_core.specs.Text.{marks_of};
ghost use Rattle.chinese_number.specs.Places.{first_broken_rule, judged_part};
ghost use Rattle.cn_judge.specs.Reason.{broken_rule, rule_broken_first};
ghost use Rattle.cn_judge.specs.declared.fault.NumeralFault.TheVariants.{Start};
ghost use Rattle.cn_core.specs.declared.method.ChineseCountMethod.{ChineseCountMethod};

/// To decide whether a list can be completed, it is enough to try 零: it can be exactly if 零 before
/// it makes a numeral.
///
/// For form validators: to know whether the text from a place on can be right, try 零. 百 can be
/// right, since 零百 is a numeral; 百百 cannot, since 零百百 is not a numeral.
pub fn zero_in_front_decides()
    ensures { (marks : List Mark) → Completable marks ↔ IsNumeral (digit 0 ∷ marks) }
{}

/// What marks can complete, characters can complete: if some marks before a text make it right,
/// some characters that can be typed do.
///
/// For form validators: a user can type what is missing, such as 一 before 百.
pub fn characters_complete_texts()
    ensures { (text : List ℕ) → Completable (marks_of text)
        ↔ ((front : List ℕ) × IsTrue (all_scalars front) × (0 < length front)
        × IsNumeral (marks_of (front ++ text))) }
{}

/// If a list can be completed, each of its suffixes can be completed.
///
/// For form validators that check from the end: once a suffix is wrong, such as 十十, nothing before
/// it makes it right.
pub fn ends_can_be_completed()
    ensures { (start : ℕ) (marks : List Mark) → Completable marks → Completable (drop start marks) }
{}

/// Each list has one place: the last one from which on nothing before can complete the list, or 0
/// if there is none.
///
/// For form validators: there is one character to mark. In 二十十 it is at 1.
pub fn each_list_has_one_place()
    ensures { (marks : List Mark)
        → (place : ℕ) × IsPlace marks place × ((other : ℕ) → IsPlace marks other → other ≡ place) }
{}

/// A text that is refused at a place is not a numeral. The place is the last one from which on
/// nothing before can complete the text's body, or 0 if there is none; or, if the body is a
/// numeral, that of the text's last mark.
///
/// For form validators: unless the place is 0, the character that they mark is at fault whatever is
/// before it.
pub fn refusals_name_the_last_place()
    ensures { (method : ChineseCountMethod) (marks : List Mark) (place : ℕ)
        → Judges method marks (Err (incorrect_at place))
        → ¬ IsNumeral marks
        × (IsPlace (body marks) place ⊎ (IsNumeral (body marks) × (place + 1 ≡ length marks))) }
{}

/// 零 and the marks after a place are a numeral: after the mark at fault nothing is wrong.
///
/// For form validators: they mark one character, and some text before what follows it in the body
/// makes that a numeral. In 二十十 the last 十 follows.
pub fn nothing_is_wrong_after_a_place()
    ensures { (marks : List Mark) (place : ℕ)
        → IsPlace marks place → IsNumeral (digit 0 ∷ drop (place + 1) marks) }
{}

/// The rule that a reported character breaks is the first one that is broken somewhere in 零 and the
/// suffix from that character on, of the text or, if its body is not a numeral, of the body. If what
/// follows a character can be completed, it breaks rule 1 exactly if it can be right with something
/// before it.
///
/// For form validators that explain what is wrong: the reason does not depend on what is before the
/// character at fault, and no other rule is broken from there on that comes first.
pub fn reasons_are_the_first_broken_rules()
    ensures first { (method : ChineseCountMethod) (marks : List Mark) (place : ℕ)
        → Judges method marks (Err (incorrect_at place))
        → rule_broken_first (drop place marks)
        ≡ first_broken_rule (digit 0 ∷ drop place (judged_part marks)) }
    ensures start { (mark : Mark) (rest : List Mark) → Completable rest
        → (broken_rule mark rest ≡ Start) ↔ Completable (mark ∷ rest) }
{}
