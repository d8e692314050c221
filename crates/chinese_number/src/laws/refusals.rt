// Which refusals can occur.
ghost use Rattle.std.specs.Prelude.{◌≡◌, ◌≢◌, ◌↔◌, [], ℕ, List, Err, IsTrue, not};
ghost use Rattle.chinese_number.specs.Parts.{unsigned_text};
ghost use Rattle.cn_core.specs.Refusal.{empty, too_small};
ghost use Rattle.cn_core.specs.Reading.{Reads, naive_reading};
ghost use Rattle.cn_core.specs.Whole.{Kind};
ghost use Rattle.cn_core.specs.declared.method.ChineseCountMethod.{ChineseCountMethod};

use cn_core::Whole;

/// A string is refused as empty exactly if it has only white space and, for a signed type, at most
/// one sign.
///
/// For forms with a required field: white space alone is empty, and so is 負 for a signed type.
pub fn empty_is_nothing_left()
    ensures units { (kind : Kind) (method : ChineseCountMethod) (bytes : List ℕ)
        → Reads kind method bytes (Err empty) ↔ (unsigned_text kind bytes ≡ []) }
    ensures digits { (kind : Kind) (bytes : List ℕ)
        → (naive_reading kind bytes ≡ Err empty) ↔ (unsigned_text kind bytes ≡ []) }
{}

/// For an unsigned type no string is too small.
///
/// For programs that report errors: for unsigned types, `Underflow` need not be handled. 負一 as a
/// `u8` is incorrect at 0.
pub fn unsigned_types_never_underflow<T: Whole>()
    ensures units { (method : ChineseCountMethod) (bytes : List ℕ) → IsTrue (not T.SIGNED)
        → ¬ Reads T.kind method bytes (Err too_small) }
    ensures digits { (bytes : List ℕ) → IsTrue (not T.SIGNED)
        → naive_reading T.kind bytes ≢ Err too_small }
{}
