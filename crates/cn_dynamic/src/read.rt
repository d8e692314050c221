// Reads a text as a number of an integer type that is given as a value.
ghost use Rattle.std.specs.Prelude.{◌≡◌, None, false, pos, IsTrue, IfOk};
ghost use Rattle.chinese_number.specs.Answer.{answer_of, refusal_of};
ghost use Rattle.chinese_number.specs.Reading.{Reads, naive_reading};
ghost use Rattle.chinese_number.specs.Reason.{reason_of};
ghost use Rattle.chinese_number.specs.Whole.{holds};
ghost use Rattle.cn_dynamic.specs.IntegerTypes.{the_kind};
ghost use Rattle.cn_dynamic.specs.Ways.{IsReasonBy, ReadsBy, rule_by, stands_for};
ghost use Rattle.cn_judge.specs.Signed.{signed_answer};

use crate::{IntegerType, SignedMagnitude, Way};
use chinese_number::{ChineseCountMethod, ChineseToNumberError, NumeralFault, Sign};
use cn_judge::{judge_naive, naive_reason_of, reason_of, split_sign};
use cn_quick::judge_quickly;

// The answer for a type, from the sign and the answer to the text after it.
#[inline(always)]
fn signed_answer(
    integer: IntegerType,
    sign: Option<Sign>,
    judged: Result<u128, ChineseToNumberError>,
) -> Result<SignedMagnitude, ChineseToNumberError>
    ensures answer { answer_of stands_for result
        ≡ signed_answer (the_kind integer) sign (answer_of (λ n. n) judged) }
    ensures held { IfOk result (λ n. IsTrue (holds (the_kind integer) (stands_for n))) }
{
    let negative = matches!(sign, Some(Sign::Minus));
    let too_far = if negative {
        ChineseToNumberError::Underflow
    } else {
        ChineseToNumberError::Overflow
    };
    match judged {
        Ok(magnitude) => {
            let number = SignedMagnitude {
                negative,
                magnitude,
            };
            if integer.holds(number) {
                Ok(number)
            } else {
                Err(too_far)
            }
        }
        Err(ChineseToNumberError::Overflow) => Err(too_far),
        Err(error) => Err(error),
    }
}

// Reads plain digits.
#[inline(always)]
fn read_naive(integer: IntegerType, text: &str) -> Result<SignedMagnitude, ChineseToNumberError>
    ensures answer { answer_of stands_for result ≡ naive_reading (the_kind integer) text.now }
    ensures held { IfOk result (λ n. IsTrue (holds (the_kind integer) (stands_for n))) }
{
    let after = split_sign(integer.is_signed(), text);
    signed_answer(integer, after.sign, judge_naive(after.skipped, after.rest))
}

// Reads a numeral with units.
#[inline(always)]
fn read_units(
    integer: IntegerType,
    method: ChineseCountMethod,
    text: &str,
) -> Result<SignedMagnitude, ChineseToNumberError>
    ensures answer { Reads (the_kind integer) method text.now (answer_of stands_for result) }
    ensures held { IfOk result (λ n. IsTrue (holds (the_kind integer) (stands_for n))) }
{
    let after = split_sign(integer.is_signed(), text);
    let judged = judge_quickly(method, after.skipped, after.rest);
    signed_answer(integer, after.sign, judged)
}

/// Reads a text in the given way as a number of an integer type, as `read_by` does, but with one
/// function for all types.
#[inline(always)]
pub fn read_as(
    integer: IntegerType,
    way: Way,
    text: &str,
) -> Result<SignedMagnitude, ChineseToNumberError>
    ensures answer { ReadsBy (the_kind integer) way text.now (answer_of stands_for result) }
    ensures held { IfOk result (λ n. IsTrue (holds (the_kind integer) (stands_for n))) }
{
    match way {
        Way::Digits => read_naive(integer, text),
        Way::Units(method) => read_units(integer, method, text),
    }
}

// The reason for an error that a reader returned.
fn fault_by(way: Way, text: &str, error: ChineseToNumberError) -> NumeralFault
    ensures { result ≡ reason_of (rule_by way text.now) (refusal_of error) }
{
    match way {
        Way::Digits => naive_reason_of(error),
        Way::Units(_) => reason_of(text, error),
    }
}

/// Why a text is not read in the given way as a number of an integer type; `None` if it is. With
/// `either_way`, that is the reason of the reader that judged the text.
pub fn explain_as(integer: IntegerType, way: Way, text: &str) -> Option<NumeralFault>
    ensures { IsReasonBy (the_kind integer) way text.now result }
{
    match read_as(integer, way, text) {
        Ok(_) => None,
        Err(error) => Some(fault_by(way, text, error)),
    }
}

// The answer for an unsigned type, from the answer to a text.
#[inline(always)]
fn unsigned_answer(
    integer: IntegerType,
    judged: Result<u128, ChineseToNumberError>,
) -> Result<u128, ChineseToNumberError>
    requires { (the_kind integer).signed ≡ false }
    ensures { answer_of (λ n. pos n) result
        ≡ signed_answer (the_kind integer) None (answer_of (λ n. n) judged) }
{
    match judged {
        Ok(number) if number > integer.greatest() => Err(ChineseToNumberError::Overflow),
        _ => judged,
    }
}

/// Reads a text in the given way as a number of an unsigned type, in fewer instructions than
/// `read_as`.
#[inline(always)]
pub fn read_unsigned(
    integer: IntegerType,
    way: Way,
    text: &str,
) -> Result<u128, ChineseToNumberError>
    requires { (the_kind integer).signed ≡ false }
    ensures { ReadsBy (the_kind integer) way text.now (answer_of (λ n. pos n) result) }
{
    let judged = match way {
        Way::Digits => judge_naive(0, text),
        Way::Units(method) => judge_quickly(method, 0, text),
    };
    unsigned_answer(integer, judged)
}
