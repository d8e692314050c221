// Reads plain decimal digits from left to right.
ghost use Rattle.std.specs.Prelude.{◌≡◌, ◌+◌, ◌<◌, ◌≤◌, ◌^◌, [], length, chars, IfSome, MatchOption};
ghost use Rattle.cn_core.specs.Mark.{mark_of};
ghost use Rattle.cn_core.specs.Text.{text_of, marks_of};
ghost use Rattle.cn_core.specs.Naive.{naive_answer};
ghost use Rattle.cn_core.specs.Reading.{naive_reading};
ghost use Rattle.cn_judge.specs.Answer.{answer_of};
ghost use Rattle.cn_judge.specs.Marked.{marked};
ghost use Rattle.cn_judge.specs.Piece.{answer_at};
ghost use Rattle.cn_judge.specs.Private.PlainPiece.{IsPiece, IsDigitRun, StartsWith, piece_len};

use crate::ChineseToNumberError;
use crate::judge::{signed_answer, split_sign};
use crate::mark::Mark;
use crate::open_units::multiply_add;
use crate::text::{split_first_digit, split_first_mark};
use cn_core::Whole;

// A run of digits: how many they are, 10 to the power of that, and their number.
#[derive(Copy, Clone)]
struct DigitRun {
    count: usize,
    weight: u64,
    value: u64,
}

// Splits off the digits of three bytes at the start of a text, at most nineteen, whose number fits
// 64 bits.
// Same answer (<= → <, 1_000_000_000_000_000_000 → 999999999999999999): more digits are read in two
// runs, which give the same number.
// Same answer (1_000_000_000_000_000_000 → 1000000000000000001): a weight is a power of ten.
#[inline(always)]
fn split_digit_run(text: &str) -> (DigitRun, &str)
    ensures run { IsDigitRun text.now result.1.now result.0.count result.0.weight result.0.value }
    ensures within { result.0.count + length result.1.now ≤ length text.now }
{
    let mut run = DigitRun {
        count: 0,
        weight: 1,
        value: 0,
    };
    let mut rest = text;
    'gathering: while run.weight <= 1_000_000_000_000_000_000 {
        let Some((digit, after)) = split_first_digit(rest) else {
            break;
        };
        run = DigitRun {
            count: run.count + 1,
            weight: run.weight * 10,
            value: run.value * 10 + digit as u64,
        };
        rest = after;
    }
    (run, rest)
}

// The piece at the start of a text that is read as plain digits.
#[derive(Copy, Clone)]
enum Piece {
    Digits(DigitRun),
    White,
    Wrong,
}

// The piece of one character, given its mark.
#[inline(always)]
fn piece_of(c: char, mark: Mark) -> Piece
    requires { marked mark ≡ mark_of c }
    ensures { IsPiece result c }
{
    match mark {
        Mark::Digit(digit) => Piece::Digits(DigitRun {
            count: 1,
            weight: 10,
            value: digit as u64,
        }),
        Mark::Unit(_) => Piece::Wrong,
        Mark::Other => {
            if c.is_whitespace() {
                Piece::White
            } else {
                Piece::Wrong
            }
        }
    }
}

// Splits off the first piece of a text. Digits of three bytes take a fast path.
// Same answer (if run.count > 0 → nothing, 0 → 1): without a run, `piece_of` finds what the first
// character is, more slowly.
#[inline(always)]
fn split_first_piece(text: &str) -> Option<(Piece, &str)>
    ensures parts { MatchOption result (chars text.now ≡ [])
        (λ r. StartsWith r.0 text.now r.1.now) }
    ensures within { IfSome result
        (λ r. (piece_len r.0 + length r.1.now ≤ length text.now) × (0 < piece_len r.0)) }
{
    let (run, after) = split_digit_run(text);
    if run.count > 0 {
        return Some((Piece::Digits(run), after));
    }
    let (c, mark, after) = split_first_mark(text)?;
    Some((piece_of(c, mark), after))
}

/// The answer to plain digits without sign; `skipped` is the number of characters before them in
/// the caller's string.
pub fn judge_naive(skipped: usize, text: &str) -> Result<u128, ChineseToNumberError>
    requires { skipped + length text.now < 2 ^ 64 }
    ensures { answer_of (λ n. n) result
        ≡ answer_at skipped text.now (naive_answer (marks_of (text_of text.now))) }
{
    let mut rest = text;
    let mut digits = 0;
    // The number of other characters before `rest`: those before the text, and white space.
    let mut others = skipped;
    let mut number = 0u128;
    'reading: while let Some((piece, after)) = split_first_piece(rest) {
        match piece {
            Piece::Digits(run) => {
                let Some(longer) = multiply_add(number, run.weight as u128, run.value as u128)
                else {
                    return Err(ChineseToNumberError::Overflow);
                };
                number = longer;
                digits += run.count;
            }
            Piece::White => others += 1,
            Piece::Wrong => {
                return Err(ChineseToNumberError::ChineseNumberIncorrect {
                    char_index: digits + others,
                });
            }
        }
        rest = after;
    }
    if digits == 0 {
        Err(ChineseToNumberError::ChineseNumberEmpty)
    } else {
        Ok(number)
    }
}

/// Reads plain digits after at most one sign.
pub fn read_naive<T: Whole>(text: &str) -> Result<T, ChineseToNumberError>
    ensures { answer_of T.number result ≡ naive_reading T.kind text.now }
{
    let after = split_sign(T::SIGNED, text);
    signed_answer(after.sign, judge_naive(after.skipped, after.rest))
}
