// Parses the question that a line asks.
ghost use Rattle.std.specs.Prelude.{◌≡◌, ◌==◌, ◌+◌, ◌*◌, ◌^◌, ◌<◌, ◌≤◌, ◌∷◌, position, length, IsTrue, SomeIff, IfNone, IfSome, MatchOption};
ghost use Rattle.std.specs.List.{list_all};
ghost use Rattle.std.specs.Char.{is_ascii_digit};
ghost use Rattle.cn_lines.specs.Question.{cut, type_named, script_named, case_named, magnitude_of, decimal_number, read, print, read_question, print_question};
ghost use Rattle.cn_lines.specs.Answer.{bad_line, AnswersAny};
ghost use Rattle.cn_lines.specs.Private.{IsBeyondAll};
ghost use Rattle.cn_dynamic.specs.Decimal.{value_after, value_of};
ghost use Rattle.cn_dynamic.specs.Ways.{stands_for};

use crate::lines::first_position;
use chinese_number::{ChineseCase, ChineseVariant};
use cn_dynamic::{IntegerType, SignedMagnitude, Way, utf8_text, way_named};

/// The first field, which ends before a space, and everything after the space.
pub(crate) fn cut(bytes: &[u8]) -> Option<(&[u8], &[u8])>
    ensures { MatchOption result (cut bytes.now ≡ None)
        (λ r. cut bytes.now ≡ Some (r.0.now, r.1.now)) }
{
    let Some(end) = first_position(b' ', bytes) else {
        return None;
    };
    Some((&bytes[..end], &bytes[end + 1..]))
}

// The unsigned type whose name ends with this width.
#[inline(always)]
fn unsigned_type(width: &[u8]) -> Option<IntegerType>
    ensures { result ≡ type_named (117 ∷ width.now) }
{
    match width {
        b"8" => Some(IntegerType::U8),
        b"16" => Some(IntegerType::U16),
        b"32" => Some(IntegerType::U32),
        b"64" => Some(IntegerType::U64),
        b"128" => Some(IntegerType::U128),
        b"size" => Some(IntegerType::U64),
        _ => None,
    }
}

// The signed type whose name ends with this width.
#[inline(always)]
fn signed_type(width: &[u8]) -> Option<IntegerType>
    ensures { result ≡ type_named (105 ∷ width.now) }
{
    match width {
        b"8" => Some(IntegerType::I8),
        b"16" => Some(IntegerType::I16),
        b"32" => Some(IntegerType::I32),
        b"64" => Some(IntegerType::I64),
        b"128" => Some(IntegerType::I128),
        b"size" => Some(IntegerType::I64),
        _ => None,
    }
}

#[inline(always)]
fn type_named(name: &[u8]) -> Option<IntegerType>
    ensures { result ≡ type_named name.now }
{
    match name {
        [b'u', width @ ..] => unsigned_type(width),
        [b'i', width @ ..] => signed_type(width),
        _ => None,
    }
}

fn script_named(name: &[u8]) -> Option<ChineseVariant>
    ensures { result ≡ script_named name.now }
{
    if name == b"traditional".as_slice() {
        Some(ChineseVariant::Traditional)
    } else if name == b"simple".as_slice() {
        Some(ChineseVariant::Simple)
    } else {
        None
    }
}

fn case_named(name: &[u8]) -> Option<ChineseCase>
    ensures { result ≡ case_named name.now }
{
    match name {
        b"upper" => Some(ChineseCase::Upper),
        b"lower" => Some(ChineseCase::Lower),
        _ => None,
    }
}

// The most decimal digits whose number always fits 64 bits.
const SHORT: usize = 19;

// The number that at most this many decimal digits write.
fn short_value(digits: &[u8]) -> Option<u64>
    requires { length digits.now ≤ SHORT }
    ensures { SomeIff result (IsTrue (list_all is_ascii_digit digits.now)) (value_of digits.now) }
{
    let mut value = 0u64;
    for digit in digits {
        if !digit.is_ascii_digit() {
            return None;
        }
        value = value * 10 + (digit - b'0') as u64;
    }
    Some(value)
}

// The number with one more digit; `None` if it does not fit.
fn push_digit(number: u128, digit: u8) -> Option<u128>
    ensures { SomeIff result (number * 10 + digit < 2 ^ 128) (number * 10 + digit) }
{
    number.checked_mul(10)?.checked_add(digit as u128)
}

// The number that decimal digits write when they are appended to those of another number. `None` if
// there is another byte, or if the number does not fit 128 bits.
fn longer_value(start: u128, digits: &[u8]) -> Option<u128>
    ensures none { IfNone result
        (IsTrue (list_all is_ascii_digit digits.now) → 2 ^ 128 ≤ value_after start digits.now) }
    ensures some { IfSome result (λ n. IsTrue (list_all is_ascii_digit digits.now)
        × (n ≡ value_after start digits.now)) }
{
    let mut value = start;
    for digit in digits {
        if !digit.is_ascii_digit() {
            return None;
        }
        let Some(longer) = push_digit(value, digit - b'0') else {
            return None;
        };
        value = longer;
    }
    Some(value)
}

// The magnitude that one or more decimal digits write. Also `None` if it does not fit 128 bits.
fn magnitude_of(digits: &[u8]) -> Option<u128>
    ensures none { IfNone result (IfSome (magnitude_of digits.now) (λ n. 2 ^ 128 ≤ n)) }
    ensures some { IfSome result (λ n. magnitude_of digits.now ≡ Some n) }
{
    if digits.is_empty() {
        return None;
    }
    let (front, rest) = digits.split_at(digits.len().min(SHORT));
    match short_value(front) {
        Some(start) => longer_value(start as u128, rest),
        None => None,
    }
}

/// A text to be read as a number of a type.
#[derive(Clone, Copy)]
pub(crate) struct Reading<'a> {
    pub(crate) integer: IntegerType,
    pub(crate) way: Way,
    pub(crate) text: &'a str,
}

/// Parses the fields after `read `: a type, a way and a text.
#[inline(always)]
pub(crate) fn asked_reading(fields: &[u8]) -> Option<Reading<'_>>
    ensures { MatchOption result (read_question fields.now ≡ None)
        (λ r. read_question fields.now ≡ Some (read r.integer r.way r.text.now)) }
{
    let (integer, rest) = cut(fields)?;
    let (way, text) = cut(rest)?;
    let way = way_named(way)?;
    let integer = type_named(integer)?;
    let text = utf8_text(text)?;
    Some(Reading { integer, way, text })
}

// A decimal number. Also `None` if its magnitude does not fit 128 bits, since no type holds it.
#[inline(always)]
fn decimal_number(field: &[u8]) -> Option<SignedMagnitude>
    ensures none { IfNone result (IfSome (decimal_number field.now) IsBeyondAll) }
    ensures some { IfSome result (λ n. decimal_number field.now ≡ Some (stands_for n)) }
{
    let (negative, digits) = match field {
        [b'-', digits @ ..] => (true, digits),
        _ => (false, field),
    };
    let magnitude = magnitude_of(digits)?;
    Some(SignedMagnitude {
        negative,
        magnitude,
    })
}

/// A number to be printed, if its type holds it.
#[derive(Clone, Copy)]
pub(crate) struct Printing {
    pub(crate) integer: IntegerType,
    pub(crate) way: Way,
    pub(crate) variant: ChineseVariant,
    pub(crate) case: ChineseCase,
    pub(crate) number: SignedMagnitude,
}

/// Parses the fields after `print `: a type, a way, a script, a case and a number.
#[inline(always)]
pub(crate) fn asked_printing(fields: &[u8]) -> Option<Printing>
    ensures none { IfNone result (AnswersAny (print_question fields.now) bad_line) }
    ensures some { IfSome result (λ p. print_question fields.now
        ≡ Some (print p.integer p.way p.variant p.case (stands_for p.number))) }
{
    let (integer, rest) = cut(fields)?;
    let (way, rest) = cut(rest)?;
    let (variant, rest) = cut(rest)?;
    let (case, number) = cut(rest)?;
    let way = way_named(way)?;
    let variant = script_named(variant)?;
    let case = case_named(case)?;
    let number = decimal_number(number)?;
    let integer = type_named(integer)?;
    Some(Printing {
        integer,
        way,
        variant,
        case,
        number,
    })
}
