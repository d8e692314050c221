// Printing with units.
ghost use Rattle.std.specs.Prelude.{◌≡◌, pos, IfOk, IsTrue, MatchResult};
ghost use Rattle.cn_core.specs.Spelling.{spelling};
ghost use Rattle.cn_core.specs.Printing.{signed_text, spelled_text, is_printable};
ghost use Rattle.cn_spell.specs.Prints.{Prints, PutsSpelled, IsUnwritten, most_bytes};
ghost use Rattle.cn_spell.specs.Working.Room.{Shows};
ghost use Rattle.cn_spell.specs.Writes.{Writes};

use crate::NumberToChineseError;
use crate::characters::Characters;
use crate::sections::MOST;
use crate::spelled::{ByHigh, ByLow, ByMiddle, ByTenThousand, KnownMethod, Spelled};
use crate::text::{NewString, ROOM_BYTES, Target};
use cn_core::{ChineseCase, ChineseCountMethod, ChineseVariant, Whole};
use std::alloc::{AllocError, Global};
use std::str;

// `Low` writes magnitudes of at most sixteen digits.
const LOW_LIMIT: u128 = 10_000_000_000_000_000;

// Writes a sign and a magnitude with a method that is known at compile time.
fn spell_known<M: KnownMethod, P: Target>(
    target: &mut P,
    characters: Characters,
    negative: bool,
    magnitude: u128,
) -> P::Answer
    requires { IsTrue (is_printable M.stands_for (pos magnitude)) }
    ensures { P.took
        (signed_text characters.variant characters.case negative (spelling M.stands_for magnitude))
        (most_bytes M.stands_for) target.old target.new result }
{
    let mut taken = [0; MOST];
    target.take(&Spelled::<M>::of(&mut taken, characters, negative, magnitude))
}

// Writes a sign and a magnitude with the given method.
fn spell_magnitude<P: Target>(
    target: &mut P,
    characters: Characters,
    method: ChineseCountMethod,
    negative: bool,
    magnitude: u128,
) -> P::Answer
    requires { IsTrue (is_printable method (pos magnitude)) }
    ensures { P.took
        (signed_text characters.variant characters.case negative (spelling method magnitude))
        (most_bytes method) target.old target.new result }
{
    match method {
        ChineseCountMethod::Low => {
            spell_known::<ByLow, P>(target, characters, negative, magnitude)
        }
        ChineseCountMethod::TenThousand => {
            spell_known::<ByTenThousand, P>(target, characters, negative, magnitude)
        }
        ChineseCountMethod::Middle => {
            spell_known::<ByMiddle, P>(target, characters, negative, magnitude)
        }
        ChineseCountMethod::High => {
            spell_known::<ByHigh, P>(target, characters, negative, magnitude)
        }
    }
}

// Writes a number with the given method.
#[inline(always)]
fn spell_number<P: Target, T: Whole>(
    target: &mut P,
    characters: Characters,
    method: ChineseCountMethod,
    value: T,
) -> P::Answer
    requires { IsTrue (is_printable method (T.number value)) }
    ensures { P.took
        (spelled_text characters.variant characters.case method (T.number value))
        (most_bytes method) target.old target.new result }
{
    spell_magnitude(
        target,
        characters,
        method,
        value.is_negative(),
        value.magnitude(),
    )
}

/// The spelling of a number that the method writes, with one allocation.
pub fn print_by_units<T: Whole>(
    alloc: Global,
    variant: ChineseVariant,
    case: ChineseCase,
    method: ChineseCountMethod,
    value: T,
) -> Result<String, AllocError>
    requires { IsTrue (is_printable method (T.number value)) }
    ensures { IfOk result (Writes
        (spelled_text variant case method (T.number value)) (most_bytes method)) }
{
    let mut string = NewString { alloc };
    spell_number(&mut string, Characters::new(variant, case), method, value)
}

// Returns an error if the method does not write the number.
#[inline(always)]
fn test_printable<T: Whole>(
    method: ChineseCountMethod,
    value: T,
) -> Result<(), NumberToChineseError>
    ensures { MatchResult result (λ _. IsTrue (is_printable method (T.number value)))
        (IsUnwritten method (T.number value)) }
{
    match method {
        ChineseCountMethod::Low if value.magnitude() >= LOW_LIMIT => {
            Err(if value.is_negative() {
                NumberToChineseError::Underflow
            } else {
                NumberToChineseError::Overflow
            })
        }
        _ => Ok(()),
    }
}

/// The spelling of any number. If the method does not write it, the error is returned before memory
/// is allocated.
pub fn print_or_refuse<T: Whole>(
    alloc: Global,
    variant: ChineseVariant,
    case: ChineseCase,
    method: ChineseCountMethod,
    value: T,
) -> Result<String, NumberToChineseError>
    ensures { Prints variant case method (T.number value) result }
{
    test_printable(method, value)?;
    Ok(print_by_units(alloc, variant, case, method, value)?)
}

// Writes the text of a number at the end of a buffer, and returns where it begins.
#[inline(always)]
fn put_at_end<T: Whole>(
    room: &mut [u8; ROOM_BYTES],
    characters: Characters,
    method: ChineseCountMethod,
    value: T,
) -> usize
    requires { IsTrue (is_printable method (T.number value)) }
    ensures { Shows result room.new
        (spelled_text characters.variant characters.case method (T.number value)) }
{
    spell_number(room, characters, method, value)
}

/// Writes a number with the units of a method at the end of a buffer, and returns its text.
///
/// ```text
/// let mut room = [0; ROOM_BYTES];
/// put_chinese(&mut room, ChineseVariant::Simple, ChineseCase::Lower, ChineseCountMethod::Low, 105)
/// // 一百零五
/// ```
///
/// It allocates no memory. With `Low`, a number of 10^16 or more returns `Overflow`, and one of
/// -10^16 or less returns `Underflow`. There is no other error.
#[inline(always)]
pub fn put_chinese<'a, T: Whole>(
    room: &'a mut [u8; ROOM_BYTES],
    variant: ChineseVariant,
    case: ChineseCase,
    method: ChineseCountMethod,
    value: T,
) -> Result<&'a str, NumberToChineseError>
    ensures { MatchResult result
        (λ text. PutsSpelled variant case method (T.number value) text.now)
        (IsUnwritten method (T.number value)) }
{
    test_printable(method, value)?;
    let start = put_at_end(room, Characters::new(variant, case), method, value);
    Ok(unsafe { str::from_utf8_unchecked(&room[start..]) })
}
