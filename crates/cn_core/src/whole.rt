ghost use Rattle.std.specs.Prelude.{◌≡◌, ◌↔◌, ◌^◌, ◌<◌, ◌≤◌, ℤ, pos, ◌<ℤ◌, nat_abs, Bool, true, false, IsTrue, IsSome, IfSome};
ghost use Rattle.cn_core.specs.Whole.{Kind, holds, signed_number};
ghost use Rattle.cn_core.specs.WholeLaws.{IsWholeType, from-zero, narrow-magnitudes, magnitude-fits};

mod signed;
mod unsigned;
mod wide;

// To add a type, add it to checks/calls.txt and run `python3 checks/calls.py . --write`. Types of
// 128 bits are written by hand in whole/wide.rt.
/// An integer type that numerals are read and written for: one of the twelve from `u8` to `isize`.
///
/// A value is given by its sign and its magnitude.
///
/// ```text
/// i8::from_magnitude(true, 128) == Some(i8::MIN)
/// i8::from_magnitude(false, 128) == None
/// ```
pub trait Whole: Copy {
    /// Whether the type holds numbers below zero.
    const SIGNED: bool;

    /// Whether the type has 8 or 16 bits: true for `u8`, `u16`, `i8` and `i16`, false for the other
    /// eight.
    ///
    /// No reader or printer uses it. A caller can use it to find the types whose readers by name
    /// all read with `Low`.
    const NARROW: bool;

    ghost SIGNED: { Bool };

    ghost NARROW: { Bool };

    // The least and the greatest value.
    const MIN: Self;

    const MAX: Self;

    ghost MIN: { Self };

    ghost MAX: { Self };

    // The kind of the type: whether it is signed, and its least and greatest number.
    ghost kind: { Kind };

    // The number that a value stands for.
    ghost number: { Self → ℤ };

    /// Whether the number is below zero, and its magnitude: `(true, 128)` for `i8::MIN`.
    fn sign_and_magnitude(self) -> (bool, u128)
        ensures sign { IsTrue result.0 ↔ (number self <ℤ pos 0) }
        ensures value { result.1 ≡ nat_abs (number self) }
        ensures held { IsTrue (holds kind (number self)) };

    /// Whether the number is below zero.
    final fn is_negative(self) -> bool
        ensures { IsTrue result ↔ (number self <ℤ pos 0) }
    {
        self.sign_and_magnitude().0
    }

    /// The number without its sign: 128 for `i8::MIN`.
    final fn magnitude(self) -> u128
        ensures value { result ≡ nat_abs (number self) }
        ensures held { IsTrue (holds kind (number self)) }
    {
        self.sign_and_magnitude().1
    }

    /// The least value of the type.
    final fn least() -> Self
        ensures { number result ≡ kind.least }
    {
        Self::MIN
    }

    /// The greatest value of the type.
    final fn greatest() -> Self
        ensures { number result ≡ kind.greatest }
    {
        Self::MAX
    }

    /// The value with this sign and magnitude; `None` exactly if the type does not hold it.
    ///
    /// With magnitude 0 the sign does not matter.
    fn from_magnitude(negative: bool, magnitude: u128) -> Option<Self>
        ensures value { IfSome result (λ x. number x ≡ signed_number negative magnitude) }
        ensures held { IsSome result ↔ IsTrue (holds kind (signed_number negative magnitude)) };

    // The laws. Values with the same number are equal.
    ghost same_number: { (x y : Self) → number x ≡ number y → x ≡ y };

    // The type holds each number from its least to its greatest.
    ghost holds_each: { (z : ℤ) → IsTrue (holds kind z) → (x : Self) × (number x ≡ z) };

    ghost least_is: { number MIN ≡ kind.least };

    ghost greatest_is: { number MAX ≡ kind.greatest };

    // The facts that each type shows by computation; the laws below follow from them.
    ghost is_whole: { IsWholeType SIGNED NARROW kind };

    ghost signed_is: { kind.signed ≡ SIGNED } = { is_whole.sign };

    ghost holds_zero: { IsTrue (holds kind (pos 0)) } = { is_whole.zero };

    ghost unsigned_from_zero: { SIGNED ≡ false → kind.least ≡ pos 0 } = { from-zero _ _ _ is_whole };

    // A type is narrow exactly if no magnitude that it holds is above 65535.
    ghost narrow_is: { NARROW ≡ true ↔ ((z : ℤ)
        → IsTrue (holds kind z) → nat_abs z ≤ 65535) } = { narrow-magnitudes _ _ _ is_whole };

    // Each magnitude fits 128 bits.
    ghost magnitude_fits: { (z : ℤ) → IsTrue (holds kind z)
        → nat_abs z < 2 ^ 128 } = { magnitude-fits _ _ _ is_whole };
}
