// Made by checks/calls.py.
// The signed types of up to 64 bits.
ghost use Rattle.std.specs.Prelude.{refl, true, false, pos, negsuc};
ghost use Rattle.cn_core.specs.Whole.{signed_kind};

use crate::Whole;

impl Whole for i8 {
    const SIGNED: bool = true;

    const NARROW: bool = true;

    ghost SIGNED = { true };

    ghost NARROW = { true };

    const MIN: i8 = i8::MIN;

    const MAX: i8 = i8::MAX;

    ghost MIN = { negsuc 127 };

    ghost MAX = { pos 127 };

    ghost kind = { signed_kind 8 };

    ghost number = { λ x. x };

    fn sign_and_magnitude(self) -> (bool, u128) {
        (self < 0, self.unsigned_abs() as u128)
    }

    fn from_magnitude(negative: bool, magnitude: u128) -> Option<i8> {
        i8::try_from(i128::from_magnitude(negative, magnitude)?).ok()
    }

    ghost same_number = { λ x y e. e };

    ghost holds_each = { λ z h. (z, refl) };

    ghost is_whole = { record { sign = refl; zero = refl; low = refl; width = refl; fits = refl } };

    ghost least_is = { refl };

    ghost greatest_is = { refl };
}

impl Whole for i16 {
    const SIGNED: bool = true;

    const NARROW: bool = true;

    ghost SIGNED = { true };

    ghost NARROW = { true };

    const MIN: i16 = i16::MIN;

    const MAX: i16 = i16::MAX;

    ghost MIN = { negsuc 32767 };

    ghost MAX = { pos 32767 };

    ghost kind = { signed_kind 16 };

    ghost number = { λ x. x };

    fn sign_and_magnitude(self) -> (bool, u128) {
        (self < 0, self.unsigned_abs() as u128)
    }

    fn from_magnitude(negative: bool, magnitude: u128) -> Option<i16> {
        i16::try_from(i128::from_magnitude(negative, magnitude)?).ok()
    }

    ghost same_number = { λ x y e. e };

    ghost holds_each = { λ z h. (z, refl) };

    ghost is_whole = { record { sign = refl; zero = refl; low = refl; width = refl; fits = refl } };

    ghost least_is = { refl };

    ghost greatest_is = { refl };
}

impl Whole for i32 {
    const SIGNED: bool = true;

    const NARROW: bool = false;

    ghost SIGNED = { true };

    ghost NARROW = { false };

    const MIN: i32 = i32::MIN;

    const MAX: i32 = i32::MAX;

    ghost MIN = { negsuc 2147483647 };

    ghost MAX = { pos 2147483647 };

    ghost kind = { signed_kind 32 };

    ghost number = { λ x. x };

    fn sign_and_magnitude(self) -> (bool, u128) {
        (self < 0, self.unsigned_abs() as u128)
    }

    fn from_magnitude(negative: bool, magnitude: u128) -> Option<i32> {
        i32::try_from(i128::from_magnitude(negative, magnitude)?).ok()
    }

    ghost same_number = { λ x y e. e };

    ghost holds_each = { λ z h. (z, refl) };

    ghost is_whole = { record { sign = refl; zero = refl; low = refl; width = refl; fits = refl } };

    ghost least_is = { refl };

    ghost greatest_is = { refl };
}

impl Whole for i64 {
    const SIGNED: bool = true;

    const NARROW: bool = false;

    ghost SIGNED = { true };

    ghost NARROW = { false };

    const MIN: i64 = i64::MIN;

    const MAX: i64 = i64::MAX;

    ghost MIN = { negsuc 9223372036854775807 };

    ghost MAX = { pos 9223372036854775807 };

    ghost kind = { signed_kind 64 };

    ghost number = { λ x. x };

    fn sign_and_magnitude(self) -> (bool, u128) {
        (self < 0, self.unsigned_abs() as u128)
    }

    fn from_magnitude(negative: bool, magnitude: u128) -> Option<i64> {
        i64::try_from(i128::from_magnitude(negative, magnitude)?).ok()
    }

    ghost same_number = { λ x y e. e };

    ghost holds_each = { λ z h. (z, refl) };

    ghost is_whole = { record { sign = refl; zero = refl; low = refl; width = refl; fits = refl } };

    ghost least_is = { refl };

    ghost greatest_is = { refl };
}

impl Whole for isize {
    const SIGNED: bool = true;

    const NARROW: bool = false;

    ghost SIGNED = { true };

    ghost NARROW = { false };

    const MIN: isize = isize::MIN;

    const MAX: isize = isize::MAX;

    ghost MIN = { negsuc 9223372036854775807 };

    ghost MAX = { pos 9223372036854775807 };

    ghost kind = { signed_kind 64 };

    ghost number = { λ x. x };

    fn sign_and_magnitude(self) -> (bool, u128) {
        (self < 0, self.unsigned_abs() as u128)
    }

    fn from_magnitude(negative: bool, magnitude: u128) -> Option<isize> {
        isize::try_from(i128::from_magnitude(negative, magnitude)?).ok()
    }

    ghost same_number = { λ x y e. e };

    ghost holds_each = { λ z h. (z, refl) };

    ghost is_whole = { record { sign = refl; zero = refl; low = refl; width = refl; fits = refl } };

    ghost least_is = { refl };

    ghost greatest_is = { refl };
}
