// Made by checks/calls.py.
// The unsigned types of up to 64 bits.
ghost use Rattle.std.specs.Prelude.{refl, pos, negsuc, false, true};
ghost use Rattle.cn_core.specs.Whole.{unsigned_kind};
ghost use Rattle.cn_core.specs.WholeLaws.{pos_same, unsigned_holds};

use crate::Whole;

impl Whole for u8 {
    const SIGNED: bool = false;

    const NARROW: bool = true;

    ghost SIGNED = { false };

    ghost NARROW = { true };

    const MIN: u8 = u8::MIN;

    const MAX: u8 = u8::MAX;

    ghost MIN = { 0 };

    ghost MAX = { 255 };

    ghost kind = { unsigned_kind 8 };

    ghost number = { λ x. pos x };

    fn sign_and_magnitude(self) -> (bool, u128) {
        (false, self as u128)
    }

    fn from_magnitude(negative: bool, magnitude: u128) -> Option<u8> {
        u8::try_from(u128::from_magnitude(negative, magnitude)?).ok()
    }

    ghost same_number = { pos_same };

    ghost holds_each = { unsigned_holds 8 };

    ghost is_whole = { record { sign = refl; zero = refl; low = refl; width = refl; fits = refl } };

    ghost least_is = { refl };

    ghost greatest_is = { refl };
}

impl Whole for u16 {
    const SIGNED: bool = false;

    const NARROW: bool = true;

    ghost SIGNED = { false };

    ghost NARROW = { true };

    const MIN: u16 = u16::MIN;

    const MAX: u16 = u16::MAX;

    ghost MIN = { 0 };

    ghost MAX = { 65535 };

    ghost kind = { unsigned_kind 16 };

    ghost number = { λ x. pos x };

    fn sign_and_magnitude(self) -> (bool, u128) {
        (false, self as u128)
    }

    fn from_magnitude(negative: bool, magnitude: u128) -> Option<u16> {
        u16::try_from(u128::from_magnitude(negative, magnitude)?).ok()
    }

    ghost same_number = { pos_same };

    ghost holds_each = { unsigned_holds 16 };

    ghost is_whole = { record { sign = refl; zero = refl; low = refl; width = refl; fits = refl } };

    ghost least_is = { refl };

    ghost greatest_is = { refl };
}

impl Whole for u32 {
    const SIGNED: bool = false;

    const NARROW: bool = false;

    ghost SIGNED = { false };

    ghost NARROW = { false };

    const MIN: u32 = u32::MIN;

    const MAX: u32 = u32::MAX;

    ghost MIN = { 0 };

    ghost MAX = { 4294967295 };

    ghost kind = { unsigned_kind 32 };

    ghost number = { λ x. pos x };

    fn sign_and_magnitude(self) -> (bool, u128) {
        (false, self as u128)
    }

    fn from_magnitude(negative: bool, magnitude: u128) -> Option<u32> {
        u32::try_from(u128::from_magnitude(negative, magnitude)?).ok()
    }

    ghost same_number = { pos_same };

    ghost holds_each = { unsigned_holds 32 };

    ghost is_whole = { record { sign = refl; zero = refl; low = refl; width = refl; fits = refl } };

    ghost least_is = { refl };

    ghost greatest_is = { refl };
}

impl Whole for u64 {
    const SIGNED: bool = false;

    const NARROW: bool = false;

    ghost SIGNED = { false };

    ghost NARROW = { false };

    const MIN: u64 = u64::MIN;

    const MAX: u64 = u64::MAX;

    ghost MIN = { 0 };

    ghost MAX = { 18446744073709551615 };

    ghost kind = { unsigned_kind 64 };

    ghost number = { λ x. pos x };

    fn sign_and_magnitude(self) -> (bool, u128) {
        (false, self as u128)
    }

    fn from_magnitude(negative: bool, magnitude: u128) -> Option<u64> {
        u64::try_from(u128::from_magnitude(negative, magnitude)?).ok()
    }

    ghost same_number = { pos_same };

    ghost holds_each = { unsigned_holds 64 };

    ghost is_whole = { record { sign = refl; zero = refl; low = refl; width = refl; fits = refl } };

    ghost least_is = { refl };

    ghost greatest_is = { refl };
}

impl Whole for usize {
    const SIGNED: bool = false;

    const NARROW: bool = false;

    ghost SIGNED = { false };

    ghost NARROW = { false };

    const MIN: usize = usize::MIN;

    const MAX: usize = usize::MAX;

    ghost MIN = { 0 };

    ghost MAX = { 18446744073709551615 };

    ghost kind = { unsigned_kind 64 };

    ghost number = { λ x. pos x };

    fn sign_and_magnitude(self) -> (bool, u128) {
        (false, self as u128)
    }

    fn from_magnitude(negative: bool, magnitude: u128) -> Option<usize> {
        usize::try_from(u128::from_magnitude(negative, magnitude)?).ok()
    }

    ghost same_number = { pos_same };

    ghost holds_each = { unsigned_holds 64 };

    ghost is_whole = { record { sign = refl; zero = refl; low = refl; width = refl; fits = refl } };

    ghost least_is = { refl };

    ghost greatest_is = { refl };
}
