// The types of 128 bits.
ghost use Rattle.std.specs.Prelude.{refl, pos, negsuc, false, true};
ghost use Rattle.cn_core.specs.Whole.{unsigned_kind, signed_kind};
ghost use Rattle.cn_core.specs.WholeLaws.{pos_same, unsigned_holds};

use crate::Whole;

impl Whole for u128 {
    const SIGNED: bool = false;

    const NARROW: bool = false;

    ghost SIGNED = { false };

    ghost NARROW = { false };

    const MIN: u128 = u128::MIN;

    const MAX: u128 = u128::MAX;

    ghost MIN = { 0 };

    ghost MAX = { 340282366920938463463374607431768211455 };

    ghost kind = { unsigned_kind 128 };

    ghost number = { λ x. pos x };

    fn sign_and_magnitude(self) -> (bool, u128) {
        (false, self)
    }

    fn from_magnitude(negative: bool, magnitude: u128) -> Option<u128> {
        if negative && magnitude > 0 {
            None
        } else {
            Some(magnitude)
        }
    }

    ghost same_number = { pos_same };

    ghost holds_each = { unsigned_holds 128 };

    ghost is_whole = { record { sign = refl; zero = refl; low = refl; width = refl; fits = refl } };

    ghost least_is = { refl };

    ghost greatest_is = { refl };
}

impl Whole for i128 {
    const SIGNED: bool = true;

    const NARROW: bool = false;

    ghost SIGNED = { true };

    ghost NARROW = { false };

    const MIN: i128 = i128::MIN;

    const MAX: i128 = i128::MAX;

    ghost MIN = { negsuc 170141183460469231731687303715884105727 };

    ghost MAX = { pos 170141183460469231731687303715884105727 };

    ghost kind = { signed_kind 128 };

    ghost number = { λ x. x };

    fn sign_and_magnitude(self) -> (bool, u128) {
        (self < 0, self.unsigned_abs())
    }

    fn from_magnitude(negative: bool, magnitude: u128) -> Option<i128> {
        if negative {
            0i128.checked_sub_unsigned(magnitude)
        } else {
            i128::try_from(magnitude).ok()
        }
    }

    ghost same_number = { λ x y e. e };

    ghost holds_each = { λ z h. (z, refl) };

    ghost is_whole = { record { sign = refl; zero = refl; low = refl; width = refl; fits = refl } };

    ghost least_is = { refl };

    ghost greatest_is = { refl };
}
