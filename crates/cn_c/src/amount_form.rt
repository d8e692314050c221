// The flags of the form of an amount, which are added together.
ghost use Rattle.std.specs.Prelude.{◌≡◌};
ghost use Rattle.cn_c.specs.Codes.{form_of};

use crate::flags::has_flag;
use chinese_number::AmountForm;

/// A flag: 人民币 is at the start of an amount.
pub const CURRENCY: u32 = 1;

/// A flag: 圆 is written in place of 元.
pub const ROUND_YUAN: u32 = 2;

/// A flag: 正 is written in place of 整.
pub const UPRIGHT_CLOSING: u32 = 4;

/// A flag: （负数） is written in place of 负.
pub const BRACKETED_SIGN: u32 = 8;

/// The form of an amount, given a sum of any of these flags; `None` if it is not such a sum.
pub fn form_of(flags: u32) -> Option<AmountForm>
    ensures { result ≡ form_of flags }
{
    if flags >= 16 {
        return None;
    }
    Some(AmountForm {
        currency: has_flag(flags, CURRENCY),
        round_yuan: has_flag(flags, ROUND_YUAN),
        upright_closing: has_flag(flags, UPRIGHT_CLOSING),
        bracketed_sign: has_flag(flags, BRACKETED_SIGN),
    })
}
