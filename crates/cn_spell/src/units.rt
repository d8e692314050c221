// The units of a method, by the powers of ten at which their groups begin.
ghost use Rattle.std.specs.Prelude.{◌≡◌, ◌<◌};
ghost use Rattle.cn_core.specs.Characters.{rank};
ghost use Rattle.cn_spell.specs.Working.Units.{widths_of, powers_within, rank_at};

use cn_core::Unit::{
    Bai, Gai, Ge, Gou, Ji, Jian, Jing, Qian, Rang, Shi, Wan, Yi, Zai, Zhao, Zheng, Zi,
};
use cn_core::{ChineseCountMethod, Unit};

static LOW: [Unit; 16] = [
    Ge, Shi, Bai, Qian, Wan, Yi, Zhao, Jing, Gai, Zi, Rang, Gou, Jian, Zheng, Zai, Ji,
];

static TEN_THOUSAND: [Unit; 39] = [
    Ge, Shi, Bai, Qian, Wan, Shi, Bai, Qian, Yi, Shi, Bai, Qian, Zhao, Shi, Bai, Qian, Jing, Shi,
    Bai, Qian, Gai, Shi, Bai, Qian, Zi, Shi, Bai, Qian, Rang, Shi, Bai, Qian, Gou, Shi, Bai, Qian,
    Jian, Shi, Bai,
];

static MIDDLE: [Unit; 39] = [
    Ge, Shi, Bai, Qian, Wan, Shi, Bai, Qian, Yi, Shi, Bai, Qian, Wan, Shi, Bai, Qian, Zhao, Shi,
    Bai, Qian, Wan, Shi, Bai, Qian, Jing, Shi, Bai, Qian, Wan, Shi, Bai, Qian, Gai, Shi, Bai, Qian,
    Wan, Shi, Bai,
];

static HIGH: [Unit; 39] = [
    Ge, Shi, Bai, Qian, Wan, Shi, Bai, Qian, Yi, Shi, Bai, Qian, Wan, Shi, Bai, Qian, Zhao, Shi,
    Bai, Qian, Wan, Shi, Bai, Qian, Yi, Shi, Bai, Qian, Wan, Shi, Bai, Qian, Jing, Shi, Bai, Qian,
    Wan, Shi, Bai,
];

/// The unit whose group begins at a power: 萬 at 10^4 under all methods except `Low`, where it is
/// the unit of that power itself.
#[inline(always)]
pub fn unit_at(method: ChineseCountMethod, power: usize) -> Unit
    requires { power < powers_within method }
    ensures { rank result ≡ rank_at method power }
{
    match method {
        ChineseCountMethod::Low => LOW[power],
        ChineseCountMethod::TenThousand => TEN_THOUSAND[power],
        ChineseCountMethod::Middle => MIDDLE[power],
        ChineseCountMethod::High => HIGH[power],
    }
}

static LOW_WIDTHS: [usize; 1] = [1];

static TEN_THOUSAND_WIDTHS: [usize; 2] = [4, 1];

static MIDDLE_WIDTHS: [usize; 3] = [8, 4, 1];

static HIGH_WIDTHS: [usize; 5] = [32, 16, 8, 4, 1];

/// The numbers of powers that the groups of the units span, the widest group first.
#[inline(always)]
pub fn widths(method: ChineseCountMethod) -> &'static [usize]
    ensures { result.now ≡ widths_of method }
{
    match method {
        ChineseCountMethod::Low => &LOW_WIDTHS,
        ChineseCountMethod::TenThousand => &TEN_THOUSAND_WIDTHS,
        ChineseCountMethod::Middle => &MIDDLE_WIDTHS,
        ChineseCountMethod::High => &HIGH_WIDTHS,
    }
}
