ghost use Rattle.std.specs.Prelude.{◌≡◌, ◌^◌, ◌≤◌, IsTrue};
ghost use Rattle.std.specs.Option.{SomeIff};
ghost use Rattle.cn_core.specs.Characters.{rank};
ghost use Rattle.cn_core.specs.Scale.{scale, scale_fits, exponent};

use crate::{ChineseCountMethod, Unit};

static POWERS_OF_TEN: [u128; 39] = [
    1,
    10,
    100,
    1_000,
    10_000,
    100_000,
    1_000_000,
    10_000_000,
    100_000_000,
    1_000_000_000,
    10_000_000_000,
    100_000_000_000,
    1_000_000_000_000,
    10_000_000_000_000,
    100_000_000_000_000,
    1_000_000_000_000_000,
    10_000_000_000_000_000,
    100_000_000_000_000_000,
    1_000_000_000_000_000_000,
    10_000_000_000_000_000_000,
    100_000_000_000_000_000_000,
    1_000_000_000_000_000_000_000,
    10_000_000_000_000_000_000_000,
    100_000_000_000_000_000_000_000,
    1_000_000_000_000_000_000_000_000,
    10_000_000_000_000_000_000_000_000,
    100_000_000_000_000_000_000_000_000,
    1_000_000_000_000_000_000_000_000_000,
    10_000_000_000_000_000_000_000_000_000,
    100_000_000_000_000_000_000_000_000_000,
    1_000_000_000_000_000_000_000_000_000_000,
    10_000_000_000_000_000_000_000_000_000_000,
    100_000_000_000_000_000_000_000_000_000_000,
    1_000_000_000_000_000_000_000_000_000_000_000,
    10_000_000_000_000_000_000_000_000_000_000_000,
    100_000_000_000_000_000_000_000_000_000_000_000,
    1_000_000_000_000_000_000_000_000_000_000_000_000,
    10_000_000_000_000_000_000_000_000_000_000_000_000,
    100_000_000_000_000_000_000_000_000_000_000_000_000,
];

// The exponents by method and unit: a row each for `Low`, `TenThousand`, `Middle` and `High`.
static EXPONENTS: [[u16; 16]; 4] = [
    [0, 1, 2, 3, 4, 5, 6, 7, 8, 9, 10, 11, 12, 13, 14, 15],
    [0, 1, 2, 3, 4, 8, 12, 16, 20, 24, 28, 32, 36, 40, 44, 48],
    [0, 1, 2, 3, 4, 8, 16, 24, 32, 40, 48, 56, 64, 72, 80, 88],
    [
        0, 1, 2, 3, 4, 8, 16, 32, 64, 128, 256, 512, 1024, 2048, 4096, 8192,
    ],
];

/// The exponent of the power of ten that a unit stands for.
///
/// ```text
/// exponent(ChineseCountMethod::Middle, Unit::Zhao) == 16
/// ```
pub fn exponent(method: ChineseCountMethod, unit: Unit) -> usize
    ensures { result ≡ exponent method (rank unit) }
{
    EXPONENTS[method as usize][unit as usize] as usize
}

/// The power of ten with this exponent; `None` exactly if it does not fit `u128`.
///
/// ```text
/// power_of_ten(4) == Some(10_000)
/// power_of_ten(39) == None
/// ```
pub fn power_of_ten(exponent: usize) -> Option<u128>
    ensures { SomeIff result (exponent ≤ 38) (10 ^ exponent) }
{
    POWERS_OF_TEN.get(exponent).copied()
}

/// The number that a unit stands for under a method; `None` exactly if it does not fit `u128`.
///
/// ```text
/// scale(ChineseCountMethod::TenThousand, Unit::Zhao) == Some(1_000_000_000_000)
/// scale(ChineseCountMethod::High, Unit::Gai) == None
/// ```
pub fn scale(method: ChineseCountMethod, unit: Unit) -> Option<u128>
    ensures { SomeIff result (IsTrue (scale_fits method (rank unit))) (scale method (rank unit)) }
{
    power_of_ten(exponent(method, unit))
}
