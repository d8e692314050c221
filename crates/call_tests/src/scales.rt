// Tests of the scales of the units, as powers of ten.
use chinese_number::ChineseCountMethod::{High, Low, Middle, TenThousand};
use chinese_number::{ChineseCountMethod, Unit, scale};
use std::process::Abort;

// The exponents of a unit under `Low`, `TenThousand`, `Middle` and `High`; a `u128` holds powers of
// ten up to the exponent 38.
static POWERS: [(Unit, u32, u32, u32, u32); 16] = [
    (Unit::Ge, 0, 0, 0, 0),
    (Unit::Shi, 1, 1, 1, 1),
    (Unit::Bai, 2, 2, 2, 2),
    (Unit::Qian, 3, 3, 3, 3),
    (Unit::Wan, 4, 4, 4, 4),
    (Unit::Yi, 5, 8, 8, 8),
    (Unit::Zhao, 6, 12, 16, 16),
    (Unit::Jing, 7, 16, 24, 32),
    (Unit::Gai, 8, 20, 32, 64),
    (Unit::Zi, 9, 24, 40, 128),
    (Unit::Rang, 10, 28, 48, 256),
    (Unit::Gou, 11, 32, 56, 512),
    (Unit::Jian, 12, 36, 64, 1024),
    (Unit::Zheng, 13, 40, 72, 2048),
    (Unit::Zai, 14, 44, 80, 4096),
    (Unit::Ji, 15, 48, 88, 8192),
];

// The scale of this unit is this power of ten, if a `u128` holds it.
fn is_scale(rt: &impl Abort, method: ChineseCountMethod, unit: Unit, power: u32) {
    assert_eq!(rt;
        scale(method, unit),
        10u128.checked_pow(power),
        "{method:?} {unit:?}"
    );
}

#[test]
fn scales_of_all_units(rt: HostRuntime) {
    for (unit, low, ten_thousand, middle, high) in &POWERS {
        is_scale(&rt, Low, *unit, *low);
        is_scale(&rt, TenThousand, *unit, *ten_thousand);
        is_scale(&rt, Middle, *unit, *middle);
        is_scale(&rt, High, *unit, *high);
    }
}
