// Tests that a caller who prints a number and then reads the text gets the number back.
ghost use Rattle.std.specs.Prelude.{◌≡◌, Ok, IfOk};

use chinese_number::laws::naive_texts_read_back;
use chinese_number::{
    ChineseCase, ChineseCountMethod, ChineseToNumber, ChineseToNumberError, ChineseVariant,
    NumberToChinese, NumberToChineseError, Whole,
};
use std::alloc::{AllocError, Global};
use std::fmt::Debug;
use std::process::Abort;

fn print_and_read<T: NumberToChinese>(
    alloc: Global,
    variant: ChineseVariant,
    case: ChineseCase,
    method: ChineseCountMethod,
    number: T,
) -> Result<Result<T, ChineseToNumberError>, NumberToChineseError> {
    let text = number.to_chinese(alloc, variant, case, method)?;
    Ok(text.as_str().to_number(method))
}

// The number, by the contracts alone. `examples` has the same with units.
fn print_and_read_naive<T: NumberToChinese>(
    alloc: Global,
    variant: ChineseVariant,
    case: ChineseCase,
    number: T,
) -> Result<Result<T, ChineseToNumberError>, AllocError>
    ensures { IfOk result (λ answer. answer ≡ Ok number) }
{
    let _magnitude = number.magnitude();
    naive_texts_read_back::<T>();
    let text = number.to_chinese_naive(alloc, variant, case)?;
    Ok(text.as_str().to_number_naive())
}

static PAIRS: [(ChineseVariant, ChineseCase); 4] = [
    (ChineseVariant::Traditional, ChineseCase::Upper),
    (ChineseVariant::Traditional, ChineseCase::Lower),
    (ChineseVariant::Simple, ChineseCase::Upper),
    (ChineseVariant::Simple, ChineseCase::Lower),
];

// Each text of a number is read as that number: as plain digits and by each method, in each script
// and case. `Low` writes no number from 10^16 on.
fn reads_back<T: NumberToChinese + PartialEq + Debug>(rt: &(impl Abort + AllocGlobal), number: T) {
    let past_low = number.magnitude() >= 10_000_000_000_000_000;
    for (variant, case) in &PAIRS {
        let read = print_and_read_naive(rt.alloc(), *variant, *case, number);
        assert_eq!(rt; read, Ok(Ok(number)));
        for method in ChineseCountMethod::variants() {
            if method != ChineseCountMethod::Low || !past_low {
                let read = print_and_read(rt.alloc(), *variant, *case, method, number);
                assert_eq!(rt; read, Ok(Ok(number)), "{method:?}");
            }
        }
    }
}

static WORKED: [u128; 5] = [
    1_234_567_890_123_456_789,
    10_001_000_000_000_000,
    1_000_100_000_000,
    100_100_000,
    100_000,
];

#[test]
fn worked_numbers(rt: HostRuntime) {
    for number in &WORKED {
        reads_back(&rt, *number);
    }
}

// What the proof shows, tested as the compilers built it.
#[test]
fn every_narrow_number(rt: HostRuntime) {
    for number in u8::MIN..=u8::MAX {
        reads_back(&rt, number);
    }
    for number in i8::MIN..=i8::MAX {
        reads_back(&rt, number);
    }
    for number in u16::MIN..=u16::MAX {
        reads_back(&rt, number);
    }
    for number in i16::MIN..=i16::MAX {
        reads_back(&rt, number);
    }
}

// The least and the greatest number of a type, as a caller has them who knows only its bound.
fn ends_of<T: Whole>() -> (T, T)
    ensures least { T.number result.0 ≡ T.kind.least }
    ensures greatest { T.number result.1 ≡ T.kind.greatest }
{
    (T::least(), T::greatest())
}

// The least and the greatest number of a type, which std gives too, are read back.
fn reads_back_ends<T: NumberToChinese + PartialEq + Debug>(
    rt: &(impl Abort + AllocGlobal),
    least: T,
    greatest: T,
) {
    assert_eq!(rt; ends_of::<T>(), (least, greatest));
    reads_back(rt, least);
    reads_back(rt, greatest);
}

#[test]
fn the_ends_of_each_type(rt: HostRuntime) {
    reads_back_ends(&rt, u8::MIN, u8::MAX);
    reads_back_ends(&rt, u16::MIN, u16::MAX);
    reads_back_ends(&rt, u32::MIN, u32::MAX);
    reads_back_ends(&rt, u64::MIN, u64::MAX);
    reads_back_ends(&rt, u128::MIN, u128::MAX);
    reads_back_ends(&rt, usize::MIN, usize::MAX);
    reads_back_ends(&rt, i8::MIN, i8::MAX);
    reads_back_ends(&rt, i16::MIN, i16::MAX);
    reads_back_ends(&rt, i32::MIN, i32::MAX);
    reads_back_ends(&rt, i64::MIN, i64::MAX);
    reads_back_ends(&rt, i128::MIN, i128::MAX);
    reads_back_ends(&rt, isize::MIN, isize::MAX);
}
