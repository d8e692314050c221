// Tests of each of the 48 printers, with a number whose text differs from those of the printers of
// the same type that write differently.
use crate::calls::writes;
use chinese_number::ChineseCase::Lower;
use chinese_number::ChineseVariant::Traditional;
use chinese_number::*;

// Each of these printers writes this text.
macro_rules! each_writes {
    ($rt:ident, $number:expr, $text:expr; $($printer:ident)+) => {
        $(writes(&$rt, $printer($rt.alloc(), Traditional, Lower, $number), $text);)+
    };
}

#[test]
fn low(rt: HostRuntime) {
    each_writes!(rt, 10, "十";
        from_u8_to_chinese from_u16_to_chinese from_i8_to_chinese from_i16_to_chinese
    );
    each_writes!(rt, 100_000, "一億";
        from_u32_to_chinese_low from_i32_to_chinese_low
    );
    each_writes!(rt, 1_000_100_000_000, "一澗零一垓";
        from_u64_to_chinese_low from_u128_to_chinese_low from_usize_to_chinese_low
        from_i64_to_chinese_low from_i128_to_chinese_low from_isize_to_chinese_low
    );
}

#[test]
fn ten_thousand(rt: HostRuntime) {
    each_writes!(rt, 100_000, "十萬";
        from_u32_to_chinese_ten_thousand from_i32_to_chinese_ten_thousand
    );
    each_writes!(rt, 1_000_100_000_000, "一兆零一億";
        from_u64_to_chinese_ten_thousand from_usize_to_chinese_ten_thousand
        from_i64_to_chinese_ten_thousand from_isize_to_chinese_ten_thousand
    );
    each_writes!(rt, 1_000_000_000_000_000_000_000_000, "一秭";
        from_u128_to_chinese_ten_thousand from_i128_to_chinese_ten_thousand
    );
}

#[test]
fn middle(rt: HostRuntime) {
    each_writes!(rt, 100_000, "十萬";
        from_u32_to_chinese_middle from_i32_to_chinese_middle
    );
    each_writes!(rt, 1_000_100_000_000, "一萬零一億";
        from_u64_to_chinese_middle from_usize_to_chinese_middle from_i64_to_chinese_middle
        from_isize_to_chinese_middle
    );
    each_writes!(rt, 1_000_000_000_000_000_000_000_000, "一京";
        from_u128_to_chinese_middle from_i128_to_chinese_middle
    );
}

#[test]
fn high(rt: HostRuntime) {
    each_writes!(rt, 100_000, "十萬";
        from_u32_to_chinese_high from_i32_to_chinese_high
    );
    each_writes!(rt, 1_000_100_000_000, "一萬零一億";
        from_u64_to_chinese_high from_usize_to_chinese_high from_i64_to_chinese_high
        from_isize_to_chinese_high
    );
    each_writes!(rt, 1_000_000_000_000_000_000_000_000, "一億兆";
        from_u128_to_chinese_high from_i128_to_chinese_high
    );
}

#[test]
fn naive(rt: HostRuntime) {
    each_writes!(rt, 10, "一零";
        from_u8_to_chinese_naive from_u16_to_chinese_naive from_u32_to_chinese_naive
        from_u64_to_chinese_naive from_u128_to_chinese_naive from_usize_to_chinese_naive
        from_i8_to_chinese_naive from_i16_to_chinese_naive from_i32_to_chinese_naive
        from_i64_to_chinese_naive from_i128_to_chinese_naive from_isize_to_chinese_naive
    );
}
