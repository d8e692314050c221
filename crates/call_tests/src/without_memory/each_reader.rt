// Tests of each of the 48 readers, and of the trait at each type. The texts distinguish the
// methods: they have the greatest unit whose scale fits, and the next one.
use crate::calls::Answer;
use chinese_number::ChineseCountMethod::{High, Low, Middle, TenThousand};
use chinese_number::ChineseToNumberError::{ChineseNumberEmpty, Overflow, Underflow};
use chinese_number::*;
use std::process::Abort;

type Rows = [(&'static str, Answer<i128>); 4];

static LOW: Rows = [
    ("", Err(ChineseNumberEmpty)),
    ("\u{3000}", Err(ChineseNumberEmpty)),
    ("零極零五", Ok(5)),
    ("零極零", Ok(0)),
];

static LOW_BELOW_ZERO: Rows = [
    ("", Err(ChineseNumberEmpty)),
    ("\u{3000}", Err(ChineseNumberEmpty)),
    ("負零極零五", Ok(-5)),
    ("負零極零", Ok(0)),
];

static TEN_THOUSAND: Rows = [
    ("", Err(ChineseNumberEmpty)),
    ("\u{3000}", Err(ChineseNumberEmpty)),
    ("零澗零五", Ok(5)),
    ("零正零五", Err(Overflow)),
];

static TEN_THOUSAND_BELOW_ZERO: Rows = [
    ("", Err(ChineseNumberEmpty)),
    ("\u{3000}", Err(ChineseNumberEmpty)),
    ("負零澗零五", Ok(-5)),
    ("負零正零五", Err(Underflow)),
];

static MIDDLE: Rows = [
    ("", Err(ChineseNumberEmpty)),
    ("\u{3000}", Err(ChineseNumberEmpty)),
    ("零垓零五", Ok(5)),
    ("零秭零五", Err(Overflow)),
];

static MIDDLE_BELOW_ZERO: Rows = [
    ("", Err(ChineseNumberEmpty)),
    ("\u{3000}", Err(ChineseNumberEmpty)),
    ("負零垓零五", Ok(-5)),
    ("負零秭零五", Err(Underflow)),
];

static HIGH: Rows = [
    ("", Err(ChineseNumberEmpty)),
    ("\u{3000}", Err(ChineseNumberEmpty)),
    ("零京零五", Ok(5)),
    ("零垓零五", Err(Overflow)),
];

static HIGH_BELOW_ZERO: Rows = [
    ("", Err(ChineseNumberEmpty)),
    ("\u{3000}", Err(ChineseNumberEmpty)),
    ("負零京零五", Ok(-5)),
    ("負零垓零五", Err(Underflow)),
];

static NAIVE: Rows = [
    ("", Err(ChineseNumberEmpty)),
    ("\u{3000}", Err(ChineseNumberEmpty)),
    ("一二三", Ok(123)),
    ("零〇1兩", Ok(12)),
];

static NAIVE_BELOW_ZERO: Rows = [
    ("", Err(ChineseNumberEmpty)),
    ("\u{3000}", Err(ChineseNumberEmpty)),
    ("負一二三", Ok(-123)),
    ("負零〇1兩", Ok(-12)),
];

// An answer is the same as this one, whatever its type is.
fn same<T: Whole>(rt: &impl Abort, text: &str, answer: Answer<T>, wanted: &Answer<i128>) {
    let answer = answer.map(|number| i128::from_magnitude(
        number.is_negative(),
        number.magnitude(),
    ));
    assert_eq!(rt; answer, wanted.map(Some), "{text}");
}

// Each of these readers reads these rows.
macro_rules! each_reads {
    ($rt:ident, $rows:ident; $($reader:ident)+) => {
        for (text, wanted) in &$rows {
            $(same(&$rt, text, $reader(text), wanted);)+
        }
    };
}

#[test]
fn low_unsigned(rt: HostRuntime) {
    each_reads!(rt, LOW;
        from_chinese_to_u8 from_chinese_to_u16 from_chinese_to_u32_low from_chinese_to_u64_low
        from_chinese_to_u128_low from_chinese_to_usize_low
    );
}

#[test]
fn low_signed(rt: HostRuntime) {
    each_reads!(rt, LOW_BELOW_ZERO;
        from_chinese_to_i8 from_chinese_to_i16 from_chinese_to_i32_low from_chinese_to_i64_low
        from_chinese_to_i128_low from_chinese_to_isize_low
    );
}

#[test]
fn ten_thousand_unsigned(rt: HostRuntime) {
    each_reads!(rt, TEN_THOUSAND;
        from_chinese_to_u32_ten_thousand from_chinese_to_u64_ten_thousand
        from_chinese_to_u128_ten_thousand from_chinese_to_usize_ten_thousand
    );
}

#[test]
fn ten_thousand_signed(rt: HostRuntime) {
    each_reads!(rt, TEN_THOUSAND_BELOW_ZERO;
        from_chinese_to_i32_ten_thousand from_chinese_to_i64_ten_thousand
        from_chinese_to_i128_ten_thousand from_chinese_to_isize_ten_thousand
    );
}

#[test]
fn middle_unsigned(rt: HostRuntime) {
    each_reads!(rt, MIDDLE;
        from_chinese_to_u32_middle from_chinese_to_u64_middle from_chinese_to_u128_middle
        from_chinese_to_usize_middle
    );
}

#[test]
fn middle_signed(rt: HostRuntime) {
    each_reads!(rt, MIDDLE_BELOW_ZERO;
        from_chinese_to_i32_middle from_chinese_to_i64_middle from_chinese_to_i128_middle
        from_chinese_to_isize_middle
    );
}

#[test]
fn high_unsigned(rt: HostRuntime) {
    each_reads!(rt, HIGH;
        from_chinese_to_u32_high from_chinese_to_u64_high from_chinese_to_u128_high
        from_chinese_to_usize_high
    );
}

#[test]
fn high_signed(rt: HostRuntime) {
    each_reads!(rt, HIGH_BELOW_ZERO;
        from_chinese_to_i32_high from_chinese_to_i64_high from_chinese_to_i128_high
        from_chinese_to_isize_high
    );
}

#[test]
fn naive_unsigned(rt: HostRuntime) {
    each_reads!(rt, NAIVE;
        from_chinese_to_u8_naive from_chinese_to_u16_naive from_chinese_to_u32_naive
        from_chinese_to_u64_naive from_chinese_to_u128_naive from_chinese_to_usize_naive
    );
}

#[test]
fn naive_signed(rt: HostRuntime) {
    each_reads!(rt, NAIVE_BELOW_ZERO;
        from_chinese_to_i8_naive from_chinese_to_i16_naive from_chinese_to_i32_naive
        from_chinese_to_i64_naive from_chinese_to_i128_naive from_chinese_to_isize_naive
    );
}

// The same rows, read through the trait, at a type of which nothing else is known.
fn by_trait<T: Whole>(rt: &impl Abort, method: ChineseCountMethod, rows: &Rows) {
    for (text, wanted) in rows {
        let answer: Answer<T> = text.to_number(method);
        same(rt, text, answer, wanted);
    }
}

fn by_trait_naive<T: Whole>(rt: &impl Abort, rows: &Rows) {
    for (text, wanted) in rows {
        let answer: Answer<T> = text.to_number_naive();
        same(rt, text, answer, wanted);
    }
}

fn at_type<T: Whole>(rt: &impl Abort) {
    by_trait::<T>(rt, Low, &LOW);
    by_trait::<T>(rt, TenThousand, &TEN_THOUSAND);
    by_trait::<T>(rt, Middle, &MIDDLE);
    by_trait::<T>(rt, High, &HIGH);
    by_trait_naive::<T>(rt, &NAIVE);
}

fn at_signed_type<T: Whole>(rt: &impl Abort) {
    at_type::<T>(rt);
    by_trait::<T>(rt, Low, &LOW_BELOW_ZERO);
    by_trait::<T>(rt, TenThousand, &TEN_THOUSAND_BELOW_ZERO);
    by_trait::<T>(rt, Middle, &MIDDLE_BELOW_ZERO);
    by_trait::<T>(rt, High, &HIGH_BELOW_ZERO);
    by_trait_naive::<T>(rt, &NAIVE_BELOW_ZERO);
}

#[test]
fn at_each_type(rt: HostRuntime) {
    at_type::<u8>(&rt);
    at_type::<u16>(&rt);
    at_type::<u32>(&rt);
    at_type::<u64>(&rt);
    at_type::<u128>(&rt);
    at_type::<usize>(&rt);
    at_signed_type::<i8>(&rt);
    at_signed_type::<i16>(&rt);
    at_signed_type::<i32>(&rt);
    at_signed_type::<i64>(&rt);
    at_signed_type::<i128>(&rt);
    at_signed_type::<isize>(&rt);
}
