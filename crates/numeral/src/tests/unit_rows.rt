// Worked lines of numerals with units.
use super::Answer::{BadLine, Done, Refused};
use super::{Answer, answers_rows};
use chinese_number::ChineseToNumberError::{
    ChineseNumberEmpty, ChineseNumberIncorrect, Overflow, Underflow,
};
use std::alloc::AllocError;

static ROWS: [(&str, Answer); 24] = [
    ("read u64 ten_thousand 一百二", Done("120")),
    ("print i8 low traditional upper 123", Done("壹佰貳拾參")),
    ("read i8 low ", Refused(ChineseNumberEmpty)),
    (
        "print u64 low simple lower 10000000000000000",
        Refused(Overflow),
    ),
    ("print u8 naive traditional lower 256", BadLine),
    ("hello", BadLine),
    (
        "print i64 low simple lower -10000000000000000",
        Refused(Underflow),
    ),
    ("print u128 low traditional lower 10", Done("十")),
    ("print u128 low traditional lower 110010", Done("一億一萬零一十")),
    ("print u128 low simple upper 1000000000000001", Done("壹极零壹")),
    (
        "print u128 low traditional lower 9999999999999999",
        Done("九極九載九正九澗九溝九穰九秭九垓九京九兆九億九萬九千九百九十九"),
    ),
    (
        "print u128 low traditional lower 10000000000000000",
        Refused(Overflow),
    ),
    ("print u8 low traditional lower 007", Done("七")),
    ("print  u8 low traditional lower 1", BadLine),
    ("read u8 low  一", Done("1")),
    ("read u16 ten_thousand 零億五", Refused(Overflow)),
    ("read u16 low 零億五", Done("50000")),
    (
        "read u128 ten_thousand  二十十",
        Refused(ChineseNumberIncorrect { char_index: 2 }),
    ),
    ("read u128 ten_thousand x二澗一億溝", Refused(Overflow)),
    ("read i128 ten_thousand 負x二澗一億溝", Refused(Underflow)),
    ("read i8 low 負一百二十八", Done("-128")),
    (
        "print i128 high traditional lower 10001000000000000",
        Done("一兆零一萬億"),
    ),
    (
        "print u128 middle traditional lower 1000100000000",
        Done("一萬零一億"),
    ),
    ("print u16 middle simple lower -1", BadLine),
];

#[test]
fn answers_each_unit_row(rt: HostRuntime) -> Result<(), AllocError> {
    answers_rows(&rt, &ROWS, &[1, 7, 4096])
}
