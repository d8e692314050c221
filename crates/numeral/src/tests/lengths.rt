// Tests of long lines and long numbers. A contract allows a failed allocation at any time, so
// contracts alone do not exclude a body that gives up at some length.
use super::Answer::{Done, Refused};
use super::{Answer, answers_rows, ends_well, push_answer};
use chinese_number::ChineseToNumberError::ChineseNumberIncorrect;
use std::alloc::AllocError;

// The greatest `u128`, which has 39 digits.
static FULL: [(&str, Answer); 8] = [
    (
        "print u128 naive traditional lower 340282366920938463463374607431768211455",
        Done("三四零二八二三六六九二零九三八四六三四六三三七四六零七四三一七六八二一一四五五"),
    ),
    (
        "read u128 naive 三四零二八二三六六九二零九三八四六三四六三三七四六零七四三一七六八二一一四五五",
        Done("340282366920938463463374607431768211455"),
    ),
    (
        "print u128 ten_thousand traditional lower 340282366920938463463374607431768211455",
        Done("三百四十澗二千八百二十三溝六千六百九十二穰零九百三十八秭四千六百三十四垓六千三百三十七京四千六百零七兆四千三百一十七億六千八百二十一萬一千四百五十五"),
    ),
    (
        "read u128 ten_thousand 三百四十澗二千八百二十三溝六千六百九十二穰零九百三十八秭四千六百三十四垓六千三百三十七京四千六百零七兆四千三百一十七億六千八百二十一萬一千四百五十五",
        Done("340282366920938463463374607431768211455"),
    ),
    (
        "print u128 middle traditional lower 340282366920938463463374607431768211455",
        Done("三百四十萬二千八百二十三垓六千六百九十二萬零九百三十八京四千六百三十四萬六千三百三十七兆四千六百零七萬四千三百一十七億六千八百二十一萬一千四百五十五"),
    ),
    (
        "read u128 middle 三百四十萬二千八百二十三垓六千六百九十二萬零九百三十八京四千六百三十四萬六千三百三十七兆四千六百零七萬四千三百一十七億六千八百二十一萬一千四百五十五",
        Done("340282366920938463463374607431768211455"),
    ),
    (
        "print u128 high traditional lower 340282366920938463463374607431768211455",
        Done("三百四十萬二千八百二十三京六千六百九十二萬零九百三十八億四千六百三十四萬六千三百三十七兆四千六百零七萬四千三百一十七億六千八百二十一萬一千四百五十五"),
    ),
    (
        "read u128 high 三百四十萬二千八百二十三京六千六百九十二萬零九百三十八億四千六百三十四萬六千三百三十七兆四千六百零七萬四千三百一十七億六千八百二十一萬一千四百五十五",
        Done("340282366920938463463374607431768211455"),
    ),
];

#[test]
fn answers_full_length_numbers(rt: HostRuntime) -> Result<(), AllocError> {
    answers_rows(&rt, &FULL, &[1, 7, 4096])
}

// The start of a line, a text that is repeated 10,000 times after it, the end of the line, and the
// answer.
static LONG: [(&str, &str, &str, Answer); 6] = [
    ("read u128 naive ", "零", "五", Done("5")),
    (
        "read u128 naive ",
        "零",
        "x",
        Refused(ChineseNumberIncorrect { char_index: 10000 }),
    ),
    ("read u128 naive ", " ", "五", Done("5")),
    ("read u128 ten_thousand 一百", "零", "五", Done("105")),
    (
        "read u128 ten_thousand ",
        " ",
        "二十十",
        Refused(ChineseNumberIncorrect { char_index: 10001 }),
    ),
    ("print u128 low traditional lower ", "0", "7", Done("七")),
];

#[test]
fn answers_long_lines(rt: HostRuntime) -> Result<(), AllocError> {
    for (start, repeated, end, answer) in &LONG {
        let middle = repeated.repeat(rt.alloc(), 10_000)?;
        let line = format!(in rt.alloc(); "{start}{middle}{end}")?;
        let mut output = String::new(rt.alloc());
        push_answer(&mut output, *answer)?;
        ends_well(&rt, line.as_bytes(), 4096, output.as_bytes());
    }
    Ok(())
}
