// Tests that printed texts are read at once: the contract of the shortcut allows it to leave any
// text to the slower walk.
use chinese_number::ChineseCase::{Lower, Upper};
use chinese_number::ChineseVariant::{Simple, Traditional};
use chinese_number::{
    ChineseCase, ChineseCountMethod, ChineseVariant, NumberToChinese, NumberToChineseError,
};
use cn_quick::read_quickly;
use std::process::Abort;

static NUMBERS: [u128; 21] = [
    0,
    1,
    10,
    15,
    105,
    1_010,
    10_000,
    110_010,
    120_000,
    100_100_000,
    1_000_000_001_000,
    1_000_100_000_000,
    1_010_101_010_101_010,
    9_999_999_999_999_999,
    10_001_000_000_000_000,
    1_234_567_890_123_456_789,
    u64::MAX as u128,
    10_000_000_000_000_000_000_000_000_000,
    100_000_000_000_000_000_000_000_000_000_000_000_000,
    u128::MAX - 1,
    u128::MAX,
];

static TEXTS: [(ChineseVariant, ChineseCase); 4] = [
    (Traditional, Lower),
    (Traditional, Upper),
    (Simple, Lower),
    (Simple, Upper),
];

// Prints a number and reads the text at once, if the method writes the number.
fn is_read_at_once<R: AllocGlobal + Abort>(
    rt: &R,
    script: ChineseVariant,
    case: ChineseCase,
    method: ChineseCountMethod,
    number: u128,
) {
    match number.to_chinese(rt.alloc(), script, case, method) {
        Ok(text) => assert_eq!(rt; read_quickly(method, text.as_str()), Some(number)),
        Err(error) => assert_eq!(rt; error, NumberToChineseError::Overflow),
    }
}

#[test]
fn reads_printed_texts_at_once(rt: HostRuntime) {
    for (script, case) in &TEXTS {
        for method in ChineseCountMethod::variants() {
            for number in &NUMBERS {
                is_read_at_once(&rt, *script, *case, method, *number);
            }
        }
    }
}
