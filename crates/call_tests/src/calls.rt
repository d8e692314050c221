// A reader of a `u128` by a method that is a value, and assertions about readers and printers.
use chinese_number::ChineseCountMethod::{High, Low, Middle, TenThousand};
use chinese_number::{
    ChineseCountMethod, ChineseToNumberError, from_chinese_to_u128_high, from_chinese_to_u128_low,
    from_chinese_to_u128_middle, from_chinese_to_u128_ten_thousand,
};
use std::fmt::Debug;
use std::process::Abort;

/// The result of a reader.
pub type Answer<T> = Result<T, ChineseToNumberError>;

/// The result of the reader of `u128` by this method.
pub fn read_u128(method: ChineseCountMethod, text: &str) -> Answer<u128> {
    match method {
        Low => from_chinese_to_u128_low(text),
        TenThousand => from_chinese_to_u128_ten_thousand(text),
        Middle => from_chinese_to_u128_middle(text),
        High => from_chinese_to_u128_high(text),
    }
}

/// Asserts that a reader returns this answer for a text.
pub fn reads<T: Copy + PartialEq + Debug>(
    rt: &impl Abort,
    text: &str,
    answer: Answer<T>,
    wanted: &Answer<T>,
) {
    assert_eq!(rt; answer, *wanted, "{text}");
}

/// Asserts that a printer writes this text, in memory of exactly its size.
pub fn writes<E: Debug + Drop>(rt: &impl Abort, printed: Result<String, E>, text: &str) {
    let written = printed.expect(rt, text);
    assert_eq!(rt; written.as_str(), text);
    assert_eq!(rt; written.capacity(), text.len(), "{text}");
}
