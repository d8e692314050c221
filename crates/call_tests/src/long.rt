// Tests of long texts, which are made here, since no page would hold them.
use crate::calls::{Answer, read_u128, reads};
use chinese_number::ChineseCountMethod::{Low, TenThousand};
use chinese_number::ChineseToNumberError::{ChineseNumberEmpty, ChineseNumberIncorrect, Overflow};
use std::alloc::{AllocError, Global};
use std::test::Fail;

// What is before and after this many 零, and the answer.
static ZEROS: [(&str, usize, &str, Answer<u128>); 5] = [
    ("一百", 5_000, "五", Ok(105)),
    ("", 5_000, "二", Ok(2)),
    (
        "五",
        5_000,
        "",
        Err(ChineseNumberIncorrect { char_index: 0 }),
    ),
    ("一百", 50_000, "五", Ok(105)),
    ("", 10_000_000, "", Ok(0)),
];

#[test]
fn zeros_without_end(rt: HostRuntime) -> Result<(), Fail> {
    for (first, times, last, answer) in &ZEROS {
        let zeros = "零".repeat(rt.alloc(), *times)?;
        let text = format!(in rt.alloc(); "{first}{zeros}{last}")?;
        reads(&rt, first, read_u128(TenThousand, text.as_str()), answer);
    }
    Ok(())
}

#[test]
fn white_space_without_end(rt: HostRuntime) -> Result<(), Fail> {
    let white = "\u{3000}".repeat(rt.alloc(), 1_000)?;
    let text = format!(in rt.alloc(); "{white}二{white}十{white}十{white}")?;
    let answer = read_u128(TenThousand, text.as_str());
    reads(
        &rt,
        "二十十",
        answer,
        &Err(ChineseNumberIncorrect { char_index: 2001 }),
    );
    let answer = read_u128(TenThousand, white.as_str());
    reads(&rt, "", answer, &Err(ChineseNumberEmpty));
    Ok(())
}

// A chain: the one before, the unit, and the one before again, for each of these units.
fn chain(alloc: Global, first: &str, units: &str) -> Result<String, AllocError> {
    let mut text = String::from_str(alloc, first)?;
    for unit in units.chars() {
        text = format!(in alloc; "{text}{unit}{text}")?;
    }
    Ok(text)
}

// A chain from 一十 to 垓.
const TO_GAI: u128 = 10 * 101 * 1_001 * 10_001 * 100_001 * 1_000_001 * 10_000_001 * 100_000_001;

// What a chain starts with, its units, how many characters it has, and the answer.
static CHAINS: [(&str, &str, usize, Answer<u128>); 4] = [
    ("一十", "百", 5, Ok(1010)),
    ("一十", "百千萬億兆京垓", 383, Ok(TO_GAI)),
    ("一十", "百千萬億兆京垓秭", 767, Err(Overflow)),
    ("零十", "百千萬億兆京垓秭穰溝澗正載極", 49_151, Ok(0)),
];

#[test]
fn chains(rt: HostRuntime) -> Result<(), Fail> {
    for (first, units, characters, answer) in &CHAINS {
        let text = chain(rt.alloc(), first, units)?;
        assert_eq!(rt; text.as_str().chars().count(), *characters);
        reads(&rt, units, read_u128(Low, text.as_str()), answer);
    }
    Ok(())
}
