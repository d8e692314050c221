// Finds the numbers in a text.
use crate::numbers::next;
use chinese_number::{Wanted, find_numbers};
use std::alloc::{AllocError, Global};

// The number of characters of the text.
const CHARACTERS: u32 = 1_000_000;

// The characters of everyday numbers.
const NUMERALS: [char; 20] = [
    '零', '一', '二', '三', '四', '五', '六', '七', '八', '九', '十', '百', '千', '萬', '億', '万', '亿', '兩', '0',
    '5',
];

// The next character of the text. One in twenty is taken from the characters of numbers; the others
// are from 一 on, and some of them also occur in numbers.
fn next_char(state: &mut u64) -> char {
    let drawn = next(state);
    let which = drawn >> 32;
    if drawn % 20 == 0 {
        NUMERALS[(which % 20) as usize]
    } else {
        char::from_u32(0x4e00 + (which % 0x5000) as u32).unwrap_or('文')
    }
}

fn running_text(alloc: Global) -> Result<String, AllocError> {
    let mut state = 0x9e37_79b9_7f4a_7c15;
    let mut text = String::new(alloc);
    for _ in 0..CHARACTERS {
        text.push(next_char(&mut state))?;
    }
    Ok(text)
}

/// Finds the numbers of the text in turn, and returns the sum of the lengths of their texts.
pub fn find_sum(alloc: Global, passes: u32) -> Result<u64, AllocError> {
    let text = running_text(alloc)?;
    let mut sum = 0u64;
    for _ in 0..passes {
        for found in find_numbers(text.as_str(), Wanted::EVERYDAY) {
            sum = sum.wrapping_add(found.text.len() as u64);
        }
    }
    Ok(sum)
}
