// Makes pseudo-random numbers of all lengths.
use chinese_number::AMOUNT_LIMIT;
use std::alloc::{AllocError, Global};

// The number of numbers.
const NUMBERS: u32 = 10_000;

/// The next number of a pseudo-random sequence.
pub fn next(state: &mut u64) -> u64 {
    *state ^= *state << 13;
    *state ^= *state >> 7;
    *state ^= *state << 17;
    *state
}

/// Numbers of one to thirty-nine digits.
pub fn wide_numbers(alloc: Global) -> Result<Vec<u128>, AllocError> {
    let mut state = 0x9e37_79b9_7f4a_7c15;
    let mut numbers = Vec::new(alloc);
    for i in 0..NUMBERS {
        let high = next(&mut state) as u128;
        let number = high << 64 | next(&mut state) as u128;
        let number = match 10u128.checked_pow(i % 39 + 1) {
            Some(limit) if limit > 0 => number % limit,
            _ => number,
        };
        numbers.push(number)?;
    }
    Ok(numbers)
}

/// Numbers of one to twenty digits.
pub fn narrow_numbers(alloc: Global) -> Result<Vec<u64>, AllocError> {
    let mut state = 0x9e37_79b9_7f4a_7c15;
    let mut numbers = Vec::new(alloc);
    for i in 0..NUMBERS {
        numbers.push(next(&mut state) >> (i % 64))?;
    }
    Ok(numbers)
}

/// Amounts of one to eighteen digits.
pub fn amounts(alloc: Global) -> Result<Vec<u64>, AllocError> {
    let mut state = 0x9e37_79b9_7f4a_7c15;
    let mut amounts = Vec::new(alloc);
    for i in 0..NUMBERS {
        amounts.push((next(&mut state) >> (i % 64)) % AMOUNT_LIMIT)?;
    }
    Ok(amounts)
}
