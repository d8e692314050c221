// Writes and reads amounts of money.
use chinese_number::{AmountToChineseError, ChineseVariant, amount_to_chinese, chinese_to_amount};
use std::alloc::{AllocError, Global};

// The text of an amount; an empty text if the amount is too large.
fn amount_text(alloc: Global, fen: u64) -> Result<String, AllocError> {
    match amount_to_chinese(alloc, ChineseVariant::Simple, fen) {
        Ok(text) => Ok(text),
        Err(AmountToChineseError::OutOfMemory) => Err(AllocError),
        Err(AmountToChineseError::Overflow) => Ok(String::new(alloc)),
    }
}

/// Writes the amounts in turn, and returns the sum of the lengths of their texts.
pub fn print_amounts(alloc: Global, amounts: &[u64], passes: u32) -> Result<u64, AllocError> {
    let mut sum = 0u64;
    for _ in 0..passes {
        for fen in amounts {
            let text = amount_text(alloc, *fen)?;
            sum = sum.wrapping_add(text.len() as u64);
        }
    }
    Ok(sum)
}

/// Reads the texts of the amounts in turn, and returns the sum of the amounts.
pub fn read_amounts(alloc: Global, amounts: &[u64], passes: u32) -> Result<u64, AllocError> {
    let mut texts = Vec::new(alloc);
    for fen in amounts {
        texts.push(amount_text(alloc, *fen)?)?;
    }
    let mut sum = 0u64;
    for _ in 0..passes {
        for text in &texts {
            sum = sum.wrapping_add(chinese_to_amount(text.as_str()).unwrap_or(0));
        }
    }
    Ok(sum)
}
