// The call that is repeated, and the number of passes.
use chinese_number::{ChineseCase, ChineseVariant, NumberToChinese, NumberToChineseError};
use cn_dynamic::{Way, read_by, way_named};
use std::alloc::{AllocError, Global};

/// Whether numbers are written or read.
#[derive(Copy, Clone)]
pub enum Call {
    Print,
    Read,
}

/// The call that is repeated.
#[derive(Copy, Clone)]
pub enum Job {
    /// A call for `u64` (`Narrow`) or `u128` (`Wide`), in one of the ways.
    Narrow(Call, Way),
    Wide(Call, Way),
    /// Writing or reading amounts of money.
    Amounts(Call),
    /// Finding numbers in a text.
    Find,
}

/// The call that is repeated, and the number of passes over the data.
#[derive(Copy, Clone)]
pub struct Task {
    pub job: Job,
    pub passes: u32,
}

fn call_named(word: &str) -> Option<Call> {
    match word {
        "print" => Some(Call::Print),
        "read" => Some(Call::Read),
        _ => None,
    }
}

impl Task {
    /// The task that these words name; without words, one pass that prints `u128`s as plain digits.
    pub fn from_words(words: &[String]) -> Option<Self> {
        let [job @ .., passes] = words else {
            return Some(Task {
                job: Job::Wide(Call::Print, Way::Digits),
                passes: 1,
            });
        };
        let passes = passes.as_str().parse().ok()?;
        let job = match job {
            [find] if find.as_str() == "find" => Job::Find,
            [call, amount] if amount.as_str() == "amount" => Job::Amounts(call_named(
                call.as_str(),
            )?),
            [call, kind, way] => {
                let call = call_named(call.as_str())?;
                let way = way_named(way.as_bytes())?;
                match kind.as_str() {
                    "u64" => Job::Narrow(call, way),
                    "u128" => Job::Wide(call, way),
                    _ => return None,
                }
            }
            _ => return None,
        };
        Some(Task { job, passes })
    }
}

// The text of a number; the text of 0 for a number that `Low` does not write.
fn printed_text<T: NumberToChinese>(
    alloc: Global,
    way: Way,
    number: T,
) -> Result<String, AllocError> {
    let (variant, case) = (ChineseVariant::Traditional, ChineseCase::Lower);
    let Way::Units(method) = way else {
        return number.to_chinese_naive(alloc, variant, case);
    };
    match number.to_chinese(alloc, variant, case, method) {
        Ok(text) => Ok(text),
        Err(NumberToChineseError::OutOfMemory) => Err(AllocError),
        Err(_) => 0u8.to_chinese_naive(alloc, variant, case),
    }
}

/// Writes the numbers in turn, and returns the sum of the lengths of their texts.
pub fn print_sum<T: NumberToChinese>(
    alloc: Global,
    numbers: &[T],
    way: Way,
    passes: u32,
) -> Result<u64, AllocError> {
    let mut sum = 0u64;
    for _ in 0..passes {
        for number in numbers {
            let text = printed_text(alloc, way, *number)?;
            sum = sum.wrapping_add(text.len() as u64);
        }
    }
    Ok(sum)
}

/// Reads the texts of the numbers in turn, and returns the sum of the numbers.
pub fn read_sum<T: NumberToChinese>(
    alloc: Global,
    numbers: &[T],
    way: Way,
    passes: u32,
) -> Result<u64, AllocError> {
    let mut texts = Vec::new(alloc);
    for number in numbers {
        texts.push(printed_text(alloc, way, *number)?)?;
    }
    let mut sum = 0u64;
    for _ in 0..passes {
        for text in &texts {
            let number = read_by::<T>(way, text.as_str());
            let magnitude = number.map_or(0, |number| number.magnitude());
            sum = sum.wrapping_add((magnitude & u64::MAX as u128) as u64);
        }
    }
    Ok(sum)
}
