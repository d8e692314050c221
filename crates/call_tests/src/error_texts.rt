// Tests of the texts of the errors, which contracts define: no width, fill or precision changes
// them.
use chinese_number::{ChineseToNumberError, NumberToChineseError};
use std::fmt::Display;
use std::process::Abort;
use std::test::Fail;

static OF_READING: [ChineseToNumberError; 4] = [
    ChineseToNumberError::ChineseNumberEmpty,
    ChineseToNumberError::ChineseNumberIncorrect { char_index: 12 },
    ChineseToNumberError::Overflow,
    ChineseToNumberError::Underflow,
];

static OF_PRINTING: [NumberToChineseError; 3] = [
    NumberToChineseError::Overflow,
    NumberToChineseError::Underflow,
    NumberToChineseError::OutOfMemory,
];

fn shows(rt: &(impl Abort + AllocGlobal), error: &impl Display) -> Result<(), Fail> {
    let plain = format!(in rt.alloc(); "{error}")?;
    let wide = format!(in rt.alloc(); "{error:*^60}")?;
    let short = format!(in rt.alloc(); "{error:.3}")?;
    assert_eq!(rt; wide, plain);
    assert_eq!(rt; short, plain);
    Ok(())
}

#[test]
fn shows_errors_whatever_the_width(rt: HostRuntime) -> Result<(), Fail> {
    for error in &OF_READING {
        shows(&rt, error)?;
    }
    for error in &OF_PRINTING {
        shows(&rt, error)?;
    }
    Ok(())
}
