ghost use Rattle.std.specs.Prelude.{◌≡◌, Ok, IfOk};

use chinese_number::laws::spellings_read_back;
use chinese_number::{
    ChineseCase, ChineseCountMethod, ChineseToNumber, ChineseToNumberError, ChineseVariant,
    NumberToChinese, NumberToChineseError, ROOM_BYTES, Whole, put_chinese,
};
use std::alloc::Global;

/// Prints a number and reads what was printed. The result is the same number whenever a text was
/// printed.
pub fn print_and_read<T: NumberToChinese>(
    alloc: Global,
    variant: ChineseVariant,
    case: ChineseCase,
    method: ChineseCountMethod,
    number: T,
) -> Result<Result<T, ChineseToNumberError>, NumberToChineseError>
    ensures { IfOk result (λ answer. answer ≡ Ok number) }
{
    let _magnitude = number.magnitude();
    spellings_read_back::<T>();
    let text = number.to_chinese(alloc, variant, case, method)?;
    Ok(text.as_str().to_number(method))
}

/// Writes a number into the caller's buffer and reads what was written. The result is the same
/// number whenever a text was written.
pub fn put_and_read<T: Whole>(
    room: &mut [u8; ROOM_BYTES],
    variant: ChineseVariant,
    case: ChineseCase,
    method: ChineseCountMethod,
    number: T,
) -> Result<Result<T, ChineseToNumberError>, NumberToChineseError>
    ensures { IfOk result (λ answer. answer ≡ Ok number) }
{
    let _magnitude = number.magnitude();
    spellings_read_back::<T>();
    let text = put_chinese(room, variant, case, method, number)?;
    Ok(text.to_number(method))
}
