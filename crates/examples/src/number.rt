ghost use Rattle.std.specs.Prelude.{pos};
ghost use Rattle.chinese_number.specs.Answer.{answer_of};
ghost use Rattle.chinese_number.specs.Reading.{Reads};
ghost use Rattle.chinese_number.specs.Whole.{unsigned_kind};
ghost use Rattle.chinese_number.specs.declared.ChineseCountMethod.TheVariants.{TenThousand};

use chinese_number::{ChineseToNumberError, from_chinese_to_u64_ten_thousand};

/// The number that a text spells, or why it spells none, according to the rules. This is proved.
pub fn number_of(text: &str) -> Result<u64, ChineseToNumberError>
    ensures { Reads (unsigned_kind 64) TenThousand text.now (answer_of pos result) }
{
    from_chinese_to_u64_ten_thousand(text)
}
