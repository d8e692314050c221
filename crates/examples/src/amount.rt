ghost use Rattle.chinese_number.specs.AmountWrites.{WritesAmount};
ghost use Rattle.chinese_number.specs.declared.ChineseVariant.TheVariants.{Simple};

use chinese_number::{AmountToChineseError, ChineseVariant, amount_to_chinese};
use std::alloc::Global;

/// An amount of fen in capitals, as on a cheque: in the form of the rules, and in no other. This is
/// proved.
pub fn amount_in_capitals(alloc: Global, fen: u64) -> Result<String, AmountToChineseError>
    ensures { WritesAmount Simple fen result }
{
    amount_to_chinese(alloc, ChineseVariant::Simple, fen)
}
