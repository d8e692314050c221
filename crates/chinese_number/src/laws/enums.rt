// What equality and order of the enums say.
ghost use Rattle.std.specs.Prelude.{◌≡◌, ◌↔◌, IsTrue};
ghost use Rattle.std.specs.Ordering.{nat_cmp};
ghost use Rattle.cn_amount.specs.declared.error.AmountToChineseError.{AmountToChineseError as AmountPrintingError};
ghost use Rattle.cn_amount.specs.declared.error.ChineseToAmountError.{ChineseToAmountError as AmountReadingError};
ghost use Rattle.cn_amount.specs.declared.form.AmountForm.{AmountForm as FormOfAmount};
ghost use Rattle.cn_core.specs.Characters.{rank};
ghost use Rattle.cn_core.specs.declared.case.ChineseCase.{ChineseCase as Case};
ghost use Rattle.cn_core.specs.declared.method.ChineseCountMethod.{ChineseCountMethod as Method};
ghost use Rattle.cn_core.specs.declared.script.ChineseVariant.{ChineseVariant as Script};
ghost use Rattle.cn_core.specs.declared.sign.Sign.{Sign as NumeralSign};
ghost use Rattle.cn_core.specs.declared.unit.Unit.{Unit as NumeralUnit};
ghost use Rattle.cn_date.specs.declared.date.BillDate.{BillDate as DateOfBill};
ghost use Rattle.cn_date.specs.declared.error.ChineseToDateError.{ChineseToDateError as DateReadingError};
ghost use Rattle.cn_date.specs.declared.error.DateToChineseError.{DateToChineseError as DatePrintingError};
ghost use Rattle.cn_quantity_text.specs.declared.error.QuantityToChineseError.{QuantityToChineseError as QuantityPrintingError};
ghost use Rattle.cn_find.specs.declared.doubt.Doubt.{Doubt as DoubtOfFound};
ghost use Rattle.cn_judge.specs.declared.error.ChineseToNumberError.{ChineseToNumberError as ReadingError};
ghost use Rattle.cn_judge.specs.declared.fault.NumeralFault.{NumeralFault as FaultOfNumeral};
ghost use Rattle.cn_quantity.specs.declared.fault.QuantityFault.{QuantityFault as FaultOfQuantity};
ghost use Rattle.cn_quantity.specs.declared.misread.MisreadFault.{MisreadFault as FaultOfMisread};
ghost use Rattle.cn_quantity.specs.declared.quantity.Quantity.{Quantity as ExactQuantity};
ghost use Rattle.cn_quantity.specs.declared.quantity.QuantityForm.{QuantityForm as FormOfQuantity};
ghost use Rattle.cn_spell.specs.declared.error.NumberToChineseError.{NumberToChineseError as PrintingError};

use cn_amount::{AmountForm, AmountToChineseError, ChineseToAmountError};
use cn_calls::{ChineseToNumberError, NumberToChineseError};
use cn_core::{ChineseCase, ChineseCountMethod, ChineseVariant, Sign, Unit};
use cn_date::{BillDate, ChineseToDateError, DateToChineseError};
use cn_find::Doubt;
use cn_judge::NumeralFault;
use cn_quantity::{MisreadFault, Quantity, QuantityFault, QuantityForm};
use cn_quantity_text::QuantityToChineseError;

/// Two values of an enum are equal exactly if they are the same variant, with the same char_index
/// if it has one.
///
/// For callers who compare scripts, cases, methods, units, signs, forms of quantities, doubts,
/// errors or the reasons for them.
pub fn equal_values_are_the_same_variant()
    ensures units { (a b : NumeralUnit) → IsTrue (⟦<Unit as PartialEq>⟧.eq a b) ↔ (a ≡ b) }
    ensures signs { (a b : NumeralSign) → IsTrue (⟦<Sign as PartialEq>⟧.eq a b) ↔ (a ≡ b) }
    ensures scripts { (a b : Script) → IsTrue (⟦<ChineseVariant as PartialEq>⟧.eq a b) ↔ (a ≡ b) }
    ensures cases { (a b : Case) → IsTrue (⟦<ChineseCase as PartialEq>⟧.eq a b) ↔ (a ≡ b) }
    ensures methods { (a b : Method)
        → IsTrue (⟦<ChineseCountMethod as PartialEq>⟧.eq a b) ↔ (a ≡ b) }
    ensures quantity_forms { (a b : FormOfQuantity)
        → IsTrue (⟦<QuantityForm as PartialEq>⟧.eq a b) ↔ (a ≡ b) }
    ensures doubts { (a b : DoubtOfFound) → IsTrue (⟦<Doubt as PartialEq>⟧.eq a b) ↔ (a ≡ b) }
    ensures reading_errors { (a b : ReadingError)
        → IsTrue (⟦<ChineseToNumberError as PartialEq>⟧.eq a b) ↔ (a ≡ b) }
    ensures numeral_faults { (a b : FaultOfNumeral)
        → IsTrue (⟦<NumeralFault as PartialEq>⟧.eq a b) ↔ (a ≡ b) }
    ensures misread_faults { (a b : FaultOfMisread)
        → IsTrue (⟦<MisreadFault as PartialEq>⟧.eq a b) ↔ (a ≡ b) }
    ensures quantity_faults { (a b : FaultOfQuantity)
        → IsTrue (⟦<QuantityFault as PartialEq>⟧.eq a b) ↔ (a ≡ b) }
    ensures printing_errors { (a b : PrintingError)
        → IsTrue (⟦<NumberToChineseError as PartialEq>⟧.eq a b) ↔ (a ≡ b) }
    ensures quantity_printing_errors { (a b : QuantityPrintingError)
        → IsTrue (⟦<QuantityToChineseError as PartialEq>⟧.eq a b) ↔ (a ≡ b) }
    ensures amount_reading_errors { (a b : AmountReadingError)
        → IsTrue (⟦<ChineseToAmountError as PartialEq>⟧.eq a b) ↔ (a ≡ b) }
    ensures amount_printing_errors { (a b : AmountPrintingError)
        → IsTrue (⟦<AmountToChineseError as PartialEq>⟧.eq a b) ↔ (a ≡ b) }
    ensures date_reading_errors { (a b : DateReadingError)
        → IsTrue (⟦<ChineseToDateError as PartialEq>⟧.eq a b) ↔ (a ≡ b) }
    ensures date_printing_errors { (a b : DatePrintingError)
        → IsTrue (⟦<DateToChineseError as PartialEq>⟧.eq a b) ↔ (a ≡ b) }
{}

/// Two dates are equal exactly if year, month and day are.
///
/// For callers who compare dates.
pub fn equal_dates_are_the_same_day()
    ensures { (a b : DateOfBill) → IsTrue (⟦<BillDate as PartialEq>⟧.eq a b) ↔ (a ≡ b) }
{}

/// Two quantities are equal exactly if numerators, denominators and forms are.
///
/// For callers who compare quantities: 3.10, which is 310/100, and 3.1, which is 31/10, are
/// different.
pub fn equal_quantities_have_equal_parts()
    ensures { (a b : ExactQuantity) → IsTrue (⟦<Quantity as PartialEq>⟧.eq a b) ↔ (a ≡ b) }
{}

/// Two forms of an amount are equal exactly if they request the same.
///
/// For callers who compare requested forms: one with 圆 instead of 元 differs from one with the
/// prefix 人民币.
pub fn equal_amount_forms_ask_for_the_same()
    ensures { (a b : FormOfAmount) → IsTrue (⟦<AmountForm as PartialEq>⟧.eq a b) ↔ (a ≡ b) }
{}

/// Units are ordered by rank: 個 is the least and 極 the greatest.
///
/// For callers who compare units: 萬 is greater than 千.
pub fn units_compare_by_rank()
    ensures { (a b : NumeralUnit) → ⟦<Unit as Ord>⟧.cmp a b ≡ nat_cmp (rank a) (rank b) }
{}
