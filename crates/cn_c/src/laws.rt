// What users can count on, as the contract of a function that does nothing.
ghost use Rattle.std.specs.Prelude.{◌≡◌, ℕ, ℤ, true, false, IsSome, List, take, Some, slice_get};
ghost use Rattle.std.specs.Str.{IsUtf8};
ghost use Rattle.cn_quantity.specs.declared.quantity.Quantity.{Quantity as ExactQuantity};
ghost use Rattle.cn_quantity.specs.Trimmed.{decimals_of, trimmed};
ghost use Rattle.cn_c.specs.Amounts.{IsAmountPrinted, IsAmountRead};
ghost use Rattle.cn_c.specs.Codes.{has_flag, named_ways, CN_ANY, CN_BRACKETED_SIGN, CN_DIGITS, CN_DONE, CN_TEN_THOUSAND};
ghost use Rattle.cn_c.specs.Dates.{IsDatePrinted, IsDateRead};
ghost use Rattle.cn_c.specs.Halves.{AreHalves, number_of};
ghost use Rattle.cn_c.specs.Prints.{IsPrinted};
ghost use Rattle.cn_c.specs.Quantities.{IsQuantityRead, IsTold, method_of, quantity_of};
ghost use Rattle.cn_c.specs.QuantityPrints.{IsFiguresPrinted, IsQuantityPrinted, form_code_read_back};
ghost use Rattle.cn_c.specs.Reads.{ReadsBack};
ghost use Rattle.cn_c.specs.SignedAmounts.{IsSignedPrinted, IsSignedRead, IsTypedSignedRead, signed_told};
ghost use Rattle.cn_c.specs.declared.amount.Amount.{Amount};
ghost use Rattle.cn_c.specs.declared.date.Date.{Date};
ghost use Rattle.cn_c.specs.declared.number.Number.{Number};
ghost use Rattle.cn_c.specs.declared.quantity.Quantity.{Quantity};
ghost use Rattle.cn_c.specs.declared.signed_amount.SignedAmount.{SignedAmount};

/// What `chinese_number_print` writes is UTF-8, and `chinese_number_read_utf8` reads it, as the
/// same type and in the same way, as the same number.
///
/// For numbers that cross from one language to another.
pub fn printed_numbers_read_back()
    ensures { (number : Number) (kind way script case : ℕ) (old new : List ℕ) (len : ℕ)
        → IsPrinted number.low number.high kind way script case old CN_DONE new len
        → ReadsBack (take len new) kind way number }
{}

/// A number that it writes as plain digits, by the standard method or either way is read either way
/// as the same number.
///
/// For callers who do not know how a number was written.
pub fn printed_numbers_read_back_either_way()
    ensures digits { (number : Number) (kind script case : ℕ) (old new : List ℕ) (len : ℕ)
        → IsPrinted number.low number.high kind CN_DIGITS script case old CN_DONE new len
        → ReadsBack (take len new) kind CN_ANY number }
    ensures ten_thousand { (number : Number) (kind script case : ℕ) (old new : List ℕ) (len : ℕ)
        → IsPrinted number.low number.high kind CN_TEN_THOUSAND script case old CN_DONE new len
        → ReadsBack (take len new) kind CN_ANY number }
    ensures either { (number : Number) (kind script case : ℕ) (old new : List ℕ) (len : ℕ)
        → IsPrinted number.low number.high kind CN_ANY script case old CN_DONE new len
        → ReadsBack (take len new) kind CN_ANY number }
{}

/// What `chinese_quantity_print` writes is UTF-8, and `chinese_quantity_read` reads it by the same
/// method as the same numerator and denominator. Its form is the same too, except that a quantity
/// written as a fraction, because its denominator is not one of its form, is read as a fraction, or
/// as a percentage over 100. What it writes either way is read by `TenThousand`.
///
/// For quantities that cross from one language to another.
pub fn printed_quantities_read_back()
    ensures same { (quantity : Quantity) (method script case : ℕ) (old new : List ℕ) (len : ℕ)
        → AreHalves quantity.numerator → AreHalves quantity.denominator
        → IsQuantityPrinted quantity method script case old CN_DONE new len
        → IsUtf8 (take len new)
        × ((status : ℕ) (told : Quantity) → IsQuantityRead (take len new) method status told
        → (status ≡ CN_DONE)
        × (number_of true told.numerator ≡ number_of true quantity.numerator)
        × (number_of false told.denominator ≡ number_of false quantity.denominator)
        × (form_code_read_back quantity ≡ Some told.form)) }
    ensures either { (quantity : Quantity) (script case : ℕ) (old new : List ℕ) (len : ℕ)
        → AreHalves quantity.numerator → AreHalves quantity.denominator
        → IsQuantityPrinted quantity CN_ANY script case old CN_DONE new len
        → IsUtf8 (take len new)
        × ((status : ℕ) (told : Quantity)
        → IsQuantityRead (take len new) CN_TEN_THOUSAND status told
        → (status ≡ CN_DONE)
        × (number_of true told.numerator ≡ number_of true quantity.numerator)
        × (number_of false told.denominator ≡ number_of false quantity.denominator)
        × (form_code_read_back quantity ≡ Some told.form)) }
{}

/// What `chinese_quantity_figures` writes is UTF-8. If it has no fraction bar,
/// `chinese_quantity_read` reads it, by each method, as exactly the quantity that is written, which
/// has no zeros at the end of its decimals.
///
/// For quantities that are stored as figures: 1250/10000 as a percentage is 12.5%, which is read as
/// 125/1000, a percentage.
pub fn printed_figures_read_back()
    ensures utf8 { (quantity : Quantity) (old new : List ℕ) (len : ℕ)
        → AreHalves quantity.numerator → AreHalves quantity.denominator
        → IsFiguresPrinted quantity old CN_DONE new len
        → IsUtf8 (take len new) }
    ensures read { (quantity : Quantity) (exact : ExactQuantity) (method : ℕ) (old new : List ℕ)
        (len : ℕ)
        → AreHalves quantity.numerator → AreHalves quantity.denominator
        → quantity_of quantity ≡ Some exact → IsSome (decimals_of exact)
        → IsSome (method_of (slice_get named_ways method))
        → IsFiguresPrinted quantity old CN_DONE new len
        → (status : ℕ) (told : Quantity) → IsQuantityRead (take len new) method status told
        → (status ≡ CN_DONE) × IsTold (trimmed exact) told }
{}

/// What `chinese_amount_print` writes, in each form, is UTF-8, and `chinese_amount_read` reads it
/// as the same amount.
pub fn printed_amounts_read_back()
    ensures { (fen script form : ℕ) (old new : List ℕ) (len : ℕ)
        → IsAmountPrinted fen script form old CN_DONE new len
        → IsUtf8 (take len new)
        × ((status : ℕ) (amount : Amount) → IsAmountRead (take len new) status amount
        → (status ≡ CN_DONE) × (amount ≡ record { fen = fen; char_index = 0; byte_index = 0 })) }
{}

/// What `chinese_signed_amount_print` writes, in each form, is UTF-8, and
/// `chinese_typed_signed_amount_read` reads it as the same amount. So does
/// `chinese_signed_amount_read`, if the form does not write （负数）.
pub fn printed_signed_amounts_read_back()
    ensures typed { (fen : ℤ) → (script form : ℕ) → (old new : List ℕ) → (len : ℕ)
        → IsSignedPrinted fen script form old CN_DONE new len
        → IsUtf8 (take len new)
        × ((status : ℕ) (amount : SignedAmount) → IsTypedSignedRead (take len new) status amount
        → (status ≡ CN_DONE) × (amount ≡ signed_told fen)) }
    ensures strict { (fen : ℤ) → (script form : ℕ) → (old new : List ℕ) → (len : ℕ)
        → has_flag form CN_BRACKETED_SIGN ≡ false
        → IsSignedPrinted fen script form old CN_DONE new len
        → (status : ℕ) (amount : SignedAmount) → IsSignedRead (take len new) status amount
        → (status ≡ CN_DONE) × (amount ≡ signed_told fen) }
{}

/// What `chinese_date_print` writes is UTF-8, and `chinese_date_read` reads it as the same date.
pub fn printed_dates_read_back()
    ensures { (year month day script : ℕ) (old new : List ℕ) (len : ℕ)
        → IsDatePrinted year month day script old CN_DONE new len
        → IsUtf8 (take len new)
        × ((status : ℕ) (date : Date) → IsDateRead (take len new) status date
        → (status ≡ CN_DONE)
        × (date ≡ record {
          year = year;
          month = month;
          day = day;
          char_index = 0;
          byte_index = 0;
        })) }
{}
