//! What users can count on, each as the contract of a function that does nothing.
ghost use Rattle.std.specs.Prelude.{ℕ, ◌≤◌, List, length, Ok, encode_utf8_all};
ghost use Rattle.cn_core.specs.declared.script.ChineseVariant.{ChineseVariant};
ghost use Rattle.cn_date.specs.declared.date.BillDate.{BillDate};
ghost use Rattle.cn_date.specs.Calendar.{IsDate};
ghost use Rattle.cn_date.specs.Reading.{IsDateText, ReadsDate};
ghost use Rattle.cn_date.specs.Writes.{date_text};

/// What is written for a date is read as that date, by the definition of reading.
pub fn written_dates_are_dates()
    ensures { (variant : ChineseVariant) → (date : BillDate) → IsDate date
        → ReadsDate (encode_utf8_all (date_text variant date)) (Ok date) }
{}

/// A form has at most 13 characters, so a reader of a longer text stops at its 14th character at
/// the latest.
pub fn forms_are_short()
    ensures { (text : List ℕ) → (date : BillDate) → IsDateText text date → length text ≤ 13 }
{}
