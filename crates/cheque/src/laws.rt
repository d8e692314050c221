//! What users of the program can count on, each as the contract of a function that does nothing.
ghost use Rattle.std.specs.Prelude.{Ok};
ghost use Rattle.chinese_number.specs.DateCalendar.{IsDate};
ghost use Rattle.chinese_number.specs.declared.BillDate.{BillDate};
ghost use Rattle.cheque.specs.DateFigures as DateFigures;

/// The figures shown for a date are read as that date.
pub fn shown_dates_are_read()
    ensures { (date : BillDate) → IsDate date
        → DateFigures.ReadsDateFigures (DateFigures.figures_of date) (Ok date) }
{}
