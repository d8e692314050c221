// The calendar.
ghost use Rattle.std.specs.Prelude.{◌≡◌, true, false, MatchBool};
ghost use Rattle.cn_date.specs.Calendar.{is_leap, days_of, IsDate};

/// A date as on a bill. It need not exist.
#[derive(Debug, Clone, Copy, Eq, PartialEq)]
pub struct BillDate {
    /// From 1 to 9999.
    pub year: u16,
    /// From 1, which is January, to 12.
    pub month: u8,
    /// From 1 on.
    pub day: u8,
}

/// Whether February has 29 days.
pub fn is_leap(year: u16) -> bool
    ensures { result ≡ is_leap year }
{
    year % 4 == 0 && (year % 100 != 0 || year % 400 == 0)
}

/// The number of days of a month.
pub fn days_of(year: u16, month: u8) -> u8
    ensures { result ≡ days_of year month }
{
    if month == 2 {
        if is_leap(year) { 29 } else { 28 }
    } else if month == 4 || month == 6 || month == 9 || month == 11 {
        30
    } else {
        31
    }
}

impl BillDate {
    /// Whether the date exists.
    pub fn is_date(self) -> bool
        ensures { MatchBool result (IsDate self) (¬ IsDate self) }
    {
        self.year > 0
            && self.year < 10_000
            && self.month > 0
            && self.month <= 12
            && self.day > 0
            && self.day <= days_of(self.year, self.month)
    }
}
