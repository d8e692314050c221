//! Dates in figures, such as 2026-01-15.
ghost use Rattle.std.specs.Prelude.{◌≡◌, ◌<◌, Some};
ghost use Rattle.cheque.specs.DateFigures.{IsDateFigures, ReadsDateFigures};
ghost use Rattle.cheque.specs.Working.DateSteps.{AreBelow, with_digit, after_digit, after_hyphen, date_machine};

use crate::digits::digit_of;
use chinese_number::{BillDate, ChineseToDateError};
use cn_grammar::{Grammar, Refusal, read_form};
use std::fmt;

// The two digits of a number below 100.
#[derive(Debug, Copy, Clone)]
struct TwoDigits {
    number: u16,
}

impl fmt::Display for TwoDigits {
    ghost use Rattle.cheque.specs.DateFigures.{two_digits};

    ghost output = { λ digits. Some (two_digits digits.number) };

    fn fmt<W: fmt::Write>(&self, f: &mut fmt::Formatter<W>) -> fmt::Result {
        write!(f, "{}{}", self.number / 10 % 10, self.number % 10)
    }
}

/// A date that is shown in figures: 2026-01-15.
#[derive(Debug, Copy, Clone)]
pub struct DateFigures {
    pub date: BillDate,
}

impl fmt::Display for DateFigures {
    ghost use Rattle.cheque.specs.DateFigures.{figures_of};

    ghost output = { λ figures. Some (figures_of figures.date) };

    fn fmt<W: fmt::Write>(&self, f: &mut fmt::Formatter<W>) -> fmt::Result {
        let BillDate { year, month, day } = self.date;
        let century = TwoDigits { number: year / 100 };
        let year = TwoDigits { number: year };
        let month = TwoDigits {
            number: month as u16,
        };
        let day = TwoDigits { number: day as u16 };
        write!(f, "{century}{year}-{month}-{day}")
    }
}

// A number, and how many of its digits have been read.
#[derive(Clone, Copy)]
struct Number {
    digits: u8,
    value: u16,
}

impl Number {
    // A number of which nothing has been read.
    const NONE: Number = Number {
        digits: 0,
        value: 0,
    };

    // The number after one more digit, if it has fewer than `most`.
    fn with_digit(self, digit: u8, most: u8) -> Option<Number>
        requires digit { digit < 10 }
        requires below { self.digits < most → self.value < 1000 }
        ensures { result ≡ with_digit self digit most }
    {
        if self.digits < most {
            Some(Number {
                digits: self.digits + 1,
                value: 10 * self.value + digit as u16,
            })
        } else {
            None
        }
    }
}

// What has been read of the figures.
#[derive(Clone, Copy)]
enum State {
    /// Digits of the year.
    Year(Number),
    /// The year, and digits of the month.
    Month(u16, Number),
    /// The year and the month, and digits of the day.
    Day(u16, u16, Number),
}

impl State {
    fn after_digit(self, digit: u8) -> Option<State>
        requires digit { digit < 10 }
        requires below { AreBelow self }
        ensures { result ≡ after_digit self digit }
    {
        match self {
            State::Year(year) => Some(State::Year(year.with_digit(digit, 4)?)),
            State::Month(year, month) => Some(State::Month(year, month.with_digit(digit, 2)?)),
            State::Day(year, month, day) => Some(State::Day(
                year,
                month,
                day.with_digit(digit, 2)?,
            )),
        }
    }

    fn after_hyphen(self) -> Option<State>
        ensures { result ≡ after_hyphen self }
    {
        match self {
            State::Year(year) if year.digits == 4 => Some(State::Month(year.value, Number::NONE)),
            State::Month(year, month) if month.digits == 2 => {
                Some(State::Day(year, month.value, Number::NONE))
            }
            _ => None,
        }
    }
}

impl Grammar for State {
    type Value = BillDate;

    ghost is_form = { IsDateFigures };

    ghost machine = { date_machine };

    fn begin() -> State {
        State::Year(Number::NONE)
    }

    fn step(self, character: char) -> Option<State> {
        if character == '-' {
            self.after_hyphen()
        } else {
            self.after_digit(digit_of(character)?)
        }
    }

    fn end(self) -> Option<BillDate> {
        match self {
            State::Day(year, month, day) if day.digits == 2 => Some(BillDate {
                year,
                month: month as u8,
                day: day.value as u8,
            }),
            _ => None,
        }
    }

    #[tactic(auto, using(crate::proofs::DateFiguresRead::date_reads))]
    fn states_read_the_forms() {}
}

/// The date that figures write: four digits, a hyphen, two digits, a hyphen and two digits. The
/// date need not exist. The error is `Incorrect` at the first character with which no figures
/// begin, and `Unfinished` if the text ends too soon.
///
/// ```text
/// date_of("2026-01-15") == Ok(BillDate { year: 2026, month: 1, day: 15 })
/// date_of("2026-1-15") == Err(ChineseToDateError::Incorrect { char_index: 6 })
/// date_of("2026-01") == Err(ChineseToDateError::Unfinished)
/// ```
pub fn date_of(figures: &str) -> Result<BillDate, ChineseToDateError>
    ensures { ReadsDateFigures figures.now result }
{
    match read_form::<State>(figures) {
        Ok(date) => Ok(date),
        Err(Refusal::Unfinished) => Err(ChineseToDateError::Unfinished),
        Err(Refusal::Incorrect { char_index }) => Err(ChineseToDateError::Incorrect { char_index }),
    }
}
