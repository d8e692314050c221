// The states of reading a date from left to right.
ghost use Rattle.std.specs.Prelude.{◌≡◌};
ghost use Rattle.cn_date.specs.Reading.{IsDateText};
ghost use Rattle.cn_date.specs.Working.Putting.{IsWritten};
ghost use Rattle.cn_date.specs.Working.Steps.{IsPart, HasPart, year_step, month_step, day_step, step, date_machine};

use crate::capital::{Capital, capital_of};
use crate::date::{BillDate, days_of};
use crate::part::Part;
use cn_grammar::Grammar;

/// What has been read.
#[derive(Clone, Copy)]
pub enum State {
    /// The figures of a year; 0 if there are none yet.
    Year(u16),
    /// The year, and a part of the month.
    Month(u16, Part),
    /// The year, the month and its days, and a part of the day.
    Day {
        year: u16,
        month: u8,
        days: u8,
        part: Part,
    },
    /// A whole date, which nothing may follow.
    Complete(BillDate),
}

// Same answer (10 → 11, 10 → 9): a sum is 0 only if the year and the digit are 0, whatever the
// factor is.
fn year_step(year: u16, capital: Capital) -> Option<State>
    ensures { result ≡ year_step year capital }
{
    match capital {
        Capital::Digit(digit) if year < 1000 && 10 * year + digit as u16 > 0 => {
            Some(State::Year(10 * year + digit as u16))
        }
        Capital::Nian if year > 0 => Some(State::Month(year, Part::Nothing)),
        _ => None,
    }
}

fn month_step(year: u16, part: Part, capital: Capital) -> Option<State>
    requires { IsPart part }
    ensures { result ≡ month_step year part capital }
{
    match capital {
        Capital::Yue => {
            let month = part.month()?;
            Some(State::Day {
                year,
                month,
                days: days_of(year, month),
                part: Part::Nothing,
            })
        }
        _ => {
            let part = part.step(capital)?;
            if part.fits_month() {
                Some(State::Month(year, part))
            } else {
                None
            }
        }
    }
}

fn day_step(year: u16, month: u8, days: u8, part: Part, capital: Capital) -> Option<State>
    requires part { IsPart part }
    requires digit { IsWritten capital }
    ensures { result ≡ day_step year month days part capital }
{
    match capital {
        Capital::Ri => {
            let day = part.day()?;
            Some(State::Complete(BillDate { year, month, day }))
        }
        _ => {
            let part = part.step(capital)?;
            if part.fits_day(days) {
                Some(State::Day {
                    year,
                    month,
                    days,
                    part,
                })
            } else {
                None
            }
        }
    }
}

impl State {
    /// The state after one more capital; `None` if no date continues with it.
    fn after(self, capital: Capital) -> Option<State>
        requires part { HasPart self }
        requires digit { IsWritten capital }
        ensures { result ≡ step self capital }
    {
        match self {
            State::Year(year) => year_step(year, capital),
            State::Month(year, part) => month_step(year, part, capital),
            State::Day {
                year,
                month,
                days,
                part,
            } => day_step(year, month, days, part, capital),
            State::Complete(_) => None,
        }
    }
}

/// The grammar of dates in capitals.
pub type DateGrammar = State;

impl Grammar for State {
    type Value = BillDate;

    ghost is_form = { IsDateText };

    ghost machine = { date_machine };

    fn begin() -> State {
        State::Year(0)
    }

    fn step(self, character: char) -> Option<State> {
        self.after(capital_of(character)?)
    }

    fn end(self) -> Option<BillDate> {
        match self {
            State::Complete(date) => Some(date),
            _ => None,
        }
    }

    #[tactic(auto, using(crate::proofs::ReadText::date_reads))]
    fn states_read_the_forms() {}
}
