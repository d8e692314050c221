// What has been read of the number of a month or a day.
ghost use Rattle.std.specs.Prelude.{◌≡◌};
ghost use Rattle.cn_date.specs.Working.Steps.{IsPart, part_step, fits_month, fits_day, month_of, day_of};

use crate::capital::Capital;

/// What has been read. Each digit is from 1 to 9.
#[derive(Clone, Copy)]
pub enum Part {
    /// Nothing.
    Nothing,
    /// 零
    Ling,
    /// 零伍
    LingOne(u8),
    /// 零贰拾
    LingTens(u8),
    /// 贰
    One(u8),
    /// 贰拾
    Tens(u8),
    /// 贰拾伍
    Both(u8, u8),
}

impl Part {
    /// The part after one more character; `None` if no number continues with it.
    pub fn step(self, capital: Capital) -> Option<Part>
        ensures { result ≡ part_step self capital }
    {
        match (self, capital) {
            (Part::Nothing, Capital::Digit(0)) => Some(Part::Ling),
            (Part::Nothing, Capital::Digit(digit)) => Some(Part::One(digit)),
            (Part::Ling, Capital::Digit(digit)) if digit > 0 => Some(Part::LingOne(digit)),
            (Part::LingOne(digit), Capital::Shi) => Some(Part::LingTens(digit)),
            (Part::One(digit), Capital::Shi) => Some(Part::Tens(digit)),
            (Part::Tens(tens), Capital::Digit(ones)) if ones > 0 => Some(Part::Both(tens, ones)),
            _ => None,
        }
    }

    /// Whether a month can begin like this.
    pub fn fits_month(self) -> bool
        ensures { result ≡ fits_month self }
    {
        match self {
            Part::Nothing | Part::Ling | Part::LingOne(_) => true,
            Part::LingTens(digit) | Part::Tens(digit) => digit == 1,
            Part::One(digit) => digit != 2,
            Part::Both(tens, ones) => tens == 1 && ones <= 2,
        }
    }

    /// Whether a day can begin like this in a month of `days` days.
    pub fn fits_day(self, days: u8) -> bool
        requires { IsPart self }
        ensures { result ≡ fits_day days self }
    {
        match self {
            Part::Nothing | Part::Ling | Part::LingOne(_) => true,
            Part::LingTens(digit) => 10 * digit <= days,
            Part::One(digit) | Part::Tens(digit) => 10 * digit < days,
            Part::Both(tens, ones) => 10 * tens + ones <= days,
        }
    }

    /// The month if it is complete: it is complete like a day, or as one digit, except that 壹月
    /// needs 零 before it.
    pub fn month(self) -> Option<u8>
        requires { IsPart self }
        ensures { result ≡ month_of self }
    {
        match self {
            Part::One(1) => None,
            Part::One(digit) => Some(digit),
            _ => self.day(),
        }
    }

    /// The day if it is complete.
    pub fn day(self) -> Option<u8>
        requires { IsPart self }
        ensures { result ≡ day_of self }
    {
        match self {
            Part::LingOne(digit) => Some(digit),
            Part::LingTens(digit) => Some(10 * digit),
            Part::Both(tens, ones) => Some(10 * tens + ones),
            _ => None,
        }
    }
}
