// What is directly before a place of an amount.
ghost use Rattle.std.specs.Prelude.{◌≡◌, true, false};
ghost use Rattle.cn_amount.specs.Form.{after_digit, after_section, after_wan, after_yuan_unit, is_written};

use crate::places::Section;

/// What is directly before a place.
#[derive(Clone, Copy, Eq, PartialEq)]
pub enum Before {
    /// Nothing is written yet.
    Nothing,
    /// The digit there is 0.
    Gap,
    /// The digit there is not 0.
    Filled,
}

impl Before {
    /// Whether something is written yet.
    pub fn is_written(self) -> bool
        ensures { result ≡ is_written self }
    {
        match self {
            Before::Nothing => false,
            _ => true,
        }
    }

    /// What is before the next place, after this digit.
    pub fn after_digit(self, digit: u8) -> Before
        ensures { result ≡ after_digit self digit }
    {
        if digit > 0 {
            Before::Filled
        } else {
            match self {
                Before::Nothing => Before::Nothing,
                _ => Before::Gap,
            }
        }
    }

    /// What is before the place that follows four digits.
    pub fn after_section(self, section: Section) -> Before
        ensures { result ≡ after_section self section }
    {
        self.after_digit(section.thousands)
            .after_digit(section.hundreds)
            .after_digit(section.tens)
            .after_digit(section.ones)
    }

    /// What is before the place that follows a section that 万 counts, in the form that is written.
    pub fn after_wan(self, section: Section) -> Before
        ensures { result ≡ after_wan true self section }
    {
        self.after_section(section)
    }

    /// What is before the jiao, in the form that is written; `named` says whether 零元 is written
    /// if there are no yuan.
    pub fn after_yuan_unit(self, named: bool) -> Before
        ensures { result ≡ after_yuan_unit false self named }
    {
        if self.is_written() || named {
            Before::Filled
        } else {
            Before::Nothing
        }
    }
}
