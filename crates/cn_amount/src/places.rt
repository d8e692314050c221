// The decimal digits of an amount.
ghost use Rattle.std.specs.Prelude.{◌≡◌, ◌<◌};
ghost use Rattle.cn_amount.specs.Places.{section_of, places_of, AreDigits, ArePlaces};
ghost use Rattle.cn_amount.specs.Form.{is_empty};

/// Four decimal digits.
#[derive(Clone, Copy)]
pub struct Section {
    pub thousands: u8,
    pub hundreds: u8,
    pub tens: u8,
    pub ones: u8,
}

impl Section {
    // The lowest four digits of a number.
    fn of(number: u64) -> Section
        ensures section { result ≡ section_of number }
        ensures digits { AreDigits result }
    {
        Section {
            thousands: (number / 1000 % 10) as u8,
            hundreds: (number / 100 % 10) as u8,
            tens: (number / 10 % 10) as u8,
            ones: (number % 10) as u8,
        }
    }

    /// Whether each digit is 0.
    pub fn is_empty(self) -> bool
        ensures { result ≡ is_empty self }
    {
        self.thousands == 0 && self.hundreds == 0 && self.tens == 0 && self.ones == 0
    }
}

/// The digits of an amount below 10^18 fen: four sections of yuan, the jiao and the fen.
#[derive(Clone, Copy)]
pub struct Places {
    /// The yuan that 万亿 counts, those that 亿 counts, those that 万 counts, and the rest.
    pub wan_yi: Section,
    pub yi: Section,
    pub wan: Section,
    pub yuan: Section,
    pub jiao: u8,
    pub fen: u8,
}

impl Places {
    /// The digits of an amount in fen.
    pub fn of(amount: u64) -> Places
        ensures places { result ≡ places_of amount }
        ensures digits { ArePlaces result }
    {
        Places {
            wan_yi: Section::of(amount / 100_000_000_000_000),
            yi: Section::of(amount / 10_000_000_000),
            wan: Section::of(amount / 1_000_000),
            yuan: Section::of(amount / 100),
            jiao: (amount / 10 % 10) as u8,
            fen: (amount % 10) as u8,
        }
    }
}
