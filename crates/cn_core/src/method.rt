ghost use Rattle.std.specs.Prelude.{◌≡◌, [], ◌∷◌};

/// The method that fixes which power of ten each unit stands for. Up to 萬, 10^4, all four agree.
///
/// Use `TenThousand`. Below 10^12 it writes the same as `Middle` and `High`. For 10^12 it writes 兆,
/// as in Taiwan; they write 萬億, as on the mainland.
#[derive(Debug, Copy, Clone, Eq, PartialEq, Hash)]
pub enum ChineseCountMethod {
    /// Each unit is ten times the one before: 億 is 10^5, 兆 is 10^6, 極 is 10^15.
    Low,
    /// After 萬 each unit is 10^4 times the one before: 億 is 10^8, 兆 is 10^12, 京 is 10^16.
    TenThousand,
    /// After 億 each unit is 10^8 times the one before: 億 is 10^8, 兆 is 10^16, 京 is 10^24.
    Middle,
    /// From 億 on each unit is the square of the one before: 億 is 10^8, 兆 is 10^16, 京 is 10^32.
    High,
}

impl ChineseCountMethod {
    /// The four methods: `Low`, `TenThousand`, `Middle`, `High`.
    pub fn variants() -> [Self; 4]
        ensures { result
            ≡ ChineseCountMethod.Low ∷ ChineseCountMethod.TenThousand ∷ ChineseCountMethod.Middle
            ∷ ChineseCountMethod.High ∷ [] }
    {
        [
            ChineseCountMethod::Low,
            ChineseCountMethod::TenThousand,
            ChineseCountMethod::Middle,
            ChineseCountMethod::High,
        ]
    }
}
