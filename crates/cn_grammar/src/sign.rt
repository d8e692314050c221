// A minus sign before a text.
ghost use Rattle.std.specs.Prelude.{◌≡◌};
ghost use Rattle.cn_grammar.specs.Sign.{keeps, next, is_below};

/// What is before a text that may have a minus sign before it.
#[derive(Clone, Copy)]
pub enum Front {
    /// Nothing has been read.
    Open,
    /// Nothing is before it.
    Plain,
    /// A minus sign.
    Minus,
}

impl Front {
    /// Whether a character belongs to the text after the sign; `is_minus` says whether it is a
    /// minus sign.
    pub fn keeps(self, is_minus: bool) -> bool
        ensures { result ≡ keeps self is_minus }
    {
        match self {
            Front::Open => !is_minus,
            _ => true,
        }
    }

    /// What is before the text, after one more character.
    pub fn next(self, is_minus: bool) -> Front
        ensures { result ≡ next self is_minus }
    {
        match self {
            Front::Open if is_minus => Front::Minus,
            Front::Open => Front::Plain,
            front => front,
        }
    }

    /// Whether the text stands for a number below zero.
    pub fn is_below(self) -> bool
        ensures { result ≡ is_below self }
    {
        matches!(self, Front::Minus)
    }
}
