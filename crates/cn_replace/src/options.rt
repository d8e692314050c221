// What is written in figures, and how.

/// Which expressions that often are not numbers by themselves are also written in figures.
#[derive(Debug, Copy, Clone)]
pub struct Included {
    /// Approximate ones, such as the 十 of 十几.
    pub about: bool,
    /// Those of one Chinese character, such as the 一 of 一般.
    pub one_character: bool,
    /// Those that may mean something else, such as 五一; but not parts, such as the 八五 of 八五折.
    pub doubtful: bool,
}

impl Included {
    /// None of them.
    pub const NONE: Included = Included {
        about: false,
        one_character: false,
        doubtful: false,
    };
}

/// How a number in numerals is written in figures.
#[derive(Debug, Copy, Clone, Eq, PartialEq)]
pub enum Style {
    /// Great units are left: 三千五百亿 becomes 3500亿.
    Kept,
    /// All digits are written, also for figures: 三千五百亿 and 3500亿 become 350000000000.
    Expanded,
}

/// How the expressions of a text are written in figures.
#[derive(Debug, Copy, Clone)]
pub struct Figures {
    /// Which expressions are also written in figures.
    pub included: Included,
    /// How numerals are written.
    pub style: Style,
    /// Whether texts of figures alone are written in ASCII, without commas and leading zeros.
    pub canonical: bool,
    /// Whether phrases are written in their shortest form: 2026-01-05, 15:30, 1.5小时. It changes no
    /// quantity.
    pub compact: bool,
    /// Whether codes of Chinese digits, such as telephone numbers, are written too. It changes no
    /// quantity.
    pub codes: bool,
}

impl Figures {
    /// Great units, figures and doubtful expressions are left unchanged.
    pub const DEFAULT: Figures = Figures {
        included: Included::NONE,
        style: Style::Kept,
        canonical: false,
        compact: false,
        codes: false,
    };
}
