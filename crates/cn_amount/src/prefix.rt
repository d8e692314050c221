// What can be before an amount as people type it: a circle, a sign, and 人民币 with a note and a
// colon.
ghost use Rattle.std.specs.Prelude.{◌≡◌};
ghost use Rattle.cn_grammar.specs.Characters.{first_with};
ghost use Rattle.cn_amount.specs.declared.prefix.Point.TheVariants.{Currency, Bracket, Note};
ghost use Rattle.cn_amount.specs.Working.Typing.{at, with_circle, with_sign, with_currency, sign_ways, first_ways, fu_ways, ways_at, next, is_over, first};

use cn_core::ChineseVariant;
use cn_grammar::Front;

/// The width of a bracket.
#[derive(Clone, Copy)]
pub enum Width {
    /// （ and ）
    Full,
    /// ( and )
    Half,
}

/// What has been read of a part.
#[derive(Clone, Copy)]
pub enum Point {
    /// Nothing.
    Between,
    /// （, which begins a sign.
    SignBracket(Width),
    /// （负
    SignFu(Width, ChineseVariant),
    /// （负数
    SignShu(Width),
    /// 人
    Ren,
    /// 人民
    Min,
    /// 人民币
    Currency,
    /// 人民币（, which begins a note or a sign.
    Bracket(Width),
    /// 人民币（大
    Da(Width),
    /// 人民币（大写
    Xie(Width),
    /// 人民币（大写）
    Note,
    /// Some of the amount.
    Amount,
}

/// Which parts may still come before an amount, and what has been read of one.
#[derive(Clone, Copy)]
pub struct Prefix {
    /// Whether a circle may come.
    pub circle: bool,
    /// Whether a sign may come, none may come, or one was read.
    pub sign: Front,
    /// Whether 人民币 may come.
    pub currency: bool,
    pub point: Point,
}

impl Prefix {
    /// Nothing has been read.
    pub fn first(sign: Front) -> Prefix
        ensures { result ≡ first sign }
    {
        Prefix {
            circle: true,
            sign,
            currency: true,
            point: Point::Between,
        }
    }

    /// The same at another point.
    pub fn at(self, point: Point) -> Prefix
        ensures { result ≡ at point self }
    {
        Prefix { point, ..self }
    }

    // After a circle.
    fn with_circle(self) -> Prefix
        ensures { result ≡ with_circle self }
    {
        Prefix {
            circle: false,
            ..self.at(Point::Between)
        }
    }

    // After a sign.
    fn with_sign(self) -> Prefix
        ensures { result ≡ with_sign self }
    {
        Prefix {
            sign: Front::Minus,
            ..self.at(Point::Between)
        }
    }

    // After 人民币. No circle follows it.
    fn with_currency(self) -> Prefix
        ensures { result ≡ with_currency self }
    {
        Prefix {
            currency: false,
            ..self.with_circle()
        }
    }

    // After the first character of a sign.
    fn begin_sign(self, character: char) -> Option<Prefix>
        ensures { result ≡ first_with (sign_ways self) character }
    {
        match (self.sign, character) {
            (Front::Open, '负' | '負') => Some(self.with_sign()),
            (Front::Open, '（') => Some(self.at(Point::SignBracket(Width::Full))),
            (Front::Open, '(') => Some(self.at(Point::SignBracket(Width::Half))),
            _ => None,
        }
    }

    // After the first character of a part.
    fn begin_part(self, character: char) -> Option<Prefix>
        ensures { result ≡ first_with (first_ways self) character }
    {
        match character {
            '人' if self.currency => Some(self.at(Point::Ren)),
            '⊗' | 'ⓧ' if self.circle => Some(self.with_circle()),
            _ => self.begin_sign(character),
        }
    }

    // After 负 in brackets.
    fn add_fu(self, width: Width, character: char) -> Option<Prefix>
        ensures { result ≡ first_with (fu_ways width self) character }
    {
        match character {
            '负' => Some(self.at(Point::SignFu(width, ChineseVariant::Simple))),
            '負' => Some(self.at(Point::SignFu(width, ChineseVariant::Traditional))),
            _ => None,
        }
    }

    // After a character that follows 人民币.
    fn follow_currency(self, character: char) -> Option<Prefix>
        ensures { result ≡ first_with (ways_at Currency self) character }
    {
        match (self.sign, character) {
            (_, ':' | '：') => Some(self.with_currency()),
            (_, '（') => Some(self.at(Point::Bracket(Width::Full))),
            (_, '(') => Some(self.at(Point::Bracket(Width::Half))),
            (Front::Open, '负' | '負') => Some(self.with_currency().with_sign()),
            _ => None,
        }
    }

    // After a character that follows a bracket after 人民币.
    fn follow_bracket(self, width: Width, character: char) -> Option<Prefix>
        ensures { result ≡ first_with (ways_at (Bracket width) self) character }
    {
        match (self.sign, character) {
            (_, '大') => Some(self.at(Point::Da(width))),
            (Front::Open, _) => self.with_currency().add_fu(width, character),
            _ => None,
        }
    }

    // Same answer (begin_sign → begin_part): after 人民币 only a sign may begin.
    // After a character that follows a note.
    fn follow_note(self, character: char) -> Option<Prefix>
        ensures { result ≡ first_with (ways_at Note self) character }
    {
        match character {
            ':' | '：' => Some(self.with_currency()),
            _ => self.with_currency().begin_sign(character),
        }
    }

    /// After one more character that is not white space; `None` if the character is not one of a
    /// prefix.
    pub fn next(self, character: char) -> Option<Prefix>
        ensures { result ≡ next self character }
    {
        match (self.point, character) {
            (Point::Between, _) => self.begin_part(character),
            (Point::SignBracket(width), _) => self.add_fu(width, character),
            (Point::SignFu(width, ChineseVariant::Simple), '数')
            | (Point::SignFu(width, ChineseVariant::Traditional), '數') => {
                Some(self.at(Point::SignShu(width)))
            }
            (Point::SignShu(Width::Full), '）') | (Point::SignShu(Width::Half), ')') => {
                Some(self.with_sign())
            }
            (Point::Ren, '民') => Some(self.at(Point::Min)),
            (Point::Min, '币' | '幣') => Some(self.at(Point::Currency)),
            (Point::Currency, _) => self.follow_currency(character),
            (Point::Bracket(width), _) => self.follow_bracket(width, character),
            (Point::Da(width), '写' | '寫') => Some(self.at(Point::Xie(width))),
            (Point::Xie(Width::Full), '）') | (Point::Xie(Width::Half), ')') => {
                Some(self.at(Point::Note))
            }
            (Point::Note, _) => self.follow_note(character),
            _ => None,
        }
    }

    /// Whether an amount can begin or continue here.
    pub fn is_over(self) -> bool
        ensures { result ≡ is_over self.point }
    {
        matches!(
            self.point,
            Point::Between | Point::Currency | Point::Note | Point::Amount
        )
    }
}
