// The forms of phrases.
ghost use Rattle.std.specs.Prelude.{◌≡◌};
ghost use Rattle.cn_phrase.specs.Forms.{pieces_of};

use crate::piece::{Guard, Piece};
use crate::shape::Shape;
use crate::word::Word;

/// A form of phrases.
#[derive(Debug, Copy, Clone, PartialEq, Eq)]
pub enum Form {
    /// 2026年1月5日
    YearMonthDay,
    /// 2026年1月
    YearMonth,
    /// 1月5日
    MonthDay,
    /// 2026年
    Year,
    /// 1月底
    PartOfMonth,
    /// 2026-01-05
    DashDate,
    /// 2026/1/5
    SlashDate,
    /// 2026到2030年
    Years,
    /// 1到3月
    Months,
    /// 1月到3月
    MonthsTwice,
    /// 5到10日
    Days,
    /// 5日到10日
    DaysTwice,
    /// 3月, after a date and a link
    LinkedMonth,
    /// 10日, after a date and a link
    LinkedDay,
    /// 3点5分7秒
    HourMinuteSecond,
    /// 3点5分
    HourMinute,
    /// 3点20
    HourBare,
    /// 3点05, after a word of half a day or a weekday
    HourZero,
    /// 3点半
    HourHalf,
    /// 3点1刻
    HourQuarter,
    /// 15:30:20
    ColonSecond,
    /// 15:30
    ColonMinute,
    /// 3点
    HourAlone,
    /// 2小时8分31秒
    HoursMinutesSeconds,
    /// 2小时8分
    HoursMinutes,
    /// 8分31秒
    MinutesSeconds,
    /// 1个半小时
    HalfOf,
    /// 2年半
    HalfAfter,
    /// 1米8
    LengthOne,
    /// 1米75
    LengthTwo,
    /// 3比2
    Score,
    /// 3:2
    ColonScore,
}

impl Form {
    /// The pieces of the form.
    pub fn pieces(self) -> &'static [Piece]
        ensures { result.now ≡ pieces_of self }
    {
        match self {
            Form::YearMonthDay => &[
                Piece::Slot(Shape::EraYear),
                Piece::Fixed(Word::Nian),
                Piece::Slot(Shape::Count),
                Piece::Fixed(Word::Yue),
                Piece::Slot(Shape::Count),
                Piece::Fixed(Word::Ri),
            ],
            Form::YearMonth => &[
                Piece::Slot(Shape::EraYear),
                Piece::Fixed(Word::Nian),
                Piece::Slot(Shape::Count),
                Piece::Fixed(Word::Yue),
                Piece::NotBefore(Guard::Lunar),
            ],
            Form::MonthDay => &[
                Piece::Slot(Shape::Count),
                Piece::Fixed(Word::Yue),
                Piece::Slot(Shape::Count),
                Piece::Fixed(Word::Ri),
            ],
            Form::PartOfMonth => &[
                Piece::Slot(Shape::Count),
                Piece::Fixed(Word::Yue),
                Piece::Fixed(Word::PartOfMonth),
            ],
            Form::Year => &[
                Piece::Slot(Shape::FullYear),
                Piece::Fixed(Word::Nian),
                Piece::NotBefore(Guard::Prime),
            ],
            Form::DashDate => &[
                Piece::Slot(Shape::Year),
                Piece::Fixed(Word::Dash),
                Piece::Slot(Shape::FewFigures),
                Piece::Fixed(Word::Dash),
                Piece::Slot(Shape::FewFigures),
                Piece::NotBefore(Guard::OfDate),
            ],
            Form::SlashDate => &[
                Piece::Slot(Shape::Year),
                Piece::Fixed(Word::Slash),
                Piece::Slot(Shape::FewFigures),
                Piece::Fixed(Word::Slash),
                Piece::Slot(Shape::FewFigures),
                Piece::NotBefore(Guard::OfDate),
            ],
            Form::Years => &[
                Piece::Slot(Shape::FullYear),
                Piece::Fixed(Word::Link),
                Piece::Slot(Shape::FullYear),
                Piece::Fixed(Word::Nian),
            ],
            Form::Months => &[
                Piece::Slot(Shape::Count),
                Piece::Fixed(Word::Link),
                Piece::Slot(Shape::Count),
                Piece::Fixed(Word::Yue),
            ],
            Form::MonthsTwice => &[
                Piece::Slot(Shape::Count),
                Piece::Fixed(Word::Yue),
                Piece::Fixed(Word::Link),
                Piece::Slot(Shape::Count),
                Piece::Fixed(Word::Yue),
            ],
            Form::Days => &[
                Piece::Slot(Shape::Count),
                Piece::Fixed(Word::Link),
                Piece::Slot(Shape::Count),
                Piece::Fixed(Word::Ri),
            ],
            Form::DaysTwice => &[
                Piece::Slot(Shape::Count),
                Piece::Fixed(Word::Ri),
                Piece::Fixed(Word::Link),
                Piece::Slot(Shape::Count),
                Piece::Fixed(Word::Ri),
            ],
            Form::LinkedMonth => &[Piece::Slot(Shape::Count), Piece::Fixed(Word::Yue)],
            Form::LinkedDay => &[Piece::Slot(Shape::Count), Piece::Fixed(Word::Ri)],
            Form::HourMinuteSecond => &[
                Piece::Slot(Shape::Clock),
                Piece::Fixed(Word::Shi),
                Piece::Slot(Shape::Clock),
                Piece::Fixed(Word::Fen),
                Piece::Slot(Shape::Clock),
                Piece::Fixed(Word::Miao),
            ],
            Form::HourMinute => &[
                Piece::Slot(Shape::Clock),
                Piece::Fixed(Word::Shi),
                Piece::Slot(Shape::Clock),
                Piece::Fixed(Word::Fen),
                Piece::NotBefore(Guard::Share),
            ],
            Form::HourBare => &[
                Piece::Slot(Shape::Clock),
                Piece::Fixed(Word::Dian),
                Piece::Slot(Shape::LongCount),
                Piece::NotBefore(Guard::MoreMinutes),
                Piece::NotBefore(Guard::Name),
            ],
            Form::HourZero => &[
                Piece::Slot(Shape::Clock),
                Piece::Fixed(Word::Dian),
                Piece::Slot(Shape::ZeroDigit),
                Piece::NotBefore(Guard::MoreMinutes),
                Piece::NotBefore(Guard::Name),
            ],
            Form::HourHalf => &[
                Piece::Slot(Shape::Clock),
                Piece::Fixed(Word::Shi),
                Piece::Fixed(Word::Half),
            ],
            Form::HourQuarter => &[
                Piece::Slot(Shape::Clock),
                Piece::Fixed(Word::Shi),
                Piece::Slot(Shape::Quarter),
                Piece::Fixed(Word::Ke),
            ],
            Form::ColonSecond => &[
                Piece::Slot(Shape::FewFigures),
                Piece::Fixed(Word::Colon),
                Piece::Slot(Shape::TwoFigures),
                Piece::Fixed(Word::Colon),
                Piece::Slot(Shape::TwoFigures),
                Piece::NotBefore(Guard::OfClock),
                Piece::NotBefore(Guard::Name),
            ],
            Form::ColonMinute => &[
                Piece::Slot(Shape::FewFigures),
                Piece::Fixed(Word::Colon),
                Piece::Slot(Shape::TwoFigures),
                Piece::NotBefore(Guard::OfClock),
                Piece::NotBefore(Guard::Name),
            ],
            Form::HourAlone => &[
                Piece::Slot(Shape::Clock),
                Piece::Fixed(Word::Shi),
                Piece::NotBefore(Guard::Number),
            ],
            Form::HoursMinutesSeconds => &[
                Piece::Slot(Shape::Small),
                Piece::Fixed(Word::Hours),
                Piece::Slot(Shape::Count),
                Piece::Fixed(Word::Minutes),
                Piece::Slot(Shape::Count),
                Piece::Fixed(Word::Seconds),
            ],
            Form::HoursMinutes => &[
                Piece::Slot(Shape::Small),
                Piece::Fixed(Word::Hours),
                Piece::Slot(Shape::Count),
                Piece::Fixed(Word::Minutes),
            ],
            Form::MinutesSeconds => &[
                Piece::Slot(Shape::Small),
                Piece::Fixed(Word::Minutes),
                Piece::Slot(Shape::Count),
                Piece::Fixed(Word::Seconds),
            ],
            Form::HalfOf => &[Piece::Slot(Shape::Small), Piece::Fixed(Word::HalfOf)],
            Form::HalfAfter => &[
                Piece::Slot(Shape::Small),
                Piece::Fixed(Word::HalfAfter),
                Piece::NotBefore(Guard::OfHalf),
            ],
            Form::LengthOne => &[
                Piece::Slot(Shape::Small),
                Piece::Fixed(Word::Mi),
                Piece::Slot(Shape::OneDigit),
                Piece::NotBefore(Guard::OfLength),
                Piece::NotBefore(Guard::Name),
            ],
            Form::LengthTwo => &[
                Piece::Slot(Shape::Small),
                Piece::Fixed(Word::Mi),
                Piece::Slot(Shape::TwoDigits),
                Piece::NotBefore(Guard::OfLength),
                Piece::NotBefore(Guard::Name),
            ],
            Form::Score => &[
                Piece::Slot(Shape::Small),
                Piece::Fixed(Word::Bi),
                Piece::Slot(Shape::Small),
                Piece::NotBefore(Guard::OfScore),
                Piece::NotBefore(Guard::Name),
            ],
            Form::ColonScore => &[
                Piece::Slot(Shape::FewFigures),
                Piece::Fixed(Word::Colon),
                Piece::Slot(Shape::FewFigures),
                Piece::NotBefore(Guard::OfClock),
                Piece::NotBefore(Guard::Name),
            ],
        }
    }
}
