// The states of reading an amount from left to right. A state stands for what may follow.
ghost use Rattle.std.specs.Prelude.{◌≡◌};
ghost use Rattle.cn_amount.specs.Working.Steps.{behind_thousands, bare, close, digit_at, digit_below, after_unit, after_ling, after_great, first_digit, step, is_end};

use crate::capital::Capital;

/// The place of a digit in its section.
#[derive(Clone, Copy)]
pub enum Place {
    Ones,
    Tens,
    Hundreds,
    Thousands,
}

/// The units that may close a section.
#[derive(Clone, Copy)]
pub enum Stage {
    /// The first section: 万, 亿, 元.
    Top,
    /// After a first 万: 亿, 元.
    BelowWan,
    /// After 亿: 万, 元.
    BelowYi,
    /// After 亿 and 零, although the digit at the place of 亿 is not 0: 万, 元; but only 元 if 仟
    /// is in the section, since then the whole section of 万 is left out.
    BelowYiGap,
    /// After 亿 with no 零 after it: 万, since no section is left out.
    OnlyWan,
    /// After the last 万: 元.
    Last,
}

/// What has been read.
#[derive(Clone, Copy)]
pub enum State {
    /// Nothing.
    Beginning,
    /// 人
    AfterRen,
    /// 人民
    AfterMin,
    /// 人民币
    AfterCurrency,
    /// 零 before 元.
    NoYuan,
    /// The first digit.
    FirstDigit,
    /// The first 万, and whether the digit at its place is 0.
    AfterFirstWan(bool),
    /// 亿, and whether the digit at its place is 0.
    AfterYi(bool),
    /// The last 万, and whether the digit at its place is 0.
    AfterLastWan(bool),
    /// 零, after which a digit at this place or a lower one must follow.
    AfterLing(Stage, Place),
    /// A digit at this place.
    DigitAt(Stage, Place),
    /// A digit at this place or a lower one.
    DigitBelow(Stage, Place),
    /// The unit of this place.
    AfterUnit(Stage, Place),
    /// 元, and whether the digit before it is 0.
    AfterYuan(bool),
    /// 零 after 元, and whether the digit before 元 is 0.
    AfterYuanLing(bool),
    /// A digit after that 零, and the same.
    SmallDigit(bool),
    /// A digit directly after 元.
    JiaoDigit,
    /// 角
    AfterJiao,
    /// A digit after 角.
    FenDigit,
    /// A whole amount, which nothing may follow.
    Complete,
}

impl Stage {
    // The stage of a section that has 仟.
    fn behind_thousands(self) -> Stage
        ensures { result ≡ behind_thousands self }
    {
        match self {
            Stage::BelowYiGap => Stage::Last,
            stage => stage,
        }
    }

    // The stage of a section that begins with 仟 directly after 万 or 亿.
    fn bare(self) -> Stage
        ensures { result ≡ bare self }
    {
        match self {
            Stage::BelowYi => Stage::OnlyWan,
            stage => stage,
        }
    }

    // The state after a section and the capital that closes it; `is_round` says whether its last
    // digit is 0.
    #[inline(always)]
    fn close(self, is_round: bool, capital: Capital) -> Option<State>
        ensures { result ≡ close self is_round capital }
    {
        match (self, capital) {
            (Stage::Top, Capital::Wan) => Some(State::AfterFirstWan(is_round)),
            (Stage::BelowYi | Stage::BelowYiGap | Stage::OnlyWan, Capital::Wan) => {
                Some(State::AfterLastWan(is_round))
            }
            (Stage::Top | Stage::BelowWan, Capital::Yi) => Some(State::AfterYi(is_round)),
            (Stage::OnlyWan, Capital::Yuan) => None,
            (_, Capital::Yuan) => Some(State::AfterYuan(is_round)),
            _ => None,
        }
    }

    // The state after a digit at a place and one more capital.
    #[inline(always)]
    fn digit_at(self, place: Place, capital: Capital) -> Option<State>
        ensures { result ≡ digit_at self place capital }
    {
        match (place, capital) {
            (Place::Thousands, Capital::Qian)
            | (Place::Hundreds, Capital::Bai)
            | (Place::Tens, Capital::Shi) => Some(State::AfterUnit(self, place)),
            (Place::Ones, _) => self.close(false, capital),
            _ => None,
        }
    }

    // The state after a digit at a place or a lower one and one more capital. At `Tens`, here and
    // in `after_unit`, 佰, 仟 and 零 are refused by name, although `close` refuses them too.
    // Without that, reading an empty text takes 22 instructions from Rust; with it, 9.
    #[inline(always)]
    fn digit_below(self, place: Place, capital: Capital) -> Option<State>
        ensures { result ≡ digit_below self place capital }
    {
        match place {
            Place::Thousands => match capital {
                Capital::Qian => Some(State::AfterUnit(self.behind_thousands(), Place::Thousands)),
                Capital::Bai => Some(State::AfterUnit(self, Place::Hundreds)),
                Capital::Shi => Some(State::AfterUnit(self, Place::Tens)),
                _ => self.close(false, capital),
            },
            Place::Hundreds => match capital {
                Capital::Bai => Some(State::AfterUnit(self, Place::Hundreds)),
                Capital::Shi => Some(State::AfterUnit(self, Place::Tens)),
                _ => self.close(false, capital),
            },
            Place::Tens => match capital {
                Capital::Shi => Some(State::AfterUnit(self, Place::Tens)),
                Capital::Bai | Capital::Qian => None,
                _ => self.close(false, capital),
            },
            Place::Ones => self.close(false, capital),
        }
    }

    // The state after the unit of a place and one more capital.
    // Same answer (Capital::Ling → Capital::Shi #3): `close` refuses both 零 and 拾.
    #[inline(always)]
    fn after_unit(self, place: Place, capital: Capital) -> Option<State>
        ensures { result ≡ after_unit self place capital }
    {
        match place {
            Place::Thousands => match capital {
                Capital::Digit(_) => Some(State::DigitAt(self, Place::Hundreds)),
                Capital::Ling => Some(State::AfterLing(self, Place::Tens)),
                _ => self.close(true, capital),
            },
            Place::Hundreds => match capital {
                Capital::Digit(_) => Some(State::DigitAt(self, Place::Tens)),
                Capital::Ling => Some(State::AfterLing(self, Place::Ones)),
                _ => self.close(true, capital),
            },
            Place::Tens => match capital {
                Capital::Digit(_) => Some(State::DigitAt(self, Place::Ones)),
                Capital::Ling => None,
                _ => self.close(true, capital),
            },
            Place::Ones => self.close(true, capital),
        }
    }

    // The state after a 零 directly after 万 or 亿; `is_round` says whether the digit at its place
    // is 0.
    #[inline(always)]
    fn after_ling(self, is_round: bool) -> State
        ensures { result ≡ after_ling self is_round }
    {
        match (self, is_round) {
            (_, true) => State::AfterLing(self, Place::Thousands),
            (Stage::BelowYi, false) => State::AfterLing(Stage::BelowYiGap, Place::Thousands),
            (_, false) => State::AfterLing(self, Place::Hundreds),
        }
    }

    // The state after a capital directly after 万 or 亿.
    #[inline(always)]
    fn after_great(self, is_round: bool, capital: Capital) -> Option<State>
        ensures { result ≡ after_great self is_round capital }
    {
        match capital {
            Capital::Ling => Some(self.after_ling(is_round)),
            Capital::Digit(_) => Some(State::DigitAt(self.bare(), Place::Thousands)),
            Capital::Wan => None,
            _ => self.close(true, capital),
        }
    }
}

// The state after the first digit and one more capital.
#[inline(always)]
fn first_digit(capital: Capital) -> Option<State>
    ensures { result ≡ first_digit capital }
{
    match capital {
        Capital::Jiao => Some(State::AfterJiao),
        Capital::Fen => Some(State::Complete),
        _ => Stage::Top.digit_below(Place::Thousands, capital),
    }
}

impl State {
    // One `match` decides all of this: with two, a character outside of a section takes 4
    // instructions more.
    /// The state after one more capital; `None` if no amount continues with it.
    #[inline(always)]
    pub fn step(self, capital: Capital) -> Option<State>
        ensures { result ≡ step self capital }
    {
        match (self, capital) {
            (State::FirstDigit, _) => first_digit(capital),
            (State::AfterFirstWan(is_round), _) => Stage::BelowWan.after_great(is_round, capital),
            (State::AfterYi(is_round), _) => Stage::BelowYi.after_great(is_round, capital),
            (State::AfterLastWan(is_round), _) => Stage::Last.after_great(is_round, capital),
            (State::AfterLing(stage, place), Capital::Digit(_)) => {
                Some(State::DigitBelow(stage, place))
            }
            (State::DigitAt(stage, place), _) => stage.digit_at(place, capital),
            (State::DigitBelow(stage, place), _) => stage.digit_below(place, capital),
            (State::AfterUnit(stage, place), _) => stage.after_unit(place, capital),
            (State::Beginning, Capital::Ren) => Some(State::AfterRen),
            (State::AfterRen, Capital::Min) => Some(State::AfterMin),
            (State::AfterMin, Capital::Bi) => Some(State::AfterCurrency),
            (State::Beginning | State::AfterCurrency, Capital::Ling) => Some(State::NoYuan),
            (State::Beginning | State::AfterCurrency, Capital::Digit(_)) => Some(State::FirstDigit),
            (State::NoYuan, Capital::Yuan) => Some(State::AfterYuan(true)),
            (State::AfterYuan(_) | State::AfterJiao, Capital::Zheng) => Some(State::Complete),
            (State::AfterYuan(is_round), Capital::Ling) => Some(State::AfterYuanLing(is_round)),
            (State::AfterYuan(_), Capital::Digit(_)) => Some(State::JiaoDigit),
            (State::AfterYuanLing(is_round), Capital::Digit(_)) => Some(State::SmallDigit(
                is_round,
            )),
            (State::JiaoDigit | State::SmallDigit(true), Capital::Jiao) => Some(State::AfterJiao),
            (State::FenDigit | State::SmallDigit(_), Capital::Fen) => Some(State::Complete),
            (State::AfterJiao, Capital::Digit(_)) => Some(State::FenDigit),
            _ => None,
        }
    }

    /// Whether an amount may end here.
    pub fn is_end(self) -> bool
        ensures { result ≡ is_end self }
    {
        matches!(self, State::AfterJiao | State::Complete)
    }
}
