// The states of reading figures from left to right. A state stands for what may follow.
ghost use Rattle.std.specs.Prelude.{◌≡◌};
ghost use Rattle.cn_figures.specs.Working.Steps.{after_comma, after_currency, after_digit, after_point, fen_with, is_end, step, with_more};

use crate::part::Part;
use cn_amount::AMOUNT_LIMIT;

/// What was read last.
#[derive(Clone, Copy)]
pub enum State {
    /// Nothing.
    Beginning,
    /// ¥
    Marked,
    /// The first digit of the yuan.
    One,
    /// Two digits, and no comma.
    Two,
    /// Three digits, and no comma.
    Three,
    /// More digits than may be before a comma.
    Many,
    /// A comma.
    AfterComma,
    /// The first digit after a comma.
    CommaOne,
    /// Two digits after a comma.
    CommaTwo,
    /// All three digits after a comma.
    CommaThree,
    /// The point.
    AfterPoint,
    /// The digit of the jiao.
    Jiao,
    /// The digit of the fen, and zeros after it.
    Fen,
}

// The amount times `times`, plus `more`; `None` from the limit on.
fn with_more(fen: Option<u64>, times: u64, more: u64) -> Option<u64>
    ensures { result ≡ with_more fen times more }
{
    let fen = fen?.checked_mul(times)?.checked_add(more)?;
    if fen < AMOUNT_LIMIT { Some(fen) } else { None }
}

impl State {
    fn after_digit(self, digit: u8) -> Option<State>
        ensures { result ≡ after_digit self digit }
    {
        match self {
            State::Beginning | State::Marked => Some(State::One),
            State::One => Some(State::Two),
            State::Two => Some(State::Three),
            State::Three | State::Many => Some(State::Many),
            State::AfterComma => Some(State::CommaOne),
            State::CommaOne => Some(State::CommaTwo),
            State::CommaTwo => Some(State::CommaThree),
            State::AfterPoint => Some(State::Jiao),
            State::Jiao => Some(State::Fen),
            State::Fen if digit == 0 => Some(State::Fen),
            State::Fen | State::CommaThree => None,
        }
    }

    fn after_comma(self) -> Option<State>
        ensures { result ≡ after_comma self }
    {
        match self {
            State::One | State::Two | State::Three | State::CommaThree => Some(State::AfterComma),
            _ => None,
        }
    }

    fn after_point(self) -> Option<State>
        ensures { result ≡ after_point self }
    {
        match self {
            State::One | State::Two | State::Three | State::Many | State::CommaThree => {
                Some(State::AfterPoint)
            }
            _ => None,
        }
    }

    fn after_currency(self) -> Option<State>
        ensures { result ≡ after_currency self }
    {
        match self {
            State::Beginning => Some(State::Marked),
            _ => None,
        }
    }

    /// The state after one more part; `None` if no figures continue with it.
    pub fn step(self, part: Part) -> Option<State>
        ensures { result ≡ step self part }
    {
        match part {
            Part::Currency => self.after_currency(),
            Part::Digit(digit) => self.after_digit(digit),
            Part::Comma => self.after_comma(),
            Part::Point => self.after_point(),
        }
    }

    /// The amount in fen after one more part; `None` from the limit on.
    pub fn fen_with(self, fen: Option<u64>, part: Part) -> Option<u64>
        ensures { result ≡ fen_with self fen part }
    {
        match (self, part) {
            (State::Fen, Part::Digit(_)) => fen,
            (State::Jiao, Part::Digit(digit)) => with_more(fen, 1, digit as u64),
            (State::AfterPoint, Part::Digit(digit)) => with_more(fen, 1, 10 * digit as u64),
            (_, Part::Digit(digit)) => with_more(fen, 10, 100 * digit as u64),
            _ => fen,
        }
    }

    /// Whether figures may end here.
    pub fn is_end(self) -> bool
        ensures { result ≡ is_end self }
    {
        match self {
            State::Beginning
            | State::Marked
            | State::AfterComma
            | State::CommaOne
            | State::CommaTwo
            | State::AfterPoint => false,
            _ => true,
        }
    }
}
