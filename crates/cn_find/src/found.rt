ghost use Rattle.std.specs.Prelude.{◌≡◌, ◌+◌, ◌<◌, ◌^◌, length, chars};
ghost use Rattle.cn_judge.specs.Answer.{answer_of};
ghost use Rattle.cn_find.specs.Doubt.{doubt_of};
ghost use Rattle.cn_find.specs.Flags.{is_about, is_one_character, stands_alone};
ghost use Rattle.cn_find.specs.Number.{IsAnswer, is_plain};
ghost use Rattle.cn_quantity.specs.Reading.{quantity_answer};

use crate::doubt::{Doubt, doubt_of};
use crate::flags::{is_about, is_one_character, is_plain, stands_alone};
use cn_core::{ChineseCountMethod, Whole};
use cn_judge::{ChineseToNumberError, read_naive};
use cn_quantity::{Quantity, chinese_to_quantity};
use cn_quick::read_number;

/// A number or an expression that was found in a text.
#[derive(Debug, Copy, Clone)]
pub struct Found<'a> {
    /// The text before it.
    pub before: &'a str,
    /// Its own text.
    pub text: &'a str,
    /// The text after it.
    pub after: &'a str,
    // The bytes up to its end are fewer than 2^64, so `end` fits a `usize`.
    pub ghost fits: { length before.now + length text.now < 2 ^ 64 },
}

impl Found<'_> {
    /// How many bytes of the text come before it.
    pub fn start(self) -> usize
        ensures { result ≡ length self.entry.before.now }
    {
        self.before.len()
    }

    /// How many bytes of the text come before its end.
    pub fn end(self) -> usize
        ensures { result ≡ length self.entry.before.now + length self.entry.text.now }
    {
        self.start() + self.text.len()
    }

    /// Whether it consists of plain digits: a single digit does, and 十 does not.
    pub fn is_plain(self) -> bool
        ensures { result ≡ is_plain (chars self.entry.text.now) }
    {
        is_plain(self.text)
    }

    /// Whether the text around it does not continue it: no ASCII letter, digit of any kind, `_`,
    /// 廿, 卅, 卌 or 幺 touches it, and no `.`, `,`, `-`, 点 or 點 links it to one of these or to a
    /// unit. So neither part of 3.5萬 or 1,280 stands alone, nor does the 三 of 廿三.
    pub fn stands_alone(self) -> bool
        ensures { result
            ≡ stands_alone (chars self.entry.before.now) (chars self.entry.after.now) }
    {
        stands_alone(self.before, self.after)
    }

    /// Whether it is approximate: the 十 of 几十, 十几 and 十多 is, 五六, 三五 and 兩三百 are, and
    /// 二零二五 is not.
    pub fn is_about(self) -> bool
        ensures { result ≡ is_about (chars self.entry.before.now) (chars self.entry.text.now)
            (chars self.entry.after.now) }
    {
        is_about(self.before, self.text, self.after)
    }

    /// Whether it is one Chinese character, such as the 一 of 一般 and the 十 of 十分.
    pub fn is_one_character(self) -> bool
        ensures { result ≡ is_one_character (chars self.entry.text.now) }
    {
        is_one_character(self.text)
    }

    /// Its number, read as plain digits if it consists of digits alone, and with units by `method`
    /// otherwise. It is refused if the reader refuses `text`; the position of an error counts
    /// characters of `text`.
    pub fn number<T: Whole>(self, method: ChineseCountMethod) -> Result<T, ChineseToNumberError>
        ensures { IsAnswer T.kind method self.entry.text.now (answer_of T.number result) }
    {
        if is_plain(self.text) {
            read_naive(self.text)
        } else {
            read_number(method, self.text)
        }
    }

    /// Its quantity, read from `text` alone, with its sign, decimals and divisor. It is refused if
    /// `chinese_to_quantity` refuses `text`.
    pub fn quantity(self, method: ChineseCountMethod) -> Result<Quantity, ChineseToNumberError>
        ensures { answer_of (λ q. q) result ≡ quantity_answer method self.entry.text.now }
    {
        chinese_to_quantity(self.text, method)
    }

    /// Why it may mean something else than its quantity; `None` if nothing suggests that. The
    /// reasons are those of docs/RULES.md, "Doubt".
    pub fn doubt(self) -> Option<Doubt>
        ensures { result ≡ doubt_of self.entry.before.now self.entry.text.now
            self.entry.after.now }
    {
        doubt_of(self.before, self.text, self.after)
    }
}
