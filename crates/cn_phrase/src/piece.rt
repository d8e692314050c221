// The pieces of a form, read one after another.
ghost use Rattle.std.specs.Prelude.{◌≡◌, ℕ, chars};
ghost use Rattle.std.specs.Char.{char_set_contains};
ghost use Rattle.std.specs.Option.{option_map};
ghost use Rattle.cn_replace.specs.Pieces.{begins, leading};
ghost use Rattle.cn_phrase.specs.Shapes.{value_of};
ghost use Rattle.cn_phrase.specs.Pieces.{is_numeral, piece_read, pieces_read, reading_at, reading_of, refused_by, refuses, is_numerator, slot_read, with_number, without_blank};

use crate::shape::Shape;
use crate::word::Word;
use cn_core::{is_figure, split_first_char};
use cn_find::is_one_of;
use cn_replace::pieces::{CharTest, Figure, begins, split_leading};

/// What may not come after a form.
#[derive(Debug, Copy, Clone, PartialEq, Eq)]
pub enum Guard {
    /// 初: the month is one of the moon.
    Lunar,
    /// 华: 二八年华 is a word.
    Prime,
    /// What goes on with a date in figures.
    OfDate,
    /// A Chinese number: the hour may be a decimal.
    Number,
    /// 钟, or 之 and a number: 分钟 is a duration, and 分 begins a share.
    Share,
    /// What does not follow a minute: the number was a decimal, or goes on.
    MoreMinutes,
    /// What goes on with digits between colons.
    OfClock,
    /// A word that 半 begins.
    OfHalf,
    /// A unit of the digits after 米.
    OfLength,
    /// What goes on with a number.
    OfScore,
    /// A letter or `_`.
    Name,
}

impl Guard {
    // The characters that may not come next.
    #[tactic(auto, unfolding(crate::specs::Pieces::refused_by))]
    fn refused(self) -> &'static [char]
        ensures { result.now ≡ refused_by self }
    {
        match self {
            Guard::Lunar => &['初'],
            Guard::OfDate => &['-', '/', '.', ':'],
            Guard::Prime => &['华', '華'],
            Guard::Number => &[
                '零', '〇', '一', '二', '两', '兩', '三', '四', '五', '六', '七', '八', '九', '十', '百',
            ],
            Guard::Share => &['钟', '鐘'],
            Guard::MoreMinutes => &[
                '分', '几', '幾', '多', '元', '米', '度', '倍', '吨', '噸', '克', '升', '%', '％', '‰', '万',
                '萬', '亿', '億', '千',
            ],
            Guard::OfClock => &[':', '：', '.'],
            Guard::OfHalf => &['载', '載', '夜', '天', '年', '价', '價'],
            Guard::OfLength => &[
                '年', '月', '日', '点', '點', '人', '个', '個', '分', '秒', '米', '度', '几', '幾', '多', '重',
                '層', '层', '关', '關', '种', '種', '次', '间', '間', '位', '条', '條', '名', '项', '項', '只',
                '隻', '元', '块', '塊', '倍', '级', '級', '楼', '樓', '座', '套', '台', '臺', '辆', '輛', '张',
                '張', '本', '天', '周', '週', '岁', '歲', '斤', '里',
            ],
            Guard::OfScore => &['点', '點', '.', '年', '月', '日', '万', '萬', '千', '亿', '億'],
            Guard::Name => &['_'],
        }
    }

    // Whether the text begins with what may not come next.
    fn refuses(self, text: &str) -> bool
        ensures { result ≡ refuses self (chars text.now) }
    {
        match split_first_char(text) {
            Some((c, rest)) => {
                is_one_of(self.refused(), c)
                    || (self == Guard::Name && c.is_ascii_alphabetic())
                    || (self == Guard::Share && is_one_of(&['之'], c) && begins_numerator(rest))
            }
            None => false,
        }
    }
}

// Whether the text begins with the numerator of a share, such as 二 of 五分之二.
fn begins_numerator(text: &str) -> bool
    ensures { result ≡ begins is_numerator (chars text.now) }
{
    match split_first_char(text) {
        Some((c, _)) => Numeral.passes(c) || is_one_of(&['几', '幾'], c),
        None => false,
    }
}

/// A piece of a form.
#[derive(Debug, Copy, Clone, PartialEq, Eq)]
pub enum Piece {
    /// A number.
    Slot(Shape),
    /// A word.
    Fixed(Word),
    /// Nothing, but not before some characters.
    NotBefore(Guard),
    /// Nothing: the form has ended.
    End,
}

/// The last three numbers that were read of a form.
#[derive(Debug, Copy, Clone, PartialEq, Eq)]
pub struct Numbers {
    pub first: u16,
    pub second: u16,
    pub last: u16,
}

impl Numbers {
    // The numbers with one more.
    fn with(self, number: u16) -> Numbers
        ensures { result ≡ with_number self number }
    {
        Numbers {
            first: self.second,
            second: self.last,
            last: number,
        }
    }
}

/// What has been read of a form.
#[derive(Copy, Clone)]
pub struct Progress<'a> {
    pub numbers: Numbers,
    /// Whether a figure was the last character.
    pub after_figure: bool,
    pub rest: &'a str,
}

impl<'a> Progress<'a> {
    /// Nothing has been read yet.
    pub fn start(text: &'a str) -> Progress<'a>
        ensures { reading_of result ≡ reading_at (chars text.now) }
    {
        Progress {
            numbers: Numbers {
                first: 0,
                second: 0,
                last: 0,
            },
            after_figure: false,
            rest: text,
        }
    }
}

/// A character that occurs in the number of a slot.
#[derive(Copy, Clone)]
pub struct Numeral;

impl CharTest for Numeral {
    ghost use Rattle.cn_phrase.specs.Pieces.{is_numeral};

    ghost test = { λ _. is_numeral };

    #[tactic(auto, unfolding(crate::specs::Pieces::is_numeral))]
    fn passes(self, c: char) -> bool {
        is_figure(c)
            || matches!(
                c,
                '零' | '〇'
                    | '一'
                    | '二'
                    | '两'
                    | '兩'
                    | '三'
                    | '四'
                    | '五'
                    | '六'
                    | '七'
                    | '八'
                    | '九'
                    | '十'
                    | '百'
            )
    }
}

/// The text without a blank at its start that is beside a figure.
pub fn without_blank(after_figure: bool, text: &str) -> &str
    ensures { chars result.now ≡ without_blank after_figure (chars text.now) }
{
    let Some((c, rest)) = split_first_char(text) else {
        return text;
    };
    let Some((d, _)) = split_first_char(rest) else {
        return text;
    };
    if c == ' ' && (after_figure || is_figure(d)) {
        rest
    } else {
        text
    }
}

// The progress after a slot with a number, at a text.
fn after_slot<'a>(numbers: Numbers, text: &'a str, shape: Shape) -> Option<Progress<'a>>
    ensures { option_map reading_of result ≡ slot_read numbers (chars text.now)
        (value_of shape (leading is_numeral (chars text.now))) }
{
    let (number, rest) = split_leading(Numeral, text);
    Some(Progress {
        numbers: numbers.with(shape.value_of(number)?),
        after_figure: begins(Figure, text),
        rest,
    })
}

impl Piece {
    /// What has been read after this piece; `None` if the text does not go on with it.
    pub fn after(self, progress: Progress<'_>) -> Option<Progress<'_>>
        ensures { option_map reading_of result ≡ piece_read self (reading_of progress.entry) }
    {
        match self {
            Piece::Slot(shape) => after_slot(
                progress.numbers,
                without_blank(progress.after_figure, progress.rest),
                shape,
            ),
            Piece::Fixed(word) => {
                let rest = word.after(without_blank(progress.after_figure, progress.rest))?;
                Some(Progress {
                    numbers: progress.numbers,
                    after_figure: false,
                    rest,
                })
            }
            Piece::NotBefore(guard) => {
                if guard.refuses(progress.rest) {
                    None
                } else {
                    Some(progress)
                }
            }
            Piece::End => Some(progress),
        }
    }
}

/// What has been read after some pieces; `None` if the text does not have them.
pub fn read_pieces<'a>(pieces: &[Piece], progress: Progress<'a>) -> Option<Progress<'a>>
    ensures { option_map reading_of result ≡ pieces_read pieces.now (reading_of progress.entry) }
{
    let mut read = progress;
    let mut count = 0;
    'reading: while count < pieces.len() {
        let Some(next) = pieces[count].after(read) else {
            return None;
        };
        read = next;
        count += 1;
    }
    Some(read)
}
