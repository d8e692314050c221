// The numbers that the slots of phrases hold.
ghost use Rattle.std.specs.Prelude.{◌≡◌, ◌==◌, ◌<◌, ◌∷◌, ◌+◌, ◌*◌, [], ℕ, Option, None, Some, chars, if◌then◌else◌, IfSome};
ghost use Rattle.std.specs.Option.{option_and_then};
ghost use Rattle.cn_core.specs.FigureCharacters.{figure_of};
ghost use Rattle.cn_phrase.specs.Money.{part_digit};
ghost use Rattle.cn_phrase.specs.Shapes.{after_hundred, are_about, chinese_digit, clock_of, count_of, counting_digit, digit_alone_of, era_year_of, few_figures_of, four_digits, full_year_of, has_later_two, hundred_of, hundreds, is_hundred, is_ten, is_zero, long_count_of, number_of, short_year_of, small_of, three_figures_of, two_alone_of, two_digits, two_of, value_of, year_of, zero_digit_of};

use cn_core::{digit_of, figure_of, split_first_char};
use cn_find::is_one_of;
use cn_replace::pieces::{CharTest, any};

/// What a number in a slot of a phrase can be.
#[derive(Debug, Copy, Clone, PartialEq, Eq)]
pub enum Shape {
    /// A year of four digits.
    Year,
    /// A year of four digits, or of two in Chinese.
    FullYear,
    /// A year before a month, also one of an era.
    EraYear,
    /// One or two figures, or a numeral up to 99.
    Count,
    /// A count, or 零 and a digit.
    Clock,
    /// A count of two characters or more.
    LongCount,
    /// 零 and a digit.
    ZeroDigit,
    /// A number up to 999.
    Small,
    /// One digit.
    OneDigit,
    /// The digit of a quarter of an hour, which stays as it is.
    Quarter,
    /// Two digits of one kind.
    TwoDigits,
    /// Two figures.
    TwoFigures,
    /// One or two figures.
    FewFigures,
}

// The value of a Chinese digit, such as 2 for 两.
#[tactic(auto, unfolding(crate::specs::Shapes::chinese_digit), using(crate::proofs::Digits::digit_low))]
fn chinese_digit(c: char) -> Option<u8>
    ensures value { result ≡ chinese_digit c }
    ensures small { IfSome result (λ n. n < 10) }
{
    match c {
        '零' | '〇' | '一' | '二' | '两' | '兩' | '三' | '四' | '五' | '六' | '七' | '八' | '九' => digit_of(c),
        _ => None,
    }
}

/// The value of a Chinese digit from 1 to 9, such as 2 for 两.
pub fn counting_digit(c: char) -> Option<u8>
    ensures value { result ≡ counting_digit c }
    ensures small { IfSome result (λ n. n < 10) }
{
    match chinese_digit(c)? {
        0 => None,
        n => Some(n),
    }
}

/// The value of a digit of jiao or fen: a figure, or a Chinese digit from 1 to 9.
pub fn part_digit(c: char) -> Option<u8>
    ensures { result ≡ part_digit c }
{
    match Figures.value(c) {
        Some(n) => Some(n),
        None => counting_digit(c),
    }
}

#[tactic(auto, unfolding(crate::specs::Shapes::is_ten))]
fn is_ten(c: char) -> bool
    ensures { result ≡ is_ten c }
{
    c == '十'
}

// The number of two digits.
fn two_digits(first: Option<u8>, second: Option<u8>) -> Option<u8>
    requires first { IfSome first (λ n. n < 10) }
    requires second { IfSome second (λ n. n < 10) }
    ensures value { result ≡ two_digits first second }
    ensures small { IfSome result (λ n. n < 100) }
{
    Some(10 * first? + second?)
}

fn one_digit(c: char) -> Option<u8>
    ensures value { result ≡ count_of (c ∷ []) }
    ensures small { IfSome result (λ n. n < 100) }
{
    if is_ten(c) {
        return Some(10);
    }
    match Figures.value(c) {
        Some(n) => Some(n),
        None => chinese_digit(c),
    }
}

fn two_characters(c: char, d: char) -> Option<u8>
    ensures value { result ≡ count_of (c ∷ d ∷ []) }
    ensures small { IfSome result (λ n. n < 100) }
{
    if is_ten(c) {
        two_digits(Some(1), counting_digit(d))
    } else if is_ten(d) {
        two_digits(counting_digit(c), Some(0))
    } else {
        two_digits(Figures.value(c), Figures.value(d))
    }
}

fn three_characters(c: char, d: char, e: char) -> Option<u8>
    ensures value { result ≡ count_of (c ∷ d ∷ e ∷ []) }
    ensures small { IfSome result (λ n. n < 100) }
{
    if is_ten(d) {
        two_digits(counting_digit(c), counting_digit(e))
    } else {
        None
    }
}

/// The number of a count: one or two figures, or a numeral up to 99 without two digits side by side.
pub fn count_of(text: &str) -> Option<u8>
    ensures value { result ≡ count_of (chars text.now) }
    ensures small { IfSome result (λ n. n < 100) }
{
    let (c, rest) = split_first_char(text)?;
    let Some((d, rest)) = split_first_char(rest) else {
        return one_digit(c);
    };
    let Some((e, rest)) = split_first_char(rest) else {
        return two_characters(c, d);
    };
    match split_first_char(rest) {
        None => three_characters(c, d, e),
        Some(_) => None,
    }
}

#[tactic(auto, unfolding(crate::specs::Shapes::is_zero))]
fn is_zero(c: char) -> bool
    ensures { result ≡ is_zero c }
{
    matches!(c, '零' | '〇')
}

// The number of 零 and a Chinese digit.
fn zero_digit_of(text: &str) -> Option<u8>
    ensures value { result ≡ zero_digit_of (chars text.now) }
    ensures small { IfSome result (λ n. n < 100) }
{
    let (c, rest) = split_first_char(text)?;
    let (d, rest) = split_first_char(rest)?;
    match split_first_char(rest) {
        None if is_zero(c) => chinese_digit(d),
        _ => None,
    }
}

/// A number of a clock: a count, or 零 and a digit.
pub fn clock_of(text: &str) -> Option<u8>
    ensures value { result ≡ clock_of (chars text.now) }
    ensures small { IfSome result (λ n. n < 100) }
{
    match count_of(text) {
        Some(n) => Some(n),
        None => zero_digit_of(text),
    }
}

// Whether two digits are said of an approximate number, as in 五六 and 三五.
fn are_about(a: u8, b: u8) -> bool
    requires { a < 10 }
    ensures { result ≡ are_about a b }
{
    a > 0 && (b == a + 1 || (a == 3 && b == 5))
}

fn year_of_two(a: u8, b: u8) -> Option<u8>
    requires a { a < 10 }
    requires b { b < 10 }
    ensures { result ≡ (if are_about a b then None else Some (10 * a + b)) }
{
    if are_about(a, b) {
        None
    } else {
        Some(10 * a + b)
    }
}

/// The last two digits of a year, in Chinese.
pub fn short_year_of(text: &str) -> Option<u8>
    ensures { result ≡ short_year_of (chars text.now) }
{
    let (c, rest) = split_first_char(text)?;
    let (d, rest) = split_first_char(rest)?;
    match split_first_char(rest) {
        None => year_of_two(chinese_digit(c)?, chinese_digit(d)?),
        Some(_) => None,
    }
}

// Digits of one kind.
trait DigitKind: Copy {
    ghost digit: { Self → ℕ → Option ℕ };

    // The value of a digit of this kind.
    fn value(self, c: char) -> Option<u8>
        ensures value { result ≡ digit self c }
        ensures small { IfSome result (λ n. n < 10) };
}

#[derive(Copy, Clone)]
struct Figures;

impl DigitKind for Figures {
    ghost digit = { λ _. figure_of };

    #[tactic(auto, using(crate::proofs::Digits::figure_low))]
    fn value(self, c: char) -> Option<u8> {
        figure_of(c)
    }
}

#[derive(Copy, Clone)]
struct ChineseDigits;

impl DigitKind for ChineseDigits {
    ghost digit = { λ _. chinese_digit };

    fn value(self, c: char) -> Option<u8> {
        chinese_digit(c)
    }
}

// The number of two parts, of which the second has two digits.
fn hundreds(first: Option<u8>, second: Option<u8>) -> Option<u16>
    requires first { IfSome first (λ n. n < 100) }
    requires second { IfSome second (λ n. n < 100) }
    ensures { result ≡ hundreds first second }
{
    Some(100 * u16::from(first?) + u16::from(second?))
}

// The number of four digits.
fn four_digits<K: DigitKind>(kind: K, text: &str) -> Option<u16>
    ensures { result ≡ four_digits (K.digit kind) (chars text.now) }
{
    let (a, rest) = split_first_char(text)?;
    let (b, rest) = split_first_char(rest)?;
    let (c, rest) = split_first_char(rest)?;
    let (d, rest) = split_first_char(rest)?;
    if split_first_char(rest).is_some() {
        return None;
    }
    hundreds(
        two_digits(kind.value(a), kind.value(b)),
        two_digits(kind.value(c), kind.value(d)),
    )
}

/// A year of four figures or four Chinese digits, from 1000 to 2999.
pub fn year_of(text: &str) -> Option<u16>
    ensures { result ≡ year_of (chars text.now) }
{
    let year = match four_digits(Figures, text) {
        Some(year) => year,
        None => four_digits(ChineseDigits, text)?,
    };
    if 1000 <= year && year < 3000 {
        Some(year)
    } else {
        None
    }
}

// A figure that is not 0.
fn counting_figure(c: char) -> Option<u8>
    ensures value { result ≡ option_and_then (λ n. if n == 0 then None else Some n) (figure_of c) }
    ensures small { IfSome result (λ n. n < 10) }
{
    match Figures.value(c)? {
        0 => None,
        n => Some(n),
    }
}

// The number of three figures of which the first is not 0.
fn three_figures_of(text: &str) -> Option<u16>
    ensures { result ≡ three_figures_of (chars text.now) }
{
    let (c, rest) = split_first_char(text)?;
    let (d, rest) = split_first_char(rest)?;
    let (e, rest) = split_first_char(rest)?;
    match split_first_char(rest) {
        None => hundreds(
            counting_figure(c),
            two_digits(Figures.value(d), Figures.value(e)),
        ),
        Some(_) => None,
    }
}

#[tactic(auto, unfolding(crate::specs::Shapes::is_hundred))]
fn is_hundred(c: char) -> bool
    ensures { result ≡ is_hundred c }
{
    c == '百'
}

// The number that is after 百: none, 零 and a digit, or a count of two characters or more.
fn after_hundred(text: &str) -> Option<u8>
    ensures value { result ≡ after_hundred (chars text.now) }
    ensures small { IfSome result (λ n. n < 100) }
{
    match split_first_char(text) {
        None => Some(0),
        Some((_, rest)) => {
            split_first_char(rest)?;
            clock_of(text)
        }
    }
}

// A numeral with 百, up to 999.
fn hundred_of(text: &str) -> Option<u16>
    ensures { result ≡ hundred_of (chars text.now) }
{
    let (c, rest) = split_first_char(text)?;
    let (d, rest) = split_first_char(rest)?;
    if is_hundred(d) {
        hundreds(counting_digit(c), after_hundred(rest))
    } else {
        None
    }
}

// A number up to 999.
fn small_of(text: &str) -> Option<u16>
    ensures { result ≡ small_of (chars text.now) }
{
    if let Some(number) = count_of(text) {
        return Some(u16::from(number));
    }
    match three_figures_of(text) {
        Some(number) => Some(number),
        None => hundred_of(text),
    }
}

// A year by itself.
fn full_year_of(text: &str) -> Option<u16>
    ensures { result ≡ full_year_of (chars text.now) }
{
    match year_of(text) {
        Some(year) => Some(year),
        None => Some(u16::from(short_year_of(text)?)),
    }
}

// A year before a month, also one of an era.
fn era_year_of(text: &str) -> Option<u16>
    ensures { result ≡ era_year_of (chars text.now) }
{
    match full_year_of(text) {
        Some(year) => Some(year),
        None => small_of(text),
    }
}

// A count of two characters or more.
fn long_count_of(text: &str) -> Option<u8>
    ensures { result ≡ long_count_of (chars text.now) }
{
    let (_, rest) = split_first_char(text)?;
    split_first_char(rest)?;
    count_of(text)
}

// One digit.
fn digit_alone_of(text: &str) -> Option<u8>
    ensures { result ≡ digit_alone_of (chars text.now) }
{
    let (c, rest) = split_first_char(text)?;
    if split_first_char(rest).is_some() {
        return None;
    }
    match figure_of(c) {
        Some(n) => Some(n),
        None => chinese_digit(c),
    }
}

// The number of two digits of one kind.
fn two_of<K: DigitKind>(kind: K, text: &str) -> Option<u8>
    ensures { result ≡ two_of (K.digit kind) (chars text.now) }
{
    let (c, rest) = split_first_char(text)?;
    let (d, rest) = split_first_char(rest)?;
    match split_first_char(rest) {
        None => two_digits(kind.value(c), kind.value(d)),
        Some(_) => None,
    }
}

// The number of two figures, or of two Chinese digits.
fn two_alone_of(text: &str) -> Option<u8>
    ensures { result ≡ two_alone_of (chars text.now) }
{
    match two_of(Figures, text) {
        Some(n) => Some(n),
        None => two_of(ChineseDigits, text),
    }
}

// One or two figures.
fn few_figures_of(text: &str) -> Option<u8>
    ensures { result ≡ few_figures_of (chars text.now) }
{
    let (c, rest) = split_first_char(text)?;
    match split_first_char(rest) {
        None => figure_of(c),
        Some(_) => two_of(Figures, text),
    }
}

// 两, with which a number can only begin.
#[derive(Copy, Clone)]
struct Two;

impl CharTest for Two {
    ghost use Rattle.cn_phrase.specs.Shapes.{is_two};

    ghost test = { λ _. is_two };

    fn passes(self, c: char) -> bool {
        is_one_of(&['两', '兩'], c)
    }
}

// Whether 两 is after the first character of a text.
fn has_later_two(text: &str) -> bool
    ensures { result ≡ has_later_two (chars text.now) }
{
    match split_first_char(text) {
        Some((_, rest)) => any(Two, rest),
        None => false,
    }
}

impl Shape {
    /// The number of a text, if it has this shape and 两 is at most its first character.
    pub fn value_of(self, text: &str) -> Option<u16>
        ensures { result ≡ value_of self (chars text.now) }
    {
        if has_later_two(text) {
            None
        } else {
            self.number_of(text)
        }
    }

    // The number of a text of this shape.
    fn number_of(self, text: &str) -> Option<u16>
        ensures { result ≡ number_of self (chars text.now) }
    {
        match self {
            Shape::Year => year_of(text),
            Shape::FullYear => full_year_of(text),
            Shape::EraYear => era_year_of(text),
            Shape::Count => Some(u16::from(count_of(text)?)),
            Shape::Clock => Some(u16::from(clock_of(text)?)),
            Shape::LongCount => Some(u16::from(long_count_of(text)?)),
            Shape::ZeroDigit => Some(u16::from(zero_digit_of(text)?)),
            Shape::Small => small_of(text),
            Shape::OneDigit | Shape::Quarter => Some(u16::from(digit_alone_of(text)?)),
            Shape::TwoDigits => Some(u16::from(two_alone_of(text)?)),
            Shape::TwoFigures => Some(u16::from(two_of(Figures, text)?)),
            Shape::FewFigures => Some(u16::from(few_figures_of(text)?)),
        }
    }
}
