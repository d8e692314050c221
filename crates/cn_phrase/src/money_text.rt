// The value of a sum of money, its doubt, and its text in figures.
ghost use Rattle.std.specs.Prelude.{◌≡◌, ◌<◌, ◌^◌, ◌∷◌, Some, chars, codes, take, drop, IfOk, IfSome, OnOk};
ghost use Rattle.cn_find.specs.Spans.{in_front};
ghost use Rattle.cn_replace.specs.InFigures.{figures_for};
ghost use Rattle.cn_replace.specs.KeptNumbers.{and_text};
ghost use Rattle.cn_replace.specs.Private.{PutsText};
ghost use Rattle.cn_phrase.specs.Money.{money_of};
ghost use Rattle.cn_phrase.specs.MoneyText.{alone_text, compact_text, fen_of, fen_of_yuan, follows_currency, has_expanded, has_parts, is_alone, is_kuai, is_money_doubtful, is_one_digit, is_unit_and_qian, is_yuan, may_be_little, may_be_variables, money_new, number_new, of_fen, part_character, part_text, parts_text, whole_quotient, written_text, yuan_before, yuan_of};

use crate::in_text::is_doubtful_end;
use crate::money::{Money, MoneyForm, whole_yuan};
use crate::range::{product, put_in_style};
use crate::shape::counting_digit;
use cn_core::{ChineseCountMethod, Unit, split_first_char};
use cn_find::{ends_with_two, is_exactly, is_one_of, is_title_open};
use cn_quantity::{Quantity, QuantityForm, chinese_to_quantity};
use cn_replace::numbers::{put_quantity, put_same};
use cn_replace::pieces::{Figure, UnitFrom, any, before_rest, split_nearest};
use cn_replace::{Figures, InFigures, Sink, Style};

// Whether some jiao or fen are said.
fn has_parts(money: Money<'_>) -> bool
    ensures { result ≡ has_parts (money_of money.entry) }
{
    money.jiao > 0 || money.fen > 0
}

// The number of yuan before jiao and fen.
fn yuan_before(form: MoneyForm, number: &str) -> Option<u64>
    ensures value { result ≡ yuan_before form number.now }
    ensures bound { IfSome result (λ n. n < 10 ^ 16) }
{
    match form {
        MoneyForm::Small => Some(0),
        _ => whole_yuan(number),
    }
}

// A number of fen, in yuan.
fn of_fen(fen: u64) -> Quantity
    ensures { result ≡ of_fen fen }
{
    Quantity {
        numerator: i128::from(fen),
        denominator: 100,
        form: QuantityForm::Decimal,
    }
}

/// The value of a sum of money, in yuan: 352/100 for 三块五毛二.
pub fn yuan_of(money: Money<'_>) -> Option<Quantity>
    ensures { result ≡ yuan_of (money_of money.entry) }
{
    if has_parts(money) {
        let yuan = yuan_before(money.form, money.number.text)?;
        Some(of_fen(100 * yuan + 10 * u64::from(money.jiao) + u64::from(money.fen)))
    } else {
        chinese_to_quantity(money.number.text, ChineseCountMethod::TenThousand).ok()
    }
}

// A quotient, if it is a whole number below 10^18.
fn whole_quotient(n: u128, denominator: u128) -> Option<u64>
    ensures value { result ≡ whole_quotient n denominator }
    ensures bound { IfSome result (λ n. n < 10 ^ 18) }
{
    if denominator == 0 {
        return None;
    }
    if n % denominator == 0 && n / denominator < 1_000_000_000_000_000_000 {
        Some((n / denominator) as u64)
    } else {
        None
    }
}

// The value in fen of a number of yuan.
fn fen_of_yuan(quantity: Quantity) -> Option<u64>
    ensures value { result ≡ fen_of_yuan quantity }
    ensures bound { IfSome result (λ n. n < 10 ^ 18) }
{
    whole_quotient(
        product(quantity.numerator.unsigned_abs(), 100)?,
        quantity.denominator,
    )
}

/// The value of a sum of money in fen: 352 for 三块五毛二. `None` if it is not a whole number below 10^18.
pub fn fen_of(money: Money<'_>) -> Option<u64>
    ensures value { result ≡ fen_of (money_of money.entry) }
    ensures bound { IfSome result (λ n. n < 10 ^ 18) }
{
    fen_of_yuan(yuan_of(money)?)
}

fn is_alone(form: MoneyForm) -> bool
    ensures { result ≡ is_alone form }
{
    matches!(form, MoneyForm::Signed | MoneyForm::Yuan | MoneyForm::Kuai)
}

fn is_kuai(form: MoneyForm) -> bool
    ensures { result ≡ is_kuai form }
{
    matches!(form, MoneyForm::Kuai)
}

fn is_yuan(form: MoneyForm) -> bool
    ensures { result ≡ is_yuan form }
{
    matches!(form, MoneyForm::Yuan)
}

// Whether a number is one Chinese digit.
fn is_one_digit(number: &str) -> bool
    ensures { result ≡ is_one_digit (chars number.now) }
{
    match split_first_char(number) {
        Some((c, rest)) => split_first_char(rest).is_none() && counting_digit(c).is_some(),
        None => false,
    }
}

// Whether 元 may count variables, as in 二元.
fn may_be_variables(money: Money<'_>) -> bool
    ensures { result ≡ may_be_variables (money_of money.entry) }
{
    is_yuan(money.form) && is_one_digit(money.number.text)
}

// Whether a text is a unit and 钱.
fn is_unit_and_qian(text: &str) -> bool
    ensures { result ≡ is_unit_and_qian (chars text.now) }
{
    let Some((_, rest)) = split_first_char(text) else {
        return false;
    };
    match split_first_char(rest) {
        Some((c, end)) => split_first_char(end).is_none() && is_one_of(&['钱', '錢'], c),
        None => false,
    }
}

// Whether a sum is 一分钱, 一毛钱 or 一块钱.
fn may_be_little(money: Money<'_>) -> bool
    ensures { result ≡ may_be_little (money_of money.entry) }
{
    is_exactly(&['一'], money.number.text) && is_unit_and_qian(money.tail)
}

// Whether another currency is named before a sum.
fn follows_currency(before: &str) -> bool
    ensures { result ≡ follows_currency (in_front before.now) }
{
    match split_nearest(before) {
        Some((c, front)) => {
            is_one_of(&['$', '＄', '€', '£'], c)
                || (is_one_of(&['币', '幣'], c) && !ends_with_two(&['民'], &['人'], front))
        }
        None => false,
    }
}

/// Whether a sum of money, after another text, may mean something else, is of another currency, or is in a
/// title.
pub fn is_money_doubtful(before: &str, money: Money<'_>) -> bool
    ensures { result ≡ is_money_doubtful (in_front before.now) (money_of money.entry) }
{
    is_kuai(money.form)
        || may_be_variables(money)
        || may_be_little(money)
        || follows_currency(before)
        || is_doubtful_end(money.number)
        || is_title_open(before)
}

// The figure of a digit.
fn figure_of(digit: u8) -> &'static str
    ensures { result.now ≡ take 1 (drop digit (codes "0123456789")) }
{
    match digit {
        0 => "0",
        1 => "1",
        2 => "2",
        3 => "3",
        4 => "4",
        5 => "5",
        6 => "6",
        7 => "7",
        8 => "8",
        9 => "9",
        _ => "",
    }
}

// Writes the first character of a text, which is before the rest: a Chinese digit from 1 to 9 as its
// figure, and any other unchanged.
fn put_character<S: Sink>(sink: &mut S, c: char, text: &str, rest: &str) -> Result<(), S::Error>
    requires { chars text.now ≡ c ∷ chars rest.now }
    ensures { OnOk result (S.took sink.old sink.new (part_character c)) }
{
    match counting_digit(c) {
        Some(digit) => sink.put(figure_of(digit)),
        None => put_same(sink, before_rest(text, rest)),
    }
}

// Writes the jiao and fen of a sum in figures.
fn put_tail<S: Sink>(sink: &mut S, text: &str) -> Result<(), S::Error>
    ensures { OnOk result (S.took sink.old sink.new (part_text (chars text.now))) }
{
    let mut rest = text;
    'putting: while let Some((c, others)) = split_first_char(rest) {
        put_character(sink, c, rest, others)?;
        rest = others;
    }
    Ok(())
}

// Whether a style writes out the units of a number.
fn has_expanded(style: Style, number: &str) -> bool
    ensures { result ≡ has_expanded style (chars number.now) }
{
    match style {
        Style::Kept => false,
        Style::Expanded => any(UnitFrom { least: Unit::Bai }, number),
    }
}

// Writes the new text of a number, and returns whether it has one.
fn put_number<S: Sink>(sink: &mut S, style: Style, number: &str) -> Result<bool, S::Error>
    ensures { IfOk result (PutsText S.took sink.old sink.new (number_new style (chars number.now))) }
{
    if any(Figure, number) && !has_expanded(style, number) {
        put_same(sink, number)?;
        Ok(true)
    } else {
        put_in_style(sink, style, number)
    }
}

// Writes a number as the expression by itself, with what is after it, and returns whether it has such a text.
fn put_expression<S: Sink>(
    sink: &mut S,
    figures: InFigures,
    money: Money<'_>,
) -> Result<bool, S::Error>
    ensures { IfOk result (PutsText S.took sink.old sink.new
        (and_text (figures_for figures.method figures.figures (money_of money.entry).number)
        (Some (money_of money.entry).tail))) }
{
    if !figures.put_known(money.number, sink)? {
        return Ok(false);
    }
    sink.put(money.tail)?;
    Ok(true)
}

// Writes a sum whose number is written as the expression by itself, and returns whether it has a new text.
fn put_alone<S: Sink>(sink: &mut S, figures: InFigures, money: Money<'_>) -> Result<bool, S::Error>
    ensures { IfOk result (PutsText S.took sink.old sink.new
        (alone_text figures.method figures.figures (money_of money.entry))) }
{
    sink.put(money.sign)?;
    put_expression(sink, figures, money)
}

// Writes a sum with its number, jiao and fen in figures, and returns whether it has a new text.
fn put_parts<S: Sink>(sink: &mut S, style: Style, money: Money<'_>) -> Result<bool, S::Error>
    ensures { IfOk result
        (PutsText S.took sink.old sink.new (parts_text style (money_of money.entry))) }
{
    if !put_number(sink, style, money.number.text)? {
        return Ok(false);
    }
    put_tail(sink, money.tail)?;
    Ok(true)
}

// Writes the yuan of a sum in figures, and 元, and returns whether it has a value.
fn put_compact<S: Sink>(sink: &mut S, money: Money<'_>) -> Result<bool, S::Error>
    ensures { IfOk result (PutsText S.took sink.old sink.new (compact_text (money_of money.entry))) }
{
    let Some(yuan) = yuan_of(money) else {
        return Ok(false);
    };
    put_quantity(sink, yuan)?;
    sink.put("元")?;
    Ok(true)
}

// Writes a sum with its parts in figures, or in its shortest form.
fn put_written<S: Sink>(sink: &mut S, figures: Figures, money: Money<'_>) -> Result<bool, S::Error>
    ensures { IfOk result
        (PutsText S.took sink.old sink.new (written_text figures (money_of money.entry))) }
{
    if figures.compact && has_parts(money) {
        put_compact(sink, money)
    } else {
        put_parts(sink, figures.style, money)
    }
}

/// Writes the new text of a sum of money after another text, and returns whether it has one. If not,
/// anything may have been written.
pub fn put_money<S: Sink>(
    sink: &mut S,
    figures: InFigures,
    before: &str,
    money: Money<'_>,
) -> Result<bool, S::Error>
    ensures { IfOk result (PutsText S.took sink.old sink.new (money_new figures.method figures.figures
        (in_front before.now) (money_of money.entry))) }
{
    if is_alone(money.form) {
        return put_alone(sink, figures, money);
    }
    if figures.figures.included.doubtful || !is_money_doubtful(before, money) {
        put_written(sink, figures.figures, money)
    } else {
        Ok(false)
    }
}
