// Ranges: two quantities with a link between them.
ghost use Rattle.std.specs.Prelude.{◌≡◌, ◌+◌, ◌++◌, ◌≤◌, chars, encode_utf8_all, length, nat_abs, IfOk};
ghost use Rattle.std.specs.Result.{result_ok};
ghost use Rattle.cn_core.specs.declared.method.ChineseCountMethod.TheVariants.{TenThousand};
ghost use Rattle.cn_find.specs.Spans.{in_front, span_of};
ghost use Rattle.cn_quantity.specs.Reading.{quantity_answer};
ghost use Rattle.cn_replace.specs.KeptNumbers.{and_text};
ghost use Rattle.cn_replace.specs.Private.{PutsText};
ghost use Rattle.cn_phrase.specs.Ranges.{are_expanded, are_less, are_plain, before_units, begins_sign, begins_zero, counts_for_both, end_text, ends_of, ends_sign, goes_on, have_both_figures, is_as_soon, is_end, is_less, is_link, is_linked, is_number, high_text, is_percent, is_percent_alone, is_positive, is_range, is_short, is_word, low_text, more_of_high, more_of_low, product, quantity_with, range_of, range_text, shared_units, text_in_style, units_of};
ghost use Rattle.cn_phrase.specs.Suffix.{EndsWith};

use cn_core::{Buffer, ChineseCountMethod, Unit, is_figure, split_first_char};
use cn_find::{Found, ends_week, is_one_of};
use cn_quantity::{Quantity, QuantityForm, chinese_to_quantity};
use cn_replace::clings::clings;
use cn_replace::kept::put_kept;
use cn_replace::numbers::put_read;
use cn_replace::pieces::{Figure, UnitFrom, all, any, before_rest, begins, split_nearest};
use cn_replace::{Sink, Style};

/// Two expressions of a text with a link between them.
#[derive(Debug, Copy, Clone)]
pub struct Ends<'a> {
    pub low: Found<'a>,
    pub link: char,
    pub high: Found<'a>,
}

/// Two quantities, of which the second is greater.
#[derive(Debug, Copy, Clone, PartialEq, Eq)]
pub struct QuantityRange {
    pub low: Quantity,
    pub high: Quantity,
}

/// Whether a character is a link.
pub fn is_link(c: char) -> bool
    ensures { result ≡ is_link c }
{
    is_one_of(&['到', '至', '~', '～', '－', '–', '—', '〜', '-'], c)
}

// The quantity of a text by the standard method.
fn quantity_of(text: &str) -> Option<Quantity>
    ensures { result ≡ result_ok (quantity_answer TenThousand text.now) }
{
    chinese_to_quantity(text, ChineseCountMethod::TenThousand).ok()
}

// Whether a text is a quantity that is no fraction and not below 0.
fn is_number(text: &str) -> bool
    ensures { result ≡ is_number (quantity_answer TenThousand text.now) }
{
    match chinese_to_quantity(text, ChineseCountMethod::TenThousand) {
        Ok(quantity) => {
            !matches!(quantity.form, QuantityForm::Fraction) && !(quantity.numerator < 0)
        }
        Err(_) => false,
    }
}

/// Whether an expression can be an end of a range, or the number of a sum of money: 三 can, 三分之一 cannot.
pub fn is_end(found: Found<'_>) -> bool
    ensures { result ≡ is_end (span_of found.entry) }
{
    is_number(found.text) && !found.is_about()
}

// Whether a link is a word.
fn is_word(link: char) -> bool
    ensures { result ≡ is_word link }
{
    is_one_of(&['到', '至'], link)
}

// Whether 一到 may mean "as soon as".
fn is_as_soon(low: &str, after: &str) -> bool
    ensures { result ≡ is_as_soon (chars low.now) (chars after.now) }
{
    let Some((c, more)) = split_first_char(low) else {
        return false;
    };
    let Some((d, _)) = split_first_char(after) else {
        return false;
    };
    split_first_char(more).is_none()
        && is_one_of(&['一'], c)
        && is_one_of(&['点', '點', '时', '時', '月', '日', '号', '號'], d)
}

// Whether a text begins with a zero and another figure.
fn begins_zero(text: &str) -> bool
    ensures { result ≡ begins_zero (chars text.now) }
{
    match split_first_char(text) {
        Some((c, more)) => is_one_of(&['0', '０'], c) && begins(Figure, more),
        None => false,
    }
}

// Whether a text begins with a sign.
fn begins_sign(text: &str) -> bool
    ensures { result ≡ begins_sign (chars text.now) }
{
    match split_first_char(text) {
        Some((c, _)) => is_one_of(&['正', '+', '＋', '负', '負', '-', '−', '－'], c),
        None => false,
    }
}

// Whether two texts both have figures.
fn have_both_figures(low: &str, high: &str) -> bool
    ensures { result ≡ have_both_figures (chars low.now) (chars high.now) }
{
    any(Figure, low) && any(Figure, high)
}

// Whether no text, or each text, has figures.
#[tactic(auto, unfolding(crate::specs::Ranges::are_plain))]
fn are_plain(low: &str, high: &str) -> bool
    ensures { result ≡ are_plain (chars low.now) (chars high.now) }
{
    any(Figure, low) == any(Figure, high)
        && !begins_zero(low)
        && !begins_zero(high)
        && !begins_sign(high)
}

// Whether the text before a range goes on with it.
fn ends_sign(before: &str) -> bool
    ensures { result ≡ ends_sign (in_front before.now) }
{
    match split_nearest(before) {
        Some((c, _)) => {
            is_figure(c)
                || is_one_of(
                    &[
                        '-', '/', '.', ':', '：', '~', '=', '+', '^', '*', '×', '_', '$', '#', '@',
                    ],
                    c,
                )
        }
        None => false,
    }
}

// Whether the text after a range goes on with it.
fn goes_on(after: &str) -> bool
    ensures { result ≡ goes_on (chars after.now) }
{
    match split_first_char(after) {
        Some((c, _)) => is_one_of(
            &['-', '/', '~', ':', '：', '=', '+', '^', '*', '×', '_', '\\'],
            c,
        ),
        None => false,
    }
}

/// Whether a text is a percentage, such as 5%.
pub fn is_percent(text: &str) -> bool
    ensures { result ≡ is_percent text.now }
{
    match quantity_of(text) {
        Some(quantity) => matches!(quantity.form, QuantityForm::Percent),
        None => false,
    }
}

/// A product, if it is less than 2^128.
pub fn product(a: u128, b: u128) -> Option<u128>
    ensures { result ≡ product a b }
{
    a.checked_mul(b)
}

// A numerator without its sign, by a denominator.
fn crossed(q: Quantity, other: Quantity) -> Option<u128>
    ensures { result ≡ product (nat_abs q.numerator) other.denominator }
{
    product(q.numerator.unsigned_abs(), other.denominator)
}

// Whether a quantity is less than another one.
fn is_less(q: Quantity, other: Quantity) -> bool
    ensures { result ≡ is_less q other }
{
    match (crossed(q, other), crossed(other, q)) {
        (Some(a), Some(b)) => a < b,
        _ => false,
    }
}

// Whether there are two quantities, and the first is less.
fn are_less(q: Option<Quantity>, other: Option<Quantity>) -> bool
    ensures { result ≡ are_less q other }
{
    match (q, other) {
        (Some(q), Some(other)) => is_less(q, other),
        _ => false,
    }
}

// Whether a text is not too long to be an end of a range that shares units.
fn is_short(text: &str) -> bool
    ensures { result ≡ is_short text.now }
{
    text.len() <= 48
}

// The units at the end of a text.
fn units_of(text: &str) -> &str
    ensures units { chars result.now ≡ units_of (chars text.now) }
    ensures end { EndsWith (chars text.now) (chars result.now) }
{
    let mut rest = text;
    'passing: while let Some((_, more)) = split_first_char(rest) {
        if all(UnitFrom { least: Unit::Bai }, rest) {
            break;
        }
        rest = more;
    }
    rest
}

// The text before the units at its end.
fn before_units(text: &str) -> &str
    ensures { result.now ≡ encode_utf8_all (before_units (chars text.now)) }
{
    before_rest(text, units_of(text))
}

// Whether a quantity is there, and is above 0.
fn is_positive(quantity: Option<Quantity>) -> bool
    ensures { result ≡ is_positive quantity }
{
    match quantity {
        Some(quantity) => quantity.numerator > 0,
        None => false,
    }
}

// Whether the units at the end of the second text count for the first too.
fn counts_for_both(low: &str, high: &str) -> bool
    ensures { result ≡ counts_for_both low.now high.now }
{
    is_short(high)
        && !any(UnitFrom { least: Unit::Bai }, low)
        && is_positive(quantity_of(low))
        && are_less(quantity_of(low), quantity_of(before_units(high)))
}

/// The units that count for both ends: 万 of 三到五万.
pub fn shared_units<'a>(low: &str, high: &'a str) -> &'a str
    ensures { result.now ≡ shared_units low.now high.now }
{
    if counts_for_both(low, high) {
        units_of(high)
    } else {
        ""
    }
}

// Whether the first text is a percentage and the second is none.
fn is_percent_alone(one: &str, other: &str) -> bool
    ensures { result ≡ is_percent_alone one.now other.now }
{
    is_percent(one) && !is_percent(other)
}

// What counts after the first end of a range too.
fn more_of_low<'a>(low: &str, high: &'a str) -> &'a str
    ensures { result.now ≡ more_of_low low.now high.now }
{
    if is_percent_alone(high, low) {
        "%"
    } else {
        shared_units(low, high)
    }
}

// What counts after the second end too.
fn more_of_high(low: &str, high: &str) -> &'static str
    ensures { result.now ≡ more_of_high low.now high.now }
{
    if is_percent_alone(low, high) { "%" } else { "" }
}

// A text with more after it, in a buffer.
fn joined<'a>(room: &'a mut [u8], text: &str, more: &str) -> &'a str
    requires { length text.now + length more.now ≤ length room.now }
    ensures { result.now ≡ text.now ++ more.now }
{
    let mut buffer = Buffer::new(room);
    buffer.put(text);
    buffer.put(more);
    buffer.into_text()
}

// The quantity of a text with more after it.
fn quantity_with(text: &str, more: &str) -> Option<Quantity>
    ensures { result ≡ quantity_with text.now more.now }
{
    if !is_short(text) || !is_short(more) {
        return None;
    }
    let mut room = [0; 96];
    quantity_of(joined(&mut room, text, more))
}

/// The range of two texts; `None` if the second is not greater.
pub fn range_of(low: &str, high: &str) -> Option<QuantityRange>
    ensures { result ≡ range_of low.now high.now }
{
    let first = quantity_with(low, more_of_low(low, high))?;
    let second = quantity_with(high, more_of_high(low, high))?;
    if is_less(first, second) {
        Some(QuantityRange {
            low: first,
            high: second,
        })
    } else {
        None
    }
}

// Whether the link of a range, and what is around it, are those of a range.
fn is_linked(ends: Ends<'_>) -> bool
    ensures { result ≡ is_linked (ends_of ends.entry) }
{
    if is_word(ends.link) {
        return !is_as_soon(ends.low.text, ends.high.after);
    }
    are_plain(ends.low.text, ends.high.text)
        && !ends_sign(ends.low.before)
        && !goes_on(ends.high.after)
        && range_of(ends.low.text, ends.high.text).is_some()
}

/// Whether two expressions with a link between them are a range.
pub fn is_range(ends: Ends<'_>) -> bool
    ensures { result ≡ is_range (ends_of ends.entry) }
{
    is_end(ends.low)
        && is_end(ends.high)
        && !clings(ends.low.before, ends.high.after)
        && !ends_week(ends.low.before)
        && is_linked(ends)
}

/// Writes a number in figures, in a style, and returns whether it has such a text.
pub fn put_in_style<S: Sink>(sink: &mut S, style: Style, number: &str) -> Result<bool, S::Error>
    ensures { IfOk result
        (PutsText S.took sink.old sink.new (text_in_style style (chars number.now))) }
{
    match style {
        Style::Kept => put_kept(sink, ChineseCountMethod::TenThousand, number),
        Style::Expanded => put_read(sink, ChineseCountMethod::TenThousand, number),
    }
}

// Writes the new text of an end of a range, and returns whether it has one.
fn put_end<S: Sink>(sink: &mut S, style: Style, text: &str, more: &str) -> Result<bool, S::Error>
    ensures { IfOk result (PutsText S.took sink.old sink.new (end_text style text.now more.now)) }
{
    if !is_short(text) || !is_short(more) {
        return Ok(false);
    }
    let mut room = [0; 96];
    put_in_style(sink, style, joined(&mut room, text, more))
}

// Writes a link and the second end of a range.
fn put_high<S: Sink>(sink: &mut S, style: Style, ends: Ends<'_>) -> Result<bool, S::Error>
    ensures { IfOk result (PutsText S.took sink.old sink.new (high_text style (ends_of ends.entry))) }
{
    let mut room = [0; 4];
    sink.put(ends.link.encode_utf8(&mut room))?;
    put_end(
        sink,
        style,
        ends.high.text,
        more_of_high(ends.low.text, ends.high.text),
    )
}

// Writes the first end of a range.
fn put_low<S: Sink>(sink: &mut S, style: Style, ends: Ends<'_>) -> Result<bool, S::Error>
    ensures { IfOk result (PutsText S.took sink.old sink.new (low_text style (ends_of ends.entry))) }
{
    put_end(
        sink,
        style,
        ends.low.text,
        more_of_low(ends.low.text, ends.high.text),
    )
}

// Writes both ends of a range.
fn put_ends<S: Sink>(sink: &mut S, style: Style, ends: Ends<'_>) -> Result<bool, S::Error>
    ensures { IfOk result (PutsText S.took sink.old sink.new
        (and_text (low_text style (ends_of ends.entry)) (high_text style (ends_of ends.entry)))) }
{
    if !put_low(sink, style, ends)? {
        return Ok(false);
    }
    put_high(sink, style, ends)
}

// Whether one of the ends has units that a style writes out.
fn are_expanded(style: Style, low: &str, high: &str) -> bool
    ensures { result ≡ are_expanded style (chars low.now) (chars high.now) }
{
    let great = UnitFrom { least: Unit::Bai };
    match style {
        Style::Kept => false,
        Style::Expanded => any(great, low) || any(great, high),
    }
}

/// Writes the new text of a range, and returns whether it has one. If not, anything may have been
/// written.
pub fn put_range<S: Sink>(sink: &mut S, style: Style, ends: Ends<'_>) -> Result<bool, S::Error>
    ensures { IfOk result (PutsText S.took sink.old sink.new (range_text style (ends_of ends.entry))) }
{
    if have_both_figures(ends.low.text, ends.high.text)
        && !are_expanded(style, ends.low.text, ends.high.text)
    {
        Ok(false)
    } else {
        put_ends(sink, style, ends)
    }
}
