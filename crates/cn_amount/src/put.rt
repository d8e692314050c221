// Writes a form of an amount, piece by piece: each digit that is not 0 with its unit, and 零 before
// it if the digit directly before it is 0.
ghost use Rattle.std.specs.Prelude.{◌≡◌, ◌<◌, pos, int_lt, true, List, [], ◌∷◌, ◌++◌, if◌then◌else◌};
ghost use Rattle.cn_amount.specs.declared.capital.Capital.{Capital};
ghost use Rattle.cn_amount.specs.declared.capital.Capital.TheVariants.{Ren, Min, Bi, Fu};
ghost use Rattle.cn_amount.specs.Form.{place_text, section_text, wan_text, yi_text, yuan_unit, small_text, from_yuan, from_wan, from_yi, amount_form, written, written_as};
ghost use Rattle.cn_amount.specs.Places.{AreDigits, ArePlaces};
ghost use Rattle.cn_amount.specs.Working.Putting.{IsWritten, PutsMore};

use crate::before::Before;
use crate::capital::Capital;
use crate::form::Hand;
use crate::places::{Places, Section};
use cn_core::Buffer;
use cn_grammar::put_capital;

// Writes a digit of a place that has no unit of its own.
fn put_digit(text: &mut Buffer, hand: Hand, before: Before, digit: u8)
    requires { digit < 10 }
    ensures { PutsMore hand text.old text.new (place_text before digit []) }
{
    if digit > 0 {
        if before == Before::Gap {
            put_capital(text, hand, Capital::Ling);
        }
        put_capital(text, hand, Capital::Digit(digit));
    }
}

/// Writes a digit and its unit, or nothing for 0.
pub fn put_place(text: &mut Buffer, hand: Hand, before: Before, digit: u8, unit: Capital)
    requires digit { digit < 10 }
    requires unit { IsWritten unit }
    ensures { PutsMore hand text.old text.new (place_text before digit (unit ∷ [])) }
{
    put_digit(text, hand, before, digit);
    if digit > 0 {
        put_capital(text, hand, unit);
    }
}

/// Writes four digits.
pub fn put_section(text: &mut Buffer, hand: Hand, before: Before, section: Section)
    requires { AreDigits section }
    ensures { PutsMore hand text.old text.new (section_text before section) }
{
    put_place(text, hand, before, section.thousands, Capital::Qian);
    let before = before.after_digit(section.thousands);
    put_place(text, hand, before, section.hundreds, Capital::Bai);
    let before = before.after_digit(section.hundreds);
    put_place(text, hand, before, section.tens, Capital::Shi);
    put_digit(text, hand, before.after_digit(section.tens), section.ones);
}

// Writes a section that 万 counts, and 万, or nothing if each digit is 0.
fn put_wan(text: &mut Buffer, hand: Hand, before: Before, section: Section)
    requires { AreDigits section }
    ensures { PutsMore hand text.old text.new (wan_text before section) }
{
    if !section.is_empty() {
        put_section(text, hand, before, section);
        put_capital(text, hand, Capital::Wan);
    }
}

// Writes the section that 亿 counts, and 亿 if it counts something.
fn put_yi(text: &mut Buffer, hand: Hand, before: Before, section: Section)
    requires { AreDigits section }
    ensures { PutsMore hand text.old text.new (yi_text before section) }
{
    put_section(text, hand, before, section);
    if before.after_section(section).is_written() {
        put_capital(text, hand, Capital::Yi);
    }
}

// Writes 元 after the yuan; if nothing was written, 零元 if `named`, and otherwise nothing.
fn put_yuan_unit(text: &mut Buffer, hand: Hand, after: Before, named: bool)
    ensures { PutsMore hand text.old text.new (yuan_unit after named) }
{
    if after.is_written() {
        put_capital(text, hand, Capital::Yuan);
    } else if named {
        put_capital(text, hand, Capital::Ling);
        put_capital(text, hand, Capital::Yuan);
    }
}

// Writes the jiao and the fen, and 整 if there are no fen.
fn put_small(text: &mut Buffer, hand: Hand, before: Before, jiao: u8, fen: u8)
    requires jiao { jiao < 10 }
    requires fen { fen < 10 }
    ensures { PutsMore hand text.old text.new (small_text before jiao fen true) }
{
    put_place(text, hand, before, jiao, Capital::Jiao);
    put_place(text, hand, before.after_digit(jiao), fen, Capital::Fen);
    if fen == 0 {
        put_capital(text, hand, Capital::Zheng);
    }
}

// Writes the section of the yuan, and what follows it.
fn put_yuan(text: &mut Buffer, hand: Hand, before: Before, places: Places)
    requires { ArePlaces places }
    ensures { PutsMore hand text.old text.new (from_yuan written before places) }
{
    put_section(text, hand, before, places.yuan);
    let after = before.after_section(places.yuan);
    let named = places.jiao == 0 && places.fen == 0;
    put_yuan_unit(text, hand, after, named);
    put_small(
        text,
        hand,
        after.after_yuan_unit(named),
        places.jiao,
        places.fen,
    );
}

// Writes the section that 万 counts, and what follows it.
fn put_from_wan(text: &mut Buffer, hand: Hand, before: Before, places: Places)
    requires { ArePlaces places }
    ensures { PutsMore hand text.old text.new (from_wan written before places) }
{
    put_wan(text, hand, before, places.wan);
    put_yuan(text, hand, before.after_wan(places.wan), places);
}

// Writes the section that 亿 counts, and what follows it.
fn put_from_yi(text: &mut Buffer, hand: Hand, before: Before, places: Places)
    requires { ArePlaces places }
    ensures { PutsMore hand text.old text.new (from_yi written before places) }
{
    put_yi(text, hand, before, places.yi);
    put_from_wan(text, hand, before.after_section(places.yi), places);
}

// Writes 人民币 if the form has it.
fn put_currency(text: &mut Buffer, hand: Hand, currency: bool)
    ensures { PutsMore hand text.old text.new (if currency then Ren ∷ Min ∷ Bi ∷ [] else []) }
{
    if currency {
        put_capital(text, hand, Capital::Ren);
        put_capital(text, hand, Capital::Min);
        put_capital(text, hand, Capital::Bi);
    }
}

/// Writes 負 before an amount below zero.
pub fn put_sign(text: &mut Buffer, hand: Hand, fen: i64)
    ensures { PutsMore hand text.old text.new (if int_lt fen (pos 0) then Fu ∷ [] else []) }
{
    if fen < 0 {
        put_capital(text, hand, Capital::Fu);
    }
}

/// Writes an amount in a form.
pub fn put_amount(text: &mut Buffer, hand: Hand, places: Places)
    requires { ArePlaces places }
    ensures { PutsMore hand text.old text.new (amount_form (written_as hand.form) places) }
{
    put_currency(text, hand, hand.form.currency);
    put_wan(text, hand, Before::Nothing, places.wan_yi);
    put_from_yi(text, hand, Before::Nothing.after_wan(places.wan_yi), places);
}
