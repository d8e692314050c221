// Writes the form of a date, piece by piece.
ghost use Rattle.std.specs.Prelude.{◌≡◌, ◌<◌, true, List, [], ◌∷◌, ◌++◌};
ghost use Rattle.cn_date.specs.declared.capital.Capital.{Capital};
ghost use Rattle.cn_date.specs.Calendar.{IsDate};
ghost use Rattle.cn_date.specs.Form.{year_text, number_text, ling_text, month_text, day_text, date_form, written};
ghost use Rattle.cn_date.specs.Working.Putting.{PutsMore};

use crate::capital::Capital;
use crate::date::BillDate;
use cn_core::{Buffer, ChineseVariant};
use cn_grammar::put_capital;

// Writes the figures of a year.
#[tactic(auto, using(crate::proofs::Years::year_snoc))]
fn put_year(text: &mut Buffer, variant: ChineseVariant, year: u16)
    requires { year < 10000 }
    ensures { PutsMore variant text.old text.new (year_text year) }
{
    if year > 0 {
        put_year(text, variant, year / 10);
        put_capital(text, variant, Capital::Digit((year % 10) as u8));
    }
}

// Writes the number of a month or a day.
fn put_number(text: &mut Buffer, variant: ChineseVariant, number: u8)
    requires { number < 100 }
    ensures { PutsMore variant text.old text.new (number_text number) }
{
    if number < 10 {
        put_capital(text, variant, Capital::Digit(number));
    } else {
        put_capital(text, variant, Capital::Digit(number / 10));
        put_capital(text, variant, Capital::Shi);
        if number % 10 > 0 {
            put_capital(text, variant, Capital::Digit(number % 10));
        }
    }
}

// Writes 零 if there is one before a number.
fn put_ling(text: &mut Buffer, variant: ChineseVariant, stands: bool)
    ensures { PutsMore variant text.old text.new (ling_text stands) }
{
    if stands {
        put_capital(text, variant, Capital::Digit(0));
    }
}

// Writes the month.
fn put_month(text: &mut Buffer, variant: ChineseVariant, month: u8)
    requires { month < 100 }
    ensures { PutsMore variant text.old text.new (month_text written month) }
{
    put_ling(text, variant, month < 3 || month == 10);
    put_number(text, variant, month);
    put_capital(text, variant, Capital::Yue);
}

// Writes the day.
// Same answer (< → <=, 10 → 11): 10 is a multiple of 10, which gives the same text.
fn put_day(text: &mut Buffer, variant: ChineseVariant, day: u8)
    requires { day < 100 }
    ensures { PutsMore variant text.old text.new (day_text day) }
{
    put_ling(text, variant, day < 10 || day % 10 == 0);
    put_number(text, variant, day);
    put_capital(text, variant, Capital::Ri);
}

/// Writes a date in the form that is written.
pub fn put_date(text: &mut Buffer, variant: ChineseVariant, date: BillDate)
    requires { IsDate date }
    ensures { PutsMore variant text.old text.new (date_form written date) }
{
    put_year(text, variant, date.year);
    put_capital(text, variant, Capital::Nian);
    put_month(text, variant, date.month);
    put_day(text, variant, date.day);
}
