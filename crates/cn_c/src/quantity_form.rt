// The codes of the forms in which a quantity is written.
ghost use Rattle.std.specs.Prelude.{◌≡◌, slice_get};
ghost use Rattle.cn_c.specs.Quantities.{form_code, quantity_forms};

use chinese_number::QuantityForm;

/// A whole number: 35, 三十五, 3万
pub const WHOLE: u32 = 0;

/// A decimal: 3.5, 三點五, 3.5万
pub const DECIMAL: u32 = 1;

/// A percentage: 12.5%, 百分之五十
pub const PERCENT: u32 = 2;

/// A fraction: 三分之一, 千分之五
pub const FRACTION: u32 = 3;

/// The code of a form.
pub fn form_code(form: QuantityForm) -> u32
    ensures { result ≡ form_code form }
{
    match form {
        QuantityForm::Whole => WHOLE,
        QuantityForm::Decimal => DECIMAL,
        QuantityForm::Percent => PERCENT,
        QuantityForm::Fraction => FRACTION,
    }
}

/// The form with a code; `None` if there is none.
pub fn quantity_form_of(code: u32) -> Option<QuantityForm>
    ensures { result ≡ slice_get quantity_forms code }
{
    match code {
        WHOLE => Some(QuantityForm::Whole),
        DECIMAL => Some(QuantityForm::Decimal),
        PERCENT => Some(QuantityForm::Percent),
        FRACTION => Some(QuantityForm::Fraction),
        _ => None,
    }
}
