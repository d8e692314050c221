// How many decimals a quantity has, and how many zeros are at their end.
ghost use Rattle.std.specs.Prelude.{◌≡◌, ◌*◌, ◌^◌, ◌≤◌, ◌<◌, IfSome};
ghost use Rattle.cn_quantity.specs.Trimmed.{decimals_of, decimals_over, form_with, without_zeros, zeros_at_end};

use crate::ratio::form_of;
use crate::{Quantity, QuantityForm};

// The number of decimals with which this divisor makes the denominator.
fn decimals_over(divisor: u128, denominator: u128) -> Option<usize>
    requires { 0 < divisor }
    ensures value { result ≡ decimals_over divisor denominator }
    ensures exact { IfSome result (λ decimals. divisor * 10 ^ decimals ≡ denominator) }
{
    let mut reached = divisor;
    for decimals in 0..39 {
        if reached == denominator {
            return Some(decimals);
        }
        reached = reached.checked_mul(10)?;
    }
    None
}

/// The number of decimals of a quantity: 2 for 314/100, and 1 for 125/1000 as a percentage, which
/// is 12.5%. `None` for a fraction, or if the denominator does not fit the form.
pub fn decimals_of(quantity: Quantity) -> Option<usize>
    ensures value { result ≡ decimals_of quantity }
    ensures most { IfSome result (λ decimals. decimals ≤ 38) }
{
    match quantity.form {
        QuantityForm::Whole if quantity.denominator == 1 => Some(0),
        QuantityForm::Decimal => Some(decimals_over(10, quantity.denominator)? + 1),
        QuantityForm::Percent => decimals_over(100, quantity.denominator),
        _ => None,
    }
}

// Same answer (.. → ..=): one more digit is examined, and the answer is `count` whatever it is.
/// The number of zeros at the end of a number, among its last `count` digits.
pub fn zeros_at_end(count: usize, number: u128) -> usize
    ensures value { result ≡ zeros_at_end count number }
    ensures most { result ≤ count }
{
    let mut left = number;
    for zeros in 0..count {
        if left % 10 > 0 {
            return zeros;
        }
        left /= 10;
    }
    count
}

// The form when this number of decimals is left.
fn form_with(form: QuantityForm, decimals: usize) -> QuantityForm
    ensures { result ≡ form_with form decimals }
{
    match form {
        QuantityForm::Percent | QuantityForm::Fraction => form,
        QuantityForm::Whole | QuantityForm::Decimal => form_of(decimals),
    }
}

/// The quantity without this number of zeros at the end of its decimals.
pub fn without_zeros(quantity: Quantity, decimals: usize, zeros: usize) -> Quantity
    requires zeros { zeros ≤ decimals }
    requires decimals { decimals ≤ 38 }
    ensures { result ≡ without_zeros quantity decimals zeros }
{
    let power = 10_u128.pow(zeros as u32);
    Quantity {
        numerator: quantity.numerator / power as i128,
        denominator: quantity.denominator / power,
        form: form_with(quantity.form, decimals - zeros),
    }
}
