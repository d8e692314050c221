// What may come next in a text.
ghost use Rattle.std.specs.Prelude.{chars};
ghost use Rattle.cn_amount.specs.Reading.{IsAmount};
ghost use Rattle.cn_amount.specs.Signed.{IsSignedAmount};
ghost use Rattle.cn_amount.specs.Typed.{IsTypedAmount, IsTypedSignedAmount};
ghost use Rattle.cn_grammar.specs.Expected.{IsExpected};

use crate::progress::Progress;
use crate::signed::SignedProgress;
use crate::typed::{TypedProgress, TypedSignedProgress};
use cn_grammar::{Expected, expected_next};

/// What may come next in an amount in capitals, after the longest start of a text that begins an
/// amount: for an input form that lists the keys, or for a message beside a refused text. No memory
/// is allocated.
///
/// ```text
/// let expected = amount_expected("壹佰贰元整");
/// expected.char_index == 3                    // 元 is refused
/// expected.may_end == false
/// expected.characters.as_slice() == ['拾']
/// ```
///
/// If `chinese_to_amount` returns `Incorrect`, `char_index` is the same; otherwise it is the number
/// of characters of the text. `may_end` is true exactly if the characters before it are an amount.
/// The list has exactly the characters with which an amount can go on there. `white_space` is
/// false.
pub fn amount_expected(text: &str) -> Expected
    ensures { IsExpected IsAmount (chars text.now) result }
{
    expected_next::<Progress>(text)
}

/// What may come next in an amount in capitals that may be below zero, as `amount_expected` says it
/// for other amounts. No memory is allocated.
///
/// ```text
/// let expected = signed_amount_expected("-壹元整");
/// expected.char_index == 0                    // among the characters is 负
/// ```
pub fn signed_amount_expected(text: &str) -> Expected
    ensures { IsExpected IsSignedAmount (chars text.now) result }
{
    expected_next::<SignedProgress>(text)
}

/// What may come next in an amount in capitals as people type it, as `amount_expected` says it for
/// other amounts. `white_space` is true: an amount can go on with any white space. No memory is
/// allocated.
///
/// ```text
/// let expected = typed_amount_expected("人民币 壹佰元");
/// expected.char_index == 7                    // among the characters is 整
/// expected.white_space == true
/// ```
pub fn typed_amount_expected(text: &str) -> Expected
    ensures { IsExpected IsTypedAmount (chars text.now) result }
{
    expected_next::<TypedProgress>(text)
}

/// What may come next in an amount in capitals as people type it or copy it from a red invoice, with
/// a sign or without one, as `typed_amount_expected` says it for amounts without a sign. No memory is
/// allocated.
///
/// ```text
/// let expected = typed_signed_amount_expected("（负");
/// expected.char_index == 2
/// expected.characters.as_slice() == ['数']
/// ```
pub fn typed_signed_amount_expected(text: &str) -> Expected
    ensures { IsExpected IsTypedSignedAmount (chars text.now) result }
{
    expected_next::<TypedSignedProgress>(text)
}
