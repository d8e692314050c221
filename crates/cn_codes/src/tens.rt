// Versions whose first number is written with 十: 十七点五点一.
ghost use Rattle.std.specs.Prelude.{◌≡◌, chars, length, nat_le};
ghost use Rattle.std.specs.Option.{option_map};
ghost use Rattle.cn_find.specs.Spans.{in_front};
ghost use Rattle.cn_codes.specs.Codes.{code_of};
ghost use Rattle.cn_codes.specs.Groups.{group_of};
ghost use Rattle.cn_codes.specs.Tens.{after_tens, begins_tens, from_ten, has_at_most_one, is_one_to_nine, is_ten, number_at, tens_version_at, version_after, version_with};

use crate::code::{Code, CodeKind, ends_numeral, is_pointed_chinese};
use crate::digits::{Chinese, has_at_most};
use crate::groups::Group;
use crate::words::without_first;
use cn_find::{begins_with, is_one_of};
use cn_replace::pieces::{CharTest, begins, ends, split_leading};

#[derive(Copy, Clone)]
struct OneToNine;

impl CharTest for OneToNine {
    ghost test = { λ _. is_one_to_nine };

    #[tactic(auto, unfolding(crate::specs::Tens::is_one_to_nine))]
    fn passes(self, c: char) -> bool {
        is_one_of(&['一', '二', '三', '四', '五', '六', '七', '八', '九'], c)
    }
}

/// The character 十.
#[derive(Copy, Clone)]
pub struct Ten;

impl CharTest for Ten {
    ghost test = { λ _. is_ten };

    fn passes(self, c: char) -> bool {
        is_one_of(&['十'], c)
    }
}

// Whether no digit or one is directly at the start of a text.
fn has_at_most_one(text: &str) -> bool
    ensures { result ≡ has_at_most_one (chars text.now) }
{
    has_at_most(1, split_leading(OneToNine, text).0)
}

// The text from the 十 of a numeral on.
fn from_ten(text: &str) -> &str
    ensures { chars result.now ≡ from_ten (chars text.now) }
{
    split_leading(OneToNine, text).1
}

// Whether a text begins with a numeral from 10 to 99.
fn begins_tens(text: &str) -> bool
    ensures { result ≡ begins_tens (chars text.now) }
{
    let ten = from_ten(text);
    has_at_most_one(text) && begins(Ten, ten) && has_at_most_one(without_first(ten))
}

// The text after such a numeral.
fn after_tens(text: &str) -> &str
    ensures { chars result.now ≡ after_tens (chars text.now) }
{
    split_leading(OneToNine, without_first(from_ten(text))).1
}

// The number of one to four digits after the point with which a text begins.
fn number_at(text: &str) -> Option<Group<'_>>
    ensures { option_map group_of result ≡ number_at (chars text.now) }
{
    let number = without_first(text);
    let (digits, rest) = split_leading(Chinese, number);
    if begins_with(&['点', '點'], text) && begins(Chinese, number) && has_at_most(4, digits) {
        Some(Group {
            digits,
            sign: None,
            rest,
        })
    } else {
        None
    }
}

// The version that ends with this number.
fn version_with(last: Group<'_>) -> Option<Code<'_>>
    ensures { option_map code_of result ≡ version_with (group_of last.entry) }
{
    if is_pointed_chinese(&[last], last.rest) {
        Some(Code {
            kind: CodeKind::Pointed,
            rest: last.rest,
        })
    } else {
        None
    }
}

// The version of which this text is the second number and the last.
fn version_after(text: &str) -> Option<Code<'_>>
    ensures { option_map code_of result ≡ version_after (chars text.now) }
{
    let second = number_at(text)?;
    let last = number_at(second.rest)?;
    version_with(last)
}

/// The version with which a text begins, after another text, if its first number is written with 十.
///
/// ```text
/// tens_version_at("升到", "十七点五点一版") == Some(Code { kind: CodeKind::Pointed, rest: "版" })
/// tens_version_at("升到", "十七点五") == None
/// ```
pub fn tens_version_at<'a>(before: &str, text: &'a str) -> Option<Code<'a>>
    ensures { option_map code_of result ≡ tens_version_at (in_front before.now) (chars text.now) }
{
    if begins_tens(text) && !ends(Chinese, before) && !ends_numeral(before) {
        version_after(after_tens(text))
    } else {
        None
    }
}
