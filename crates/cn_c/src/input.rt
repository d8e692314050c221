// What may come next in a text that is typed, and one change that repairs it.
ghost use Rattle.std.specs.Prelude.{◌≡◌, ◌≤◌, length, take};
ghost use Rattle.cn_c.specs.Inputs.{change_of, IsInputExpected, IsInputRepair, WritesExpected};

use crate::codes::input_of;
use crate::flags::flag_if;
use crate::status::{DONE, NOT_UTF8, UNKNOWN};
use cn_dynamic::utf8_text;
use cn_grammar::{Hint, Repair};
use cn_judge::byte_index;
use cn_message::Input;

/// What may come next in a text after its longest start that begins an input: the length of this
/// start in characters and bytes, and flags, which are 1 or 0. The first `count` characters are
/// those that may come next.
#[repr(C)]
#[derive(Clone, Copy)]
pub struct Expected {
    pub char_index: usize,
    pub byte_index: usize,
    pub may_end: u32,
    pub white_space: u32,
    pub count: u32,
    pub characters: [u32; MOST_EXPECTED],
}

/// How many characters may come next at most.
pub const MOST_EXPECTED: usize = 48;

const NOTHING_EXPECTED: Expected = Expected {
    char_index: 0,
    byte_index: 0,
    may_end: 0,
    white_space: 0,
    count: 0,
    characters: [0; MOST_EXPECTED],
};

/// One change of a text: the code of what is changed, the character that is written, if any, and how
/// many characters and bytes come before the place.
#[repr(C)]
#[derive(Clone, Copy)]
pub struct Change {
    pub char_index: usize,
    pub byte_index: usize,
    pub change: u32,
    pub character: u32,
}

const NO_CHANGE: Change = Change {
    char_index: 0,
    byte_index: 0,
    change: 0,
    character: 0,
};

// The code points of characters, and zeros after them.
fn code_points(characters: &[char]) -> [u32; MOST_EXPECTED]
    requires { length characters.now ≤ 48 }
    ensures { take (length characters.now) result ≡ characters.now }
{
    let mut points = [0; MOST_EXPECTED];
    let mut count = 0;
    for character in characters {
        points[count] = *character as u32;
        count += 1;
    }
    points
}

fn expected_of(text: &str, input: Input) -> Expected
    ensures { WritesExpected input text.now result }
{
    let expected = input.expected(text);
    let characters = expected.characters.as_slice();
    Expected {
        char_index: expected.char_index,
        byte_index: byte_index(text, expected.char_index),
        may_end: flag_if(expected.may_end, 1),
        white_space: flag_if(expected.white_space, 1),
        count: characters.len() as u32,
        characters: code_points(characters),
    }
}

/// Says what may come next in a text that is meant to be an input. The status is UNKNOWN if the code
/// names no input, and NOT_UTF8 if the bytes are not UTF-8.
///
/// Writes all of `*expected` at each status, and nothing else.
#[unsafe(no_mangle)]
pub extern "C" fn chinese_input_expected(text: &[u8], input: u32, expected: &mut Expected) -> u32
    ensures { IsInputExpected text.now input result expected.new }
{
    *expected = NOTHING_EXPECTED;
    let Some(input) = input_of(input) else {
        return UNKNOWN;
    };
    let Some(text) = utf8_text(text) else {
        return NOT_UTF8;
    };
    *expected = expected_of(text, input);
    DONE
}

fn change_of(text: &str, hint: Hint) -> Change
    ensures { result ≡ change_of text.now hint }
{
    let (change, character) = match hint.repair {
        Repair::Insert(character) => (1, character as u32),
        Repair::Replace(character) => (2, character as u32),
        Repair::Delete => (3, 0),
    };
    Change {
        char_index: hint.char_index,
        byte_index: byte_index(text, hint.char_index),
        change,
        character,
    }
}

/// Finds one change after which a text that is not an input goes on past its fault. The status is
/// UNKNOWN if the code names no input, and NOT_UTF8 if the bytes are not UTF-8.
///
/// Writes all of `*change` at each status, and nothing else.
#[unsafe(no_mangle)]
pub extern "C" fn chinese_input_repair(text: &[u8], input: u32, change: &mut Change) -> u32
    ensures { IsInputRepair text.now input result change.new }
{
    *change = NO_CHANGE;
    let Some(input) = input_of(input) else {
        return UNKNOWN;
    };
    let Some(text) = utf8_text(text) else {
        return NOT_UTF8;
    };
    if let Some(hint) = input.repair(text) {
        *change = change_of(text, hint);
    }
    DONE
}
