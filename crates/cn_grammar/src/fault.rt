// The changes that are tried at a fault.
use crate::look_alikes::{capital_for, carries_a_value, figure_for, is_digit, mean_the_same};
use crate::{CharacterList, Hint, Repair};
use cn_core::{is_figure, is_share_sign};

/// A fault: the first character with which a text no longer begins a form, or its end.
#[derive(Drop)]
pub struct Fault {
    char_index: usize,
    // The three characters before it, the nearest first.
    before: Option<char>,
    second_before: Option<char>,
    third_before: Option<char>,
    // The character itself; `None` at the end of the text.
    character: Option<char>,
    // Whether a form may have it elsewhere.
    is_known: bool,
    // The only character with which a form can go on there, if there is only one.
    only: Option<char>,
}

// The character of a text with so many characters before it; `None` if there is none.
fn char_at(text: &str, char_index: usize) -> Option<char> {
    for (i, character) in text.chars().enumerate() {
        if i == char_index {
            return Some(character);
        }
    }
    None
}

// The character of a text that comes `back` characters before a place; `None` if there is none.
fn char_before(text: &str, char_index: usize, back: usize) -> Option<char> {
    char_at(text, char_index.checked_sub(back)?)
}

impl Fault {
    // No contract: it only collects what `candidates` asks for.
    /// The fault at a place, given the characters with which a form can go on there, and those that
    /// forms have.
    pub fn new(text: &str, char_index: usize, next: &CharacterList, known: &[char]) -> Fault {
        let character = char_at(text, char_index);
        Fault {
            char_index,
            before: char_before(text, char_index, 1),
            second_before: char_before(text, char_index, 2),
            third_before: char_before(text, char_index, 3),
            character,
            is_known: known.iter().any(|c| Some(*c) == character),
            only: match next.as_slice() {
                [only] => Some(*only),
                _ => None,
            },
        }
    }

    // A change at the fault.
    fn here(&self, repair: Repair) -> Option<Hint> {
        Some(Hint {
            char_index: self.char_index,
            repair,
        })
    }

    // A change `back` characters before the fault.
    fn earlier(&self, back: usize, repair: Repair) -> Option<Hint> {
        Some(Hint {
            char_index: self.char_index.checked_sub(back)?,
            repair,
        })
    }

    // 壹 before 拾.
    fn insert_one(&self) -> Option<Hint> {
        if self.character? == '拾' {
            self.here(Repair::Insert('壹'))
        } else {
            None
        }
    }

    // 整 at the end.
    fn close(&self) -> Option<Hint> {
        match self.character {
            Some(_) => None,
            None => self.here(Repair::Insert('整')),
        }
    }

    // 元 before 整.
    fn insert_yuan(&self) -> Option<Hint> {
        match self.character? {
            '整' | '正' => self.here(Repair::Insert('元')),
            _ => None,
        }
    }

    // The only character with which a form can go on, unless it is a digit.
    fn only_unit(&self) -> Option<char> {
        let only = self.only?;
        if is_digit(only) { None } else { Some(only) }
    }

    // The only character with which a form can go on, inserted.
    fn insert_only(&self) -> Option<Hint> {
        self.here(Repair::Insert(self.only_unit()?))
    }

    // Without a 零 or 整 that is `back` characters before the fault. A 零 stays if the fault is a
    // digit, since the 零 may then be a digit of a year.
    fn delete_earlier(&self, back: usize, character: Option<char>) -> Option<Hint> {
        let is_spare = match character? {
            '零' => !is_digit(self.character?),
            '整' | '正' => true,
            _ => false,
        };
        if is_spare {
            self.earlier(back, Repair::Delete)
        } else {
            None
        }
    }

    // Without the 零 before 壹拾, which only 零壹拾 by itself has.
    fn delete_before_ten(&self) -> Option<Hint> {
        match (self.third_before, self.second_before, self.before) {
            (Some('零'), Some('壹'), Some('拾')) if is_digit(self.character?) => {
                self.earlier(3, Repair::Delete)
            }
            _ => None,
        }
    }

    // Without the character, if no form has it and it carries no value, or if it is one too many: a
    // 零, a 整, or a unit after the same unit.
    fn delete(&self) -> Option<Hint> {
        let character = self.character?;
        let is_spare = match character {
            '零' | '整' | '正' => true,
            _ if is_digit(character) => false,
            _ if self.is_repeated(character) => true,
            _ => !self.is_known && !carries_a_value(character) && !self.is_multiple(character),
        };
        if is_spare {
            self.here(Repair::Delete)
        } else {
            None
        }
    }

    // Whether a character after figures may stand for a multiple or a share of them, such as k or %.
    fn is_multiple(&self, character: char) -> bool {
        let follows = match self.before {
            Some(before) => is_figure(before),
            None => false,
        };
        follows && (character.is_ascii_alphabetic() || is_share_sign(character))
    }

    // Whether the character before means the same.
    fn is_repeated(&self, character: char) -> bool {
        match self.before {
            Some(before) => mean_the_same(before, character),
            None => false,
        }
    }

    // The only character with which a form can go on, in place of one that carries no value.
    fn replace_by_only(&self) -> Option<Hint> {
        if carries_a_value(self.character?) {
            return None;
        }
        self.here(Repair::Replace(self.only_unit()?))
    }

    // 壹 in place of 一, 元 in place of 块.
    fn replace_by_capital(&self) -> Option<Hint> {
        self.here(Repair::Replace(capital_for(self.character?)?))
    }

    // 0 in place of O, a point in place of 。
    fn replace_by_figure(&self) -> Option<Hint> {
        self.here(Repair::Replace(figure_for(self.character?)?))
    }

    // No contract: which changes are worth a try is a matter of experience. `first_working` tries each
    // and returns only one that works.
    /// The changes that are tried, the first one first. `find_repair` describes them.
    pub fn candidates(&self) -> [Option<Hint>; 14] {
        [
            self.replace_by_capital(),
            self.replace_by_figure(),
            // 壹佰贰元 → 壹佰零贰元
            self.earlier(1, Repair::Insert('零')),
            // 零肆月叁拾日 → 零肆月零叁拾日
            self.here(Repair::Insert('零')),
            // 零壹拾月贰拾日 → 零壹拾月零贰拾日
            self.earlier(2, Repair::Insert('零')),
            // 拾伍元 → 壹拾伍元
            self.insert_one(),
            // 叁佰贰拾元 → 叁佰贰拾元整
            self.close(),
            // 壹仟贰佰整 → 壹仟贰佰元整
            self.insert_yuan(),
            // 贰零贰陆零壹月 → 贰零贰陆年零壹月
            self.insert_only(),
            // 捌佰零伍拾元 → 捌佰伍拾元, 壹佰零元 → 壹佰元
            self.delete_earlier(2, self.second_before),
            self.delete_earlier(1, self.before),
            // 零壹拾壹月零叁日 → 壹拾壹月零叁日
            self.delete_before_ten(),
            // 柒仟元圆整 → 柒仟元整, ¥760.00元 → ¥760.00
            self.delete(),
            // 贰零贰陆月 → 贰零贰陆年
            self.replace_by_only(),
        ]
    }
}
