// Characters that people type in place of those of a form.
//
// No contracts: which characters people mistake for which is a matter of experience, and these tables
// are all that is known of it. They only propose repairs; a repair is returned if the reader, which is
// proved, reads the text that it makes.
use cn_core::is_figure;

/// The capital that a character is typed for: one of the same meaning, such as 壹 for 一 and for １,
/// or 元 for 块 and for 圓; `None` if there is none, or if it is that capital itself.
pub fn capital_for(character: char) -> Option<char> {
    match character {
        '〇' | '○' | 'O' | 'o' | '0' | '０' => Some('零'),
        '一' | '弌' | '1' | '１' => Some('壹'),
        '二' | '两' | '兩' | '俩' | '弍' | '弐' | '貳' | '2' | '２' => Some('贰'),
        '三' | '弎' | '参' | '參' | '叄' | '3' | '３' => Some('叁'),
        '四' | '4' | '４' => Some('肆'),
        '五' | '5' | '５' => Some('伍'),
        '六' | '陸' | '6' | '６' => Some('陆'),
        '七' | '7' | '７' => Some('柒'),
        '八' | '8' | '８' => Some('捌'),
        '九' | '9' | '９' => Some('玖'),
        '十' => Some('拾'),
        '百' => Some('佰'),
        '千' => Some('仟'),
        '萬' => Some('万'),
        '億' => Some('亿'),
        '块' | '塊' | '圆' | '圓' => Some('元'),
        '毛' => Some('角'),
        '正' => Some('整'),
        '號' | '号' => Some('日'),
        '-' | '−' | '－' | '負' | '付' => Some('负'),
        _ => None,
    }
}

/// The character of figures that a character is typed for, such as 0 for O; `None` if there is none.
pub fn figure_for(character: char) -> Option<char> {
    match character {
        'O' | 'o' => Some('0'),
        'l' | 'I' => Some('1'),
        '。' => Some('.'),
        '负' | '負' => Some('-'),
        _ => None,
    }
}

// The capital that stands for a character: the one that it is typed for, or itself.
fn capital(character: char) -> char {
    capital_for(character).unwrap_or(character)
}

/// Whether two characters mean the same, such as 元 and 圆.
pub fn mean_the_same(one: char, other: char) -> bool {
    capital(one) == capital(other)
}

/// Whether a character is a digit from 1 to 9, in any spelling, or a figure.
pub fn is_digit(character: char) -> bool {
    matches!(
        capital(character),
        '壹' | '贰' | '叁' | '肆' | '伍' | '陆' | '柒' | '捌' | '玖'
    ) || is_figure(character)
}

/// Whether an amount without a character has another value: it is a digit, a minus sign, a bracket,
/// in which an amount below zero may be, or a unit other than 元.
pub fn carries_a_value(character: char) -> bool {
    is_digit(character)
        || matches!(
            capital(character),
            '拾' | '佰' | '仟' | '万' | '亿' | '角' | '分' | '负' | '（' | '）' | '(' | ')'
        )
}
