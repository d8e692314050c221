// How each character is read: as a digit, a unit or a sign.
//
// To add a character of numerals, also change docs/RULES.md, `MARKS` in mark.rt of cn_judge if it
// takes three bytes, and `is_upper` in belongs.rt of cn_find if it is an upper case form.
ghost use Rattle.std.specs.Prelude.{◌≡◌, option_map};
ghost use Rattle.cn_core.specs.Characters.{digit_of, rank_of, rank, sign_of};

use crate::{Sign, Unit};

/// The value of a digit character, 0 to 9; `None` for any other character, such as 十.
///
/// ```text
/// digit_of('兩') == Some(2)
/// digit_of('7') == Some(7)
/// digit_of('十') == None
/// ```
#[tactic(auto, unfolding(crate::specs::Characters::digit_of))]
pub fn digit_of(c: char) -> Option<u8>
    ensures { result ≡ digit_of c }
{
    match c {
        '零' | '0' | '〇' => Some(0),
        '一' | '壹' | '1' => Some(1),
        '二' | '貳' | '贰' | '貮' | '兩' | '两' | '2' => Some(2),
        '三' | '參' | '叁' | '叄' | '参' | '3' => Some(3),
        '四' | '肆' | '4' => Some(4),
        '五' | '伍' | '5' => Some(5),
        '六' | '陸' | '陆' | '6' => Some(6),
        '七' | '柒' | '7' => Some(7),
        '八' | '捌' | '8' => Some(8),
        '九' | '玖' | '9' => Some(9),
        _ => None,
    }
}

/// The unit of a unit character; `None` for any other character.
///
/// ```text
/// unit_of('拾') == Some(Unit::Shi)
/// unit_of('角') == None
/// ```
#[tactic(auto, unfolding(crate::specs::Characters::rank_of))]
pub fn unit_of(c: char) -> Option<Unit>
    ensures { option_map rank result ≡ rank_of c }
{
    match c {
        '個' | '个' => Some(Unit::Ge),
        '十' | '拾' => Some(Unit::Shi),
        '百' | '佰' => Some(Unit::Bai),
        '千' | '仟' => Some(Unit::Qian),
        '萬' | '万' => Some(Unit::Wan),
        '億' | '亿' => Some(Unit::Yi),
        '兆' => Some(Unit::Zhao),
        '京' => Some(Unit::Jing),
        '垓' => Some(Unit::Gai),
        '秭' => Some(Unit::Zi),
        '穰' => Some(Unit::Rang),
        '溝' | '沟' => Some(Unit::Gou),
        '澗' | '涧' => Some(Unit::Jian),
        '正' => Some(Unit::Zheng),
        '載' | '载' => Some(Unit::Zai),
        '極' | '极' => Some(Unit::Ji),
        _ => None,
    }
}

/// The sign of a sign character; `None` for any other character.
///
/// ```text
/// sign_of('负') == Some(Sign::Minus)
/// sign_of('-') == None
/// ```
///
/// 正 is also a unit. It is a sign only as the first character of a text that is read for a signed
/// type.
#[tactic(auto, unfolding(crate::specs::Characters::sign_of))]
pub fn sign_of(c: char) -> Option<Sign>
    ensures { result ≡ sign_of c }
{
    match c {
        '正' => Some(Sign::Plus),
        '負' | '负' => Some(Sign::Minus),
        _ => None,
    }
}
