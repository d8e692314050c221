// A unit above 極 also changes each 15 and 16 that counts the ranks (`git grep -nwE '15|16' crates`)
// and `LOW_LIMIT` of cn_spell.
/// A unit of a numeral, by rank from 0, 個, to 15, 極. The unit with the greater rank is greater.
#[derive(Debug, Copy, Clone, Eq, PartialEq, Hash, PartialOrd, Ord)]
pub enum Unit {
    /// 個, 个
    Ge,
    /// 十, 拾
    Shi,
    /// 百, 佰
    Bai,
    /// 千, 仟
    Qian,
    /// 萬, 万
    Wan,
    /// 億, 亿
    Yi,
    /// 兆
    Zhao,
    /// 京
    Jing,
    /// 垓
    Gai,
    /// 秭
    Zi,
    /// 穰
    Rang,
    /// 溝, 沟
    Gou,
    /// 澗, 涧
    Jian,
    /// 正
    Zheng,
    /// 載, 载
    Zai,
    /// 極, 极
    Ji,
}
