/// The script in which a numeral is written: 億 and 負 are traditional, 亿 and 负 are simple.
#[derive(Debug, Copy, Clone, Eq, PartialEq, Hash)]
pub enum ChineseVariant {
    /// 萬億 and 負.
    Traditional,
    /// 万亿 and 负.
    Simple,
}
