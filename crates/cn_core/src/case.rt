/// The case in which a numeral is written: 壹 and 拾 are upper case, 一 and 十 are lower case.
#[derive(Debug, Copy, Clone, Eq, PartialEq, Hash)]
pub enum ChineseCase {
    /// 壹貳參 and 拾佰仟, the characters of cheques.
    Upper,
    /// 一二三 and 十百千.
    Lower,
}
