/// The sign of a number: 正 is plus, 負 and 负 are minus.
#[derive(Debug, Copy, Clone, Eq, PartialEq)]
pub enum Sign {
    /// 正
    Plus,
    /// 負, 负
    Minus,
}
