use cn_core::ChineseVariant;

/// The choices that a caller has when an amount is written. Each reader reads an amount whichever
/// are made, except that only `chinese_to_signed_amount_as_typed` reads （负数）.
#[derive(Debug, Clone, Copy, Eq, PartialEq)]
pub struct AmountForm {
    /// Whether 人民币 (人民幣) is at the start.
    pub currency: bool,
    /// Whether 圆 (圓) is written in place of 元.
    pub round_yuan: bool,
    /// Whether 正 is written in place of 整.
    pub upright_closing: bool,
    /// Whether `signed_amount_to_chinese_as` writes （负数） (（負數）) in place of 负 (負).
    pub bracketed_sign: bool,
}

impl AmountForm {
    /// The form with none of these, as in 壹拾伍元整.
    pub const PLAIN: AmountForm = AmountForm {
        currency: false,
        round_yuan: false,
        upright_closing: false,
        bracketed_sign: false,
    };
}

/// What decides the character that a capital of an amount is written with.
#[derive(Clone, Copy)]
pub struct Hand {
    pub variant: ChineseVariant,
    pub form: AmountForm,
}
