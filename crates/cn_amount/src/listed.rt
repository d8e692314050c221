// The characters of amounts.
ghost use Rattle.std.specs.Prelude.{true, false, take};
ghost use Rattle.cn_amount.specs.declared.listed.TheConstants.{CHARACTERS};

use crate::progress::Progress;
use crate::signed::SignedProgress;
use crate::typed::{TypedProgress, TypedSignedProgress};
use cn_grammar::Listed;

// The characters of amounts, of which the last 15 are the minus sign of each script, what a typed
// amount has besides, and what its sign has besides.
static CHARACTERS: [char; 47] = [
    '零', '壹', '贰', '貳', '叁', '參', '叄', '肆', '伍', '陆', '陸', '柒', '捌', '玖', '拾', '佰', '仟', '万', '萬',
    '亿', '億', '元', '圆', '圓', '角', '分', '整', '正', '人', '民', '币', '幣', '负', '負', '⊗', 'ⓧ', ':', '：',
    '（', '）', '(', ')', '大', '写', '寫', '数', '數',
];

impl Listed for Progress {
    ghost characters = { take 32 CHARACTERS };

    ghost white_space = { false };

    fn characters() -> &'static [char] {
        &CHARACTERS[..32]
    }

    fn takes_white_space() -> bool {
        false
    }

    #[tactic(auto, using(crate::proofs::CharactersListed::amounts_listed))]
    fn characters_are_listed() {}
}

impl Listed for SignedProgress {
    ghost characters = { take 34 CHARACTERS };

    ghost white_space = { false };

    fn characters() -> &'static [char] {
        &CHARACTERS[..34]
    }

    fn takes_white_space() -> bool {
        false
    }

    #[tactic(auto, using(crate::proofs::CharactersListed::signed_listed))]
    fn characters_are_listed() {}
}

impl Listed for TypedProgress {
    ghost characters = { CHARACTERS };

    ghost white_space = { true };

    fn characters() -> &'static [char] {
        &CHARACTERS
    }

    fn takes_white_space() -> bool {
        true
    }

    #[tactic(auto, using(crate::proofs::CharactersListed::typed_listed))]
    fn characters_are_listed() {}
}

impl Listed for TypedSignedProgress {
    ghost characters = { CHARACTERS };

    ghost white_space = { true };

    fn characters() -> &'static [char] {
        &CHARACTERS
    }

    fn takes_white_space() -> bool {
        true
    }

    #[tactic(auto, using(crate::proofs::CharactersListed::typed_signed_listed))]
    fn characters_are_listed() {}
}
