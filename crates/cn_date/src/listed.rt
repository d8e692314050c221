// The characters of dates.
ghost use Rattle.std.specs.Prelude.{false};
ghost use Rattle.cn_date.specs.declared.listed.TheConstants.{CHARACTERS};

use crate::state::State;
use cn_grammar::Listed;

// The characters of dates.
static CHARACTERS: [char; 18] = [
    '零', '壹', '贰', '貳', '叁', '參', '叄', '肆', '伍', '陆', '陸', '柒', '捌', '玖', '拾', '年', '月', '日',
];

impl Listed for State {
    ghost characters = { CHARACTERS };

    ghost white_space = { false };

    fn characters() -> &'static [char] {
        &CHARACTERS
    }

    fn takes_white_space() -> bool {
        false
    }

    #[tactic(auto, using(crate::proofs::CharactersListed::dates_listed))]
    fn characters_are_listed() {}
}
