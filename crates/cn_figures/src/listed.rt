// The characters of figures.
ghost use Rattle.std.specs.Prelude.{false, take};
ghost use Rattle.cn_figures.specs.declared.listed.TheConstants.{CHARACTERS};

use crate::progress::Progress;
use crate::signed::SignedProgress;
use cn_grammar::Listed;

// The characters of figures, of which the last three are the minus signs before them.
static CHARACTERS: [char; 29] = [
    '0', '1', '2', '3', '4', '5', '6', '7', '8', '9', '０', '１', '２', '３', '４', '５', '６', '７', '８',
    '９', ',', '，', '.', '．', '¥', '￥', '-', '−', '－',
];

impl Listed for Progress {
    ghost characters = { take 26 CHARACTERS };

    ghost white_space = { false };

    fn characters() -> &'static [char] {
        &CHARACTERS[..26]
    }

    fn takes_white_space() -> bool {
        false
    }

    #[tactic(auto, using(crate::proofs::CharactersListed::figures_listed))]
    fn characters_are_listed() {}
}

impl Listed for SignedProgress {
    ghost characters = { CHARACTERS };

    ghost white_space = { false };

    fn characters() -> &'static [char] {
        &CHARACTERS
    }

    fn takes_white_space() -> bool {
        false
    }

    #[tactic(auto, using(crate::proofs::CharactersListed::signed_listed))]
    fn characters_are_listed() {}
}
