// The signs between the groups of a code.
ghost use Rattle.std.specs.Prelude.{◌≡◌};
ghost use Rattle.cn_codes.specs.Codes.{is_bar, is_between_chinese, is_between_figures, is_blank, is_dash, is_point};

use cn_find::is_one_of;
use cn_replace::pieces::CharTest;

/// A point of a code.
#[derive(Copy, Clone)]
pub struct Point;

impl CharTest for Point {
    ghost test = { λ _. is_point };

    #[tactic(auto, unfolding(crate::specs::Codes::is_point))]
    fn passes(self, c: char) -> bool {
        is_one_of(&['.', '点', '點'], c)
    }
}

/// A bar of a code.
#[derive(Copy, Clone)]
pub struct Bar;

impl CharTest for Bar {
    ghost test = { λ _. is_bar };

    #[tactic(auto, unfolding(crate::specs::Codes::is_bar))]
    fn passes(self, c: char) -> bool {
        is_one_of(&['-', '杠'], c)
    }
}

/// A bar in ASCII.
#[derive(Copy, Clone)]
pub struct Dash;

impl CharTest for Dash {
    ghost test = { λ _. is_dash };

    #[tactic(auto, unfolding(crate::specs::Codes::is_dash))]
    fn passes(self, c: char) -> bool {
        is_one_of(&['-'], c)
    }
}

/// A blank.
#[derive(Copy, Clone)]
pub struct Blank;

impl CharTest for Blank {
    ghost test = { λ _. is_blank };

    #[tactic(auto, unfolding(crate::specs::Codes::is_blank))]
    fn passes(self, c: char) -> bool {
        is_one_of(&[' '], c)
    }
}

/// A sign between groups of figures.
#[derive(Copy, Clone)]
pub struct BetweenFigures;

impl CharTest for BetweenFigures {
    ghost test = { λ _. is_between_figures };

    #[tactic(auto, unfolding(crate::specs::Codes::is_between_figures))]
    fn passes(self, c: char) -> bool {
        is_one_of(&['-', '.', ' '], c)
    }
}

/// A sign between groups of Chinese digits.
#[derive(Copy, Clone)]
pub struct BetweenChinese;

impl CharTest for BetweenChinese {
    ghost test = { λ _. is_between_chinese };

    #[tactic(auto, unfolding(crate::specs::Codes::is_between_chinese))]
    fn passes(self, c: char) -> bool {
        is_one_of(&['-', '杠', ' ', '点', '點'], c)
    }
}
